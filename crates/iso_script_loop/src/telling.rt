//! Lines of JSON on what a host with rules does.

use iso_edge::{Telling, Told};
use iso_script::{Behaviour, Deed};
use std::alloc::AllocError;
use std::io::Write;

/// What is told.
#[derive(Clone, Copy, PartialEq, Eq)]
pub(crate) enum Event {
    /// A peer was let in.
    Connected(u64),
    /// A peer wasn't let in: there are as many as may be.
    Refused,
    /// A rule decided at a message of a peer.
    Rule { peer: u64, rule: usize, deed: Deed },
    /// A peer was closed.
    Closed(u64),
}

/// The event that a rule decided, where one did.
fn rule_event(peer: u64, behaviour: &Behaviour) -> Option<Event> {
    match behaviour {
        Behaviour::Honest => None,
        Behaviour::Ruled { rule, deed } => Some(Event::Rule {
            peer,
            rule: *rule,
            deed: *deed,
        }),
    }
}

/// The word for what is done.
fn deed_word(deed: &Deed) -> &'static str {
    match deed {
        Deed::Answer(_) => "answer",
        Deed::Delay(_) => "delay",
        Deed::Silent => "silent",
        Deed::Cut => "cut",
        Deed::Garbage => "garbage",
    }
}

impl Told for Event {
    fn add_to(&self, line: &mut String) -> Result<(), AllocError> {
        match self {
            Event::Connected(peer) => {
                writeln!(line, "{{\"event\":\"connected\",\"peer\":{peer}}}")
            }
            Event::Refused => writeln!(line, "{{\"event\":\"refused\"}}"),
            Event::Rule { peer, rule, deed } => {
                let word = deed_word(deed);
                writeln!(
                    line,
                    "{{\"event\":\"rule\",\"peer\":{peer},\"rule\":{rule},\"do\":\"{word}\"}}"
                )
            }
            Event::Closed(peer) => writeln!(line, "{{\"event\":\"closed\",\"peer\":{peer}}}"),
        }
    }
}

/// Tells what a rule decided at a message of a peer, where one did.
pub(crate) fn tell_rule<W: Write>(told: &mut Telling<W>, peer: u64, behaviour: &Behaviour) {
    if let Some(event) = rule_event(peer, behaviour) {
        told.tell(&event);
    }
}
