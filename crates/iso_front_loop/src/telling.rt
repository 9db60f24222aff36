//! Lines of JSON on what a front does.

use crate::acquirer::Counts;
use iso_edge::Told;
use std::alloc::AllocError;

/// What is told.
#[derive(Clone, Copy, PartialEq, Eq)]
pub(crate) enum Event {
    /// An acquirer was let in.
    Connected(u64),
    /// An acquirer wasn't let in: there are as many as may be.
    Refused,
    /// Connections of an acquirer to so many shards ended, or weren't taken in time.
    Lost { acquirer: u64, shards: u64 },
    /// An acquirer was closed.
    Closed { acquirer: u64, counts: Counts },
}

/// Adds the line of an acquirer that was closed.
fn add_closed(line: &mut String, acquirer: u64, counts: &Counts) -> Result<(), AllocError> {
    let (frames, answers) = (counts.frames, counts.answers);
    let (dropped, held) = (counts.dropped, counts.held);
    writeln!(
        line,
        "{{\"event\":\"closed\",\"acquirer\":{acquirer},\"frames\":{frames},\"answers\":{answers},\"dropped\":{dropped},\"held\":{held}}}"
    )
}

impl Told for Event {
    fn add_to(&self, line: &mut String) -> Result<(), AllocError> {
        match self {
            Event::Connected(acquirer) => {
                writeln!(line, "{{\"event\":\"connected\",\"acquirer\":{acquirer}}}")
            }
            Event::Refused => writeln!(line, "{{\"event\":\"refused\"}}"),
            Event::Lost { acquirer, shards } => writeln!(
                line,
                "{{\"event\":\"lost\",\"acquirer\":{acquirer},\"shards\":{shards}}}"
            ),
            Event::Closed { acquirer, counts } => add_closed(line, *acquirer, counts),
        }
    }
}
