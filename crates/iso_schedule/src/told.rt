//! What both ends hold, as text.

use iso_acquirer::{Event, State, StepFault, World};
use iso_events::refusal_words;
use iso_order::{MOST_STAN, Pan};
use std::io;

/// Prints why an event was refused.
pub fn tell_refused(rt: &HostRuntime, text: &str, fault: &StepFault) -> io::Result<()> {
    let why = refusal_words(*fault);
    println!(rt; "{text:<12}  refused: {why}")
}

/// Prints the place of what the event sent or gave, and the code of an answer.
fn tell_moved(rt: &HostRuntime, world: &World, event: &Event) -> io::Result<()> {
    match *event {
        Event::Begin { .. } | Event::Timeout(_) => {
            print!(rt; "  sent {:<11}", world.sent().len().saturating_sub(1))
        }
        Event::Deliver(_) => match world.given().last() {
            Some(given) => print!(rt;
                "  given {}: code {:02}",
                world.given().len().saturating_sub(1),
                given.answer.code
            ),
            None => Ok(()),
        },
        Event::Answer(_) | Event::Other(_) => print!(rt; "  {:<16}", ""),
    }
}

/// Prints how the acquirer holds a purchase.
fn tell_state(rt: &HostRuntime, trace: u32, state: State) -> io::Result<()> {
    match state {
        State::Waiting(1) => print!(rt; "  {trace} waiting"),
        State::Waiting(_) => print!(rt; "  {trace} waiting, sent again"),
        State::Reversing => print!(rt; "  {trace} reversing"),
        State::Approved => print!(rt; "  {trace} approved"),
        State::Declined(code) => print!(rt; "  {trace} declined {code:02}"),
        State::Reversed => print!(rt; "  {trace} reversed"),
    }
}

/// Prints an event, what it sent or gave, the issuer's ledger, and how the acquirer holds each purchase.
pub fn tell(
    rt: &HostRuntime,
    world: &World,
    pan: Pan,
    text: &str,
    event: &Event,
) -> io::Result<()> {
    print!(rt; "{text:<12}")?;
    tell_moved(rt, world, event)?;
    if let Some(ledger) = world.issuer().ledger(pan) {
        print!(rt; "  ledger {ledger:>5} ")?;
    }
    let last = world.sent().len().min(MOST_STAN as usize) as u32;
    for trace in 1..last + 1 {
        if let Some(state) = world.acquirer().state(trace) {
            tell_state(rt, trace, state)?;
        }
    }
    println!(rt; "")
}
