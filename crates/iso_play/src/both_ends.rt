//! Both ends that are played from the beginning.

ghost use Rattle.iso_acquirer.specs.World.{IsFairEvent};

use crate::refused::refused;
use crate::states::{push_given, push_ledger, push_sent, push_states};
use crate::world::{account, world_in};
use iso_acquirer::{Event, World};
use iso_desk::{DeskFault, Question, push_text};
use iso_events::{ScheduleLine, refusal_words, schedule_line};
use iso_order::Pan;
use serde_json::Value;
use std::alloc::{AllocError, Global};

/// Appends the members of what an event sent or gave.
fn push_moved(
    alloc: Global,
    world: &World,
    event: &Event,
    out: &mut Vec<u8>,
) -> Result<(), AllocError> {
    let text = match *event {
        Event::Begin { .. } | Event::Timeout(_) => {
            let place = world.sent().len().saturating_sub(1);
            format!(in alloc; ",\"sent\":{place}")?
        }
        Event::Deliver(_) => {
            let place = world.given().len().saturating_sub(1);
            let code = match world.given().last() {
                Some(given) => given.answer.code,
                None => 0,
            };
            format!(in alloc; ",\"given\":{place},\"code\":\"{code:02}\"")?
        }
        Event::Answer(_) | Event::Other(_) => String::new(alloc),
    };
    out.extend_from_slice(text.as_bytes())
}

/// Appends the members of an event that was made.
fn push_made(
    alloc: Global,
    world: &World,
    pan: Pan,
    event: &Event,
    out: &mut Vec<u8>,
) -> Result<(), AllocError> {
    push_ledger(alloc, world, pan, out)?;
    push_moved(alloc, world, event, out)?;
    out.extend_from_slice(b",\"states\":")?;
    push_states(alloc, world, out)
}

/// Appends the member of why nothing happened.
fn push_refused(alloc: Global, why: &str, out: &mut Vec<u8>) -> Result<(), AllocError> {
    out.extend_from_slice(b",\"refused\":")?;
    push_text(alloc, why.as_bytes(), out)
}

/// Plays an event, and appends the members of what came of it.
fn push_event(
    alloc: Global,
    world: &mut World,
    pan: Pan,
    event: &Event,
    out: &mut Vec<u8>,
) -> Result<(), AllocError>
    requires { IsFairEvent event.now }
{
    match world.step(*event) {
        Ok(()) => push_made(alloc, world, pan, event, out),
        Err(fault) => push_refused(alloc, refusal_words(fault), out),
    }
}

/// Plays what a line says, and appends an object of what came of it.
fn push_step(
    alloc: Global,
    world: &mut World,
    pan: Pan,
    text: &str,
    out: &mut Vec<u8>,
) -> Result<(), AllocError> {
    out.extend_from_slice(b"{\"event\":")?;
    push_text(alloc, text.as_bytes(), out)?;
    let line = schedule_line(pan, text);
    match &line {
        ScheduleLine::Event(event) => push_event(alloc, world, pan, event, out)?,
        ScheduleLine::Said => {}
        ScheduleLine::Unknown => push_refused(alloc, "no event", out)?,
    }
    out.extend_from_slice(b"}")
}

/// Plays the events of a list, and appends a list of what came of each.
fn push_steps(
    alloc: Global,
    world: &mut World,
    pan: Pan,
    events: &[Value],
    out: &mut Vec<u8>,
) -> Result<(), DeskFault> {
    out.push(b'[')?;
    for (place, event) in events.iter().enumerate() {
        let Some(text) = event.as_str() else {
            return Err(DeskFault::Member {
                member: "events",
                wanted: "a list of texts",
            });
        };
        if place > 0 {
            out.push(b',')?;
        }
        push_step(alloc, world, pan, text, out)?;
    }
    out.push(b']')?;
    Ok(())
}

/// The answer of both ends.
fn played(
    alloc: Global,
    world: &mut World,
    pan: Pan,
    events: &[Value],
) -> Result<Vec<u8>, DeskFault> {
    let mut out = Vec::new(alloc);
    out.extend_from_slice(b"{\"steps\":")?;
    push_steps(alloc, world, pan, events, &mut out)?;
    out.extend_from_slice(b",\"sent\":")?;
    push_sent(alloc, world, &mut out)?;
    out.extend_from_slice(b",\"given\":")?;
    push_given(alloc, world, &mut out)?;
    out.push(b'}')?;
    Ok(out)
}

/// What an acquirer, and an issuer of one account with the amount `opening`, hold after each of `events`, lines as `iso_events` reads them.
/// The answer has `steps`, what came of each event, and `sent` and `given`, what passed between both.
pub fn ends(alloc: Global, question: &Question) -> Result<Vec<u8>, DeskFault> {
    let events = question.list("events")?;
    let Some(pan) = account() else {
        return Ok(refused(alloc, "there is no such account")?);
    };
    let mut world = world_in(alloc, question)?;
    played(alloc, &mut world, pan, events)
}
