//! What came of bodies, as JSON.

use crate::delivering::Answered;
use hex::encode;
use iso_desk::push_text;
use iso_host::{BodyFault, Handled};
use iso_wire::{Header, UnpackFault};
use std::alloc::{AllocError, Global};

/// The header of the frames that answers come in.
pub(crate) const HEADER: Header = Header::Binary2;

/// How many bytes it has.
const HEADER_BYTES: usize = 2;

/// Why a body isn't one whole message, and where.
fn fault_text(alloc: Global, fault: BodyFault) -> Result<String, AllocError> {
    match fault {
        BodyFault::Stops(UnpackFault { cause, element, at }) => {
            let name = cause.name();
            format!(in alloc; "{name} element {element} at byte {at}")
        }
        BodyFault::Behind(end) => {
            format!(in alloc; "TrailingBytes: the message ends at byte {end}")
        }
    }
}

/// Appends the bytes of an answer, if there are any, as a member and the end of the object.
fn push_hex(alloc: Global, answered: &Answered, out: &mut Vec<u8>) -> Result<(), AllocError> {
    let bytes = answered.frame.get(HEADER_BYTES..).unwrap_or(&[]);
    let digits = encode(alloc, bytes)?;
    out.extend_from_slice(b",\"hex\":\"")?;
    out.extend_from_slice(digits.as_bytes())?;
    out.extend_from_slice(b"\"}")
}

/// Appends what came of a body.
fn push_answer(alloc: Global, answered: &Answered, out: &mut Vec<u8>) -> Result<(), AllocError> {
    match answered.handled {
        Handled::Ordered { code, seq, .. } => {
            let front = format!(in alloc;
                "{{\"kind\":\"ordered\",\"code\":\"{code:02}\",\"place\":{seq}"
            )?;
            out.extend_from_slice(front.as_bytes())?;
            push_hex(alloc, answered, out)
        }
        Handled::Replied { code } => {
            let front = format!(in alloc; "{{\"kind\":\"replied\",\"code\":\"{code:02}\"")?;
            out.extend_from_slice(front.as_bytes())?;
            push_hex(alloc, answered, out)
        }
        Handled::Silent => out.extend_from_slice(b"{\"kind\":\"silent\"}"),
        Handled::Unreadable(fault) => {
            let says = fault_text(alloc, fault)?;
            out.extend_from_slice(b"{\"kind\":\"unreadable\",\"says\":")?;
            push_text(alloc, says.as_bytes(), out)?;
            out.extend_from_slice(b"}")
        }
    }
}

/// Appends a list of what came of each body.
pub(crate) fn push_answers(
    alloc: Global,
    answers: &[Answered],
    out: &mut Vec<u8>,
) -> Result<(), AllocError> {
    out.push(b'[')?;
    for (place, answered) in answers.iter().enumerate() {
        if place > 0 {
            out.push(b',')?;
        }
        push_answer(alloc, answered, out)?;
    }
    out.extend_from_slice(b"]")
}
