//! What the frames tell that came on a connection.
ghost use Rattle.std.specs.Prelude.{◌≡◌, ◌++◌, List, IfOk, IfErr, OnErr};
ghost use Rattle.iso_frames.specs.declared.fault.FramesFault.TheVariants as fault;
ghost use Rattle.iso_frames.specs.declared.reading.Read.{Read as Reading};
ghost use Rattle.iso_frames.specs.Reading.{read_of, TakesFront, TakesFrames, GoesOn};

use crate::balance::{balance_told, tells_balance};
use crate::fault::FramesFault;
use bytes::BytesMut;
use iso_exchange::answer_in;
use iso_order::{Told, answer_of};
use iso_table::Table;
use iso_wire::laws::frames;
use iso_wire::{Framed, Header, UnpackCause, unframe, unpack};
use std::alloc::Global;

/// What the body of a frame tells.
#[derive(Clone, Copy, Debug, PartialEq, Eq)]
pub enum Read {
    /// An answer, and the balance that it tells to an inquiry.
    Answer(Told, Option<i64>),
    /// It is no message of the table, or tells no answer.
    Unreadable,
}

/// What stands at the front of what came.
#[derive(Clone, Copy)]
pub(crate) enum Front {
    /// The bytes end inside a frame.
    More,
    /// A header that isn't of digits.
    Bad,
    /// A frame, which tells that.
    Frame(Read),
}

/// Reads the body of a frame, with a message in memory of its own.
fn read_message(alloc: Global, table: &Table, body: &[u8]) -> Result<Read, FramesFault>
    ensures read { IfOk result (λ r. r ≡ read_of table.now body.now) }
    ensures fault { IfErr result (λ e. e ≡ fault.Memory) }
{
    let (message, used) = match unpack(alloc, table, body) {
        Ok(read) => read,
        Err(fault) if fault.cause == UnpackCause::Memory => return Err(FramesFault::Memory),
        Err(_) => return Ok(Read::Unreadable),
    };
    match answer_of(&message) {
        Some(told) if used == body.len() => Ok(Read::Answer(told, balance_told(&message, &told))),
        Some(_) | None => Ok(Read::Unreadable),
    }
}

/// Reads the body of a frame. Its message is left where it lies, unless it may tell a balance. Texts are read in the room
/// that is lent.
pub fn read_body(
    alloc: Global,
    table: &Table,
    text: &mut Vec<u8>,
    body: &[u8],
) -> Result<Read, FramesFault>
    // Memory aside, it tells the answer that the whole body is by the table, with its balance where
    // it is to a message of class 1; or that it is no answer.
    ensures read { IfOk result (λ r. r ≡ read_of table.now body.now) }
    // Only want of memory is told as a fault.
    ensures fault { IfErr result (λ e. e ≡ fault.Memory) }
{
    match answer_in(table, body, text)? {
        None => Ok(Read::Unreadable),
        Some(told) if tells_balance(&told) => read_message(alloc, table, body),
        Some(told) => Ok(Read::Answer(told, None)),
    }
}

/// Takes the frame at the front of what came, and reads it.
fn take_front(
    alloc: Global,
    table: &Table,
    header: Header,
    text: &mut Vec<u8>,
    came: &mut BytesMut<Global>,
) -> Result<Front, FramesFault>
    ensures front { IfOk result (TakesFront table.now header came.old.items came.new.items) }
    ensures fault { IfErr result (λ e. e ≡ fault.Memory) }
    ensures unchanged { OnErr result (came.new.items ≡ came.old.items) }
{
    match unframe(header, came.as_slice()) {
        Err(_) => Ok(Front::Bad),
        Ok(Framed::More) => Ok(Front::More),
        Ok(Framed::Got { body, used }) => {
            let read = read_body(alloc, table, text, body)?;
            came.advance(used);
            Ok(Front::Frame(read))
        }
    }
}

/// Takes the frames at the front of what came, and adds what each tells: whether a header stands behind them that can't be
/// read. Texts are read in the room that is lent. After an `Err` some of them are taken.
pub fn take_frames(
    alloc: Global,
    table: &Table,
    header: Header,
    text: &mut Vec<u8>,
    came: &mut BytesMut<Global>,
    read: &mut Vec<Read>,
) -> Result<bool, FramesFault>
    // Memory aside, all whole frames at the front are taken in their order, and each is read once;
    // true tells that a bad header follows.
    ensures frames { IfOk result (λ bad. (more : List Reading)
        × TakesFrames table.now header came.old.items came.new.items more
        × (read.new.items ≡ read.old.items ++ more) × GoesOn header came.new.items bad) }
    // Only want of memory is told as a fault.
    ensures fault { IfErr result (λ e. e ≡ fault.Memory) }
{
    // the laws of frames behind others, for the prover
    frames();
    'frames: loop {
        match take_front(alloc, table, header, text, came)? {
            Front::More => return Ok(false),
            Front::Bad => return Ok(true),
            Front::Frame(told) => read.push(told)?,
        }
    }
}
