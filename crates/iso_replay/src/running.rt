//! An exchange over streams, from its beginning to its end.

ghost use Rattle.std.specs.Prelude.{◌≡◌, IfOk, length};
ghost use Rattle.std.specs.Io.KnownBytes.{Consumes};
ghost use Rattle.iso_replay.specs.Exchanged.{IsSent, Ends};

use crate::exchange::{Ending, Exchange};
use crate::fault::ReplayFault;
use crate::heard::Heard;
use crate::moving::{hear, send};
use crate::waiting::Waiting;
use iso_wire::Header;
use iso_wire::laws::splits_once;
use std::alloc::{AllocError, Global};
use std::io::{Read, Write};

/// How many bytes are read at once.
const BLOCK: usize = 65_536;

/// What is exchanged with a host.
#[derive(Clone, Copy)]
pub struct Plan<'a> {
    /// The header of each frame.
    pub header: Header,
    /// The frames that are sent, one after another.
    pub frames: &'a [u8],
    /// How many frames are to come.
    pub wanted: usize,
    /// For how many milliseconds nothing may be taken and nothing come.
    pub patience: u64,
}

/// What was exchanged with a host.
#[derive(Drop)]
pub struct Exchanged {
    /// How it ended.
    pub ending: Ending,
    /// The bytes that came.
    pub came: Vec<u8>,
    /// How many bytes the host didn't take.
    pub unsent: usize,
}

/// What is read into, of zeros at first.
fn new_block(alloc: Global) -> Result<Vec<u8>, AllocError>
    ensures size { IfOk result (λ block. length block.items ≡ 65536) }
{
    vec![in alloc; 0; BLOCK]
}

/// What an exchange did that ended.
fn outcome_of(exchange: Exchange<'_>, ending: Ending) -> Exchanged
    ensures ending { result.ending ≡ ending }
    ensures came { result.came.items ≡ exchange.entry.heard.bytes }
    ensures unsent { result.unsent ≡ length exchange.entry.unsent }
{
    let unsent = exchange.unsent().len();
    Exchanged {
        ending,
        came: exchange.into_came(),
        unsent,
    }
}

/// Sends frames over streams that never wait, as they are taken, and hears the frames that come, until all are sent and as
/// many came as are wanted, or nothing more is to come.
pub fn exchange_over<I: Read, O: Write, W: Waiting>(
    alloc: Global,
    plan: Plan<'_>,
    input: &mut I,
    output: &mut O,
    waiting: &mut W,
) -> Result<Exchanged, ReplayFault>
    // What came is what the input gave.
    ensures came { IfOk result
        (λ done. Consumes (I.remaining input.old) (I.remaining input.new) done.came.items) }
    // A front of the frames was sent, and nothing else.
    ensures sent { IfOk result (λ done.
        IsSent (O.contents output.old) (O.contents output.new) plan.entry.frames.now done.unsent) }
    // At `Whole` all is sent, and as many frames came as are wanted; at `BadHeader` a header that
    // came isn't of digits; of other ends it says nothing.
    ensures ends { IfOk result (Ends plan.entry) }
{
    splits_once();
    let mut block = new_block(alloc)?;
    let heard = Heard::new(alloc, plan.header);
    let start = waiting.now()?;
    let mut exchange = Exchange::new(heard, plan.frames, plan.wanted, plan.patience, start);
    for _ in 0..u64::MAX {
        let now = waiting.now()?;
        if let Some(ending) = exchange.ending(now) {
            return Ok(outcome_of(exchange, ending));
        }
        let has_sent = send(&mut exchange, output, now);
        let has_heard = hear(&mut exchange, input, &mut block, now)?;
        if !has_sent && !has_heard {
            waiting.wait(exchange.pause(now))?;
        }
    }
    // no exchange has so many turns
    Err(ReplayFault::Wait)
}
