//! The next frame of a reader, taken through a window, and its body answered.
ghost use Rattle.std.specs.Prelude.{◌≡◌, [], drop, IfOk, IfErr, OnOk, OnErr};
ghost use Rattle.std.specs.Io.KnownBytes.{Keeps, prepend_known};
ghost use Rattle.iso_table.specs.HostReady.{IsHostReady};
ghost use Rattle.iso_host.specs.Beginning.{held_of, IsBegun};
ghost use Rattle.iso_host.specs.Counts.{stream};
ghost use Rattle.iso_host.specs.Hosting.{replying};
ghost use Rattle.iso_host.specs.Links.{agreed};
ghost use Rattle.iso_host.specs.NextFrame.{AnswersFrame, Fills, SpendsOnNext, taking};
ghost use Rattle.iso_host.specs.Peers.{Refuses, Takes, one_peer, unfinished};
ghost use Rattle.iso_host.specs.Reading.{SpendsOnReads, reading};
ghost use Rattle.iso_host.specs.Stepping.{taken_as};
ghost use Rattle.iso_host.specs.Turns.{TakesTurns};

use crate::answering::{Rooms, no_rooms};
use crate::fault::ServeFault;
use crate::gathering::Gathering;
use crate::handled::Handled;
use crate::peer::PeerFault;
use crate::streams::Inlet;
use crate::taking::{Begun, NOT_BEGUN, Step, head_len, take_bytes};
use crate::window::Window;
use iso_issuer::Issuer;
use iso_table::Table;
use iso_wire::Header;
use iso_wire::laws::splits_once;
use std::alloc::Global;

/// What is held of a stream: the bytes that were read and not yet taken, the frame that has begun, the memory of messages,
/// the answers that aren't written yet, and what came of the last body.
#[derive(Drop)]
pub struct Line<'t> {
    pub window: Window,
    pub begun: Begun,
    pub gathering: Gathering<'t>,
    pub rooms: Rooms,
    pub out: Vec<u8>,
    pub told: Handled,
}

/// A line before its first byte, whose bodies are read under that table. Takes no memory.
#[inline(always)]
pub fn new_line<'t>(alloc: Global, table: &'t Table) -> Line<'t>
    // No byte was read.
    ensures window { result.window ≡ [] }
    // No frame has begun.
    ensures count { result.begun.count ≡ 0 }
    // No body is awaited.
    ensures left { result.begun.left ≡ 0 }
    // The bodies are to be read under that table, and no byte of one came yet.
    ensures gathering { result.gathering ≡ record { table = table.now; part = [] } }
{
    Line {
        window: Window::new(),
        begun: NOT_BEGUN,
        gathering: Gathering::new(alloc, table),
        rooms: no_rooms(alloc),
        out: Vec::new(alloc),
        told: Handled::Silent,
    }
}

/// Sees that the window has a byte, if there is one.
#[inline(always)]
fn fill<R: Inlet>(window: &mut Window, reader: &mut R, left: &mut u64) -> Result<(), ServeFault>
    ensures kept { Keeps (prepend_known window.old (R.remaining reader.old))
        (prepend_known window.new (R.remaining reader.new)) }
    ensures bytes { Fills window.new (R.remaining reader.new) result }
    ensures turns { TakesTurns (R.counts reader.old) (R.counts reader.new) left.old left.new }
    ensures spent { SpendsOnReads
        (reading window.old (stream (R.remaining reader.old) (R.counts reader.old)) left.old)
        (reading window.new (stream (R.remaining reader.new) (R.counts reader.new)) left.new)
        0 result }
{
    if window.bytes().is_empty() {
        window.refill(reader, left)
    } else {
        Ok(())
    }
}

/// Takes bytes of the window, from the front on, up to the end of a frame, and answers its body.
#[inline(always)]
fn take_window(
    table: &Table,
    header: Header,
    line: &mut Line<'_>,
    issuer: &mut Issuer,
) -> Result<Step, PeerFault>
    requires ready { IsHostReady table.now }
    requires same { line.old.gathering.table ≡ table.now }
    requires begun { IsBegun header line.old.begun line.old.gathering.part }
    ensures took { IfOk result (λ step. Takes (agreed table.now header)
        (one_peer (held_of line.old.begun line.old.gathering.part) issuer.old line.old.out.items)
        (one_peer (held_of line.new.begun line.new.gathering.part) issuer.new line.new.out.items)
        line.old.window (taken_as step line.new.told)) }
    ensures passed { IfOk result (λ step. line.new.window ≡ drop step.used line.old.window) }
    ensures refused { IfErr result (Refuses
        (unfinished (agreed table.now header) (held_of line.old.begun line.old.gathering.part))
        issuer.old issuer.new line.old.window) }
    ensures begun { IsBegun header line.new.begun line.new.gathering.part }
    ensures same { line.new.gathering.table ≡ table.now }
    ensures window { OnErr result (line.new.window ≡ line.old.window) }
    ensures held { OnErr result (line.new.begun ≡ line.old.begun) }
    ensures gathered { OnErr result (line.new.gathering.part ≡ line.old.gathering.part) }
{
    let took = take_bytes(
        table,
        header,
        &mut line.begun,
        &mut line.gathering,
        issuer,
        &mut line.rooms,
        line.window.bytes(),
        &mut line.out,
        &mut line.told,
    );
    match took {
        Err(fault) => Err(fault),
        Ok(step) => {
            line.window.pass(step.used);
            Ok(step)
        }
    }
}

/// Takes the next frame of the reader, answers its body, and tells what came of it; not, where the input ends before it.
#[inline(always)]
pub fn next_frame<R: Inlet>(
    table: &Table,
    header: Header,
    line: &mut Line<'_>,
    issuer: &mut Issuer,
    reader: &mut R,
    left: &mut u64,
) -> Result<bool, ServeFault>
    // A host can serve under the table.
    requires ready { IsHostReady table.now }
    // The line reads its bodies under that table.
    requires same { line.old.gathering.table ≡ table.now }
    // What the line holds is the beginning of one frame.
    requires begun { IsBegun header line.old.begun line.old.gathering.part }
    // The line holds no byte yet.
    requires none { held_of line.old.begun line.old.gathering.part ≡ [] }
    // One frame is taken and its body answered, or the input ends before it. At a fault some of it
    // may be taken, and only without memory may its order be entered.
    ensures bytes { AnswersFrame (agreed table.now header)
        (taking
        (reading line.old.window (stream (R.remaining reader.old) (R.counts reader.old)) left.old)
        (replying issuer.old line.old.out.items))
        (taking
        (reading line.new.window (stream (R.remaining reader.new) (R.counts reader.new)) left.new)
        (replying issuer.new line.new.out.items)) line.new.told result }
    // Each read takes one of the turns that are left.
    ensures turns { TakesTurns (R.counts reader.old) (R.counts reader.new) left.old left.new }
    // `Read` comes only where the reader failed, `TooManyTurns` only where no turn is left. Where a
    // frame is taken, no read failed, and each gave a byte at least.
    ensures spent { SpendsOnNext
        (reading line.old.window (stream (R.remaining reader.old) (R.counts reader.old)) left.old)
        (reading line.new.window (stream (R.remaining reader.new) (R.counts reader.new)) left.new)
        result }
    // The line still reads its bodies under that table.
    ensures same { line.new.gathering.table ≡ table.now }
    // What the line holds then is the beginning of one frame.
    ensures begun { IsBegun header line.new.begun line.new.gathering.part }
    // At `Ok` the line holds no byte of a frame.
    ensures none { OnOk result (held_of line.new.begun line.new.gathering.part ≡ []) }
{
    // the law that a header and fewer bytes than it counts need more, for the prover
    splits_once();
    'pieces: loop {
        match fill(&mut line.window, reader, left) {
            Err(ServeFault::CutFrame) if head_len(&line.begun) == 0 => return Ok(false),
            Err(fault) => return Err(fault),
            Ok(()) => {}
        }
        match take_window(table, header, line, issuer) {
            Err(PeerFault::BadHeader) => return Err(ServeFault::BadHeader),
            Err(PeerFault::Memory) => return Err(ServeFault::Memory),
            Ok(step) if step.ended => return Ok(true),
            Ok(_) => {}
        }
    }
}
