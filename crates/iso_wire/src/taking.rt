//! Taking a piece of a message behind those that were taken before it.

ghost use Rattle.std.specs.Prelude.{◌≡◌, ℕ, ◌≤◌, ◌-◌, ◌++◌, [], take, length, IfOk, Err};
ghost use Rattle.iso_table.specs.Layout.{AreGood};
ghost use Rattle.iso_table.specs.Sizes.{max_bytes};
ghost use Rattle.iso_wire.specs.Unpacking.{read_into};
ghost use Rattle.iso_wire.specs.Unpacker.{Feeds, FoundFed, StopsFed};
ghost use Rattle.iso_wire.specs.Taking.{
  IsRead,
  IsBuilt,
  LeavesBuilt,
  IsPieceOrFront,
  KeepsTaken,
  IsReadyAfter,
  ResumesIn,
  FitsWithFront,
  fed_with_front,
};
ghost use Rattle.iso_wire.specs.declared.fault.UnpackCause.{UnpackCause};
ghost use Rattle.iso_wire.specs.declared.fault.UnpackCause.TheVariants.{Short};
ghost use Rattle.iso_wire.specs.Reading.{halt, message_at, Unpacks};
ghost use Rattle.iso_wire.specs.Stops.{Stops};
ghost use Rattle.iso_wire.specs.ReadingLaws.{IsShort};
ghost use Rattle.iso_wire.specs.Judging.{IsResumed};

use crate::building::build_judged;
use crate::fault::{UnpackCause, UnpackFault};
use crate::judging::{ResumePoint, judge_from};
use crate::laws::{are_bytes, reads_spellings, stops};
use crate::message::Message;
use crate::unpacker::Fed;
use iso_table::Table;
use std::alloc::Global;

/// Builds the message that was judged good, and says how many of its bytes stand behind the first `before`, which were
/// taken earlier.
fn build(
    alloc: Global,
    table: &Table,
    before: usize,
    bytes: &[u8],
) -> Result<(Message, usize), UnpackFault>
    requires within { before ≤ length bytes.now }
    requires short { IsShort (message_at table.now (take before bytes.now)) }
    requires read { IsRead (message_at table.now bytes.now) }
    ensures exact { IsBuilt before result (message_at table.now bytes.now) }
    ensures room { IfOk result (λ x. x.1 ≤ length bytes.now - before) }
    ensures good { AreGood table.now.rows }
{
    reads_spellings();
    match build_judged(alloc, table, bytes) {
        Ok((message, end)) => Ok((message, end - before)),
        Err(fault) => Err(fault),
    }
}

/// Builds the message that was judged good of the bytes that are taken, and takes these away. Without memory those behind
/// the first `before` are taken away alone.
#[inline(always)]
fn build_taken(
    alloc: Global,
    table: &Table,
    before: usize,
    taken: &mut Vec<u8>,
) -> Result<(Message, usize), UnpackFault>
    requires within { before ≤ length taken.old.items }
    requires short { IsShort (message_at table.now (take before taken.old.items)) }
    requires read { IsRead (message_at table.now taken.old.items) }
    ensures exact { IsBuilt before result (message_at table.now taken.old.items) }
    ensures kept { LeavesBuilt before taken.old.items taken.new.items result }
{
    match build(alloc, table, before, taken) {
        Ok((message, used)) => {
            taken.clear();
            Ok((message, used))
        }
        Err(fault) => {
            taken.truncate(before);
            Err(fault)
        }
    }
}

/// Takes the first piece of a message. It is judged where it lies, and kept only if the message isn't whole.
fn take_first(
    alloc: Global,
    table: &Table,
    point: &mut ResumePoint,
    taken: &mut Vec<u8>,
    piece: &[u8],
) -> Result<Fed, UnpackFault>
    requires empty { taken.old.items ≡ [] }
    requires resumed { IsResumed table.now point.old taken.old.items }
    ensures exact { Feeds (length taken.old.items) result
        (message_at table.now (taken.old.items ++ piece.now)) }
    ensures kept { KeepsTaken taken.old.items taken.new.items piece.now result }
    ensures resumed { IsResumed table.now point.new taken.new.items }
    ensures good { AreGood table.now.rows }
{
    // any call on the table tells the proof that its rows are good
    let _version = table.version();
    let (reached, read) = judge_from(table, ResumePoint::Type, piece);
    if let Err(fault) = read {
        if fault.cause != UnpackCause::Short {
            return Err(fault);
        }
        if taken.extend_from_slice(piece).is_err() {
            return Err(UnpackFault::memory());
        }
        *point = reached;
        return Ok(Fed::More);
    }
    match build(alloc, table, 0, piece) {
        Ok((message, used)) => Ok(Fed::Done { message, used }),
        Err(fault) => Err(fault),
    }
}

/// Takes a further piece behind the bytes that were taken before it: they are judged from the point on.
#[inline(always)]
fn take_next(
    alloc: Global,
    table: &Table,
    point: &mut ResumePoint,
    taken: &mut Vec<u8>,
    piece: &[u8],
) -> Result<Fed, UnpackFault>
    requires short { IsShort (message_at table.now taken.old.items) }
    requires resumed { IsResumed table.now point.old taken.old.items }
    ensures exact { Feeds (length taken.old.items) result
        (message_at table.now (taken.old.items ++ piece.now)) }
    ensures kept { KeepsTaken taken.old.items taken.new.items piece.now result }
    ensures resumed { IsResumed table.now point.new taken.new.items }
    ensures good { AreGood table.now.rows }
{
    // any call on the table tells the proof that its rows are good
    let _version = table.version();
    let before = taken.len();
    taken.extend_from_slice(piece)?;
    let (reached, read) = judge_from(table, *point, taken);
    if let Err(fault) = read {
        if fault.cause == UnpackCause::Short {
            *point = reached;
            return Ok(Fed::More);
        }
        taken.clear();
        *point = ResumePoint::Type;
        return Err(fault);
    }
    let (message, used) = build_taken(alloc, table, before, taken)?;
    *point = ResumePoint::Type;
    Ok(Fed::Done { message, used })
}

/// The answer to a piece, by that to what stands behind its first `front` bytes.
fn with_front(front: usize, fed: Fed) -> Fed
    requires { FitsWithFront front fed }
    ensures { result ≡ fed_with_front front fed }
{
    match fed {
        Fed::Done { message, used } => {
            let used = front + used;
            Fed::Done { message, used }
        }
        Fed::More => Fed::More,
    }
}

/// Takes a further piece for which there isn't room behind the bytes that were taken before it. Each part of it fills the
/// room that is there, and is judged before more is taken: so room is taken for bytes of the message alone.
#[cold]
fn take_parts(
    alloc: Global,
    table: &Table,
    point: &mut ResumePoint,
    taken: &mut Vec<u8>,
    piece: &[u8],
) -> Result<Fed, UnpackFault>
    requires short { IsShort (message_at table.now taken.old.items) }
    requires resumed { IsResumed table.now point.old taken.old.items }
    ensures exact { Feeds (length taken.old.items) result
        (message_at table.now (taken.old.items ++ piece.now)) }
    ensures kept { KeepsTaken taken.old.items taken.new.items piece.now result }
    ensures resumed { IsResumed table.now point.new taken.new.items }
    ensures good { AreGood table.now.rows }
{
    reads_spellings();
    are_bytes(taken);
    let start = *point;
    let held = taken.len();
    let room = (taken.capacity() - held).max(1);
    let Some((front, rest)) = piece.split_at_checked(room) else {
        return take_next(alloc, table, point, taken, piece);
    };
    match take_next(alloc, table, point, taken, front)? {
        Fed::More => {}
        done => return Ok(done),
    }
    let fed = take_parts(alloc, table, point, taken, rest);
    if matches!(&fed, Err(fault) if fault.cause == UnpackCause::Memory) {
        taken.truncate(held);
        *point = start;
    }
    Ok(with_front(room, fed?))
}

/// Takes a further piece behind the bytes that were taken before it.
fn take_further(
    alloc: Global,
    table: &Table,
    point: &mut ResumePoint,
    taken: &mut Vec<u8>,
    piece: &[u8],
) -> Result<Fed, UnpackFault>
    requires short { IsShort (message_at table.now taken.old.items) }
    requires resumed { IsResumed table.now point.old taken.old.items }
    ensures exact { Feeds (length taken.old.items) result
        (message_at table.now (taken.old.items ++ piece.now)) }
    ensures kept { KeepsTaken taken.old.items taken.new.items piece.now result }
    ensures resumed { IsResumed table.now point.new taken.new.items }
    ensures good { AreGood table.now.rows }
{
    if piece.len() <= taken.capacity() - taken.len() {
        take_next(alloc, table, point, taken, piece)
    } else {
        take_parts(alloc, table, point, taken, piece)
    }
}

/// What [`take`] does.
fn take_piece(
    alloc: Global,
    table: &Table,
    point: &mut ResumePoint,
    taken: &mut Vec<u8>,
    piece: &[u8],
) -> Result<Fed, UnpackFault>
    requires short { IsShort (message_at table.now taken.old.items) }
    requires resumed { IsResumed table.now point.old taken.old.items }
    ensures exact { Feeds (length taken.old.items) result
        (message_at table.now (taken.old.items ++ piece.now)) }
    ensures kept { KeepsTaken taken.old.items taken.new.items piece.now result }
    ensures resumed { IsResumed table.now point.new taken.new.items }
    ensures good { AreGood table.now.rows }
{
    if taken.is_empty() {
        take_first(alloc, table, point, taken, piece)
    } else {
        take_further(alloc, table, point, taken, piece)
    }
}

/// Takes a piece behind the bytes that were taken before it, which are judged up to the point.
pub(crate) fn take(
    alloc: Global,
    table: &Table,
    point: &mut ResumePoint,
    taken: &mut Vec<u8>,
    piece: &[u8],
) -> Result<Fed, UnpackFault>
    requires short { IsShort (message_at table.now taken.old.items) }
    requires resumed { IsResumed table.now point.old taken.old.items }
    ensures exact { Feeds (length taken.old.items) result
        (message_at table.now (taken.old.items ++ piece.now)) }
    ensures kept { KeepsTaken taken.old.items taken.new.items piece.now result }
    ensures resumed { IsResumed table.now point.new taken.new.items }
    ensures ready { IsReadyAfter table.now taken.new.items result }
    ensures found { FoundFed table.now (length taken.old.items)
        (taken.old.items ++ piece.now) result }
    ensures stops { StopsFed table.now (taken.old.items ++ piece.now) result }
    ensures told { (at element : ℕ) (cause : UnpackCause)
        → Stops table.now (taken.old.items ++ piece.now) at element cause
        → Feeds (length taken.old.items) result (halt element at cause) }
{
    reads_spellings();
    stops();
    are_bytes(taken);
    take_piece(alloc, table, point, taken, piece)
}

/// The fault at which bytes end that are too short for a message, and that are judged up to the point.
pub(crate) fn missing(table: &Table, point: ResumePoint, taken: &[u8]) -> UnpackFault
    requires short { IsShort (message_at table.now taken.now) }
    requires resumed { IsResumed table.now point taken.now }
    ensures exact { message_at table.now taken.now ≡ Err result }
    ensures short { result.cause ≡ Short }
    ensures stops { Stops table.now taken.now result.at result.element Short }
{
    stops();
    // any call on the table tells the proof that its rows are good
    let _version = table.version();
    let (_, read) = judge_from(table, point, taken);
    let Err(fault) = read else {
        unreachable!();
    };
    fault
}

/// The bytes of a piece that can belong to the message, behind so many that are taken: all of them, where there is room for
/// them; else no more than the longest message has.
fn front_of<'p>(table: &Table, before: usize, room: usize, piece: &'p [u8]) -> &'p [u8]
    requires { before ≤ max_bytes table.now }
    ensures { IsPieceOrFront (max_bytes table.now - before) piece.now result.now }
{
    if piece.len() <= room {
        return piece;
    }
    let longest = table.max_bytes() - before as u64;
    if piece.len() as u64 <= longest {
        piece
    } else {
        &piece[..longest as usize]
    }
}

/// Reads the message that the bytes begin with in place of what `into` was. Their first ones are judged up to the point.
fn read_on(
    table: &Table,
    point: ResumePoint,
    bytes: &[u8],
    into: &mut Message,
) -> Result<usize, UnpackFault>
    requires { ResumesIn table.now point bytes.now }
    ensures exact { Unpacks (read_into into.new result) (message_at table.now bytes.now) }
{
    let (_, judged) = judge_from(table, point, bytes);
    match judged {
        Ok(_) => into.build(table, bytes),
        Err(fault) => {
            into.empty();
            Err(fault)
        }
    }
}

/// Reads the message that the bytes taken, which are judged up to the point, and then the piece begin with, in place of
/// what `into` was. What is taken stays.
pub(crate) fn read_through(
    table: &Table,
    point: ResumePoint,
    taken: &mut Vec<u8>,
    piece: &[u8],
    into: &mut Message,
) -> Result<usize, UnpackFault>
    requires resumed { IsResumed table.now point taken.old.items }
    requires small { length taken.old.items ≤ max_bytes table.now }
    ensures exact { Unpacks (read_into into.new result)
        (message_at table.now (taken.old.items ++ piece.now)) }
    ensures kept { taken.new.items ≡ taken.old.items }
{
    // the laws of parts and of what is read, for the prover
    iso_parts::laws::parts();
    reads_spellings();
    // any call on the table tells the proof that its rows are good
    let _version = table.version();
    let already = taken.len();
    let front = front_of(table, already, taken.capacity() - already, piece);
    if taken.extend_from_slice(front).is_err() {
        return Err(UnpackFault::memory());
    }
    are_bytes(taken);
    let read = read_on(table, point, taken, into);
    taken.truncate(already);
    read
}
