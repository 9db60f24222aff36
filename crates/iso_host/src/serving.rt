//! The engine: frames from a reader, and the frames of their responses to a writer.
ghost use Rattle.std.specs.Prelude.{◌≡◌, ℕ, List, OnOk};
ghost use Rattle.iso_table.specs.HostReady.{IsHostReady};
ghost use Rattle.iso_table.specs.Layout.{Layout};
ghost use Rattle.iso_issuer.specs.Books.{Books};
ghost use Rattle.iso_host.specs.Asking.{asked_of};
ghost use Rattle.iso_host.specs.Hosting.{IsHandled};
ghost use Rattle.iso_host.specs.Counts.{stream, usage};
ghost use Rattle.iso_host.specs.Links.{agreed};
ghost use Rattle.iso_host.specs.Serving.{Leaves, Cause, Flushes, WithinTurns, sending, standing};
ghost use Rattle.iso_host.specs.Reporting.{ReportsOneMore};
ghost use Rattle.iso_host.specs.Answering.{FlushesAll, SpendsOnWrite, WritesBytes};
ghost use Rattle.iso_host.specs.Turns.{TakesTurns};

use crate::answering::enters_nothing;
use crate::fault::{Report, ServeFault};
use crate::handled::Handled;
use crate::next_frame::{new_line, next_frame};
use crate::streams::{Inlet, Outlet};
use iso_issuer::Issuer;
use iso_issuer::laws::firsts_go_on;
use iso_table::Table;
use iso_wire::Header;
use iso_wire::laws::{frames, splits_once};
use std::alloc::Global;

/// The report before the first frame.
const NO_FRAMES: Report = Report {
    frames: 0,
    answered: 0,
    silent: 0,
    unreadable: 0,
};

/// Writes the bytes whole, and flushes. Each write takes one of the turns that are left.
fn write_whole<W: Outlet>(writer: &mut W, bytes: &[u8], left: &mut u64) -> Result<(), ServeFault>
    ensures written { WritesBytes (stream (W.contents writer.old) (W.counts writer.old))
        (stream (W.contents writer.new) (W.counts writer.new)) bytes.now result }
    ensures turns { TakesTurns (W.counts writer.old) (W.counts writer.new) left.old left.new }
    ensures spent { SpendsOnWrite
        (W.counts writer.old) (W.counts writer.new) left.old left.new result }
    ensures flushed { OnOk result ((W.counts writer.new).unflushed ≡ 0) }
{
    let mut at = 0;
    while at < bytes.len() {
        if *left == 0 {
            return Err(ServeFault::TooManyTurns);
        }
        *left -= 1;
        let Ok(count) = writer.write(&bytes[at..]) else {
            return Err(ServeFault::Write);
        };
        at += count;
    }
    match writer.flush() {
        Ok(()) => Ok(()),
        Err(_) => Err(ServeFault::Write),
    }
}

/// Writes the answer to a body, and flushes; an empty one is none, and the writer isn't called.
#[inline(always)]
fn write_answer<W: Outlet>(writer: &mut W, answer: &[u8], left: &mut u64) -> Result<(), ServeFault>
    ensures written { WritesBytes (stream (W.contents writer.old) (W.counts writer.old))
        (stream (W.contents writer.new) (W.counts writer.new)) answer.now result }
    ensures turns { TakesTurns (W.counts writer.old) (W.counts writer.new) left.old left.new }
    ensures spent { SpendsOnWrite
        (W.counts writer.old) (W.counts writer.new) left.old left.new result }
    ensures flushed { OnOk result
        (FlushesAll (W.counts writer.old) (W.counts writer.new) answer.now) }
{
    if answer.is_empty() {
        return Ok(());
    }
    write_whole(writer, answer, left)
}

/// Counts a frame by what came of its body.
#[tactic(auto, unfolding(crate::specs::Hosting::IsHandled))]
fn count_frame(report: &mut Report, handled: &Handled)
    ensures { (t : Layout) (books : Books) (body : List ℕ) → IsHandled t books body handled.now
        → ReportsOneMore report.old report.new (asked_of t body) }
{
    report.frames = report.frames.saturating_add(1);
    match handled {
        Handled::Unreadable(_) => {
            report.unreadable = report.unreadable.saturating_add(1);
        }
        Handled::Silent => {
            report.silent = report.silent.saturating_add(1);
        }
        Handled::Replied { .. } | Handled::Ordered { .. } => {
            report.answered = report.answered.saturating_add(1);
        }
    }
}

/// Reads frames to the end of the input, handles each body, and writes its answer before the next frame is looked at.
///
/// A body that is not one whole message is passed over, and so is a message that is not to be answered. An order is
/// entered and then answered, with 96 where the issuer's journal is full. Each answer is written whole and flushed.
/// The reads and writes together are at most `turns`.
///
/// The table is one that `Table::host_ready` accepts. At `Ok`, `Read`, `BadHeader` and `CutFrame` all whole frames are
/// handled and answered. At `Write`, `Memory` and `TooManyTurns` what is written lies between the output for all bodies
/// that were handled but the last and the output for all of them: the last answer may be missing, cut short or not
/// flushed, though its order may be entered. Sent again, it gets that answer.
pub fn serve<R: Inlet, W: Outlet>(
    alloc: Global,
    table: &Table,
    header: Header,
    issuer: &mut Issuer,
    reader: &mut R,
    writer: &mut W,
    turns: u64,
) -> Result<Report, ServeFault>
    // A host can serve under the table: `Table::host_ready` accepts it.
    requires { IsHostReady table.now }
    // At `Ok`, `Read`, `BadHeader` and `CutFrame` all whole frames are entered and answered; at
    // each other end the last answer may be missing or cut short.
    ensures leaves { Leaves (agreed table.now header)
        (standing (R.remaining reader.old) (W.contents writer.old) issuer.old)
        (standing (R.remaining reader.new) (W.contents writer.new) issuer.new) result }
    // Each answer is flushed: where it ends inside one, only what was written of that one waits for a flush.
    ensures flushed { Flushes (agreed table.now header)
        (sending (R.remaining reader.old) (stream (W.contents writer.old) (W.counts writer.old))
        issuer.old)
        (sending (R.remaining reader.new) (stream (W.contents writer.new) (W.counts writer.new))
        issuer.new) result }
    // However it ends, the reads and writes together are at most `turns`.
    ensures turns { WithinTurns (usage (R.counts reader.old) (W.counts writer.old))
        (usage (R.counts reader.new) (W.counts writer.new)) turns }
    // Each end has its cause in the counts of the two streams.
    ensures cause { Cause (usage (R.counts reader.old) (W.counts writer.old))
        (usage (R.counts reader.new) (W.counts writer.new)) turns result }
{
    // the laws of a journal and of frames that go on, of their one split, and of books without an order, for the prover
    firsts_go_on();
    frames();
    splits_once();
    enters_nothing(issuer);
    let mut left = turns;
    let mut report = NO_FRAMES;
    let mut line = new_line(alloc, table);
    'frames: loop {
        line.out.clear();
        if !next_frame(table, header, &mut line, issuer, reader, &mut left)? {
            return Ok(report);
        }
        write_answer(writer, &line.out, &mut left)?;
        count_frame(&mut report, &line.told);
    }
}
