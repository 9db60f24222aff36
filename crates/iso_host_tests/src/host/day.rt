//! A day of frames, and a host that serves it with each of its calls failing in turn. The day is a purchase, its repeat, three
//! bytes that are no message, a second purchase, and the reversal of the first.

use super::ends::Writer;
use super::frames::{end_of, has_entered, issuer};
use iso_fakes::{FewBytes, check};
use iso_host::{Report, ServeFault, Std};
use iso_issuer::Issuer;
use iso_table::Table;
use std::alloc::Global;
use std::test::Fail;

/// The frames of the day.
const FRAMES: &[u8] =
    b"00820200722000010000800016411111111111111100000000000000100001020304050000070512345840\
00820201722000010000800016411111111111111100000000000000100001020304050000070512345840\
0003abc\
00820200722000010000800016411111111111111100000000000000100001020304050000100512345840\
010104208220000100000000000000400000000001020305000000080512345020000000701020304050000001234500000000000";

/// The frames of the answers.
const ANSWERS: &[u8] =
    b"0090021072200001060080001641111111111111110000000000000010000102030405000007051234500000100840\
0090021072200001060080001641111111111111110000000000000010000102030405000007051234500000100840\
0090021072200001060080001641111111111111110000000000000010000102030405000010051234500000200840\
01030430822000010200000000000040000000000102030500000008051234500020000000701020304050000001234500000000000";

/// The report of the whole day.
const WHOLE: Report = Report {
    frames: 5,
    answered: 4,
    silent: 0,
    unreadable: 1,
};

/// What stands once some frames of the day are handled.
#[derive(Clone, Copy)]
struct Mark {
    /// The bytes of these frames.
    read: usize,
    /// The bytes of their answers.
    written: usize,
    ledger: i64,
    entries: u32,
}

/// The marks of the day: before the first frame, and behind each.
const MARKS: &[Mark] = &[
    Mark {
        read: 0,
        written: 0,
        ledger: 5000,
        entries: 0,
    },
    Mark {
        read: 86,
        written: 94,
        ledger: 4000,
        entries: 1,
    },
    Mark {
        read: 172,
        written: 188,
        ledger: 4000,
        entries: 1,
    },
    Mark {
        read: 179,
        written: 188,
        ledger: 4000,
        entries: 1,
    },
    Mark {
        read: 265,
        written: 282,
        ledger: 3000,
        entries: 2,
    },
    Mark {
        read: 370,
        written: 389,
        ledger: 4000,
        entries: 3,
    },
];

/// The day served once: how it ended, how many reads were made and how many bytes are left of its frames, and its writer.
#[derive(Drop)]
struct Run {
    ended: Option<Result<Report, ServeFault>>,
    reads: u32,
    left: usize,
    writer: Writer,
}

/// More reads than the day takes.
const MANY: u32 = 10_000;

/// The reads before one fails, the write or flush that fails, and the turns, where serving is to end with this fault once so
/// many calls are made. No write or flush fails at 0. A fault that is neither is that of the turns.
fn failing(fault: ServeFault, calls: u32) -> (u32, u32, u64) {
    match fault {
        ServeFault::Read => (calls, 0, 1000),
        ServeFault::Write => (MANY, calls.saturating_add(1), 1000),
        _ => (MANY, 0, u64::from(calls)),
    }
}

/// Serves the day by that issuer, so that it ends with this fault once so many calls are made.
fn serve_day(
    alloc: Global,
    table: &Table,
    issuer: &mut Issuer,
    piece: usize,
    fault: ServeFault,
    calls: u32,
) -> Run {
    let (reads, fails_at, turns) = failing(fault, calls);
    let mut few = FewBytes {
        bytes: FRAMES,
        piece,
        calls: reads,
    };
    let mut reader = Std::new(&mut few);
    let mut writer = Writer::new(alloc, piece, fails_at);
    let ended = end_of(alloc, table, issuer, &mut reader, &mut writer, turns);
    Run {
        ended,
        reads: reads.saturating_sub(few.calls),
        left: few.bytes.len(),
        writer,
    }
}

/// How many calls were made, of those at which serving can end with this fault.
fn calls_made(run: &Run, fault: ServeFault) -> u32 {
    let writes = run.writer.writes;
    match fault {
        ServeFault::Read => run.reads,
        ServeFault::Write => writes.saturating_add(run.writer.flushes),
        _ => run.reads.saturating_add(writes),
    }
}

/// Whether the issuer stands as at a mark, where so many bytes were read and so many are written. Where a read failed, that
/// is the last mark that was read, and all answers up to it are written. Else it is any mark, and some bytes of the answers
/// behind the mark before it may be missing.
fn stands(issuer: &Issuer, fault: ServeFault, read: usize, written: usize) -> bool {
    let mut stands = false;
    let mut before = 0;
    for mark in MARKS {
        let has_entered = has_entered(issuer, mark.ledger, mark.entries);
        if fault != ServeFault::Read {
            stands |= has_entered && before <= written && written <= mark.written;
        } else if mark.read <= read {
            stands = has_entered && written == mark.written;
        }
        before = mark.written;
    }
    stands
}

/// Whether the day ended with this fault once so many calls were made, and stands as it should.
fn has_ended(run: &Run, issuer: &Issuer, fault: ServeFault, calls: u32) -> bool {
    let written = run.writer.taken.as_slice();
    let read = FRAMES.len().saturating_sub(run.left);
    run.ended == Some(Err(fault))
        && (fault != ServeFault::TooManyTurns || calls_made(run, fault) == calls)
        && ANSWERS.starts_with(written)
        && stands(issuer, fault, read, written.len())
}

/// Whether the day was served whole.
fn is_whole(run: &Run) -> bool {
    run.ended == Some(Ok(WHOLE)) && run.writer.taken.as_slice() == ANSWERS
}

/// What comes of a day that is to end with a fault once so many calls are made.
#[derive(Clone, Copy)]
enum DayEnd {
    /// It ends so, and stands as it should.
    Fault,
    /// It takes no more calls than these, and is served whole.
    Whole,
    /// It ends otherwise.
    Wrong,
}

/// What came of the day.
fn day_end(run: &Run, issuer: &Issuer, fault: ServeFault, calls: u32) -> DayEnd {
    if has_ended(run, issuer, fault, calls) {
        DayEnd::Fault
    } else if is_whole(run) && calls_made(run, fault) == calls {
        DayEnd::Whole
    } else {
        DayEnd::Wrong
    }
}

/// Whether the day gets all its answers where it is sent again to the issuer.
fn is_answered_again(alloc: Global, table: &Table, issuer: &mut Issuer) -> bool {
    is_whole(&serve_day(alloc, table, issuer, 4096, ServeFault::TooManyTurns, 1000))
}

/// What comes of the day by that issuer.
fn serve_once(
    alloc: Global,
    table: &Table,
    issuer: &mut Issuer,
    piece: usize,
    fault: ServeFault,
    calls: u32,
) -> DayEnd {
    let run = serve_day(alloc, table, issuer, piece, fault, calls);
    day_end(&run, issuer, fault, calls)
}

/// What comes of the day by an issuer of its own, where it gets all its answers once it is sent again.
fn serve_anew(alloc: Global, table: &Table, piece: usize, fault: ServeFault, calls: u32) -> DayEnd {
    match issuer(alloc, false) {
        Some(mut issuer) => {
            let end = serve_once(alloc, table, &mut issuer, piece, fault, calls);
            if is_answered_again(alloc, table, &mut issuer) {
                end
            } else {
                DayEnd::Wrong
            }
        }
        None => DayEnd::Wrong,
    }
}

/// Serves the day with this fault behind each count of calls, up to those that the whole day takes, where a call moves so
/// many bytes. Gives the first count behind which it ends otherwise.
fn wrong_call(alloc: Global, table: &Table, piece: usize, fault: ServeFault) -> Option<u32> {
    for calls in 0..1000 {
        match serve_anew(alloc, table, piece, fault, calls) {
            DayEnd::Fault => {}
            DayEnd::Whole => return None,
            DayEnd::Wrong => return Some(calls),
        }
    }
    Some(1000)
}

/// Whether the day is served with this fault in pieces of that size: with fewer turns than it takes in three sizes, of which
/// the last has the whole day.
fn is_tried(piece: usize, fault: ServeFault) -> bool {
    fault != ServeFault::TooManyTurns || matches!(piece, 7 | 64 | 371)
}

/// Serves the day so in pieces of each size up to the whole day.
fn check_pieces(alloc: Global, table: &Table, fault: ServeFault) -> Result<(), Fail> {
    for piece in 1..=371 {
        if is_tried(piece, fault)
            && let Some(calls) = wrong_call(alloc, table, piece, fault)
        {
            return Err(Fail::new(format_args!(
                "{piece} bytes a call: {fault} behind {calls} calls"
            )));
        }
    }
    Ok(())
}

/// Serves the day with each write and flush failing, with each read failing, and with fewer turns than it takes.
fn check_day(alloc: Global, table: &Table) -> Result<(), Fail> {
    check_pieces(alloc, table, ServeFault::Write)?;
    check_pieces(alloc, table, ServeFault::Read)?;
    check_pieces(alloc, table, ServeFault::TooManyTurns)
}

#[test]
fn each_call_fails_and_the_turns_are_spent(rt: HostRuntime) -> Result<(), Fail> {
    match Table::ascii87(rt.alloc()) {
        Ok(table) => check_day(rt.alloc(), &table),
        Err(_) => check(false, "the table"),
    }
}
