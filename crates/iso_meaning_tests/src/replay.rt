//! Worked rows: exchanges over streams that move a few bytes at a time, and one with a port that nobody answers at.

use iso_compare::Telling;
use iso_fakes::{FewTaken, check_of};
use iso_names::Names;
use iso_replay::{
    Day, DayFault, Ending, Exchanged, Part, Plan, ReplayFault, Waiting, append_outcome,
    exchange_over, replay_day,
};
use iso_table::Table;
use iso_wire::Header;
use std::alloc::Global;
use std::io;
use std::io::{ErrorKind, Read};
use std::net::{Ipv4Addr, SocketAddr, TcpListener};
use std::test::Fail;

/// Two frames that are sent, and their answers.
const FRAMES: &[u8] = b"0003abc0002de";

const ANSWERS: &[u8] = b"0003xyz0001w";

/// Gives a few bytes a read, and then nothing more, or the end.
#[derive(Drop)]
struct Coming {
    bytes: &'static [u8],
    ends: bool,
}

impl Read for Coming {
    fn read(&mut self, buffer: &mut [u8]) -> io::Result<usize> {
        let count = self.bytes.len().min(3).min(buffer.len());
        if count == 0 && !self.ends {
            return Err(io::Error::from(ErrorKind::WouldBlock));
        }
        let (front, rest) = self.bytes.split_at(count);
        buffer[..count].copy_from_slice(front);
        self.bytes = rest;
        Ok(count)
    }
}

/// A clock that goes on by each wait, and by a millisecond each time that it is asked.
#[derive(Drop)]
struct Clockwork {
    now: u64,
}

impl Waiting for Clockwork {
    fn now(&mut self) -> Result<u64, ReplayFault> {
        self.now = self.now.saturating_add(1);
        Ok(self.now)
    }

    fn wait(&mut self, millis: u64) -> Result<(), ReplayFault> {
        self.now = self.now.saturating_add(millis);
        Ok(())
    }
}

/// What comes, whether it ends, how many frames are wanted, how the exchange ends, and what of the answers came.
struct Row {
    name: &'static str,
    coming: &'static [u8],
    ends: bool,
    wanted: usize,
    ending: Ending,
    came: &'static [u8],
}

const ROWS: &[Row] = &[
    Row {
        name: "as many came as are wanted",
        coming: ANSWERS,
        ends: false,
        wanted: 2,
        ending: Ending::Whole,
        came: ANSWERS,
    },
    Row {
        name: "none is wanted",
        coming: b"",
        ends: false,
        wanted: 0,
        ending: Ending::Whole,
        came: b"",
    },
    Row {
        name: "one more is wanted",
        coming: ANSWERS,
        ends: false,
        wanted: 3,
        ending: Ending::Silent,
        came: ANSWERS,
    },
    Row {
        name: "the host ends inside a frame",
        coming: b"0003xyz0001",
        ends: true,
        wanted: 2,
        ending: Ending::Closed,
        came: b"0003xyz0001",
    },
    Row {
        name: "a header of no digits",
        coming: b"0003xyz00x1w",
        ends: false,
        wanted: 2,
        ending: Ending::BadHeader,
        came: b"0003xyz00x1w",
    },
];

/// Checks an exchange over streams.
fn check_row(alloc: Global, row: &Row) -> Result<(), Fail> {
    let mut input = Coming {
        bytes: row.coming,
        ends: row.ends,
    };
    let mut output = FewTaken::new(alloc, 5, 1_000, false);
    let mut clock = Clockwork { now: 7 };
    let plan = Plan {
        header: Header::Ascii4,
        frames: FRAMES,
        wanted: row.wanted,
        patience: 500,
    };
    let done = exchange_over(alloc, plan, &mut input, &mut output, &mut clock)?;
    check_of(done.ending == row.ending, row.name, "how it ends")?;
    check_of(done.came.as_slice() == row.came, row.name, "what came")?;
    check_of(done.unsent == 0, row.name, "what wasn't sent")?;
    check_of(
        output.taken.as_slice() == FRAMES,
        row.name,
        "what was taken",
    )
}

#[test]
fn exchanges(rt: HostRuntime) -> Result<(), Fail> {
    for row in ROWS {
        check_row(rt.alloc(), row)?;
    }
    Ok(())
}

/// A day of those frames and answers.
fn day_of<'a>(address: SocketAddr, telling: Telling<'a>, is_json: bool) -> Day<'a> {
    Day {
        address,
        header: Header::Ascii4,
        frames: FRAMES,
        expected: ANSWERS,
        patience: 50,
        telling,
        is_json,
    }
}

/// What came, how that ended, how many bytes weren't sent, and what is told of it as lines and as JSON.
const OUTCOMES: &[(&[u8], Ending, usize, bool, &str, &str)] = &[
    (
        ANSWERS,
        Ending::Whole,
        0,
        true,
        "2 answers compared, 2 the same, 0 differ\n",
        "{\"compared\":2,\"same\":2,\"differ\":0,\"missing\":0,\"beyond\":0}\n{\"ending\":\"whole\",\"unsent\":0}\n",
    ),
    (
        b"0003xyz00",
        Ending::Closed,
        6,
        false,
        "frame 2: expected, and didn't come\n1 answer compared, 1 the same, 0 differ, 1 didn't come\nthe host ended the connection; 6 bytes weren't sent\n",
        "{\"compared\":1,\"same\":1,\"differ\":0,\"missing\":1,\"beyond\":0}\n{\"ending\":\"closed\",\"unsent\":6}\n",
    ),
];

/// Whether the exchange ended as it should, and what is told of it. The host was to answer with these two bodies.
fn outcome_of(
    alloc: Global,
    telling: Telling<'_>,
    done: &Exchanged,
    is_json: bool,
) -> Result<(bool, Vec<u8>), Fail> {
    let nowhere = SocketAddr::from((Ipv4Addr::LOCALHOST, 9));
    let expected: &[&[u8]] = &[b"xyz", b"w"];
    let day = day_of(nowhere, telling, is_json);
    let mut out = Vec::new(alloc);
    let is_good = append_outcome(alloc, &day, expected, done, &mut out)?;
    Ok((is_good, out))
}

#[test]
fn outcomes(rt: HostRuntime) -> Result<(), Fail> {
    let alloc = rt.alloc();
    let (table, names) = (Table::ascii87(alloc)?, Names::new(alloc, 0));
    let telling = Telling {
        table: &table,
        names: &names,
        is_clear: false,
    };
    for (came, ending, unsent, is_good, lines, json) in OUTCOMES {
        let done = Exchanged {
            ending: *ending,
            came: Vec::from_slice(alloc, came)?,
            unsent: *unsent,
        };
        let (good, told) = outcome_of(alloc, telling, &done, false)?;
        assert_eq!(rt; good, *is_good, "{lines}");
        assert_eq!(rt; told.as_slice(), lines.as_bytes(), "{lines}");
        let (good, told) = outcome_of(alloc, telling, &done, true)?;
        assert_eq!(rt; good, *is_good, "{json}");
        assert_eq!(rt; told.as_slice(), json.as_bytes(), "{json}");
    }
    Ok(())
}

#[test]
fn a_port_where_nobody_answers(rt: HostRuntime) -> Result<(), Fail> {
    let alloc = rt.alloc();
    let (table, names) = (Table::ascii87(alloc)?, Names::new(alloc, 0));
    let telling = Telling {
        table: &table,
        names: &names,
        is_clear: false,
    };
    let listener = TcpListener::bind(&rt, (Ipv4Addr::LOCALHOST, 0))?;
    let day = day_of(listener.local_addr()?, telling, false);
    let mut out = Vec::new(alloc);
    let good = replay_day(&rt, alloc, &day, &mut out)?;
    assert!(rt; !good);
    let told =
        b"frames 1 to 2: expected, and didn't come\n0 answers compared, 0 the same, 0 differ, 2 didn't come\nnothing more came for 50 ms\n";
    assert_eq!(rt; out.as_slice(), told.as_slice());
    Ok(())
}

#[test]
fn a_day_that_is_no_frames(rt: HostRuntime) -> Result<(), Fail> {
    let alloc = rt.alloc();
    let (table, names) = (Table::ascii87(alloc)?, Names::new(alloc, 0));
    let telling = Telling {
        table: &table,
        names: &names,
        is_clear: false,
    };
    let nowhere = SocketAddr::from((Ipv4Addr::LOCALHOST, 9));
    let mut day = day_of(nowhere, telling, false);
    day.expected = b"0003xyz0001";
    let mut out = Vec::new(alloc);
    let refused = DayFault::NotFrames {
        part: Part::Expected,
        whole: 1,
        at: 7,
    };
    assert_eq!(rt; replay_day(&rt, alloc, &day, &mut out), Err(refused));
    Ok(())
}
