//! A day that is sent again, and how its answers agree with those that are expected.

use crate::exchange::Ending;
use crate::fault::ReplayFault;
use crate::replaying::replay;
use crate::running::{Exchanged, Plan};
use iso_compare::{Telling, append_differences, append_differences_json, split_frames};
use iso_table::NoMemory;
use iso_wire::Header;
use std::alloc::{AllocError, Global};
use std::net::{Net, SocketAddr};
use std::time::Clock;
use thiserror::Error;

/// A day that is sent again.
#[derive(Clone, Copy)]
pub struct Day<'a> {
    /// The address of the host.
    pub address: SocketAddr,
    /// The header of each frame.
    pub header: Header,
    /// The frames that are sent, one after another.
    pub frames: &'a [u8],
    /// The frames that are expected, one after another.
    pub expected: &'a [u8],
    /// For how many milliseconds the host may take nothing and answer nothing.
    pub patience: u64,
    /// How differences are told.
    pub telling: Telling<'a>,
    /// Whether they are told as JSON.
    pub is_json: bool,
}

/// Which frames of a day.
#[derive(Clone, Copy, Debug, PartialEq, Eq)]
pub enum Part {
    /// Those that are sent.
    Frames,
    /// Those that are expected.
    Expected,
}

/// Why a day isn't sent again.
#[derive(Clone, Copy, Debug, PartialEq, Eq, Drop, Error)]
pub enum DayFault {
    /// These bytes aren't frames: behind so many whole ones, at this byte, none begins that is whole.
    #[error("behind {whole} whole frames none begins at byte {at}: look for a cut file, a line end, or another header")]
    NotFrames {
        /// Which bytes.
        part: Part,
        /// How many whole frames stand before.
        whole: usize,
        /// How many bytes those take.
        at: usize,
    },
    /// Nothing was exchanged with the host.
    #[error("{0}")]
    Replay(ReplayFault),
    /// Memory ran out.
    #[error("memory ran out")]
    Memory,
}

impl From<AllocError> for DayFault {
    fn from(_fault: AllocError) -> DayFault {
        DayFault::Memory
    }
}

impl From<NoMemory> for DayFault {
    fn from(_fault: NoMemory) -> DayFault {
        DayFault::Memory
    }
}

impl From<ReplayFault> for DayFault {
    fn from(fault: ReplayFault) -> DayFault {
        match fault {
            ReplayFault::Memory => DayFault::Memory,
            fault => DayFault::Replay(fault),
        }
    }
}

/// The bodies of a day's frames, which are all that is there.
fn bodies_in<'a>(
    alloc: Global,
    header: Header,
    part: Part,
    bytes: &'a [u8],
) -> Result<Vec<&'a [u8]>, DayFault> {
    let split = split_frames(alloc, header, bytes)?;
    if split.rest.is_empty() {
        return Ok(split.bodies);
    }
    Err(DayFault::NotFrames {
        part,
        whole: split.bodies.len(),
        at: bytes.len().saturating_sub(split.rest.len()),
    })
}

/// Appends how an exchange ended, unless it was whole.
fn push_ending(
    alloc: Global,
    day: &Day<'_>,
    done: &Exchanged,
    out: &mut Vec<u8>,
) -> Result<(), AllocError> {
    let (unsent, patience) = (done.unsent, day.patience);
    let line = match done.ending {
        Ending::Whole => return Ok(()),
        Ending::BadHeader => format!(in alloc; "the header of the next frame isn't of digits")?,
        Ending::Closed => format!(in alloc; "the host ended the connection")?,
        Ending::Silent => format!(in alloc; "nothing more came for {patience} ms")?,
    };
    out.extend_from_slice(line.as_bytes())?;
    if unsent > 0 {
        let left = format!(in alloc; "; {unsent} bytes weren't sent")?;
        out.extend_from_slice(left.as_bytes())?;
    }
    out.extend_from_slice(b"\n")
}

/// Appends how an exchange ended as a line of JSON.
fn push_ending_json(alloc: Global, done: &Exchanged, out: &mut Vec<u8>) -> Result<(), AllocError> {
    let unsent = done.unsent;
    let ending = match done.ending {
        Ending::Whole => "whole",
        Ending::BadHeader => "bad header",
        Ending::Closed => "closed",
        Ending::Silent => "silent",
    };
    let line = format!(in alloc; "{{\"ending\":\"{ending}\",\"unsent\":{unsent}}}\n")?;
    out.extend_from_slice(line.as_bytes())
}

/// Appends how what came agrees with what is expected, and tells whether all does.
pub fn append_outcome(
    alloc: Global,
    day: &Day<'_>,
    expected: &[&[u8]],
    done: &Exchanged,
    out: &mut Vec<u8>,
) -> Result<bool, DayFault> {
    let came = split_frames(alloc, day.header, &done.came)?;
    let tally = if day.is_json {
        let tally = append_differences_json(alloc, day.telling, expected, &came.bodies, out)?;
        push_ending_json(alloc, done, out)?;
        tally
    } else {
        let tally = append_differences(alloc, day.telling, expected, &came.bodies, out)?;
        push_ending(alloc, day, done, out)?;
        tally
    };
    Ok(tally.is_all_same() && done.unsent == 0)
}

/// Sends a day to the host at its address, compares what the host answers with what is expected, frame by frame, and appends
/// what differs and how many are the same. Tells whether all was sent, and exactly what is expected came.
pub fn replay_day<R: Net + Clock>(
    rt: &R,
    alloc: Global,
    day: &Day<'_>,
    out: &mut Vec<u8>,
) -> Result<bool, DayFault> {
    // what is sent has to be frames, as what is expected
    bodies_in(alloc, day.header, Part::Frames, day.frames)?;
    let expected = bodies_in(alloc, day.header, Part::Expected, day.expected)?;
    let plan = Plan {
        header: day.header,
        frames: day.frames,
        wanted: expected.len(),
        patience: day.patience,
    };
    let done = replay(rt, alloc, day.address, plan)?;
    append_outcome(alloc, day, &expected, &done, out)
}
