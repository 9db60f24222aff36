//! Bodies that are longer than what the host reads at once, which is 4,096 bytes.

use super::frames::{ECHO, TWO_ECHOED, end_of, issuer};
use super::sessions::TWO_ANSWERED;
use iso_fakes::{FewBytes, FewTaken, check};
use iso_host::Std;
use iso_issuer::Issuer;
use iso_table::Table;
use std::alloc::{AllocError, Global};
use std::test::Fail;

/// A frame of an echo test that is filled up by private elements, from 105 on.
#[derive(Clone, Copy)]
struct Long {
    name: &'static str,
    /// The frame up to these elements: its header, its type, its bitmaps, and elements 7, 11 and 70.
    front: &'static [u8],
    /// How many of these elements have 999 bytes.
    full: usize,
    /// The length of the last one, as it stands in the frame.
    length: &'static [u8],
    last: usize,
}

const LONG: &[Long] = &[
    Long {
        name: "a frame of 4,096 bytes",
        front: b"4092080082200000000000000400000000F800000102030405000001301",
        full: 4,
        length: b"026",
        last: 26,
    },
    Long {
        name: "a body of 4,096 bytes",
        front: b"4096080082200000000000000400000000F800000102030405000001301",
        full: 4,
        length: b"030",
        last: 30,
    },
    Long {
        name: "a body of 4,097 bytes",
        front: b"4097080082200000000000000400000000F800000102030405000001301",
        full: 4,
        length: b"031",
        last: 31,
    },
    Long {
        name: "a body of 5,000 bytes",
        front: b"5000080082200000000000000400000000F800000102030405000001301",
        full: 4,
        length: b"934",
        last: 934,
    },
    Long {
        name: "a body of 8,200 bytes, in three reads",
        front: b"8200080082200000000000000400000000FF80000102030405000001301",
        full: 8,
        length: b"126",
        last: 126,
    },
    Long {
        name: "the longest body that four digits count",
        front: b"9999080082200000000000000400000000FFC0000102030405000001301",
        full: 9,
        length: b"923",
        last: 923,
    },
];

/// The bytes of a full element.
const FILL: [u8; 999] = [b'0'; 999];

/// Appends an element of so many bytes, with its length in front.
fn append_element(frames: &mut Vec<u8>, length: &[u8], count: usize) -> Result<(), AllocError> {
    frames.extend_from_slice(length)?;
    frames.extend_from_slice(&FILL[..count.min(999)])
}

/// Appends the frame, and that of an echo test behind it.
fn append_frames(frames: &mut Vec<u8>, long: &Long) -> Result<(), AllocError> {
    frames.extend_from_slice(long.front)?;
    for _ in 0..long.full {
        append_element(frames, b"999", 999)?;
    }
    append_element(frames, long.length, long.last)?;
    frames.extend_from_slice(ECHO)
}

/// Whether both frames are answered, where a read gives so many bytes.
fn is_answered(
    alloc: Global,
    table: &Table,
    issuer: &mut Issuer,
    frames: &[u8],
    piece: usize,
) -> bool {
    let mut few = FewBytes {
        bytes: frames,
        piece,
        calls: 1000,
    };
    let mut taken = FewTaken::new(alloc, 5000, 2, false);
    let ended = end_of(
        alloc,
        table,
        issuer,
        &mut Std::new(&mut few),
        &mut Std::new(&mut taken),
        1000,
    );
    ended == Some(Ok(TWO_ANSWERED)) && taken.taken.as_slice() == TWO_ECHOED
}

/// Whether both frames are answered, in reads of a whole window and in shorter ones.
fn is_served(alloc: Global, table: &Table, issuer: &mut Issuer, long: &Long) -> bool {
    let mut frames = Vec::new(alloc);
    append_frames(&mut frames, long).is_ok()
        && is_answered(alloc, table, issuer, &frames, 4096)
        && is_answered(alloc, table, issuer, &frames, 1000)
}

/// Serves each of them.
fn check_long(alloc: Global, table: &Table, issuer: &mut Issuer) -> Result<(), Fail> {
    for long in LONG {
        check(is_served(alloc, table, issuer, long), long.name)?;
    }
    Ok(())
}

#[test]
fn answers_what_is_longer_than_a_read(rt: HostRuntime) -> Result<(), Fail> {
    match (Table::ascii87(rt.alloc()), issuer(rt.alloc(), false)) {
        (Ok(table), Some(mut issuer)) => check_long(rt.alloc(), &table, &mut issuer),
        _ => check(false, "the table and the issuer"),
    }
}
