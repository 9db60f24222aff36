//! Streams in memory, whole, failing and interrupted.

use iso_fakes::{FewBytes, FewTaken, Interrupted, check, check_of};
use iso_host::{Failed, Inlet, Outlet, Std, write_all};
use std::alloc::Global;
use std::test::Fail;

/// The bytes that a call writes to a vector, how many a call reads of five, and what a buffer of three then holds.
const MOVES: &[(&str, &[u8], usize, &[u8; 3])] = &[
    ("the first call", b"abc", 3, b"abc"),
    ("the second call", b"", 2, b"dec"),
    ("the call at the end", b"de", 0, b"dec"),
];

/// The name of the first call that reads of a slice or writes to a vector otherwise, or else of a flush that fails.
fn wrong_move(slice: &[u8], vector: &mut Vec<u8>) -> Option<&'static str> {
    let mut reader = Std::new(slice);
    let mut writer = Std::new(vector);
    let mut buffer = [0u8; 3];
    for (name, bytes, count, held) in MOVES {
        let is_read = reader.read(&mut buffer) == Ok(*count) && buffer == **held;
        if !is_read || writer.write(*bytes) != Ok(bytes.len()) {
            return Some(*name);
        }
    }
    if writer.flush() == Ok(()) {
        None
    } else {
        Some("the flush")
    }
}

#[test]
fn reads_a_slice_and_writes_to_a_vector(rt: HostRuntime) -> Result<(), Fail> {
    let mut held = Vec::new(rt.alloc());
    let wrong = wrong_move(b"abcde", &mut held);
    let is_held = held.as_slice() == b"abcde".as_slice();
    check(wrong.is_none() && is_held, wrong.unwrap_or("what is held"))
}

/// A read and a write of five bytes, and a flush, each by a stream of its own.
#[derive(Clone, Copy)]
struct Call {
    name: &'static str,
    /// How often the stream is interrupted before it is called.
    times: u32,
    /// How many bytes a call moves at most.
    piece: usize,
    /// How many reads or writes there are before one fails. With none, a flush fails too.
    calls: u32,
    /// What the read answers, and what a buffer of eight bytes then holds.
    read: Result<usize, Failed>,
    held: &'static [u8; 8],
    /// What the write answers, and what is taken.
    write: Result<usize, Failed>,
    taken: &'static [u8],
    /// What the flush answers, and how many flushes the stream sees.
    flush: Result<(), Failed>,
    flushes: u32,
    /// How many interruptions are left of each stream.
    left: u32,
}

/// A call that is answered.
const ANSWERED: Call = Call {
    name: "answered",
    times: 0,
    piece: 9,
    calls: 1,
    read: Ok(5),
    held: b"abcde\0\0\0",
    write: Ok(5),
    taken: b"abcde",
    flush: Ok(()),
    flushes: 1,
    left: 0,
};

/// A call that fails.
const FAILED: Call = Call {
    read: Err(Failed),
    held: b"\0\0\0\0\0\0\0\0",
    write: Err(Failed),
    taken: b"",
    flush: Err(Failed),
    flushes: 0,
    ..ANSWERED
};

const CALLS: &[Call] = &[
    Call {
        name: "whole, and never interrupted",
        ..ANSWERED
    },
    Call {
        name: "two bytes at a time",
        piece: 2,
        read: Ok(2),
        held: b"ab\0\0\0\0\0\0",
        write: Ok(2),
        taken: b"ab",
        ..ANSWERED
    },
    Call {
        name: "no byte read, and none taken of some",
        piece: 0,
        read: Ok(0),
        held: b"\0\0\0\0\0\0\0\0",
        write: Err(Failed),
        taken: b"",
        ..ANSWERED
    },
    Call {
        name: "failing",
        calls: 0,
        flushes: 1,
        ..FAILED
    },
    Call {
        name: "interrupted once",
        times: 1,
        ..ANSWERED
    },
    Call {
        name: "interrupted twice",
        times: 2,
        ..ANSWERED
    },
    Call {
        name: "interrupted 999 times",
        times: 999,
        ..ANSWERED
    },
    Call {
        name: "interrupted 1,000 times",
        times: 1000,
        ..FAILED
    },
    Call {
        name: "interrupted without end",
        times: 9000,
        left: 8000,
        ..FAILED
    },
    Call {
        name: "interrupted once, and then it fails",
        times: 1,
        calls: 0,
        flushes: 1,
        ..FAILED
    },
];

/// Whether the read answers so.
fn is_read(call: &Call) -> bool {
    let few = FewBytes {
        bytes: b"abcde",
        piece: call.piece,
        calls: call.calls,
    };
    let mut reader = Interrupted {
        stream: few,
        times: call.times,
    };
    let mut buffer = [0u8; 8];
    let answer = Std::new(&mut reader).read(&mut buffer);
    answer == call.read && buffer == *call.held && reader.times == call.left
}

/// The writer of a call.
fn writer(alloc: Global, call: &Call) -> Interrupted<FewTaken> {
    Interrupted {
        stream: FewTaken::new(alloc, call.piece, call.calls, call.calls == 0),
        times: call.times,
    }
}

/// Whether the write answers so.
fn is_written(alloc: Global, call: &Call) -> bool {
    let mut writer = writer(alloc, call);
    let answer = Std::new(&mut writer).write(b"abcde");
    let taken = writer.stream.taken.as_slice();
    answer == call.write && taken == call.taken && writer.times == call.left
}

/// Whether the flush answers so.
fn is_flushed(alloc: Global, call: &Call) -> bool {
    let mut writer = writer(alloc, call);
    let answer = Std::new(&mut writer).flush();
    let flushes = writer.stream.flushes;
    answer == call.flush && flushes == call.flushes && writer.times == call.left
}

/// What of a call isn't answered so.
fn wrong_of(alloc: Global, call: &Call) -> Option<&'static str> {
    if !is_read(call) {
        return Some("the read");
    }
    if !is_written(alloc, call) {
        return Some("the write");
    }
    if is_flushed(alloc, call) {
        None
    } else {
        Some("the flush")
    }
}

#[test]
fn each_call_answers_as_the_stream_does(rt: HostRuntime) -> Result<(), Fail> {
    for call in CALLS {
        let wrong = wrong_of(rt.alloc(), call);
        check_of(wrong.is_none(), call.name, wrong.unwrap_or(""))?;
    }
    Ok(())
}

/// A writer, what writing these bytes whole to it answers, and what it then has taken.
#[derive(Drop)]
struct Whole {
    name: &'static str,
    bytes: &'static [u8],
    piece: usize,
    calls: u32,
    fails_to_flush: bool,
    answer: Result<(), Failed>,
    taken: &'static [u8],
    flushes: u32,
}

const WHOLES: &[Whole] = &[
    Whole {
        name: "at once",
        bytes: b"abcdefg",
        piece: 9,
        calls: 1,
        fails_to_flush: false,
        answer: Ok(()),
        taken: b"abcdefg",
        flushes: 1,
    },
    Whole {
        name: "three bytes a call",
        bytes: b"abcdefg",
        piece: 3,
        calls: 3,
        fails_to_flush: false,
        answer: Ok(()),
        taken: b"abcdefg",
        flushes: 1,
    },
    Whole {
        name: "fails at the third call",
        bytes: b"abcdefg",
        piece: 3,
        calls: 2,
        fails_to_flush: false,
        answer: Err(Failed),
        taken: b"abcdef",
        flushes: 0,
    },
    Whole {
        name: "fails at once",
        bytes: b"abcdefg",
        piece: 3,
        calls: 0,
        fails_to_flush: false,
        answer: Err(Failed),
        taken: b"",
        flushes: 0,
    },
    Whole {
        name: "takes none",
        bytes: b"abcdefg",
        piece: 0,
        calls: 9,
        fails_to_flush: false,
        answer: Err(Failed),
        taken: b"",
        flushes: 0,
    },
    Whole {
        name: "fails to flush",
        bytes: b"abcdefg",
        piece: 9,
        calls: 9,
        fails_to_flush: true,
        answer: Err(Failed),
        taken: b"abcdefg",
        flushes: 1,
    },
    Whole {
        name: "no bytes",
        bytes: b"",
        piece: 9,
        calls: 0,
        fails_to_flush: false,
        answer: Ok(()),
        taken: b"",
        flushes: 1,
    },
];

/// Whether writing the bytes whole answers so, and the writer then has taken so.
fn is_whole(alloc: Global, whole: &Whole) -> bool {
    let mut few = FewTaken::new(alloc, whole.piece, whole.calls, whole.fails_to_flush);
    let answer = write_all(&mut Std::new(&mut few), whole.bytes);
    let taken = few.taken.as_slice();
    answer == whole.answer && taken == whole.taken && few.flushes == whole.flushes
}

#[test]
fn writes_whole_bytes_and_flushes(rt: HostRuntime) -> Result<(), Fail> {
    for whole in WHOLES {
        check(is_whole(rt.alloc(), whole), whole.name)?;
    }
    Ok(())
}
