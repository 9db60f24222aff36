//! Dumps as the programs write them, faulty texts, and inputs in pieces.

use super::checks::{check_bytes, is_shown};
use iso_fakes::check;
use iso_input::{InputFault, Window, append_hex, read_whole};
use std::alloc::Global;
use std::io;
use std::io::{ErrorKind, Read};
use std::test::Fail;

const BYTES: &[u8] = b"0200r8\0\0\0\0\x80\0\0\x000202";

/// The bytes as plain digits, and as `xxd`, `hexdump -C` and Wireshark dump them. The text of the last line reads as digits.
const TEXTS: &[&[u8]] = &[
    b"303230307238000000 0080000000303230 32\r\n",
    b"30:32:30:30:72:38:00:00:00:00:80:00:00:00:30:32:30:32",
    b"00000000: 3032 3030 7238 0000 0000 8000 0000 3032  0200r8........02\n\
      00000010: 3032                                     02\n",
    b"00000000  30 32 30 30 72 38 00 00  00 00 80 00 00 00 30 32  |0200r8........02|\n\
      00000010  30 32                                             |02|\n\
      00000012\n",
    b"\n0000   30 32 30 30 72 38 00 00 00 00 80 00 00 00 30 32   0200r8........02\n\
      0010   30 32                                             02\n",
];

/// Whether the text dumps the bytes.
fn is_dump(alloc: Global, text: &[u8]) -> bool {
    let mut out = Vec::new(alloc);
    append_hex(text, &mut out).is_ok() && out.as_slice() == BYTES
}

#[test]
fn texts(rt: HostRuntime) -> Result<(), Fail> {
    for text in TEXTS {
        check_bytes(is_dump(rt.alloc(), *text), *text)?;
    }
    Ok(())
}

/// Texts, and what is wrong with each.
const FAULTY: &[(&[u8], &str)] = &[
    (
        b"30\n3",
        "line 2, column 1: the digit stands alone, and a byte is two",
    ),
    (
        b"30\n 3x",
        "line 2, column 3: the byte 120 is no hexadecimal digit",
    ),
    (
        b"0000: 3030  00\n0003: 30",
        "line 2: the offset is 3, and 2 bytes stand before it",
    ),
    (
        b"0000  30 30\n*\n0020",
        "line 2, column 1: the byte 42 is no hexadecimal digit",
    ),
];

/// Whether that is wrong with the text.
fn is_faulty(alloc: Global, text: &[u8], wanted: &str) -> bool {
    let mut out = Vec::new(alloc);
    match append_hex(text, &mut out) {
        Ok(()) => false,
        Err(fault) => is_shown(alloc, &fault, wanted),
    }
}

#[test]
fn faults(rt: HostRuntime) -> Result<(), Fail> {
    for (text, wanted) in FAULTY {
        check(is_faulty(rt.alloc(), *text, *wanted), *wanted)?;
    }
    Ok(())
}

/// Gives one byte a read, and fails where `fails` bytes are left.
#[derive(Drop)]
struct Bytes {
    bytes: &'static [u8],
    fails: usize,
}

impl Read for Bytes {
    fn read(&mut self, buffer: &mut [u8]) -> io::Result<usize> {
        if self.bytes.len() == self.fails {
            return Err(io::Error::from(ErrorKind::BrokenPipe));
        }
        match (self.bytes, buffer) {
            ([first, rest @ ..], [place, ..]) => {
                *place = *first;
                self.bytes = rest;
                Ok(1)
            }
            _ => Ok(0),
        }
    }
}

/// Whether an input is read whole.
fn is_read_whole(alloc: Global) -> bool {
    let mut input = Bytes {
        bytes: b"0200",
        fails: 9,
    };
    match read_whole(alloc, &mut input, 4) {
        Ok(bytes) => bytes.as_slice() == b"0200".as_slice(),
        Err(_) => false,
    }
}

/// Whether more is read, and these bytes are held then.
fn is_read(window: &mut Window<Bytes>, held: &[u8]) -> bool {
    window.read_more() == Ok(true) && window.held() == held
}

/// Whether the first byte is let go, and these bytes are held then.
fn is_let_go(window: &mut Window<Bytes>, held: &[u8]) -> bool {
    if window.held().is_empty() {
        return false;
    }
    window.drop_front(1);
    window.held() == held
}

/// Whether nothing more can be read, and these bytes are held then.
fn is_refused(window: &mut Window<Bytes>, held: &[u8]) -> bool {
    window.read_more() == Err(InputFault::Read) && window.held() == held
}

/// Whether bytes come one by one, and those that are held stay where nothing more can be read.
fn is_held(window: &mut Window<Bytes>) -> bool {
    is_read(window, b"0")
        && is_read(window, b"02")
        && is_let_go(window, b"2")
        && is_read(window, b"21")
        && is_refused(window, b"21")
}

#[test]
fn inputs(rt: HostRuntime) -> Result<(), Fail> {
    check(is_read_whole(rt.alloc()), "an input that is read whole")?;
    let input = Bytes {
        bytes: b"0210",
        fails: 1,
    };
    let mut window = Window::new(rt.alloc(), input);
    check(is_held(&mut window), "an input in pieces")
}
