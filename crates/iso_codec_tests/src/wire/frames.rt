//! Frames whose bytes are known from outside.

use super::*;
use iso_wire::FrameFault::{BadDigits, TooLong};
use iso_wire::Framed::{Got, More};
use iso_wire::Header::{Ascii4, Bcd2, Binary2};
use iso_wire::{
    FrameFault, Framed, Header, append_frame, body_length, close_frame, frame, open_frame, unframe,
};

/// A header before a body of so many bytes, and its bytes.
type FrameCase = (
    &'static str,
    Header,
    usize,
    Result<&'static [u8], FrameFault>,
);

const FRAMES: &[FrameCase] = &[
    ("two bytes before 10,000", Binary2, 10_000, Ok(b"\x27\x10")),
    ("four digits before 10,000", Ascii4, 10_000, Err(TooLong)),
    (
        "two bytes of digits before 10,000",
        Bcd2,
        10_000,
        Err(TooLong),
    ),
    ("four digits before 9,999", Ascii4, 9_999, Ok(b"9999")),
    (
        "two bytes of digits before 9,999",
        Bcd2,
        9_999,
        Ok(b"\x99\x99"),
    ),
    ("two bytes before 65,535", Binary2, 65_535, Ok(b"\xFF\xFF")),
    ("two bytes before 65,536", Binary2, 65_536, Err(TooLong)),
    ("two bytes before an echo", Binary2, 55, Ok(b"\x00\x37")),
    ("four digits before an echo", Ascii4, 55, Ok(b"0055")),
    (
        "two bytes of digits before an echo",
        Bcd2,
        55,
        Ok(b"\x00\x55"),
    ),
    ("two bytes before nothing", Binary2, 0, Ok(b"\x00\x00")),
    ("four digits before nothing", Ascii4, 0, Ok(b"0000")),
    ("four digits before one byte", Ascii4, 1, Ok(b"0001")),
    ("two bytes before 10,002", Binary2, 10_002, Ok(b"\x27\x12")),
];

/// Whether some bytes are that whole header and the body.
fn is_frame(bytes: &[u8], header: Header, front: &[u8], body: &[u8]) -> bool {
    front.len() == header.size() && bytes.strip_prefix(front) == Some(body)
}

/// Whether a body is framed so, or refused so.
fn is_framed(alloc: Global, header: Header, body: &[u8], want: Result<&[u8], FrameFault>) -> bool {
    match (frame(alloc, header, body), want) {
        (Ok(bytes), Ok(front)) => is_frame(&bytes, header, front, body),
        (Err(fault), Err(other)) => fault == other,
        _ => false,
    }
}

/// Whether a frame is appended so to `ab`, or is refused so, and `ab` alone is left.
fn is_appended(
    header: Header,
    body: &[u8],
    want: Result<&[u8], FrameFault>,
    out: &mut Vec<u8>,
) -> bool {
    out.truncate(2);
    match (append_frame(header, body, out), want) {
        (Ok(()), Ok(front)) => match out.strip_prefix(b"ab") {
            Some(bytes) => is_frame(bytes, header, front, body),
            None => false,
        },
        (Err(fault), Err(other)) => fault == other && out.as_slice() == b"ab".as_slice(),
        _ => false,
    }
}

/// Whether the body of an open frame gets that header, or is refused so, and stays behind the open room.
fn is_closed(
    header: Header,
    body: &[u8],
    want: Result<&[u8], FrameFault>,
    opened: &mut [u8],
) -> bool {
    if opened.len() < header.size() {
        return false;
    }
    match (close_frame(header, opened), want) {
        (Ok(()), Ok(front)) => is_frame(opened, header, front, body),
        (Err(fault), Err(other)) => {
            fault == other && is_frame(opened, header, &[0; 4][..header.size()], body)
        }
        _ => false,
    }
}

/// Whether a frame is so behind `ab` and room for its header.
fn is_closed_in(
    header: Header,
    body: &[u8],
    want: Result<&[u8], FrameFault>,
    out: &mut Vec<u8>,
) -> bool {
    out.truncate(2);
    open_frame(header, out).is_ok()
        && out.extend_from_slice(body).is_ok()
        && out.len() >= 2
        && is_closed(header, body, want, &mut out.as_mut_slice()[2..])
}

/// That bodies of so many bytes are framed so, by each call.
fn check_frames(alloc: Global, bytes: &[u8], out: &mut Vec<u8>) -> Result<(), Fail> {
    for (name, header, length, want) in FRAMES {
        let body = &bytes[..(*length).min(bytes.len())];
        let is_so = is_framed(alloc, *header, body, *want)
            && is_appended(*header, body, *want, out)
            && is_closed_in(*header, body, *want, out);
        check(is_so, *name)?;
    }
    Ok(())
}

/// What is read of the front of some bytes.
#[derive(Clone, Copy)]
enum Front<'a> {
    Frame(Result<Framed<'a>, FrameFault>),
    /// The length that the header tells.
    Length(Result<Option<usize>, FrameFault>),
}

use Front::{Frame, Length};

/// Bytes, and what stands at their front.
type Fronted = (&'static str, Header, &'static [u8], Front<'static>);

const FRONTS: &[Fronted] = &[
    ("no bytes", Binary2, b"", Frame(Ok(More))),
    ("half a header", Bcd2, b"\x00", Frame(Ok(More))),
    (
        "a header not of digits",
        Bcd2,
        b"\x00\x5A",
        Frame(Err(BadDigits)),
    ),
    (
        "an empty body",
        Bcd2,
        b"\x00\x00",
        Frame(Ok(Got { body: b"", used: 2 })),
    ),
    (
        "a body of 10",
        Bcd2,
        b"\x00\x100123456789",
        Frame(Ok(Got {
            body: b"0123456789",
            used: 12,
        })),
    ),
    (
        "half a header with a letter",
        Ascii4,
        b"00x",
        Frame(Ok(More)),
    ),
    (
        "a header with a letter",
        Ascii4,
        b"00x5",
        Frame(Err(BadDigits)),
    ),
    (
        "a body and more",
        Ascii4,
        b"0002abcd",
        Frame(Ok(Got {
            body: b"ab",
            used: 6,
        })),
    ),
    (
        "a body without its end",
        Ascii4,
        b"0005abcd",
        Frame(Ok(More)),
    ),
    (
        "bytes that are no digits",
        Binary2,
        b"\x00\x0Aabcdefghij",
        Frame(Ok(Got {
            body: b"abcdefghij",
            used: 12,
        })),
    ),
    (
        "a high byte alone",
        Binary2,
        b"\x01\x00abcdefghij",
        Frame(Ok(More)),
    ),
    ("no bytes of a header", Ascii4, b"", Length(Ok(None))),
    (
        "half a header alone, with a letter",
        Ascii4,
        b"00x",
        Length(Ok(None)),
    ),
    (
        "a header alone, with a letter",
        Ascii4,
        b"00x5",
        Length(Err(BadDigits)),
    ),
    ("a header alone", Ascii4, b"0055", Length(Ok(Some(55)))),
    (
        "a header and a part of the body",
        Ascii4,
        b"00550800",
        Length(Ok(Some(55))),
    ),
    ("two bytes", Binary2, b"\xFF\xFE", Length(Ok(Some(65_534)))),
    (
        "two bytes of digits",
        Bcd2,
        b"\x12\x34\x56",
        Length(Ok(Some(1234))),
    ),
    (
        "two bytes not of digits",
        Bcd2,
        b"\x12\x3A",
        Length(Err(BadDigits)),
    ),
    (
        "the length 10,000 in two bytes",
        Binary2,
        b"\x27\x10",
        Length(Ok(Some(10_000))),
    ),
    (
        "the length 55 in four digits",
        Ascii4,
        b"0055",
        Length(Ok(Some(55))),
    ),
    (
        "the length 55 in two bytes of digits",
        Bcd2,
        b"\x00\x55",
        Length(Ok(Some(55))),
    ),
    (
        "a nibble that is no digit",
        Bcd2,
        b"\x00\x5A",
        Length(Err(BadDigits)),
    ),
    ("three digits", Ascii4, b"055", Length(Ok(None))),
    (
        "an echo behind two bytes, and no more",
        Binary2,
        b"\x00\x370800822000000000000004000000000000000102030405000001301",
        Frame(Ok(Got {
            body: ECHO,
            used: 57,
        })),
    ),
    (
        "an echo behind four digits",
        Ascii4,
        b"00550800822000000000000004000000000000000102030405000001301",
        Frame(Ok(Got {
            body: ECHO,
            used: 59,
        })),
    ),
    (
        "an echo behind two bytes of digits",
        Bcd2,
        b"\x00\x550800822000000000000004000000000000000102030405000001301",
        Frame(Ok(Got {
            body: ECHO,
            used: 57,
        })),
    ),
    (
        "nothing behind two bytes",
        Binary2,
        b"\x00\x00",
        Frame(Ok(Got { body: b"", used: 2 })),
    ),
    (
        "nothing behind four digits",
        Ascii4,
        b"0000",
        Frame(Ok(Got { body: b"", used: 4 })),
    ),
];

/// Whether that is read of the front of the bytes.
fn is_front(header: Header, bytes: &[u8], front: Front<'_>) -> bool {
    match front {
        Frame(framed) => unframe(header, bytes) == framed,
        Length(length) => body_length(header, bytes) == length,
    }
}

/// That all is read of the fronts.
fn check_fronts() -> Result<(), Fail> {
    for (name, header, bytes, front) in FRONTS {
        check(is_front(*header, bytes, *front), *name)?;
    }
    check(Binary2.limit() == 65_535, "the limit of two bytes")
}

#[test]
fn frames_are_written_and_read(rt: HostRuntime) -> Result<(), Fail> {
    check_fronts()?;
    let bytes = vec![in rt.alloc(); b'x'; 65_536]?;
    let mut out = vec![in rt.alloc(); b'a', b'b']?;
    check_frames(rt.alloc(), &bytes, &mut out)
}
