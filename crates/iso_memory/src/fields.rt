//! The calls on fields and bitmaps.

use crate::ended::Ended;
use iso_parts::raw::{decode_judged, decode_value};
use iso_parts::{
    Bitmap, BitmapCoding, CharClass, Coding, Digits, FieldFault, FieldSpec, Judged, Length, Pad,
    Step, decode_field, encode_field, judge_field,
};
use std::alloc::Global;

/// An account number in BCD behind its length, as element 2 is.
const ACCOUNT: FieldSpec = FieldSpec {
    class: CharClass::N,
    coding: Coding::Bcd,
    length: Length::LL(Digits::Bcd),
    max: 19,
    pad: Pad::None,
};

/// Track data in BCD behind its length.
const TRACK: FieldSpec = FieldSpec {
    class: CharClass::Z,
    coding: Coding::Bcd,
    length: Length::LL(Digits::Bcd),
    max: 37,
    pad: Pad::None,
};

/// Two pads before each value of four digits.
const PADDED: FieldSpec = FieldSpec {
    class: CharClass::N,
    coding: Coding::Ascii,
    length: Length::Fixed,
    max: 6,
    pad: Pad::Left(0x30),
};

/// A vector that has a byte.
fn vector_of_one(alloc: Global) -> Option<Vec<u8>> {
    Vec::from_array(alloc, [7u8]).ok()
}

/// A value, and the part that stands for it behind a byte.
fn encodes(alloc: Global, spec: &FieldSpec, value: &[u8], part: &[u8]) -> Ended {
    let Some(mut out) = vector_of_one(alloc) else {
        return Ended::Unready;
    };
    if spec.good().is_err() {
        return Ended::Wrong;
    }
    let mut told = encode_field(spec, value, &mut out);
    let was_refused = told == Err(FieldFault::Memory);
    if was_refused {
        if out.as_slice() != b"\x07".as_slice() {
            return Ended::Wrong;
        }
        told = encode_field(spec, value, &mut out);
    }
    let is_right = told.is_ok() && out.as_slice() == part;
    Ended::of(was_refused, is_right)
}

/// Bytes, the value that they tell, and how many are used.
fn decodes(alloc: Global, spec: &FieldSpec, bytes: &[u8], wanted: &[u8], size: usize) -> Ended {
    if spec.good().is_err() {
        return Ended::Wrong;
    }
    let mut told = decode_field(alloc, spec, bytes);
    let was_refused = matches!(&told, Err(FieldFault::Memory));
    if was_refused {
        told = decode_field(alloc, spec, bytes);
    }
    let is_right =
        matches!(&told, Ok(Step::Got { value, used }) if value.as_slice() == wanted && *used == size);
    Ended::of(was_refused, is_right)
}

/// The value that the bytes tell, behind a byte.
fn decodes_a_value(alloc: Global, bytes: &[u8], wanted: &[u8]) -> Ended {
    let Some(mut out) = vector_of_one(alloc) else {
        return Ended::Unready;
    };
    if ACCOUNT.good().is_err() {
        return Ended::Wrong;
    }
    let mut told = decode_value(&ACCOUNT, bytes, &mut out);
    let was_refused = told == Err(FieldFault::Memory);
    if was_refused {
        if out.as_slice() != b"\x07".as_slice() {
            return Ended::Wrong;
        }
        told = decode_value(&ACCOUNT, bytes, &mut out);
    }
    let is_right = told == Ok(Some(bytes.len())) && out.as_slice() == wanted;
    Ended::of(was_refused, is_right)
}

/// The value of a part that is judged good, behind a byte.
fn decodes_judged(alloc: Global, spec: &FieldSpec, bytes: &[u8], wanted: &[u8]) -> Ended {
    let Some(mut out) = vector_of_one(alloc) else {
        return Ended::Unready;
    };
    if spec.good().is_err() {
        return Ended::Wrong;
    }
    let Ok(Judged::Got { .. }) = judge_field(spec, bytes) else {
        return Ended::Wrong;
    };
    let mut told = decode_judged(spec, bytes, &mut out);
    let was_refused = told.is_err();
    if was_refused {
        if out.as_slice() != b"\x07".as_slice() {
            return Ended::Wrong;
        }
        told = decode_judged(spec, bytes, &mut out);
    }
    let is_right = matches!(&told, Ok(used) if *used == bytes.len()) && out.as_slice() == wanted;
    Ended::of(was_refused, is_right)
}

/// The bitmap of element 7, in hexadecimal digits behind a byte.
fn appends_a_bitmap(alloc: Global) -> Ended {
    let Some(mut out) = vector_of_one(alloc) else {
        return Ended::Unready;
    };
    let mut numbers = Bitmap::new();
    numbers.set(7);
    let mut told = numbers.append(BitmapCoding::Hex, &mut out);
    let was_refused = told.is_err();
    if was_refused {
        if out.as_slice() != b"\x07".as_slice() {
            return Ended::Wrong;
        }
        told = numbers.append(BitmapCoding::Hex, &mut out);
    }
    let is_right = told.is_ok() && out.as_slice() == b"\x070200000000000000".as_slice();
    Ended::of(was_refused, is_right)
}

/// These calls by name, and how each ended.
pub fn rows(alloc: Global) -> [(&'static str, Ended); 10] {
    let digits = b"378282246310005";
    let account = b"\x15\x03\x78\x28\x22\x46\x31\x00\x05";
    let behind = b"\x07\x15\x03\x78\x28\x22\x46\x31\x00\x05";
    let value = b"\x07378282246310005";
    let padded = b"\x07000012";
    let track = b"\x07\x03\x04\xd1";
    let part = &track[1..];
    [
        ("encode_field", encodes(alloc, &ACCOUNT, digits, behind)),
        ("encode_field", encodes(alloc, &PADDED, b"12", padded)),
        ("encode_field", encodes(alloc, &TRACK, b"4=1", track)),
        ("decode_field", decodes(alloc, &ACCOUNT, account, digits, 9)),
        ("decode_field", decodes(alloc, &PADDED, b"000012", b"12", 6)),
        ("decode_field", decodes(alloc, &TRACK, part, b"4=1", 3)),
        ("decode_value", decodes_a_value(alloc, account, value)),
        (
            "decode_judged",
            decodes_judged(alloc, &ACCOUNT, account, value),
        ),
        (
            "decode_judged",
            decodes_judged(alloc, &PADDED, b"000012", b"\x0712"),
        ),
        ("Bitmap::append", appends_a_bitmap(alloc)),
    ]
}
