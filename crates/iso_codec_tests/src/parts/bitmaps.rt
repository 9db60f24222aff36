//! Sets of element numbers, and their bytes.

use super::*;
use iso_parts::BitmapCoding::{Hex, Raw};

/// The set of these numbers.
fn set_of(numbers: &[u8]) -> Bitmap {
    let mut bits = Bitmap::new();
    for n in numbers {
        if (2..=128).contains(n) && *n != 65 {
            bits.set(*n);
        }
    }
    bits
}

/// The set of two words.
fn set_of_words(words: [u64; 2]) -> Bitmap {
    let [primary, secondary] = words;
    if tells_another(secondary) {
        Bitmap::new()
    } else {
        Bitmap::from_words(primary, secondary)
    }
}

/// A set, two words of it, the first with or without its first bit, the bytes that stand for it, with more bytes behind, and
/// its highest number.
struct SetCase {
    name: &'static str,
    numbers: &'static [u8],
    words: [u64; 2],
    raw: &'static [u8],
    digits: &'static [u8],
    highest: u8,
}

const SETS: &[SetCase] = &[
    SetCase {
        name: "the echo test",
        numbers: &[7, 11, 70],
        words: [0x0220_0000_0000_0000, 0x0400_0000_0000_0000],
        raw: b"\x82\x20\0\0\0\0\0\0\x04\0\0\0\0\0\0\0more",
        digits: b"82200000000000000400000000000000more",
        highest: 70,
    },
    SetCase {
        name: "no element",
        numbers: &[],
        words: [0, 0],
        raw: b"\0\0\0\0\0\0\0\0more",
        digits: b"0000000000000000more",
        highest: 0,
    },
    SetCase {
        name: "the ends of both",
        numbers: &[2, 64, 66, 128],
        words: [0x4000_0000_0000_0001, 0x4000_0000_0000_0001],
        raw: b"\xC0\0\0\0\0\0\0\x01\x40\0\0\0\0\0\0\x01more",
        digits: b"C0000000000000014000000000000001more",
        highest: 128,
    },
    SetCase {
        name: "one bitmap",
        numbers: &[2, 3, 4, 7, 11, 32, 49],
        words: [0x7220_0001_0000_8000, 0],
        raw: b"\x72\x20\0\x01\0\0\x80\0more",
        digits: b"7220000100008000more",
        highest: 49,
    },
    SetCase {
        name: "without the first bit of the first word",
        numbers: &[2, 7, 64, 66, 70, 128],
        words: [0xC200_0000_0000_0001, 0x4400_0000_0000_0001],
        raw: b"\xC2\0\0\0\0\0\0\x01\x44\0\0\0\0\0\0\x01more",
        digits: b"C2000000000000014400000000000001more",
        highest: 128,
    },
    SetCase {
        name: "the first word alone",
        numbers: &[7],
        words: [0x0200_0000_0000_0000, 0],
        raw: b"\x02\0\0\0\0\0\0\0more",
        digits: b"0200000000000000more",
        highest: 7,
    },
    SetCase {
        name: "the second word alone",
        numbers: &[70],
        words: [0, 0x0400_0000_0000_0000],
        raw: b"\x80\0\0\0\0\0\0\0\x04\0\0\0\0\0\0\0more",
        digits: b"80000000000000000400000000000000more",
        highest: 70,
    },
];

/// Whether the numbers are the ones that are taken out of the words, one after the other, each way.
fn are_taken(words: [u64; 2], numbers: &[u8]) -> bool {
    let mut set = set_of_words(words);
    let mut others = set;
    for n in numbers {
        if !(2..=128).contains(n) || *n == 65 || set.take_first() != Some(*n) {
            return false;
        }
        others.unset(*n);
        if others.has(*n) {
            return false;
        }
    }
    set.take_first() == None && others == Bitmap::new()
}

/// Whether the words make the set of these numbers.
fn is_of_words(case: &SetCase) -> bool {
    let set = set_of_words(case.words);
    set == set_of(case.numbers)
        && set.count() == case.numbers.len()
        && set.highest() == case.highest
        && are_taken(case.words, case.numbers)
}

/// Whether the set is written into room as these bytes, and the room behind them stays as it was.
fn is_written(numbers: &[u8], raw: &[u8]) -> bool {
    let mut out = [0xEE; 16];
    let used = set_of(numbers).write_raw(&mut out);
    raw.strip_prefix(&out[..used]) == Some(b"more".as_slice()) && out[used..] == [0xEE; 16][used..]
}

/// What stands at the front of the bytes under the coding.
fn read(coding: BitmapCoding, bytes: &[u8]) -> Result<BitmapStep, BitmapFault> {
    match coding {
        Raw => Bitmap::read_raw(bytes),
        Hex => Bitmap::read_hex(bytes),
    }
}

/// Whether so many of the bytes are read as the set of these numbers.
fn is_got(coding: BitmapCoding, bytes: &[u8], numbers: &[u8], used: usize) -> bool {
    let bits = set_of(numbers);
    read(coding, bytes) == Ok(BitmapStep::Got { bits, used })
}

/// Whether the set is written as the bytes but for the four behind them, and is read of them, with those or alone.
fn is_coded(coding: BitmapCoding, numbers: &[u8], longer: &[u8], out: &mut Vec<u8>) -> bool {
    let used = longer.len().saturating_sub(4);
    let bytes = &longer[..used];
    out.truncate(2);
    set_of(numbers).append(coding, out).is_ok()
        && out.strip_prefix(b"ab") == Some(bytes)
        && is_got(coding, bytes, numbers, used)
        && is_got(coding, longer, numbers, used)
}

/// Whether a set is made of its words, and is written and read under each coding, behind the bytes `ab`.
fn is_set(case: &SetCase, out: &mut Vec<u8>) -> bool {
    is_of_words(case)
        && is_written(case.numbers, case.raw)
        && is_coded(Raw, case.numbers, case.raw, out)
        && is_coded(Hex, case.numbers, case.digits, out)
}

/// That each set is so.
pub(super) fn check_sets(out: &mut Vec<u8>) -> Result<(), Fail> {
    for case in SETS {
        check(is_set(case, out), case.name)?;
    }
    Ok(())
}

/// What is told of sets, bitmaps and numbers.
#[derive(Clone, Copy)]
pub(super) enum SetFact {
    /// Whether a set has the numbers 2, 64, 66 and 128 and no others.
    Same(&'static [u8], bool),
    /// How many of the numbers 2, 7, 64, 66, 70 and 128 are below one.
    Below(u8, usize),
    /// The least of a set's numbers that is none of 2, 7, 64, 66 and 70.
    Missing(&'static [u8], Option<u8>),
    /// Whether a set has a number.
    Has(&'static [u8], u8, bool),
    /// The word of one bitmap.
    Word(BitmapCoding, &'static [u8], Option<u64>),
    /// Whether a bitmap's word tells of one more bitmap.
    Another(u64, bool),
    /// Whether an element may have the number.
    Element(u16, bool),
    /// The set of all of the bytes.
    Got(BitmapCoding, &'static [u8], &'static [u8]),
    /// That bytes are missing.
    More(BitmapCoding, &'static [u8]),
    /// Where bytes are no bitmap, and why.
    Refused(BitmapCoding, &'static [u8], usize, BitmapCause),
}

use SetFact::{Another, Below, Element, Got, Has, Missing, More, Refused, Same, Word};

pub(super) const FACTS: &[(&'static str, Told)] = &[
    ("the same numbers", Told::Set(Same(&[2, 64, 66, 128], true))),
    (
        "one less in the first word",
        Told::Set(Same(&[2, 66, 128], false)),
    ),
    (
        "one less in the second word",
        Told::Set(Same(&[2, 64, 66], false)),
    ),
    ("one more", Told::Set(Same(&[2, 7, 64, 66, 128], false))),
    ("below the lowest", Told::Set(Below(2, 0))),
    ("below one that is there", Told::Set(Below(7, 1))),
    ("below one that is not", Told::Set(Below(8, 2))),
    ("below the last of the first word", Told::Set(Below(64, 2))),
    (
        "below the first of the second word",
        Told::Set(Below(65, 3)),
    ),
    ("below one of the second word", Told::Set(Below(70, 4))),
    (
        "below the last of the second word",
        Told::Set(Below(128, 5)),
    ),
    ("none is missing of none", Told::Set(Missing(&[], None))),
    (
        "none of all of them",
        Told::Set(Missing(&[2, 7, 64, 66, 70], None)),
    ),
    ("none of one of each", Told::Set(Missing(&[7, 70], None))),
    (
        "a low one is missing",
        Told::Set(Missing(&[2, 6, 7, 63], Some(6))),
    ),
    (
        "a high one is missing",
        Told::Set(Missing(&[2, 67, 70, 128], Some(67))),
    ),
    ("the seventh bit", Told::Set(Has(&[7], 7, true))),
    (
        "the seventh bit from the end",
        Told::Set(Has(&[7], 58, false)),
    ),
    (
        "the word of raw bytes",
        Told::Set(Word(Raw, b"\x82\x20\0\0\0\0\0\x01", Some(0x8220_0000_0000_0001))),
    ),
    (
        "the word of digits",
        Told::Set(Word(Hex, b"8220000000000001", Some(0x8220_0000_0000_0001))),
    ),
    (
        "no word of a blank",
        Told::Set(Word(Hex, b"82200000000000 1", None)),
    ),
    ("a word of no bit", Told::Set(Another(0, false))),
    (
        "a word of all bits but the first",
        Told::Set(Another(0x7FFF_FFFF_FFFF_FFFF, false)),
    ),
    (
        "a word of the first bit alone",
        Told::Set(Another(0x8000_0000_0000_0000, true)),
    ),
    (
        "a word of all bits",
        Told::Set(Another(0xFFFF_FFFF_FFFF_FFFF, true)),
    ),
    ("number 0", Told::Set(Element(0, false))),
    ("the first bit", Told::Set(Element(1, false))),
    ("the account number", Told::Set(Element(2, true))),
    (
        "the last of the primary bitmap",
        Told::Set(Element(64, true)),
    ),
    ("the bit of a third bitmap", Told::Set(Element(65, false))),
    (
        "the first of the secondary bitmap",
        Told::Set(Element(66, true)),
    ),
    ("the last number", Told::Set(Element(128, true))),
    ("one more than the last", Told::Set(Element(129, false))),
    ("seven bytes", Told::Set(More(Raw, b"\0\0\0\0\0\0\0"))),
    (
        "seven of a second bitmap",
        Told::Set(More(Raw, b"\x80\0\0\0\0\0\0\0\x80\0\0\0\0\0\0")),
    ),
    (
        "a third bitmap",
        Told::Set(Refused(
            Raw,
            b"\x80\0\0\0\0\0\0\0\x80\0\0\0\0\0\0\0",
            8,
            BitmapCause::ThirdBitmap,
        )),
    ),
    (
        "digits in lower case",
        Told::Set(Got(Hex, b"022a000000000000", &[7, 11, 13, 15])),
    ),
    ("fifteen digits", Told::Set(More(Hex, b"022a00000000000"))),
    (
        "G is no digit",
        Told::Set(Refused(Hex, b"022A00000000000G", 0, BitmapCause::BadHex)),
    ),
    (
        "x in the second bitmap",
        Told::Set(Refused(
            Hex,
            b"8000000000000000x000000000000000",
            16,
            BitmapCause::BadHex,
        )),
    ),
    (
        "a third bitmap of digits",
        Told::Set(Refused(
            Hex,
            b"80000000000000008000000000000000",
            16,
            BitmapCause::ThirdBitmap,
        )),
    ),
];

/// Whether so many of the numbers are below that one.
fn are_below(numbers: &[u8], n: u8, count: usize) -> bool {
    (2..=128).contains(&n) && set_of(numbers).count_below(n) == count
}

/// Whether that is told.
pub(super) fn is_fact(fact: SetFact) -> bool {
    match fact {
        Same(numbers, is_so) => set_of(&[2, 64, 66, 128]).equals(&set_of(numbers)) == is_so,
        Below(n, count) => are_below(&[2, 7, 64, 66, 70, 128], n, count),
        Missing(numbers, missing) => {
            set_of(numbers).missing_from(&set_of(&[2, 7, 64, 66, 70])) == missing
        }
        Has(numbers, n, is_so) => set_of(numbers).has(n) == is_so,
        Word(coding, bytes, word) => bytes.len() == coding.size() && coding.word(bytes) == word,
        Another(word, is_so) => tells_another(word) == is_so,
        Element(number, is_so) => is_element(number) == is_so,
        Got(coding, bytes, numbers) => is_got(coding, bytes, numbers, bytes.len()),
        More(coding, bytes) => read(coding, bytes) == Ok(BitmapStep::More),
        Refused(coding, bytes, at, cause) => {
            read(coding, bytes) == Err(BitmapFault { at, cause })
        }
    }
}
