//! What a fault means, and what usually causes it: the sentences of docs/FAULTS.md.

use iso_parts::{BitmapCoding, CharClass, Coding, Digits, FieldFault, FieldSpec, Length};
use iso_wire::UnpackCause;

/// What a fault means, in a clause of a sentence.
pub fn sentence(cause: UnpackCause) -> &'static str {
    match cause {
        UnpackCause::Short => "the bytes end inside this piece",
        UnpackCause::BadMti => "the message type isn't four digits",
        UnpackCause::WrongVersion => "the type's first digit isn't the table's version",
        UnpackCause::BadHex => "the bitmap isn't of hexadecimal digits",
        UnpackCause::ThirdBitmap => "bit 65 is set",
        UnpackCause::UnknownElement(_) => "the bitmap has a bit without a row",
        UnpackCause::Memory => "there was no memory",
        UnpackCause::Field(fault) => field_sentence(fault),
    }
}

/// What the fault of a length or a body means.
fn field_sentence(fault: FieldFault) -> &'static str {
    match fault {
        FieldFault::BadLengthDigits => "the length isn't of digits",
        FieldFault::LengthOver => "the length is above the row's maximum",
        FieldFault::BadFiller => "the filler nibble is neither 0 nor F",
        FieldFault::BadHex => "the body isn't of hexadecimal digits",
        FieldFault::NotInClass => "a character isn't in the row's class",
        FieldFault::WrongLength => "the value's length is none that the row takes",
        FieldFault::PadEnd => "the pad byte stands at the value's padded end",
        FieldFault::Memory => "there was no memory",
    }
}

/// What usually causes a fault.
pub fn usual_cause(cause: UnpackCause) -> &'static str {
    match cause {
        UnpackCause::Short => "a cut input, a length too great, a bit too many",
        UnpackCause::BadMti => "another table, or a frame's header before the message",
        UnpackCause::WrongVersion => "a message of another version, or text under a BCD table",
        UnpackCause::BadHex => "raw bitmaps under a table with hexadecimal ones",
        UnpackCause::ThirdBitmap => "a wrong secondary bitmap",
        UnpackCause::UnknownElement(_) => "a table with too few rows, a bitmap of another coding",
        UnpackCause::Memory => "a limit of the process",
        UnpackCause::Field(fault) => usual_field_cause(fault),
    }
}

/// What usually causes the fault of a length or a body.
fn usual_field_cause(fault: FieldFault) -> &'static str {
    match fault {
        FieldFault::BadLengthDigits => "the length in another coding, a shift before it",
        FieldFault::LengthOver => "a shift before it, a maximum too small",
        FieldFault::BadFiller => "digits filled at the right end",
        FieldFault::BadHex => "raw bytes under a row with hexadecimal digits",
        FieldFault::NotInClass | FieldFault::WrongLength | FieldFault::PadEnd => {
            "a shift before it, a class too narrow"
        }
        FieldFault::Memory => "a limit of the process",
    }
}

/// The characters of a class.
pub(crate) fn class_words(class: CharClass) -> &'static str {
    match class {
        CharClass::N => "digits (n)",
        CharClass::A => "letters (a)",
        CharClass::AN => "letters and digits (an)",
        CharClass::ANS => "printable characters (ans)",
        CharClass::Z => "track characters (z)",
        CharClass::ZD => "track characters or D (z)",
        CharClass::XN => "C or D, and then digits (x+n)",
        CharClass::B => "any bytes (b)",
    }
}

/// How characters are written.
pub(crate) fn coding_words(coding: Coding) -> &'static str {
    match coding {
        Coding::Ascii => "in ASCII",
        Coding::Bcd => "in BCD",
        Coding::Raw => "as they are",
        Coding::HexText => "as hexadecimal digits",
    }
}

/// How digits are written.
pub(crate) fn digit_words(digits: Digits) -> &'static str {
    match digits {
        Digits::Ascii => "in ASCII",
        Digits::Bcd => "in BCD",
    }
}

/// How a message type is written.
pub(crate) fn type_words(digits: Digits) -> &'static str {
    match digits {
        Digits::Ascii => "four digits in ASCII, the first of them ",
        Digits::Bcd => "four digits in BCD, the first of them ",
    }
}

/// How a bitmap is written.
pub(crate) fn bitmap_words(coding: BitmapCoding) -> &'static str {
    match coding {
        BitmapCoding::Raw => "8 bytes of bits, each of an element that has a row",
        BitmapCoding::Hex => "16 hexadecimal digits of bits, each of an element that has a row",
    }
}

/// How many digits a length has, and how they are written.
pub(crate) fn length_words(row: &FieldSpec) -> &'static str {
    match row.length {
        Length::Fixed => "no length",
        Length::LL(Digits::Ascii) => "2 digits in ASCII",
        Length::LL(Digits::Bcd) => "2 digits in BCD",
        Length::LLL(Digits::Ascii) => "3 digits in ASCII",
        Length::LLL(Digits::Bcd) => "3 digits in BCD",
        Length::LLLL(Digits::Ascii) => "4 digits in ASCII",
        Length::LLLL(Digits::Bcd) => "4 digits in BCD",
    }
}
