//! The numbers of faults, and what is shown of them.

use iso_fakes::check;
use iso_parts::{BitmapCause, BitmapFault, FieldFault, SpecFault};
use iso_table::{HostTableFault, NoMemory, TableFault};
use iso_wire::{FrameFault, PackFault, SetFault, UnpackCause, UnpackFault};
use std::alloc::Global;
use std::fmt::{Debug, Display};
use std::test::*;

/// Whether that is what is shown of it.
pub(super) fn is_shown(alloc: Global, value: &impl Display, want: &str) -> bool {
    match format!(in alloc; "{value}") {
        Ok(text) => text.as_str() == want,
        Err(_) => false,
    }
}

/// Whether that is what is shown of it for debugging.
pub(super) fn is_debugged(alloc: Global, value: &impl Debug, want: &str) -> bool {
    match format!(in alloc; "{value:?}") {
        Ok(text) => text.as_str() == want,
        Err(_) => false,
    }
}

/// Each fault that has a number.
enum Numbered {
    Field(FieldFault),
    Row(SpecFault),
    /// Of a bitmap at 8.
    Map(BitmapCause),
    Table(TableFault),
    Host(HostTableFault),
    Set(SetFault),
    Pack(PackFault),
    /// Of element 2 at 20.
    Unpack(UnpackCause),
    Frame(FrameFault),
}

use Numbered::{Field, Frame, Host, Map, Pack, Row, Set, Table, Unpack};

/// A fault, its number, and what is shown of it.
const NUMBERS: &[(&str, Numbered, u8, &str)] = &[
    (
        "wrong length",
        Field(FieldFault::WrongLength),
        1,
        "wrong length",
    ),
    (
        "a character isn't in the class",
        Field(FieldFault::NotInClass),
        2,
        "a character isn't in the class",
    ),
    (
        "the pad byte stands at the value's end",
        Field(FieldFault::PadEnd),
        3,
        "the pad byte stands at the value's end",
    ),
    (
        "the length isn't of digits",
        Field(FieldFault::BadLengthDigits),
        4,
        "the length isn't of digits",
    ),
    (
        "the length is above the maximum",
        Field(FieldFault::LengthOver),
        5,
        "the length is above the maximum",
    ),
    (
        "the filler is neither 0 nor F",
        Field(FieldFault::BadFiller),
        6,
        "the filler is neither 0 nor F",
    ),
    (
        "the body isn't of hexadecimal digits",
        Field(FieldFault::BadHex),
        7,
        "the body isn't of hexadecimal digits",
    ),
    (
        "memory ran out",
        Field(FieldFault::Memory),
        8,
        "memory ran out",
    ),
    (
        "the maximum is out of range",
        Row(SpecFault::BadMax),
        1,
        "the maximum is out of range",
    ),
    (
        "the coding doesn't go with the class",
        Row(SpecFault::CodingClass),
        2,
        "the coding doesn't go with the class",
    ),
    (
        "padding isn't allowed here",
        Row(SpecFault::PadNotAllowed),
        3,
        "padding isn't allowed here",
    ),
    (
        "bitmap at 8: a byte is no hexadecimal digit",
        Map(BitmapCause::BadHex),
        1,
        "bitmap at 8: a byte is no hexadecimal digit",
    ),
    (
        "bitmap at 8: a third bitmap",
        Map(BitmapCause::ThirdBitmap),
        2,
        "bitmap at 8: a third bitmap",
    ),
    (
        "NotJson",
        Table(TableFault::NotJson),
        1,
        "the text is no JSON",
    ),
    (
        "Shape",
        Table(TableFault::Shape),
        2,
        "a member is missing, unknown or of another kind",
    ),
    (
        "BadVersion",
        Table(TableFault::BadVersion),
        3,
        "the version is none of 0, 1, 2 and 9",
    ),
    (
        "BadNumber",
        Table(TableFault::BadNumber(65)),
        4,
        "there is no element 65",
    ),
    (
        "Twice",
        Table(TableFault::Twice(2)),
        5,
        "element 2 has two rows",
    ),
    (
        "BadMax",
        Table(TableFault::BadMax(2)),
        6,
        "element 2 has a maximum that its length cannot tell",
    ),
    (
        "CodingClass",
        Table(TableFault::CodingClass(2)),
        7,
        "element 2 has a coding that its class does not take",
    ),
    (
        "PadNotAllowed",
        Table(TableFault::PadNotAllowed(2)),
        8,
        "element 2 has a padding that it may not have",
    ),
    (
        "Profile",
        Table(TableFault::Profile),
        9,
        "the profile is neither 1 nor 2",
    ),
    ("Memory", Table(TableFault::Memory), 10, "memory ran out"),
    (
        "host NotVersion0",
        Host(HostTableFault::NotVersion0),
        1,
        "the version isn't 0",
    ),
    (
        "host NoRow",
        Host(HostTableFault::NoRow(2)),
        2,
        "element 2 has no row",
    ),
    (
        "host RowShape",
        Host(HostTableFault::RowShape(54)),
        3,
        "the row of element 54 has another shape",
    ),
    (
        "set BadNumber",
        Set(SetFault::BadNumber(65)),
        1,
        "no element has the number 65",
    ),
    ("set Memory", Set(SetFault::Memory), 2, "memory ran out"),
    (
        "pack WrongVersion",
        Pack(PackFault::WrongVersion),
        1,
        "the message type is of another version",
    ),
    (
        "pack NoRow",
        Pack(PackFault::NoRow(41)),
        2,
        "element 41 has no row",
    ),
    (
        "pack WrongLength",
        Pack(PackFault::WrongLength(41)),
        3,
        "element 41 has a wrong length",
    ),
    (
        "pack NotInClass",
        Pack(PackFault::NotInClass(41)),
        4,
        "element 41 has a character that isn't in its class",
    ),
    (
        "pack PadEnd",
        Pack(PackFault::PadEnd(41)),
        5,
        "element 41 has the pad byte at its end",
    ),
    ("pack Memory", Pack(PackFault::Memory), 6, "memory ran out"),
    (
        "unpack Short",
        Unpack(UnpackCause::Short),
        1,
        "element 2 at 20: the bytes end too early",
    ),
    (
        "unpack BadMti",
        Unpack(UnpackCause::BadMti),
        2,
        "element 2 at 20: the message type isn't of digits",
    ),
    (
        "unpack WrongVersion",
        Unpack(UnpackCause::WrongVersion),
        3,
        "element 2 at 20: the message type is of another version",
    ),
    (
        "unpack BadHex",
        Unpack(UnpackCause::BadHex),
        4,
        "element 2 at 20: the bitmap isn't of hexadecimal digits",
    ),
    (
        "unpack ThirdBitmap",
        Unpack(UnpackCause::ThirdBitmap),
        5,
        "element 2 at 20: a third bitmap",
    ),
    (
        "unpack UnknownElement",
        Unpack(UnpackCause::UnknownElement(66)),
        6,
        "element 2 at 20: element 66 has no row",
    ),
    (
        "unpack Field",
        Unpack(UnpackCause::Field(FieldFault::BadFiller)),
        7,
        "element 2 at 20: the filler is neither 0 nor F",
    ),
    (
        "unpack Memory",
        Unpack(UnpackCause::Memory),
        8,
        "element 2 at 20: memory ran out",
    ),
    (
        "frame TooLong",
        Frame(FrameFault::TooLong),
        1,
        "the body is too long for its header",
    ),
    (
        "frame BadDigits",
        Frame(FrameFault::BadDigits),
        2,
        "the header isn't of digits",
    ),
    (
        "frame Memory",
        Frame(FrameFault::Memory),
        3,
        "memory ran out",
    ),
];

/// The fault's number.
fn number_of(numbered: &Numbered) -> u8 {
    match numbered {
        Field(fault) => fault.number(),
        Row(fault) => fault.number(),
        Map(cause) => cause.number(),
        Table(fault) => fault.number(),
        Host(fault) => fault.number(),
        Set(fault) => fault.number(),
        Pack(fault) => fault.number(),
        Unpack(cause) => cause.number(),
        Frame(fault) => fault.number(),
    }
}

/// The fault of a bitmap at 8.
fn bitmap_fault(cause: BitmapCause) -> BitmapFault {
    BitmapFault { at: 8, cause }
}

/// The fault of element 2 at 20.
fn element_fault(cause: UnpackCause) -> UnpackFault {
    UnpackFault {
        at: 20,
        element: 2,
        cause,
    }
}

/// Whether that is shown of the fault.
fn is_told(alloc: Global, numbered: &Numbered, text: &str) -> bool {
    match numbered {
        Field(fault) => is_shown(alloc, fault, text),
        Row(fault) => is_shown(alloc, fault, text),
        Map(cause) => is_shown(alloc, &bitmap_fault(*cause), text),
        Table(fault) => is_shown(alloc, fault, text),
        Host(fault) => is_shown(alloc, fault, text),
        Set(fault) => is_shown(alloc, fault, text),
        Pack(fault) => is_shown(alloc, fault, text),
        Unpack(cause) => is_shown(alloc, &element_fault(*cause), text),
        Frame(fault) => is_shown(alloc, fault, text),
    }
}

/// Whether that is the fault's number, and what is shown of it.
fn is_numbered(alloc: Global, numbered: &Numbered, number: u8, text: &str) -> bool {
    number_of(numbered) == number && is_told(alloc, numbered, text)
}

#[test]
fn faults_have_numbers_and_texts(rt: HostRuntime) -> Result<(), Fail> {
    for (name, numbered, number, text) in NUMBERS {
        check(is_numbered(rt.alloc(), numbered, *number, *text), *name)?;
    }
    check(
        is_shown(rt.alloc(), &NoMemory, "memory ran out"),
        "no memory",
    )
}
