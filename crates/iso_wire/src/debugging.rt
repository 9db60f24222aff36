//! What `Debug` writes of messages: what a bystander may read.

ghost use Rattle.std.specs.Fmt.{WritesOnOk};
ghost use Rattle.std.specs.List.{flat_map};
ghost use Rattle.iso_parts.specs.Digits.{four_digits_of};
ghost use Rattle.iso_parts.specs.Mti.{mti_number};
ghost use Rattle.iso_parts.specs.declared.digits.Digits.TheVariants as digits;
ghost use Rattle.iso_wire.specs.Debugging.{debug_element, debug_cause, debug_stop, debug_unpacker};

use crate::fault::{UnpackCause, UnpackFault};
use crate::iteration::Iter;
use crate::masking::{masked, write_text};
use iso_parts::Mti;
use iso_parts::raw::four_ascii_digits;
use std::fmt;

/// Writes a message type in four digits.
pub(crate) fn write_type<W: fmt::Write>(mti: Mti, f: &mut fmt::Formatter<W>) -> fmt::Result
    ensures { WritesOnOk W.write_str_gives f.old result
        (four_digits_of digits.Ascii (mti_number mti)) f.new }
{
    write_text(&four_ascii_digits(mti.number() as usize), f)
}

/// Writes an element: its number, and what is shown of its value.
fn write_element<W: fmt::Write>(n: u8, value: &[u8], f: &mut fmt::Formatter<W>) -> fmt::Result
    ensures { WritesOnOk W.write_str_gives f.old result (debug_element (n, value.now)) f.new }
{
    let shown = masked(n, value);
    write!(f, ", {n}: {shown}")
}

/// Writes elements, one after another.
pub(crate) fn write_elements<W: fmt::Write>(
    elements: Iter<'_>,
    f: &mut fmt::Formatter<W>,
) -> fmt::Result
    ensures { WritesOnOk W.write_str_gives f.old result
        (flat_map debug_element elements.entry) f.new }
{
    for (n, value) in elements {
        write_element(n, value, f)?;
    }
    Ok(())
}

/// Writes what is wrong with a piece.
fn write_cause<W: fmt::Write>(cause: UnpackCause, f: &mut fmt::Formatter<W>) -> fmt::Result
    ensures { WritesOnOk W.write_str_gives f.old result (debug_cause cause) f.new }
{
    match cause {
        UnpackCause::UnknownElement(n) => write!(f, "UnknownElement({n})"),
        UnpackCause::Short
        | UnpackCause::BadMti
        | UnpackCause::WrongVersion
        | UnpackCause::BadHex
        | UnpackCause::ThirdBitmap
        | UnpackCause::Field(_)
        | UnpackCause::Memory => {
            let name = cause.name();
            write!(f, "{name}")
        }
    }
}

/// Writes where a message stopped, if it did.
fn write_stop<W: fmt::Write>(stopped: Option<UnpackFault>, f: &mut fmt::Formatter<W>) -> fmt::Result
    ensures { WritesOnOk W.write_str_gives f.old result (debug_stop stopped) f.new }
{
    match stopped {
        None => write!(f, "None"),
        Some(fault) => {
            let (at, element) = (fault.at, fault.element);
            write_cause(fault.cause, f)?;
            write!(f, " at element {element}, offset {at}")
        }
    }
}

/// Writes how many bytes an unpacker holds, and where the message stopped.
pub(crate) fn write_unpacker<W: fmt::Write>(
    held: usize,
    stopped: Option<UnpackFault>,
    f: &mut fmt::Formatter<W>,
) -> fmt::Result
    ensures { WritesOnOk W.write_str_gives f.old result (debug_unpacker held stopped) f.new }
{
    write!(f, "Unpacker {{ held: {held}, stopped: ")?;
    write_stop(stopped, f)?;
    write!(f, " }}")
}
