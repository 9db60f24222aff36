//! The sentences of what is refused.

use crate::refusal::Trouble;
use iso_explain::{sentence, usual_cause};
use iso_wire::{PackFault, UnpackCause, UnpackFault};
use std::fmt;

/// Writes whose piece of a message it is.
fn write_owner<W: fmt::Write>(fault: UnpackFault, f: &mut fmt::Formatter<W>) -> fmt::Result {
    match (fault.element, fault.at) {
        (0, 0) => write!(f, "the message type"),
        (0, _) => write!(f, "the primary bitmap"),
        (1, _) => write!(f, "the secondary bitmap"),
        (element, _) => write!(f, "element {element}"),
    }
}

/// Writes where and why bytes stop being a message.
fn write_unpack<W: fmt::Write>(fault: UnpackFault, f: &mut fmt::Formatter<W>) -> fmt::Result {
    write_owner(fault, f)?;
    let (at, name) = (fault.at, fault.cause.name());
    let (meaning, cause) = (sentence(fault.cause), usual_cause(fault.cause));
    write!(f, " at byte {at}: {name}: {meaning}")?;
    if let UnpackCause::UnknownElement(element) = fault.cause {
        write!(f, ", that of element {element}")?;
    }
    write!(f, "; usually {cause}")
}

/// What mends a message that has no bytes under a table.
fn mends(fault: PackFault) -> &'static str {
    match fault {
        PackFault::WrongVersion =>
            "the other table is of another version: take one of the message's",
        PackFault::NoRow(_) =>
            "the other table has no row for it: give it one, or leave the element out",
        PackFault::WrongLength(_) =>
            "the other table's row takes no value of this length: mend its length and max",
        PackFault::NotInClass(_) =>
            "a character isn't in the class of the other table's row: mend its class",
        PackFault::PadEnd(_) =>
            "the value ends where the other table's row has its pad: mend its pad",
        PackFault::Memory => "there was no memory",
    }
}

/// Writes why a message has no bytes under the other table.
fn write_pack<W: fmt::Write>(fault: PackFault, f: &mut fmt::Formatter<W>) -> fmt::Result {
    let (name, mend) = (fault.name(), mends(fault));
    match fault.element() {
        Some(element) => write!(f, "element {element}: {name}: {mend}"),
        None => write!(f, "{name}: {mend}"),
    }
}

/// Writes that bytes follow a message.
fn write_trailing<W: fmt::Write>(
    used: usize,
    end: usize,
    f: &mut fmt::Formatter<W>,
) -> fmt::Result {
    write!(
        f,
        "TrailingBytes: the message ends at byte {used}, and what was read at {end}: leave out the rest; often a line end, or a stream that wants --frames"
    )
}

/// Writes that fewer bytes are there than are passed over.
fn write_skipped<W: fmt::Write>(
    has: usize,
    wanted: usize,
    f: &mut fmt::Formatter<W>,
) -> fmt::Result {
    write!(
        f,
        "Short: --skip {wanted} passes over more than is there, which ends at byte {has}: mend --skip"
    )
}

/// Writes that the input ends inside a frame.
fn write_cut_frame<W: fmt::Write>(there: usize, f: &mut fmt::Formatter<W>) -> fmt::Result {
    write!(
        f,
        "CutFrame: the input ends inside a frame, at its byte {there}; usually a cut file, a line end at its end, or another header"
    )
}

/// What is wrong with a header, and what it usually comes of.
const BAD_HEADER: &str =
    "BadHeader: the header of a frame isn't of digits; usually another header, or a line end between frames";

/// What is wrong where one message is wanted and a second begins.
const SECOND: &str =
    "a second message begins here: write each in a frame with --frames, or encode one at a time";

/// Writes the sentence of a trouble, without its end.
pub(crate) fn write_sentence<W: fmt::Write>(
    trouble: Trouble,
    f: &mut fmt::Formatter<W>,
) -> fmt::Result {
    match trouble {
        Trouble::Unpack(fault) => write_unpack(fault, f),
        Trouble::Trailing { used, end } => write_trailing(used, end, f),
        Trouble::Skipped { has, wanted } => write_skipped(has, wanted, f),
        Trouble::Pack(fault) => write_pack(fault, f),
        Trouble::TooLong(length) => write!(
            f,
            "TooLong: a body of {length} bytes is too long for its header: take --frames binary2, which counts up to 65,535"
        ),
        Trouble::BadHeader => f.write_str(BAD_HEADER),
        Trouble::InputTooLong(most) => write!(
            f,
            "InputTooLong: there are more than {most} bytes: a stream of messages is read with --frames"
        ),
        Trouble::Second => f.write_str(SECOND),
        Trouble::Hex(fault) => write!(
            f,
            "{fault}: mend the text, or leave --hex out if these are the bytes"
        ),
        Trouble::CutFrame(there) => write_cut_frame(there, f),
    }
}
