//! The names of faults.

ghost use Rattle.std.specs.Prelude.{◌≡◌, codes};
ghost use Rattle.iso_c.specs.Answers.{RepliesTo, KeepsFault};
ghost use Rattle.iso_c.specs.Names.{own_name, unpack_name, field_name, pack_name, table_name, frame_name, name_of};

use crate::answers::answer_bytes;
use crate::fault::{
    BAD_PART, BAD_TYPE, EMPTY_SLOT, MEMORY, NO_ELEMENT, NO_SUCH_HEADER, NO_SUCH_TABLE,
    RumpadolFault, SHORT_PARTS, SHORT_ROOM, TRAILING_BYTES,
};
use iso_parts::FieldFault;
use iso_table::TableFault;
use iso_wire::{FrameFault, PackFault, SetFault, UnpackCause};

/// The name of a fault of this library.
fn own_name(number: u32) -> &'static str
    ensures { result.now ≡ own_name number }
{
    match number {
        MEMORY => "Memory",
        EMPTY_SLOT => "EmptySlot",
        NO_SUCH_TABLE => "NoSuchTable",
        SHORT_ROOM => "ShortRoom",
        TRAILING_BYTES => "TrailingBytes",
        NO_ELEMENT => "NoElement",
        BAD_PART => "BadPart",
        BAD_TYPE => "BadType",
        NO_SUCH_HEADER => "NoSuchHeader",
        SHORT_PARTS => "ShortParts",
        _ => "",
    }
}

/// The name of what is wrong with a message's bytes.
fn unpack_name(number: u32) -> &'static str
    ensures { result.now ≡ unpack_name number }
{
    match number {
        101 => UnpackCause::Short.name(),
        102 => UnpackCause::BadMti.name(),
        103 => UnpackCause::WrongVersion.name(),
        104 => UnpackCause::BadHex.name(),
        105 => UnpackCause::ThirdBitmap.name(),
        106 => UnpackCause::UnknownElement(0).name(),
        _ => "",
    }
}

/// The name of a field's fault.
fn field_name(number: u32) -> &'static str
    ensures { result.now ≡ field_name number }
{
    match number {
        201 => FieldFault::WrongLength.name(),
        202 => FieldFault::NotInClass.name(),
        203 => FieldFault::PadEnd.name(),
        204 => FieldFault::BadLengthDigits.name(),
        205 => FieldFault::LengthOver.name(),
        206 => FieldFault::BadFiller.name(),
        207 => FieldFault::BadHex.name(),
        _ => "",
    }
}

/// The name of why a message has no spelling, or why a value isn't taken.
fn pack_name(number: u32) -> &'static str
    ensures { result.now ≡ pack_name number }
{
    match number {
        301 => PackFault::WrongVersion.name(),
        302 => PackFault::NoRow(0).name(),
        303 => PackFault::WrongLength(0).name(),
        304 => PackFault::NotInClass(0).name(),
        305 => PackFault::PadEnd(0).name(),
        601 => SetFault::BadNumber(0).name(),
        _ => "",
    }
}

/// The name of why a text is no table.
fn table_name(number: u32) -> &'static str
    ensures { result.now ≡ table_name number }
{
    match number {
        401 => TableFault::NotJson.name(),
        402 => TableFault::Shape.name(),
        403 => TableFault::BadVersion.name(),
        404 => TableFault::BadNumber(0).name(),
        405 => TableFault::Twice(0).name(),
        406 => TableFault::BadMax(0).name(),
        407 => TableFault::CodingClass(0).name(),
        408 => TableFault::PadNotAllowed(0).name(),
        409 => TableFault::Profile.name(),
        _ => "",
    }
}

/// The name of a frame's fault.
fn frame_name(number: u32) -> &'static str
    ensures { result.now ≡ frame_name number }
{
    match number {
        501 => FrameFault::TooLong.name(),
        502 => FrameFault::BadDigits.name(),
        _ => "",
    }
}

/// The name of a fault; no bytes where no fault has the number.
fn name_of(number: u32) -> &'static str
    ensures { result.now ≡ name_of number }
{
    match number {
        0..100 => own_name(number),
        100..200 => unpack_name(number),
        200..300 => field_name(number),
        300..400 => pack_name(number),
        400..500 => table_name(number),
        500..600 => frame_name(number),
        _ => pack_name(number),
    }
}

/// Writes the name of the fault with the number. Answers how many bytes it has, 0 where no fault has the number, or -1
/// and a fault.
#[unsafe(no_mangle)]
pub extern "C" fn rumpadol_fault_name(number: u32, out: &mut [u8], fault: &mut RumpadolFault) -> i64
    // The room begins with the fault's name, and the answer is its length, 0 where no fault has the
    // number; or -1, an untouched room, and how much is wanted.
    ensures reply { RepliesTo (Ok (name_of number)) result
        (record { old = out.old; new = out.new }) fault.new }
    // Where the answer isn't -1, the fault is as it was.
    ensures kept { KeepsFault result fault.old fault.new }
{
    answer_bytes(name_of(number).as_bytes(), out, fault)
}
