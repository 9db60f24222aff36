//! Small texts: numbers, hexadecimal digits and stars.

ghost use Rattle.std.specs.Prelude.{◌≡◌, ◌++◌, replicate, decimal, OnOk};
ghost use Rattle.hex.specs.Hex.{encode_upper};
ghost use Rattle.iso_wire.specs.Describing.{clear_text};
ghost use Rattle.iso_explain.specs.Seen.{shown_as};

use iso_parts::CharClass;
use iso_parts::raw::hex_digit;
use iso_wire::Shown;
use itoa::Buffer;
use std::alloc::AllocError;

/// Appends a number in decimal.
pub(crate) fn push_number(n: usize, out: &mut Vec<u8>) -> Result<(), AllocError>
    ensures { OnOk result (out.new.items ≡ out.old.items ++ decimal n) }
{
    let mut buffer = Buffer::new();
    out.extend_from_slice(buffer.format(n).as_bytes())
}

/// Appends two hexadecimal digits for each byte.
#[tactic(auto, unfolding(hex::specs::Hex::encode_with))]
pub(crate) fn push_hex(bytes: &[u8], out: &mut Vec<u8>) -> Result<(), AllocError>
    ensures { OnOk result (out.new.items ≡ out.old.items ++ encode_upper bytes.now) }
{
    for b in bytes {
        out.extend_from_slice(&[hex_digit(*b / 16), hex_digit(*b % 16)])?;
    }
    Ok(())
}

/// Appends so many of a byte.
pub(crate) fn push_each(byte: u8, count: usize, out: &mut Vec<u8>) -> Result<(), AllocError>
    ensures { OnOk result (out.new.items ≡ out.old.items ++ replicate count byte) }
{
    for _i in 0..count {
        out.push(byte)?;
    }
    Ok(())
}

/// Appends blanks up to a width of what stands behind a place.
pub(crate) fn pad(width: usize, start: usize, out: &mut Vec<u8>) -> Result<(), AllocError> {
    let used = out.len().saturating_sub(start);
    push_each(b' ', width.saturating_sub(used), out)
}

/// Appends bytes as a row of the class shows them.
fn push_text(class: CharClass, bytes: &[u8], out: &mut Vec<u8>) -> Result<(), AllocError>
    ensures { OnOk result (out.new.items ≡ out.old.items ++ clear_text class bytes.now) }
{
    match class {
        CharClass::B => push_hex(bytes, out),
        CharClass::N
        | CharClass::A
        | CharClass::AN
        | CharClass::ANS
        | CharClass::Z
        | CharClass::ZD
        | CharClass::XN => out.extend_from_slice(bytes),
    }
}

/// Appends what is shown of a value, with a star for each byte that is hidden.
pub(crate) fn push_shown(
    class: CharClass,
    shown: Shown,
    out: &mut Vec<u8>,
) -> Result<(), AllocError>
    ensures { OnOk result (out.new.items ≡ out.old.items ++ shown_as class shown.entry) }
{
    push_text(class, shown.front, out)?;
    push_each(b'*', shown.hidden, out)?;
    push_text(class, shown.end, out)
}
