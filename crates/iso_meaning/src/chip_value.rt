//! Values of chip data as text.

ghost use Rattle.std.specs.Prelude.{◌≡◌, ◌++◌, OnOk, OnErr};
ghost use Rattle.hex.specs.Hex.{encode_upper};
ghost use Rattle.iso_parts.specs.Buffers.{Keeps};
ghost use Rattle.iso_meaning.specs.Chip.{stars_for, chip_text};

use crate::tags::is_shown;
use crate::track::push_stars;
use iso_parts::raw::hex_digit;
use std::alloc::AllocError;

/// Appends two hexadecimal digits for each byte.
#[tactic(auto, unfolding(hex::specs::Hex::encode_with))]
fn push_hex(bytes: &[u8], out: &mut Vec<u8>) -> Result<(), AllocError>
    ensures ok { OnOk result (out.new.items ≡ out.old.items ++ encode_upper bytes.now) }
    ensures kept { OnErr result (Keeps out.old.items out.new.items) }
{
    for b in bytes {
        out.extend_from_slice(&[hex_digit(*b / 16), hex_digit(*b % 16)])?;
    }
    Ok(())
}

/// Appends two stars for each byte.
fn push_stars_for(bytes: &[u8], out: &mut Vec<u8>) -> Result<(), AllocError>
    ensures ok { OnOk result (out.new.items ≡ out.old.items ++ stars_for bytes.now) }
    ensures kept { OnErr result (Keeps out.old.items out.new.items) }
{
    push_stars(bytes.len(), out)?;
    push_stars(bytes.len(), out)
}

/// Appends the value of a tag.
fn push_value(tag: u32, value: &[u8], is_clear: bool, out: &mut Vec<u8>) -> Result<(), AllocError>
    ensures ok { OnOk result (out.new.items ≡ out.old.items ++ chip_text is_clear tag value.now) }
    ensures kept { OnErr result (Keeps out.old.items out.new.items) }
{
    if is_clear || is_shown(tag) {
        return push_hex(value, out);
    }
    push_stars_for(value, out)
}

/// Appends the value of a tag as hexadecimal digits. Unless it is to be shown in clear, stars stand in their place
/// where the value is card data, and where it may hold them: a template, or the value of a tag without a name. Without
/// memory nothing is appended.
pub fn push_chip_value(
    tag: u32,
    value: &[u8],
    is_clear: bool,
    out: &mut Vec<u8>,
) -> Result<(), AllocError>
    // Memory aside, it appends the value's hexadecimal digits, or two stars for each byte where it
    // isn't in clear and a bystander shouldn't read it.
    ensures text { OnOk result (out.new.items ≡ out.old.items ++ chip_text is_clear tag value.now) }
    // Where memory runs out, the buffer holds the bytes that it held before.
    ensures unchanged { OnErr result (out.new.items ≡ out.old.items) }
{
    let start = out.len();
    match push_value(tag, value, is_clear, out) {
        Ok(()) => Ok(()),
        Err(refused) => {
            out.truncate(start);
            Err(refused)
        }
    }
}
