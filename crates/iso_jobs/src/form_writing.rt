//! The bytes of a message as an output has them.

ghost use Rattle.std.specs.Prelude.{◌≡◌, ◌≢◌, ◌++◌, IfErr, OnErr, OnOk, true};
ghost use Rattle.hex.specs.Hex.{encode_upper};
ghost use Rattle.iso_jobs.specs.Written.{framed, exceeds, hex_line, written};
ghost use Rattle.iso_jobs.specs.declared.refusal.Refusal.TheVariants.{Memory};

use crate::form::Form;
use crate::refusal::{Refusal, Trouble};
use iso_parts::raw::hex_digit;
use iso_wire::{FrameFault, Header, append_frame};
use std::alloc::{AllocError, Global};

/// Appends the bytes in their frame, if they are to have one.
fn append_framed(header: Option<Header>, body: &[u8], out: &mut Vec<u8>) -> Result<(), Refusal>
    ensures framed { OnOk result (out.new.items ≡ out.old.items ++ framed header body.now) }
    ensures refused { IfErr result (λ e. e ≢ Memory → exceeds header body.now ≡ true) }
    ensures unchanged { OnErr result (out.new.items ≡ out.old.items) }
{
    let Some(header) = header else {
        out.extend_from_slice(body)?;
        return Ok(());
    };
    match append_frame(header, body, out) {
        Ok(()) => Ok(()),
        Err(FrameFault::TooLong) => Err(Refusal::Refused(Trouble::TooLong(body.len()))),
        Err(_) => Err(Refusal::Memory),
    }
}

/// Appends two hexadecimal digits for each byte.
#[tactic(auto, unfolding(hex::specs::Hex::encode_with))]
fn push_hex(bytes: &[u8], out: &mut Vec<u8>) -> Result<(), AllocError>
    ensures { OnOk result (out.new.items ≡ out.old.items ++ encode_upper bytes.now) }
{
    for b in bytes {
        out.extend_from_slice(&[hex_digit(*b / 16), hex_digit(*b % 16)])?;
    }
    Ok(())
}

/// Appends the bytes as hexadecimal digits, with the end of a line.
fn push_hex_line(bytes: &[u8], out: &mut Vec<u8>) -> Result<(), AllocError>
    ensures { OnOk result (out.new.items ≡ out.old.items ++ hex_line bytes.now) }
{
    push_hex(bytes, out)?;
    out.extend_from_slice(b"\n")
}

/// Appends the bytes of a message as the output has them: in a frame, and as a line of hexadecimal digits, if it is to
/// have them so. Nothing is appended where the frame can't count them.
pub(crate) fn append_written(
    alloc: Global,
    form: Form,
    body: &[u8],
    out: &mut Vec<u8>,
) -> Result<(), Refusal>
    ensures written { OnOk result (out.new.items ≡ out.old.items ++ written form body.now) }
    ensures refused { IfErr result (λ e. e ≢ Memory → exceeds form.header body.now ≡ true) }
    ensures unchanged { IfErr result (λ e. e ≢ Memory → out.new.items ≡ out.old.items) }
{
    if !form.is_hex {
        return append_framed(form.header, body, out);
    }
    let mut bytes = Vec::new(alloc);
    append_framed(form.header, body, &mut bytes)?;
    push_hex_line(&bytes, out)?;
    Ok(())
}
