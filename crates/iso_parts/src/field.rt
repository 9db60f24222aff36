//! Fields: a value as the part of a message, its length and then its body.

ghost use Rattle.std.specs.Prelude.{◌≡◌, ◌≢◌, ◌≤◌, ◌+◌, ◌-◌, ◌++◌, ℕ, List, length, take, drop, vec_len};
ghost use Rattle.std.specs.Prelude.{IfOk, IfSome};
ghost use Rattle.std.specs.Prelude.{OnOk, OnErr, IfErr, IsTrue, None, Some};
ghost use Rattle.iso_parts.specs.declared.fault.FieldFault.{FieldFault};
ghost use Rattle.iso_parts.specs.declared.fault.FieldFault.TheVariants.{Memory};
ghost use Rattle.iso_parts.specs.Spec.{is_length, refusal, IsGood, Fits};
ghost use Rattle.iso_parts.specs.Part.{prefix, with_pads, with_padding, pairs, plain, plain_part, Part};
ghost use Rattle.iso_parts.specs.Buffers.{Keeps};
ghost use Rattle.iso_parts.specs.Debugging.{debug_step};
ghost use Rattle.iso_parts.specs.Texts.{Decodes};
ghost use Rattle.iso_parts.specs.PartStops.{EndsInPart, IsBadPart, StopsPart};
ghost use Rattle.iso_parts.specs.Reading.{prefix_size, Reads, DecodesValue, IfGot, got, more, fault, prefix_of, value_of, body_of, part_at};

use crate::encoding::Coding;
use crate::fault::FieldFault;
use crate::judging::judge_length;
use crate::padding::Pad;
use crate::spec::FieldSpec;
use std::alloc::{AllocError, Global};
use std::fmt;

/// What stands at the front of some bytes.
#[derive(Drop)]
pub enum Step {
    /// A value, and how many bytes its part takes.
    Got { value: Vec<u8>, used: usize },
    /// Less than a whole part.
    More,
}

/// Shows how many bytes a value has, and none of them: it may be a card's number, its track or a PIN.
impl fmt::Debug for Step {
    ghost debug_output = { λ step. Some (debug_step step) };

    fn fmt<W: fmt::Write>(&self, f: &mut fmt::Formatter<W>) -> fmt::Result {
        match self {
            Step::Got { value, used } => {
                let count = value.len();
                write!(f, "Got {{ value_len: {count}, used: {used} }}")
            }
            Step::More => write!(f, "More"),
        }
    }
}

/// Appends the value and `n` pads.
fn encode_padded(pad: Pad, n: usize, value: &[u8], out: &mut Vec<u8>) -> Result<(), AllocError>
    requires { n ≤ 65535 }
    ensures ok { OnOk result (out.new.items ≡ out.old.items ++ with_pads pad n value.now) }
    ensures err { OnErr result (Keeps out.old.items out.new.items) }
{
    match pad {
        Pad::None => out.extend_from_slice(value),
        Pad::Left(pad) => {
            out.resize(out.len() + n, pad)?;
            out.extend_from_slice(value)
        }
        Pad::Right(pad) => {
            out.extend_from_slice(value)?;
            out.resize(out.len() + n, pad)
        }
    }
}

/// Appends the packed characters of a padded value from a place on, two a byte.
#[tactic(auto, using(crate::proofs::Pairs::pairs_from, crate::proofs::Pairs::length_padded))]
fn encode_padded_pairs(
    spec: &FieldSpec,
    from: usize,
    value: &[u8],
    out: &mut Vec<u8>,
) -> Result<(), AllocError>
    requires room { length value.now ≤ spec.now.max }
    requires exact { spec.now.pad ≡ Pad.None → length value.now ≡ spec.now.max }
    requires few { from ≤ 1 }
    ensures ok { OnOk result
        (out.new.items ≡ out.old.items ++ pairs (drop from (with_padding spec.now value.now))) }
    ensures err { OnErr result (Keeps out.old.items out.new.items) }
{
    let count = spec.max as usize;
    let mut at = from;
    while at + 1 < count {
        let high = spec.pad.character_at(count, value, at);
        let low = spec.pad.character_at(count, value, at + 1);
        out.push(high % 16 * 16 + low % 16)?;
        at += 2;
    }
    Ok(())
}

/// Appends the packed characters of a padded value, where their count is odd with the filler 0 in front.
#[tactic(auto, using(crate::proofs::Pairs::length_padded, crate::proofs::Pairs::pairs_behind_filler))]
fn encode_padded_bcd(spec: &FieldSpec, value: &[u8], out: &mut Vec<u8>) -> Result<(), AllocError>
    requires room { length value.now ≤ spec.now.max }
    requires exact { spec.now.pad ≡ Pad.None → length value.now ≡ spec.now.max }
    ensures ok { OnOk result
        (out.new.items ≡ out.old.items ++ plain Coding.Bcd (with_padding spec.now value.now)) }
    ensures err { OnErr result (Keeps out.old.items out.new.items) }
{
    let count = spec.max as usize;
    if count % 2 == 0 {
        return encode_padded_pairs(spec, 0, value, out);
    }
    out.push(spec.pad.character_at(count, value, 0) % 16)?;
    encode_padded_pairs(spec, 1, value, out)
}

/// Appends the plain part of a value that fits. Where memory runs out, more than was there may stand behind it.
fn encode_part(spec: &FieldSpec, value: &[u8], out: &mut Vec<u8>) -> Result<(), AllocError>
    requires good { IsGood spec.now }
    requires length { IsTrue (is_length spec.now (length value.now)) }
    ensures ok { OnOk result (out.new.items ≡ out.old.items ++ plain_part spec.now value.now) }
    ensures err { OnErr result (Keeps out.old.items out.new.items) }
{
    spec.length.encode(value.len(), out)?;
    if spec.pad == Pad::None {
        return spec.coding.encode(value, out);
    }
    match spec.coding {
        Coding::Bcd => encode_padded_bcd(spec, value, out),
        _ => encode_padded(spec.pad, spec.max as usize - value.len(), value, out),
    }
}

/// The first reason why a value can't be written under the row: its length, a character, or a pad at its padded end;
/// `None` where it fits. Takes no memory.
#[inline(always)]
pub fn judge_value(spec: &FieldSpec, value: &[u8]) -> Option<FieldFault>
    // The row is one that a table may have.
    requires { IsGood spec.now }
    // It is the first reason to refuse the value, and `None` where there is none.
    ensures exact { result ≡ refusal spec.now value.now }
    // A value that isn't refused fits the row.
    ensures fits { result ≡ None → Fits spec.now value.now }
    // The plain part of a value that isn't refused is a part of that value under the row.
    ensures spelled { result ≡ None → Part spec.now value.now (plain_part spec.now value.now) }
{
    spec.refusal(value)
}

/// Appends the digits of a value's length, and nothing where the row has none. Without memory the vector stays as it was.
#[inline(always)]
pub fn encode_length(spec: &FieldSpec, value: &[u8], out: &mut Vec<u8>) -> Result<(), AllocError>
    // The row is one that a table may have.
    requires good { IsGood spec.now }
    // The value fits the row.
    requires fits { Fits spec.now value.now }
    // Memory aside, the digits of the length stand behind what was there.
    ensures ok { OnOk result
        (out.new.items ≡ out.old.items ++ prefix spec.now.length (length value.now)) }
    // Without memory the vector holds what it held before.
    ensures unchanged { OnErr result (out.new.items ≡ out.old.items) }
{
    spec.length.encode(value.len(), out)
}

/// Appends the part of a value: its length where the row has one, and its body, with filler 0 and upper-case
/// digits. A fault is the first of `WrongLength`, `NotInClass`, `PadEnd`, and leaves the vector as it was.
pub fn encode_field(spec: &FieldSpec, value: &[u8], out: &mut Vec<u8>) -> Result<(), FieldFault>
    // The row is one that a table may have.
    requires { IsGood spec.now }
    // A value that is written fits the row.
    ensures fits { OnOk result (Fits spec.now value.now) }
    // A value that fits the row is written, unless memory runs out.
    ensures only { Fits spec.now value.now → IfErr result (λ e. e ≡ Memory) }
    // At `Ok` the plain part of the value stands behind what was there.
    ensures part { OnOk result (out.new.items ≡ out.old.items ++ plain_part spec.now value.now) }
    // The plain part of a value that is written is a part of that value under the row.
    ensures spelled { OnOk result (Part spec.now value.now (plain_part spec.now value.now)) }
    // No value is written that is to be refused for its length, a character, or a pad at its padded
    // end.
    ensures accepted { OnOk result (refusal spec.now value.now ≡ None) }
    // Memory aside, the fault is the first reason why the value doesn't fit: its length, a
    // character, or a pad at its padded end.
    ensures refused { IfErr result (λ e. e ≢ Memory → refusal spec.now value.now ≡ Some e) }
    // After a fault the vector holds what it held before.
    ensures unchanged { OnErr result (out.new.items ≡ out.old.items) }
{
    if let Some(fault) = spec.refusal(value) {
        return Err(fault);
    }
    let start = out.len();
    match encode_part(spec, value, out) {
        Ok(()) => Ok(()),
        Err(_) => {
            out.truncate(start);
            Err(FieldFault::Memory)
        }
    }
}

/// The count of characters that a whole length tells.
#[inline(always)]
pub(crate) fn prefix_of(spec: &FieldSpec, prefix: &[u8]) -> Result<u16, FieldFault>
    requires { length prefix.now ≡ prefix_size spec.now.length }
    ensures { result ≡ prefix_of spec.now prefix.now }
{
    let n = spec.length.count_of(spec.max, prefix)?;
    if spec.max < n {
        Err(FieldFault::LengthOver)
    } else {
        Ok(n)
    }
}

/// Appends the characters without their padding, where they are in the class.
fn decode_text(spec: &FieldSpec, text: &[u8], out: &mut Vec<u8>) -> Result<(), FieldFault>
    ensures { Decodes out.old.items out.new.items result (value_of spec.now text.now) }
{
    let value = spec.pad.without_padding(text);
    if !spec.class.takes_apart(value) {
        return Err(FieldFault::NotInClass);
    }
    Ok(out.extend_from_slice(value)?)
}

/// Takes the padding off the characters that stand behind the first `before` bytes, where they are in the class.
fn decode_in_place(spec: &FieldSpec, before: usize, out: &mut Vec<u8>) -> Result<(), FieldFault>
    requires { before ≤ vec_len out.old }
    ensures { Decodes (take before out.old.items) out.new.items result
        (value_of spec.now (drop before out.old.items)) }
{
    let (_, text) = out.as_slice().split_at(before);
    let value = spec.pad.without_padding(text);
    if !spec.class.takes(value) {
        return Err(FieldFault::NotInClass);
    }
    spec.pad.strip(before, out);
    Ok(())
}

/// Appends the value that a whole body of `n` characters tells, in code of its own: they are packed or hexadecimal
/// digits.
#[inline(never)]
fn decode_body_apart(
    spec: &FieldSpec,
    n: u16,
    body: &[u8],
    out: &mut Vec<u8>,
) -> Result<(), FieldFault>
    ensures { Decodes out.old.items out.new.items result (body_of spec.now n body.now) }
{
    let before = out.len();
    spec.coding.decode(n, body, out)?;
    decode_in_place(spec, before, out)
}

/// Appends the value that a whole body of `n` characters tells.
fn decode_body(spec: &FieldSpec, n: u16, body: &[u8], out: &mut Vec<u8>) -> Result<(), FieldFault>
    ensures { Decodes out.old.items out.new.items result (body_of spec.now n body.now) }
{
    if spec.coding.is_plain() {
        decode_text(spec, body, out)
    } else {
        decode_body_apart(spec, n, body, out)
    }
}

/// Appends the value of the part that the bytes begin with, and gives how many bytes the part takes; `None`
/// where bytes are missing. Only the growth of `out` takes memory. Whatever isn't a value leaves `out` as it was.
pub fn decode_value(
    spec: &FieldSpec,
    bytes: &[u8],
    out: &mut Vec<u8>,
) -> Result<Option<usize>, FieldFault>
    // The row is one that a table may have.
    requires { IsGood spec.now }
    // Memory aside, the answer is what reading the part gives: its value is appended, or bytes are
    // missing, or it has a fault. Only a value changes the vector.
    ensures exact { DecodesValue out.old.items out.new.items result (part_at spec.now bytes.now) }
    // A part whose value is appended lies within the bytes.
    ensures room { IfOk result (λ got. IfSome got (λ used. used ≤ length bytes.now)) }
{
    let n = match judge_length(spec, bytes) {
        Ok(Some(n)) => n,
        Ok(None) => return Ok(None),
        Err(fault) => return Err(fault),
    };
    let front = spec.length.prefix_size();
    let size = spec.coding.body_size(n);
    let (_, rest) = bytes.split_at(front);
    if rest.len() < size {
        return Ok(None);
    }
    let before = out.len();
    match decode_body(spec, n, &rest[..size], out) {
        Ok(()) => Ok(Some(front + size)),
        Err(fault) => {
            out.truncate(before);
            Err(fault)
        }
    }
}

/// The value of the part that the bytes begin with.
fn step_of(alloc: Global, spec: &FieldSpec, bytes: &[u8]) -> Result<Step, FieldFault>
    requires { IsGood spec.now }
    ensures { Reads result (part_at spec.now bytes.now) }
{
    let mut value = Vec::new(alloc);
    match decode_value(spec, bytes, &mut value) {
        Ok(Some(used)) => Ok(Step::Got { value, used }),
        Ok(None) => Ok(Step::More),
        Err(fault) => Err(fault),
    }
}

/// Reads the part that the bytes begin with: its value and how many bytes it takes. Where the length is whole
/// the faults are `BadLengthDigits` and `LengthOver`; where the body is whole `BadFiller`, `BadHex` and, without
/// the padding, `NotInClass`; the first of them comes.
pub fn decode_field(alloc: Global, spec: &FieldSpec, bytes: &[u8]) -> Result<Step, FieldFault>
    // The row is one that a table may have.
    requires { IsGood spec.now }
    // Where a value is got, the first bytes, as many as are told, are a part of it under the row.
    ensures found { IfGot result
        (λ value used. (used ≤ length bytes.now) × Part spec.now value (take used bytes.now)) }
    // The value of a part at the front is got, unless memory runs out.
    ensures only { (value part rest : List ℕ) → Part spec.now value part → bytes.now ≡ part ++ rest
        → Reads result (got value (length part)) }
    // Memory aside, the answer is what reading the part gives: its value and how many bytes it
    // takes, `More`, or its first fault.
    ensures exact { Reads result (part_at spec.now bytes.now) }
    // `More` comes only where the bytes end inside a part, and a fault, but want of memory, only
    // where a whole piece has it.
    ensures stops { StopsPart spec.now bytes.now result }
    // Where the bytes end inside a part, `More` comes, unless memory runs out.
    ensures more { EndsInPart spec.now bytes.now → Reads result more }
    // Where a whole piece is bad, its fault comes, unless memory runs out.
    ensures told { (e : FieldFault) → IsBadPart spec.now bytes.now e → Reads result (fault e) }
    // No part of the row begins with another one, and two values have no part in common.
    ensures one_part { (v w a b x y : List ℕ) → Part spec.now v a → Part spec.now w b
        → a ++ x ≡ b ++ y → (v ≡ w) × (a ≡ b) }
{
    step_of(alloc, spec, bytes)
}
