//! Judging fields without their values, and without memory.

ghost use Rattle.std.specs.Prelude.{◌≡◌, ◌≢◌, ◌≤◌, ◌+◌, ◌*◌, ◌/◌, ℕ, List, take, drop, length};
ghost use Rattle.std.specs.Prelude.{◌↔◌, IfErr, IfOk, IfSome, true, false};
ghost use Rattle.iso_parts.specs.Judging.{Judges, IfJudged, IsFront, count_at, size_at};
ghost use Rattle.iso_parts.specs.Building.{IsPart};
ghost use Rattle.iso_parts.specs.Class.{is_in_class};
ghost use Rattle.iso_parts.specs.Spec.{IsGood};
ghost use Rattle.iso_parts.specs.declared.fault.FieldFault.{FieldFault};
ghost use Rattle.iso_parts.specs.declared.fault.FieldFault.TheVariants.{Memory};
ghost use Rattle.iso_parts.specs.Part.{characters, Part};
ghost use Rattle.iso_parts.specs.PartStops.{EndsInPart, IsBadPart};
ghost use Rattle.iso_parts.specs.Texts.{IsJudged, is_plain};
ghost use Rattle.iso_parts.specs.Reading.{without_padding, prefix_size, body_size, value_of, body_of, part_at};

use crate::class::CharClass;
use crate::digits::Digits;
use crate::encoding::{Coding, are_hex_digits};
use crate::fault::FieldFault;
use crate::field::prefix_of;
use crate::packed::are_unpadded_digits;
use crate::padding::Pad;
use crate::prefix::Length;
use crate::spec::FieldSpec;

/// What judging finds at the front of some bytes.
#[derive(Clone, Copy, Debug, PartialEq, Eq)]
pub enum Judged {
    /// A part: where its body begins, and how many bytes the part takes.
    Got { body: usize, used: usize },
    /// Less than a whole part.
    More,
}

/// Whether characters without their padding are in the class. Most rows have no padding.
#[inline(always)]
fn are_in_class(spec: &FieldSpec, text: &[u8]) -> bool
    ensures { result ≡ is_in_class spec.now.class (without_padding spec.now.pad text.now) }
{
    if spec.pad == Pad::None {
        spec.class.takes(text)
    } else {
        spec.class.takes_apart(spec.pad.without_padding(text))
    }
}

/// Judges characters: without their padding they are in the class.
#[inline(always)]
fn judge_text(spec: &FieldSpec, text: &[u8]) -> Result<(), FieldFault>
    ensures { IsJudged result (value_of spec.now text.now) }
{
    if are_in_class(spec, text) {
        Ok(())
    } else {
        Err(FieldFault::NotInClass)
    }
}

/// Judges packed digits, behind the first character where that is a filler.
fn judge_digits(spec: &FieldSpec, skip: usize, body: &[u8]) -> Result<(), FieldFault>
    requires class { spec.now.class ≡ CharClass.N }
    requires few { skip ≤ 1 }
    requires within { skip ≤ 2 * length body.now }
    ensures { IsJudged result (value_of spec.now (drop skip (characters body.now))) }
{
    if are_unpadded_digits(spec.pad, skip, body) {
        Ok(())
    } else {
        Err(FieldFault::NotInClass)
    }
}

/// Judges packed characters, behind the first one where it is a filler. Each of them is of class `Z`.
fn judge_characters(spec: &FieldSpec, skip: usize, body: &[u8]) -> Result<(), FieldFault>
    requires good { IsGood spec.now }
    requires coding { spec.now.coding ≡ Coding.Bcd }
    requires few { skip ≤ 1 }
    requires within { skip ≤ 2 * length body.now }
    ensures { IsJudged result (value_of spec.now (drop skip (characters body.now))) }
{
    if spec.class == CharClass::N {
        judge_digits(spec, skip, body)
    } else {
        Ok(())
    }
}

/// Judges a packed body of `n` characters: its filler where the count is odd, and then the characters.
fn judge_packed(spec: &FieldSpec, n: u16, body: &[u8]) -> Result<(), FieldFault>
    requires good { IsGood spec.now }
    requires coding { spec.now.coding ≡ Coding.Bcd }
    ensures { IsJudged result (body_of spec.now n body.now) }
{
    if n % 2 == 0 {
        return judge_characters(spec, 0, body);
    }
    match body {
        [] => Err(FieldFault::BadFiller),
        [first, ..] => {
            if *first / 16 != 0 && *first / 16 != 15 {
                return Err(FieldFault::BadFiller);
            }
            judge_characters(spec, 1, body)
        }
    }
}

/// Judges a body of hexadecimal digits.
fn judge_hex(spec: &FieldSpec, n: u16, body: &[u8]) -> Result<(), FieldFault>
    requires good { IsGood spec.now }
    requires coding { spec.now.coding ≡ Coding.HexText }
    requires size { length body.now ≡ 2 * n }
    ensures { IsJudged result (body_of spec.now n body.now) }
{
    if are_hex_digits(body) {
        Ok(())
    } else {
        Err(FieldFault::BadHex)
    }
}

/// Judges a whole body of `n` characters that are packed or hexadecimal digits.
#[inline(never)]
fn judge_coded(spec: &FieldSpec, n: u16, body: &[u8]) -> Result<(), FieldFault>
    requires good { IsGood spec.now }
    requires few { n ≤ spec.now.max }
    requires coded { is_plain spec.now.coding ≡ false }
    requires size { length body.now ≡ body_size spec.now.coding n }
    ensures { IsJudged result (body_of spec.now n body.now) }
{
    if spec.coding == Coding::Bcd {
        judge_packed(spec, n, body)
    } else {
        judge_hex(spec, n, body)
    }
}

/// Judges a whole body of `n` characters.
#[inline(always)]
fn judge_whole(spec: &FieldSpec, n: u16, body: &[u8]) -> Result<(), FieldFault>
    requires good { IsGood spec.now }
    requires few { n ≤ spec.now.max }
    requires size { length body.now ≡ body_size spec.now.coding n }
    ensures { IsJudged result (body_of spec.now n body.now) }
{
    if spec.coding.is_plain() {
        judge_text(spec, body)
    } else {
        judge_coded(spec, n, body)
    }
}

/// Judges the length that the bytes begin with.
#[inline(always)]
fn judge_prefix(spec: &FieldSpec, bytes: &[u8]) -> Result<Option<u16>, FieldFault>
    ensures exact { result ≡ count_at spec.now bytes.now }
    ensures few { IfOk result (λ got. IfSome got (λ n. n ≤ spec.now.max)) }
    ensures room { IfOk result
        (λ got. IfSome got (λ n. prefix_size spec.now.length ≤ length bytes.now)) }
    ensures memory { IfErr result (λ e. e ≢ Memory) }
{
    let front = spec.length.prefix_size();
    if bytes.len() < front {
        return Ok(None);
    }
    let (prefix, _) = bytes.split_at(front);
    Ok(Some(prefix_of(spec, prefix)?))
}

/// What [`judge_prefix`] answers, in code of its own: rows that have a length are fewer than the others.
#[inline(never)]
fn judge_prefix_apart(spec: &FieldSpec, bytes: &[u8]) -> Result<Option<u16>, FieldFault>
    ensures exact { result ≡ count_at spec.now bytes.now }
    ensures few { IfOk result (λ got. IfSome got (λ n. n ≤ spec.now.max)) }
    ensures room { IfOk result
        (λ got. IfSome got (λ n. prefix_size spec.now.length ≤ length bytes.now)) }
    ensures memory { IfErr result (λ e. e ≢ Memory) }
{
    judge_prefix(spec, bytes)
}

/// Judges the length that the bytes begin with, and gives the count of characters that it tells, at most the row's
/// maximum; `None` where bytes are missing. Without a length the count is the maximum. Takes no memory.
#[inline(always)]
pub fn judge_length(spec: &FieldSpec, bytes: &[u8]) -> Result<Option<u16>, FieldFault>
    // The answer is the count that a whole length tells, the maximum where none is written, or the
    // length's fault; `None` comes where bytes are missing.
    ensures exact { result ≡ count_at spec.now bytes.now }
    // The count is at most the row's maximum.
    ensures few { IfOk result (λ got. IfSome got (λ n. n ≤ spec.now.max)) }
    // A count comes only where the bytes have the whole length.
    ensures room { IfOk result
        (λ got. IfSome got (λ n. prefix_size spec.now.length ≤ length bytes.now)) }
    // Want of memory is never the fault.
    ensures memory { IfErr result (λ e. e ≢ Memory) }
{
    if spec.length == Length::Fixed {
        Ok(Some(spec.max))
    } else {
        judge_prefix_apart(spec, bytes)
    }
}

/// Judges the body of `n` characters that the bytes begin with, and gives how many bytes it takes; `None` where
/// bytes are missing. Takes no memory.
#[inline(always)]
pub fn judge_body(spec: &FieldSpec, n: u16, bytes: &[u8]) -> Result<Option<usize>, FieldFault>
    // The row is one that a table may have.
    requires good { IsGood spec.now }
    // The count of characters is at most the row's maximum.
    requires few { n ≤ spec.now.max }
    // The answer is how many bytes a whole good body takes, or the body's fault; `None` comes where
    // bytes are missing.
    ensures exact { result ≡ size_at spec.now n bytes.now }
    // A body that is judged good lies within the bytes.
    ensures room { IfOk result (λ got. IfSome got (λ size. size ≤ length bytes.now)) }
    // Want of memory is never the fault.
    ensures memory { IfErr result (λ e. e ≢ Memory) }
{
    let size = spec.coding.body_size(n);
    if bytes.len() < size {
        return Ok(None);
    }
    judge_whole(spec, n, &bytes[..size])?;
    Ok(Some(size))
}

/// Judges a length of so many bytes at the front.
#[inline(always)]
fn judge_front_of(
    front: usize,
    spec: &FieldSpec,
    bytes: &[u8],
) -> Result<Option<(usize, u16)>, FieldFault>
    requires { front ≡ prefix_size spec.now.length }
    ensures { IsFront spec.now bytes.now result }
{
    if bytes.len() < front {
        return Ok(None);
    }
    let (prefix, _) = bytes.split_at(front);
    match prefix_of(spec, prefix) {
        Ok(n) => Ok(Some((front, n))),
        Err(fault) => Err(fault),
    }
}

/// Judges the length that the bytes begin with, in code of its own: few rows come here.
#[inline(never)]
fn judge_front_apart(spec: &FieldSpec, bytes: &[u8]) -> Result<Option<(usize, u16)>, FieldFault>
    ensures { IsFront spec.now bytes.now result }
{
    judge_front_of(spec.length.prefix_size(), spec, bytes)
}

/// Judges the length that the bytes begin with: how many bytes it takes, and the count of characters that it tells. Most
/// rows have none, or one of two or three ASCII digits: each of these has code of its own, in which the compiler knows how
/// long the length is.
#[inline(always)]
fn judge_front(spec: &FieldSpec, bytes: &[u8]) -> Result<Option<(usize, u16)>, FieldFault>
    ensures { IsFront spec.now bytes.now result }
{
    match spec.length {
        Length::Fixed => Ok(Some((0, spec.max))),
        Length::LL(Digits::Ascii) => judge_front_of(2, spec, bytes),
        Length::LLL(Digits::Ascii) => judge_front_of(3, spec, bytes),
        _ => judge_front_apart(spec, bytes),
    }
}

/// Judges the part of any row: its length, and then its body.
#[inline(always)]
fn judge_behind_length(spec: &FieldSpec, bytes: &[u8]) -> Result<Judged, FieldFault>
    requires { IsGood spec.now }
    ensures exact { Judges (prefix_size spec.now.length) result (part_at spec.now bytes.now) }
    ensures memory { IfErr result (λ e. e ≢ Memory) }
    ensures room { IfJudged result (λ body used. (body ≤ used) × (used ≤ length bytes.now)) }
{
    let (front, n) = match judge_front(spec, bytes) {
        Ok(Some(told)) => told,
        Ok(None) => return Ok(Judged::More),
        Err(fault) => return Err(fault),
    };
    let (_, rest) = bytes.split_at(front);
    match judge_body(spec, n, rest) {
        Ok(Some(size)) => Ok(Judged::Got {
            body: front,
            used: front + size,
        }),
        Ok(None) => Ok(Judged::More),
        Err(fault) => Err(fault),
    }
}

/// What [`judge_behind_length`] answers, in code of its own: few rows come here.
#[inline(never)]
fn judge_behind_length_apart(spec: &FieldSpec, bytes: &[u8]) -> Result<Judged, FieldFault>
    requires { IsGood spec.now }
    ensures exact { Judges (prefix_size spec.now.length) result (part_at spec.now bytes.now) }
    ensures memory { IfErr result (λ e. e ≢ Memory) }
    ensures room { IfJudged result (λ body used. (body ≤ used) × (used ≤ length bytes.now)) }
{
    judge_behind_length(spec, bytes)
}

/// What [`judge_field`] answers. Where a character is a byte, as in most rows, the part is judged in the code around it.
#[inline(always)]
fn judged_of(spec: &FieldSpec, bytes: &[u8]) -> Result<Judged, FieldFault>
    requires { IsGood spec.now }
    ensures exact { Judges (prefix_size spec.now.length) result (part_at spec.now bytes.now) }
    ensures memory { IfErr result (λ e. e ≢ Memory) }
    ensures room { IfJudged result (λ body used. (body ≤ used) × (used ≤ length bytes.now)) }
{
    if spec.coding.is_plain() {
        judge_behind_length(spec, bytes)
    } else {
        judge_behind_length_apart(spec, bytes)
    }
}

/// Judges the part that the bytes begin with, as [`decode_field`](crate::decode_field) does, but without its value
/// and without memory: where its body begins, and how many bytes it takes.
#[inline(always)]
pub fn judge_field(spec: &FieldSpec, bytes: &[u8]) -> Result<Judged, FieldFault>
    // The row is one that a table may have.
    requires { IsGood spec.now }
    // What is judged good lies within the bytes, and is a part of some value under the row.
    ensures found { IfJudged result (λ body used. (used ≤ length bytes.now)
        × ((value : List ℕ) × Part spec.now value (take used bytes.now))) }
    // Of what is judged good, reading gives a value: it can be decoded without judging it again.
    ensures part { IfJudged result (λ body used. IsPart (part_at spec.now bytes.now)) }
    // The judgement is that of reading the value: good, with the offset of the body, or `More`, or
    // the same fault.
    ensures exact { Judges (prefix_size spec.now.length) result (part_at spec.now bytes.now) }
    // `More` comes exactly where, by its whole pieces, the bytes end inside a part.
    ensures more { (result ≡ Ok Judged.More) ↔ EndsInPart spec.now bytes.now }
    // A fault comes exactly where a whole piece behind good ones is bad, and is the first thing
    // that is wrong with it.
    ensures stops { (e : FieldFault) → (result ≡ Err e) ↔ IsBadPart spec.now bytes.now e }
    // Want of memory is never the fault.
    ensures memory { IfErr result (λ e. e ≢ Memory) }
    // A part that is judged good lies within the bytes, and its body within the part.
    ensures room { IfJudged result (λ body used. (body ≤ used) × (used ≤ length bytes.now)) }
{
    judged_of(spec, bytes)
}
