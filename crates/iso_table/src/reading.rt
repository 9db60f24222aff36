//! A draft from JSON, of profile 1 or 2.

ghost use Rattle.std.specs.Prelude.{◌≡◌, ◌≢◌, ◌+◌, IfOk, IfErr, IfSome, IsNone, IsErrOf, None, Some, Ok, Err, option_map, codes};
ghost use Rattle.serde_json.specs.Errors.{IsMemory};
ghost use Rattle.serde_json.specs.View.{view, items_view};
ghost use Rattle.iso_table.specs.declared.fault.TableFault.TheVariants.{NotJson, Shape, Memory};
ghost use Rattle.iso_table.specs.Accepted.{contents};
ghost use Rattle.iso_table.specs.Members.{has_size, text_at, u64_at, whole_at};
ghost use Rattle.iso_table.specs.Document.{digits_at, class_in, coding_in, pad_in, prefix_in, length_by, length_in, spec_in, document_row};
ghost use Rattle.iso_table.specs.Document.{rows_in, bitmap_in, list_in, members_in, with_rows, contents_in, profile_numbered};
ghost use Rattle.iso_table.specs.Document.{has_four_digits, draft_in, StandsFor, IsNotJson};
ghost use Rattle.iso_table.specs.Names.{class_named, coding_named, digits_named, bitmap_named, pad_named, byte_of, behind};

use crate::draft::{Draft, Row};
use crate::fault::TableFault;
use crate::members::{has_members, text_at};
use iso_parts::{BitmapCoding, CharClass, Coding, Digits, FieldSpec, Length, Pad};
use serde_json::{Category, Value};
use std::alloc::Global;

/// The profiles of documents that are read.
#[derive(Clone, Copy)]
pub enum Profile {
    /// Lengths of two and three digits.
    One,
    /// Lengths of four digits too.
    Two,
}

impl Profile {
    /// The profile of this number.
    fn of_number(number: u16) -> Option<Profile>
        ensures { result ≡ profile_numbered number }
    {
        match number {
            1 => Some(Profile::One),
            2 => Some(Profile::Two),
            _ => None,
        }
    }

    /// Whether documents of the profile may have lengths of four digits.
    fn has_four_digits(self) -> bool
        ensures { result ≡ has_four_digits self }
    {
        matches!(self, Profile::Two)
    }
}

fn class_named(name: &str) -> Option<CharClass>
    ensures { result ≡ class_named name.now }
{
    match name {
        "N" => Some(CharClass::N),
        "A" => Some(CharClass::A),
        "AN" => Some(CharClass::AN),
        "ANS" => Some(CharClass::ANS),
        "Z" => Some(CharClass::Z),
        "ZD" => Some(CharClass::ZD),
        "XN" => Some(CharClass::XN),
        "B" => Some(CharClass::B),
        _ => None,
    }
}

fn coding_named(name: &str) -> Option<Coding>
    ensures { result ≡ coding_named name.now }
{
    match name {
        "ascii" => Some(Coding::Ascii),
        "bcd" => Some(Coding::Bcd),
        "raw" => Some(Coding::Raw),
        "hex" => Some(Coding::HexText),
        _ => None,
    }
}

fn digits_named(name: &str) -> Option<Digits>
    ensures { result ≡ digits_named name.now }
{
    match name {
        "ascii" => Some(Digits::Ascii),
        "bcd" => Some(Digits::Bcd),
        _ => None,
    }
}

fn bitmap_named(name: &str) -> Option<BitmapCoding>
    ensures { result ≡ bitmap_named name.now }
{
    match name {
        "raw" => Some(BitmapCoding::Raw),
        "hex" => Some(BitmapCoding::Hex),
        _ => None,
    }
}

/// The byte of two hexadecimal digits.
fn byte_of(digits: &[u8]) -> Option<u8>
    ensures { result ≡ byte_of digits.now }
{
    let mut byte = [0];
    match hex::decode_to_slice(digits, &mut byte) {
        Ok(()) => Some(byte[0]),
        Err(_) => None,
    }
}

/// What stands behind a beginning.
fn behind<'a>(text: &'a [u8], front: &[u8]) -> Option<&'a [u8]>
    ensures { option_map (λ rest. rest.now) result ≡ behind front.now text.now }
{
    text.strip_prefix(front)
}

fn pad_named(name: &str) -> Option<Pad>
    ensures { result ≡ pad_named name.now }
{
    if name == "none" {
        return Some(Pad::None);
    }
    if let Some(digits) = behind(name.as_bytes(), b"left:") {
        return byte_of(digits).map(Pad::Left);
    }
    if let Some(digits) = behind(name.as_bytes(), b"right:") {
        return byte_of(digits).map(Pad::Right);
    }
    None
}

/// The whole number at a member.
fn u64_at(value: &Value, key: &str) -> Option<u64>
    ensures { result ≡ u64_at key.now (view value.now) }
{
    value.get(key)?.as_u64()
}

fn u16_at(value: &Value, key: &str) -> Option<u16>
    ensures { result ≡ whole_at key.now 65535 (view value.now) }
{
    u16::try_from(u64_at(value, key)?).ok()
}

fn u8_at(value: &Value, key: &str) -> Option<u8>
    ensures { result ≡ whole_at key.now 255 (view value.now) }
{
    u8::try_from(u64_at(value, key)?).ok()
}

fn digits_at(value: &Value, key: &str) -> Option<Digits>
    ensures { result ≡ digits_at key.now (view value.now) }
{
    digits_named(text_at(value, key)?)
}

/// How the digits of a length are written, in an object that has the member `prefix` too.
fn prefix_in(value: &Value) -> Option<Digits>
    ensures { result ≡ prefix_in (view value.now) }
{
    if has_members(value, 7) {
        digits_at(value, "prefix")
    } else {
        None
    }
}

fn length_named(profile: Profile, value: &Value, name: &str) -> Option<Length>
    ensures { result ≡ length_by profile (view value.now) name.now }
{
    match name {
        "fixed" if has_members(value, 6) => Some(Length::Fixed),
        "LL" => prefix_in(value).map(Length::LL),
        "LLL" => prefix_in(value).map(Length::LLL),
        "LLLL" if profile.has_four_digits() => prefix_in(value).map(Length::LLLL),
        _ => None,
    }
}

fn length_in(profile: Profile, value: &Value) -> Option<Length>
    ensures { result ≡ length_in profile (view value.now) }
{
    length_named(profile, value, text_at(value, "length")?)
}

fn class_in(value: &Value) -> Option<CharClass>
    ensures { result ≡ class_in (view value.now) }
{
    class_named(text_at(value, "class")?)
}

fn coding_in(value: &Value) -> Option<Coding>
    ensures { result ≡ coding_in (view value.now) }
{
    coding_named(text_at(value, "coding")?)
}

fn pad_in(value: &Value) -> Option<Pad>
    ensures { result ≡ pad_in (view value.now) }
{
    pad_named(text_at(value, "pad")?)
}

/// How the field of a row is laid out.
fn spec_in(profile: Profile, value: &Value) -> Option<FieldSpec>
    ensures { result ≡ spec_in profile (view value.now) }
{
    Some(FieldSpec {
        class: class_in(value)?,
        coding: coding_in(value)?,
        length: length_in(profile, value)?,
        max: u16_at(value, "max")?,
        pad: pad_in(value)?,
    })
}

/// The row that a JSON value is.
fn document_row(profile: Profile, value: &Value) -> Option<Row>
    ensures { result ≡ document_row profile (view value.now) }
{
    Some(Row {
        number: u16_at(value, "number")?,
        spec: spec_in(profile, value)?,
    })
}

/// The rows that these JSON values are.
fn rows_in(alloc: Global, profile: Profile, values: &[Value]) -> Result<Vec<Row>, TableFault>
    ensures ok { IfOk result (λ rows. rows_in profile (items_view values.now) ≡ Some rows.items) }
    ensures fault { IfErr result (λ e. e ≢ Memory → e ≡ Shape) }
    ensures shape { IfErr result
        (λ e. e ≢ Memory → rows_in profile (items_view values.now) ≡ None) }
{
    let mut rows = Vec::new(alloc);
    for value in values {
        let Some(row) = document_row(profile, value) else {
            return Err(TableFault::Shape);
        };
        rows.push(row)?;
    }
    Ok(rows)
}

/// What a draft says beside its rows.
#[derive(Clone, Copy)]
struct Head {
    version: u8,
    mti: Digits,
    bitmap: BitmapCoding,
}

fn bitmap_in(value: &Value) -> Option<BitmapCoding>
    ensures { result ≡ bitmap_in (view value.now) }
{
    bitmap_named(text_at(value, "bitmap")?)
}

/// What an object of all members says beside its rows.
fn head_in(profile: Profile, value: &Value) -> Option<Head>
    ensures some { IfSome result (λ h. members_in profile (view value.now)
        ≡ with_rows h.version h.mti h.bitmap (list_in profile (view value.now))) }
    ensures none { IsNone result → members_in profile (view value.now) ≡ None }
{
    Some(Head {
        version: u8_at(value, "version")?,
        mti: digits_at(value, "mti")?,
        bitmap: bitmap_in(value)?,
    })
}

/// The rows of an object, each of them one.
fn list_in(alloc: Global, profile: Profile, value: &Value) -> Result<Vec<Row>, TableFault>
    ensures ok { IfOk result (λ rows. list_in profile (view value.now) ≡ Some rows.items) }
    ensures fault { IfErr result (λ e. e ≢ Memory → e ≡ Shape) }
    ensures shape { IfErr result (λ e. e ≢ Memory → list_in profile (view value.now) ≡ None) }
{
    let Some(list) = value.get("rows") else {
        return Err(TableFault::Shape);
    };
    let Some(values) = list.as_array() else {
        return Err(TableFault::Shape);
    };
    rows_in(alloc, profile, values.as_slice())
}

/// The draft that an object of all members is.
fn contents_in(alloc: Global, profile: Profile, value: &Value) -> Result<Draft, TableFault>
    ensures ok { IfOk result (λ d. contents_in profile (view value.now) ≡ Some (contents d)) }
    ensures fault { IfErr result (λ e. e ≢ Memory → e ≡ Shape) }
    ensures shape { IfErr result (λ e. e ≢ Memory → contents_in profile (view value.now) ≡ None) }
{
    if !has_members(value, 5) {
        return Err(TableFault::Shape);
    }
    let Some(head) = head_in(profile, value) else {
        return Err(TableFault::Shape);
    };
    Ok(Draft {
        version: head.version,
        mti: head.mti,
        bitmap: head.bitmap,
        rows: list_in(alloc, profile, value)?,
    })
}

/// The draft that a JSON value is.
pub fn draft_in(alloc: Global, value: &Value) -> Result<Draft, TableFault>
    // At `Ok` the draft is exactly the one that the JSON value stands for.
    ensures ok { IfOk result (λ d. draft_in (view value.now) ≡ Ok (contents d)) }
    // Memory aside, the fault is the first thing wrong with the value: another profile than 1 and
    // 2, or a member that is missing, unknown or of another kind.
    ensures fault { IfErr result (λ e. e ≢ Memory → draft_in (view value.now) ≡ Err e) }
    // `NotJson` never comes: a value is JSON.
    ensures json { IsErrOf result TableFault.NotJson → ⊥ }
{
    let Some(number) = u16_at(value, "profile") else {
        return Err(TableFault::Shape);
    };
    match Profile::of_number(number) {
        Some(profile) => contents_in(alloc, profile, value),
        None => Err(TableFault::Profile),
    }
}

/// The JSON value of a text.
pub fn value_of(alloc: Global, text: &[u8]) -> Result<Value, TableFault>
    // At `Ok` the text is JSON in UTF-8, and stands for that value.
    ensures ok { IfOk result (λ value. StandsFor text.now (view value)) }
    // Memory aside, `NotJson` is the only fault.
    ensures fault { IfErr result (λ e. e ≢ Memory → e ≡ NotJson) }
    // `NotJson` comes only for a text that is no JSON.
    ensures not_json { IsErrOf result TableFault.NotJson → IsNotJson text.now }
{
    match Value::from_slice(alloc, text) {
        Ok(value) => Ok(value),
        Err(error) if error.classify() == Category::Memory => Err(TableFault::Memory),
        Err(_) => Err(TableFault::NotJson),
    }
}
