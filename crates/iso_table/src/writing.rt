//! A table as JSON, of profile 2.

ghost use Rattle.std.specs.Prelude.{◌≡◌, ◌++◌, ◌∷◌, [], None, Some, IfOk, OnOk, option_map, string_bytes};
ghost use Rattle.hex.specs.Hex.{encode_upper};
ghost use Rattle.serde_json.specs.Data.{object, string, number, unsigned, no_members, put as with_member};
ghost use Rattle.serde_json.specs.View.{view, items_view, members_view};
ghost use Rattle.iso_table.specs.Document.{prefix_named, row_object, row_data, rows_data, document};
ghost use Rattle.iso_table.specs.Names.{class_name, coding_name, digits_name, bitmap_name, length_name, pad_name};

use iso_parts::{BitmapCoding, CharClass, Coding, Digits, FieldSpec, Length, Pad};
use serde_json::{Map, Value, put};
use std::alloc::{AllocError, Global};

fn class_name(class: CharClass) -> &'static str
    ensures { result.now ≡ class_name class }
{
    match class {
        CharClass::N => "N",
        CharClass::A => "A",
        CharClass::AN => "AN",
        CharClass::ANS => "ANS",
        CharClass::Z => "Z",
        CharClass::ZD => "ZD",
        CharClass::XN => "XN",
        CharClass::B => "B",
    }
}

fn coding_name(coding: Coding) -> &'static str
    ensures { result.now ≡ coding_name coding }
{
    match coding {
        Coding::Ascii => "ascii",
        Coding::Bcd => "bcd",
        Coding::Raw => "raw",
        Coding::HexText => "hex",
    }
}

fn digits_name(digits: Digits) -> &'static str
    ensures { result.now ≡ digits_name digits }
{
    match digits {
        Digits::Ascii => "ascii",
        Digits::Bcd => "bcd",
    }
}

fn bitmap_name(bitmap: BitmapCoding) -> &'static str
    ensures { result.now ≡ bitmap_name bitmap }
{
    match bitmap {
        BitmapCoding::Raw => "raw",
        BitmapCoding::Hex => "hex",
    }
}

fn length_name(kind: Length) -> &'static str
    ensures { result.now ≡ length_name kind }
{
    match kind {
        Length::Fixed => "fixed",
        Length::LL(_) => "LL",
        Length::LLL(_) => "LLL",
        Length::LLLL(_) => "LLLL",
    }
}

/// A beginning, and the two digits of a byte.
fn with_digits(alloc: Global, front: &str, byte: u8) -> Result<String, AllocError>
    ensures { IfOk result (λ name. string_bytes name ≡ front.now ++ encode_upper (byte ∷ [])) }
{
    let digits = hex::encode_upper(alloc, [byte])?;
    let mut name = String::from_str(alloc, front)?;
    name.push_str(digits.as_str())?;
    Ok(name)
}

fn pad_name(alloc: Global, pad: Pad) -> Result<String, AllocError>
    ensures { IfOk result (λ name. string_bytes name ≡ pad_name pad) }
{
    match pad {
        Pad::None => String::from_str(alloc, "none"),
        Pad::Left(byte) => with_digits(alloc, "left:", byte),
        Pad::Right(byte) => with_digits(alloc, "right:", byte),
    }
}

/// How the digits of a length are written, where one stands before the value.
fn prefix_of(kind: Length) -> Option<Digits>
    ensures { result ≡ prefix_named kind }
{
    match kind {
        Length::Fixed => None,
        Length::LL(digits) | Length::LLL(digits) | Length::LLLL(digits) => Some(digits),
    }
}

/// Adds a text to the members of an object.
fn put_text(
    members: &mut Map<String, Value>,
    alloc: Global,
    name: &str,
    text: &str,
) -> Result<(), AllocError>
    ensures { OnOk result (members_view members.new.entries
        ≡ with_member name.now (string text.now) (members_view members.old.entries)) }
{
    put(members, alloc, name, Value::try_from_str(alloc, text)?)
}

/// Adds a number to the members of an object.
fn put_number(
    members: &mut Map<String, Value>,
    alloc: Global,
    name: &str,
    value: u64,
) -> Result<(), AllocError>
    ensures { OnOk result (members_view members.new.entries
        ≡ with_member name.now (number (unsigned value)) (members_view members.old.entries)) }
{
    put(members, alloc, name, Value::from(value))
}

/// Adds the members that each row has.
fn put_row(
    members: &mut Map<String, Value>,
    alloc: Global,
    number: usize,
    spec: &FieldSpec,
    pad: &str,
) -> Result<(), AllocError>
    requires { members_view members.old.entries ≡ no_members }
    ensures { OnOk result
        (object (members_view members.new.entries) ≡ row_object number spec.now pad.now None) }
{
    put_text(members, alloc, "class", class_name(spec.class))?;
    put_text(members, alloc, "coding", coding_name(spec.coding))?;
    put_text(members, alloc, "length", length_name(spec.length))?;
    put_number(members, alloc, "max", u64::from(spec.max))?;
    put_number(members, alloc, "number", number as u64)?;
    put_text(members, alloc, "pad", pad)
}

/// The JSON value of a row.
fn row_value(alloc: Global, number: usize, spec: &FieldSpec) -> Result<Value, AllocError>
    ensures { IfOk result (λ value. view value ≡ row_data number spec.now) }
{
    let pad = pad_name(alloc, spec.pad)?;
    let mut members = Map::new(alloc);
    put_row(&mut members, alloc, number, spec, pad.as_str())?;
    if let Some(digits) = prefix_of(spec.length) {
        put_text(&mut members, alloc, "prefix", digits_name(digits))?;
    }
    Ok(Value::Object(members))
}

/// The JSON values of the rows at the places.
fn row_values(alloc: Global, places: &[Option<FieldSpec>]) -> Result<Vec<Value>, AllocError>
    ensures { IfOk result (λ values. items_view values.items ≡ rows_data 0 places.now) }
{
    let mut values = Vec::new(alloc);
    for (number, place) in places.iter().enumerate() {
        if let Some(spec) = place {
            values.push(row_value(alloc, number, spec)?)?;
        }
    }
    Ok(values)
}

/// The JSON value of a table.
pub fn document(
    alloc: Global,
    version: u8,
    mti: Digits,
    bitmap: BitmapCoding,
    places: &[Option<FieldSpec>],
) -> Result<Value, AllocError>
    // Memory aside, it is the object of profile 2, its members by name and its rows by number.
    ensures { IfOk result (λ value. view value
        ≡ document (record { version = version; mti = mti; bitmap = bitmap; rows = places.now })) }
{
    let mut members = Map::new(alloc);
    put_text(&mut members, alloc, "bitmap", bitmap_name(bitmap))?;
    put_text(&mut members, alloc, "mti", digits_name(mti))?;
    put_number(&mut members, alloc, "profile", 2)?;
    let rows = Value::Array(row_values(alloc, places)?);
    put(&mut members, alloc, "rows", rows)?;
    put_number(&mut members, alloc, "version", u64::from(version))?;
    Ok(Value::Object(members))
}
