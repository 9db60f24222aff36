//! A specification of moov-io/iso8583.

ghost use Rattle.std.specs.Prelude.{◌≡◌, ◌+◌, None, Some, false, length, suc, option_map, IfErr};
ghost use Rattle.std.specs.Prelude.{IfOk, IsErrOf, IsTrue, OnOk, codes};
ghost use Rattle.serde_json.specs.Find.{get};
ghost use Rattle.serde_json.specs.Read.{read};
ghost use Rattle.serde_json.specs.View.{members_view, view};
ghost use Rattle.iso_parts.specs.Numbers.{is_element};
ghost use Rattle.iso_parts.specs.Spec.{IsGood};
ghost use Rattle.iso_table.specs.Accepted.{contents};
ghost use Rattle.iso_table.specs.Members.{whole_at};
ghost use Rattle.iso_import.specs.declared.fault.ImportFault.TheVariants.{NotText};
ghost use Rattle.iso_import.specs.Fields.{bitmap_coded, coded_in, is_fixed, mti_coded};
ghost use Rattle.iso_import.specs.Fields.{pad_in, prefixes, row_in, said};
ghost use Rattle.iso_import.specs.Kinds.{named_in};
ghost use Rattle.iso_import.specs.Found.{found, found_count, has_number, CanJoin, CanStand};
ghost use Rattle.iso_import.specs.Found.{GoOn, IsDraftOf};
ghost use Rattle.iso_import.specs.Told.{good_row_in, is_specification, IsOfFields};
ghost use Rattle.iso_import.specs.Told.{fields_in, RefusesAs};
ghost use Rattle.iso_import.specs.Step.{AreFound, IsRow, TakesField};

use crate::fault::ImportFault;
use crate::kinds::Kind;
use crate::taken::{Imported, Taken};
use iso_parts::{BitmapCoding, CharClass, Coding, Digits, FieldSpec, Length, Pad};
use iso_table::members::text_at;
use serde_json::{Category, Map, Value};
use std::alloc::{AllocError, Global};

/// The text of a member; empty where there is none.
fn said<'v>(field: &'v Value, member: &str) -> &'v str
    ensures { result.now ≡ said member.now (view field.now) }
{
    text_at(field, member).unwrap_or("")
}

/// What an encoding is in a row: the class of values of a type, and their coding.
fn coded(type_name: &str, encoding: &str) -> Option<(CharClass, Coding)>
    ensures { result ≡ coded_in type_name.now encoding.now }
{
    match (type_name, encoding) {
        ("Numeric", "ASCII") => Some((CharClass::N, Coding::Ascii)),
        ("String", "ASCII") => Some((CharClass::ANS, Coding::Ascii)),
        ("Numeric" | "String", "BCD") => Some((CharClass::N, Coding::Bcd)),
        ("Binary", "Binary") => Some((CharClass::B, Coding::Raw)),
        ("Binary", "HexToASCII") => Some((CharClass::B, Coding::HexText)),
        _ => None,
    }
}

/// What a prefix is in a row.
fn length_of(prefix: &str) -> Option<Length>
    ensures { result ≡ named_in prefixes prefix.now }
{
    match prefix {
        "ASCII.Fixed" | "BCD.Fixed" | "Binary.Fixed" | "Hex.Fixed" => Some(Length::Fixed),
        "ASCII.LL" => Some(Length::LL(Digits::Ascii)),
        "ASCII.LLL" => Some(Length::LLL(Digits::Ascii)),
        "ASCII.LLLL" => Some(Length::LLLL(Digits::Ascii)),
        "BCD.LL" => Some(Length::LL(Digits::Bcd)),
        "BCD.LLL" => Some(Length::LLL(Digits::Bcd)),
        "BCD.LLLL" => Some(Length::LLLL(Digits::Bcd)),
        _ => None,
    }
}

/// What a padding is in a row. Zeros before digits are digits of the value there.
fn pad_of(field: &Value, class: CharClass) -> Option<Pad>
    ensures { result ≡ pad_in class (get (codes "padding") (view field.now)) }
{
    let Some(padding) = field.get("padding") else {
        return Some(Pad::None);
    };
    match (said(padding, "type"), said(padding, "pad")) {
        ("Left", "0") if class == CharClass::N => Some(Pad::None),
        ("Left", " ") => Some(Pad::Left(b' ')),
        ("Right", " ") => Some(Pad::Right(b' ')),
        ("None" | "", _) => Some(Pad::None),
        _ => None,
    }
}

/// The most characters of a field's values.
fn most_of(field: &Value) -> Option<u16>
    ensures { result ≡ whole_at (codes "length") 65535 (view field.now) }
{
    u16::try_from(field.get("length")?.as_u64()?).ok()
}

/// The row that a field tells, good or not, or why it tells none.
fn laid_row(field: &Value) -> Result<FieldSpec, &'static str>
    ensures row { IfOk result (λ spec. row_in (view field.now) ≡ Some spec) }
    ensures none { IfErr result (λ why. row_in (view field.now) ≡ None) }
{
    let Some((class, coding)) = coded(said(field, "type"), said(field, "enc")) else {
        return Err("no row has values of this type in this encoding");
    };
    let Some(length) = length_of(said(field, "prefix")) else {
        return Err("no row has a length like this before its value");
    };
    let Some(pad) = pad_of(field, class) else {
        return Err("no row has this padding");
    };
    let Some(max) = most_of(field) else {
        return Err("its length is no number");
    };
    let kind = Kind {
        class,
        coding,
        length,
        pad,
    };
    Ok(kind.with(max))
}

/// The good row of a field, or why it has none.
fn good_row_of(field: &Value) -> Result<FieldSpec, &'static str>
    ensures good { IfOk result (λ spec. IsGood spec) }
    ensures row { IfOk result (λ spec. good_row_in (view field.now) ≡ Some spec) }
    ensures none { IfErr result (λ why. good_row_in (view field.now) ≡ None) }
{
    let spec = laid_row(field)?;
    if spec.good().is_ok() {
        Ok(spec)
    } else {
        Err("its length is more than its digits can tell, or its padding goes with another coding")
    }
}

/// Whether a field's values all have one length.
fn is_fixed(field: &Value) -> bool
    ensures { result ≡ is_fixed (view field.now) }
{
    matches!(length_of(said(field, "prefix")), Some(Length::Fixed))
}

/// How the type is written, where the field of that number says it.
fn mti_coded(number: u16, field: &Value) -> Option<Digits>
    ensures { result ≡ mti_coded number (view field.now) }
{
    if number != 0 || !is_fixed(field) || most_of(field).unwrap_or(0) != 4 {
        return None;
    }
    match said(field, "enc") {
        "ASCII" => Some(Digits::Ascii),
        "BCD" => Some(Digits::Bcd),
        _ => None,
    }
}

/// How the bitmaps are written, where the field of that number says it.
fn bitmap_coded(number: u16, field: &Value) -> Option<BitmapCoding>
    ensures { result ≡ bitmap_coded number (view field.now) }
{
    if number != 1 || !is_fixed(field) {
        return None;
    }
    match said(field, "enc") {
        "HexToASCII" => Some(BitmapCoding::Hex),
        "Binary" => Some(BitmapCoding::Raw),
        _ => None,
    }
}

/// The row of a field whose place in the table is free, or why it has none.
fn free_row(taken: &Taken, number: u16, field: &Value) -> Result<FieldSpec, &'static str>
    ensures free { IfOk result (λ spec. CanJoin taken.now.rows.items number spec) }
    ensures row { IfOk result (λ spec. good_row_in (view field.now) ≡ Some spec) }
    ensures none { IfErr result (λ why. IsTrue (is_element number)
        → has_number taken.now.rows.items number ≡ false
        → good_row_in (view field.now) ≡ None) }
{
    match taken.refusal_of(number) {
        Some(why) => Err(why),
        None => good_row_of(field),
    }
}

/// Takes a field.
fn take_field(alloc: Global, taken: &mut Taken, key: &str, field: &Value) -> Result<(), AllocError>
    ensures rows { GoOn IsRow taken.old.rows.items taken.new.rows.items }
    ensures told { OnOk result (TakesField key.now (view field.now) (found taken.old)
        (found taken.new)) }
    ensures counted { OnOk result (length taken.new.left.items + found_count (found taken.new)
        ≡ suc (length taken.old.left.items + found_count (found taken.old))) }
{
    let what = said(field, "type");
    let Ok(number) = key.parse::<u16>() else {
        return taken.leave(alloc, key, what, "its key is no number");
    };
    if taken.take_front(mti_coded(number, field), bitmap_coded(number, field)) {
        return Ok(());
    }
    match free_row(taken, number, field) {
        Ok(spec) => taken.add(number, spec),
        Err(why) => taken.leave(alloc, key, what, why),
    }
}

/// The JSON value of a text.
fn value_of(alloc: Global, text: &str) -> Result<Value, ImportFault>
    ensures value { IfOk result (λ value. read text.now ≡ Some (view value)) }
    ensures fault { IfErr result (RefusesAs is_specification text.now) }
    ensures text { IsErrOf result NotText → ⊥ }
{
    match Value::from_str(alloc, text) {
        Ok(value) => Ok(value),
        Err(error) if error.classify() == Category::Memory => Err(ImportFault::Memory),
        Err(error) => Err(ImportFault::NotJson {
            line: error.line(),
            column: error.column(),
        }),
    }
}

/// The fields of a specification.
fn fields_of(value: &Value) -> Option<&Map<String, Value>>
    ensures { option_map (λ fields. members_view fields.now.entries) result
        ≡ fields_in (view value.now) }
{
    value.get("fields")?.as_object()
}

/// What the fields of a specification tell, taken in the order of their keys.
fn taken_from(alloc: Global, fields: &Map<String, Value>) -> Result<Taken, AllocError>
    ensures rows { IfOk result (λ taken. CanStand taken.rows.items) }
    ensures told { IfOk result (λ taken. AreFound (members_view fields.now.entries) (found taken)
        (length taken.left.items)) }
{
    let mut taken = Taken::new(alloc);
    for (key, field) in fields {
        take_field(alloc, &mut taken, key.as_str(), field)?;
    }
    Ok(taken)
}

/// The table of a specification.
pub(crate) fn specification_in(
    alloc: Global,
    text: &str,
    version: u8,
) -> Result<Imported, ImportFault>
    ensures draft { IfOk result (λ imported. IsDraftOf version (contents imported.draft)) }
    ensures told { IfOk result (λ imported. IsOfFields text.now (contents imported.draft)
        (length imported.left.items)) }
    ensures fault { IfErr result (RefusesAs is_specification text.now) }
    ensures text { IsErrOf result NotText → ⊥ }
{
    let value = value_of(alloc, text)?;
    match fields_of(&value) {
        Some(fields) => Ok(taken_from(alloc, fields)?.into_imported(version)),
        None => Err(ImportFault::NoFields),
    }
}
