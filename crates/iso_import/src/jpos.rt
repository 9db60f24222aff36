//! A packager of jPOS.

ghost use Rattle.std.specs.Prelude.{◌≡◌, IfErr, IfOk, IsErrOf, IsTrue};
ghost use Rattle.iso_table.specs.Accepted.{contents};
ghost use Rattle.iso_import.specs.declared.fault.ImportFault.TheVariants.{NotText};
ghost use Rattle.iso_import.specs.Kinds.{bitmap_named, laid_out, mti_named, AreOfClasses, IsOfClass};
ghost use Rattle.iso_import.specs.Found.{CanJoin, CanStand, GoOn, IsDraftOf};
ghost use Rattle.iso_import.specs.Told.{is_packager, RefusesAs};

use crate::fault::ImportFault;
use crate::kinds::{Bytes, kind_of, no_row, on_track};
use crate::markup::{Markup, attribute, is_empty, name_of, next_markup};
use crate::taken::{Imported, Taken};
use iso_parts::{BitmapCoding, Coding, Digits, FieldSpec, Length};
use std::alloc::{AllocError, Global};

/// What stands before the name of a class.
const PACKAGE: &str = "org.jpos.iso.";

/// The tags of a packager's fields.
const FIELD: &str = "isofield";

const WITH_FIELDS: &str = "isofieldpackager";

/// The elements whose digits have a separator among them.
const TRACKS: [u16; 2] = [35, 36];

/// The number of an attribute.
fn number_at(tag: &str, name: &str) -> Option<u16> {
    attribute(tag, name)?.parse::<u16>().ok()
}

/// The class of a field, without its package.
fn class_of(tag: &str) -> &str {
    let class = attribute(tag, "class").unwrap_or("no class");
    class.strip_prefix(PACKAGE).unwrap_or(class)
}

/// Whether an odd count of digits would have its filler behind them: a row's stands in front.
fn is_right_filled(tag: &str, spec: &FieldSpec) -> bool {
    let can_be_odd = spec.length != Length::Fixed || spec.max % 2 == 1;
    spec.coding == Coding::Bcd && can_be_odd && attribute(tag, "pad") != Some("true")
}

/// The row of a field of this number.
fn laid_out(number: u16, spec: FieldSpec) -> FieldSpec
    ensures { result ≡ laid_out number spec }
{
    if TRACKS.contains(&number) {
        on_track(spec)
    } else {
        spec
    }
}

/// The good row of a field, or why it has none.
fn good_row_of(tag: &str, number: u16, bytes: Bytes) -> Result<FieldSpec, &'static str>
    ensures { IfOk result (λ spec. IsOfClass bytes number spec) }
{
    let class = class_of(tag);
    let Some(max) = number_at(tag, "length") else {
        return Err("its length is no number");
    };
    let Some(kind) = kind_of(class, bytes) else {
        return Err(no_row(class));
    };
    let spec = laid_out(number, kind.with(max));
    if spec.good().is_err() {
        return Err("its length is more than its digits can tell, or none");
    }
    if is_right_filled(tag, &spec) {
        return Err(
            "an odd count of digits has its filler behind them (pad isn't true), and a row's stands in front",
        );
    }
    Ok(spec)
}

/// How the type is written, where the field of that number says it.
fn mti_named(number: u16, class: &str) -> Option<Digits>
    ensures { result ≡ mti_named number class.now }
{
    match (number, class) {
        (0, "IFA_NUMERIC") => Some(Digits::Ascii),
        (0, "IFB_NUMERIC") => Some(Digits::Bcd),
        _ => None,
    }
}

/// How the bitmaps are written, where the field of that number says it.
fn bitmap_named(number: u16, class: &str) -> Option<BitmapCoding>
    ensures { result ≡ bitmap_named number class.now }
{
    match (number, class) {
        (1, "IFA_BITMAP") => Some(BitmapCoding::Hex),
        (1, "IFB_BITMAP") => Some(BitmapCoding::Raw),
        _ => None,
    }
}

/// Takes how the type or the bitmaps are written: a type of four digits, and bitmaps of 16 bytes, a second one among them. Tells
/// whether the field says it, and no earlier one did.
fn take_front(taken: &mut Taken, tag: &str, number: u16, class: &str) -> bool
    ensures { taken.new.rows.items ≡ taken.old.rows.items }
{
    match (number, number_at(tag, "length")) {
        (0, Some(4)) | (1, Some(16)) => {
            taken.take_front(mti_named(number, class), bitmap_named(number, class))
        }
        _ => false,
    }
}

/// The row of a field whose place in the table is free, or why it has none.
fn free_row(taken: &Taken, tag: &str, number: u16, bytes: Bytes) -> Result<FieldSpec, &'static str>
    ensures free { IfOk result (λ spec. CanJoin taken.now.rows.items number spec) }
    ensures class { IfOk result (λ spec. IsOfClass bytes number spec) }
{
    match taken.refusal_of(number) {
        Some(why) => Err(why),
        None => good_row_of(tag, number, bytes),
    }
}

/// Takes a field of a number.
fn take_numbered(
    alloc: Global,
    taken: &mut Taken,
    tag: &str,
    number: u16,
    bytes: Bytes,
) -> Result<(), AllocError>
    ensures { GoOn (IsOfClass bytes) taken.old.rows.items taken.new.rows.items }
{
    let (class, id) = (class_of(tag), attribute(tag, "id").unwrap_or(""));
    if take_front(taken, tag, number, class) {
        return Ok(());
    }
    match free_row(taken, tag, number, bytes) {
        Ok(spec) => taken.add(number, spec),
        Err(why) => taken.leave(alloc, id, class, why),
    }
}

/// Takes a field.
fn take_field(alloc: Global, taken: &mut Taken, tag: &str, bytes: Bytes) -> Result<(), AllocError>
    ensures { GoOn (IsOfClass bytes) taken.old.rows.items taken.new.rows.items }
{
    let id = attribute(tag, "id").unwrap_or("?");
    if name_of(tag) == WITH_FIELDS {
        let why = "it has fields of its own, and a row has one value";
        return taken.leave(alloc, id, class_of(tag), why);
    }
    match number_at(tag, "id") {
        Some(number) => take_numbered(alloc, taken, tag, number, bytes),
        None => taken.leave(alloc, id, class_of(tag), "its id is no number"),
    }
}

/// How deep a tag stands among fields that have fields of their own, once it is passed.
fn depth_after(depth: usize, tag: &str) -> usize {
    if name_of(tag) == WITH_FIELDS && !is_empty(tag) {
        return depth.saturating_add(1);
    }
    if tag.trim() == "/isofieldpackager" {
        return depth.saturating_sub(1);
    }
    depth
}

/// What a packager may say of all its fields, and what it usually is: a table can't say otherwise.
const SETTINGS: [(&str, &str); 4] = [
    ("bitmapField", "1"),
    ("emitBitmap", "true"),
    ("thirdBitmapField", "-999"),
    ("headerLength", "0"),
];

/// Names what the packager says of all its fields and a table can't.
fn take_settings(alloc: Global, taken: &mut Taken, tag: &str) -> Result<(), AllocError>
    ensures { taken.new.rows.items ≡ taken.old.rows.items }
{
    for (name, usual) in SETTINGS {
        if let Some(value) = attribute(tag, name)
            && value != usual
        {
            let sentence = format!(in alloc;
                "the packager: {name} is {value}, and a table has none"
            )?;
            taken.left.push(sentence)?;
        }
    }
    Ok(())
}

/// Takes a tag. Tells whether it begins the packager.
#[tactic(auto, using(crate::proofs::Joining::stand_on, crate::proofs::Joining::classes_on))]
fn take_tag(
    alloc: Global,
    taken: &mut Taken,
    tag: &str,
    depth: usize,
    bytes: Bytes,
) -> Result<bool, AllocError>
    ensures stand { CanStand taken.old.rows.items → CanStand taken.new.rows.items }
    ensures classes { AreOfClasses bytes taken.old.rows.items
        → AreOfClasses bytes taken.new.rows.items }
{
    let name = name_of(tag);
    if name == "isopackager" {
        take_settings(alloc, taken, tag)?;
        return Ok(true);
    }
    if depth == 0 && (name == FIELD || name == WITH_FIELDS) {
        take_field(alloc, taken, tag, bytes)?;
    }
    Ok(false)
}

/// The table of a packager.
pub(crate) fn packager_in(
    alloc: Global,
    text: &str,
    version: u8,
    bytes: Bytes,
) -> Result<Imported, ImportFault>
    ensures draft { IfOk result (λ imported. IsDraftOf version (contents imported.draft)) }
    ensures classes { IfOk result (λ imported. AreOfClasses bytes imported.draft.rows.items) }
    ensures fault { IfErr result (RefusesAs is_packager text.now) }
    ensures text { IsErrOf result NotText → ⊥ }
{
    let mut taken = Taken::new(alloc);
    let (mut rest, mut depth, mut has_begun) = (text, 0usize, false);
    for _ in 0..text.len() {
        match next_markup(rest) {
            Markup::Tag(tag, after) => {
                has_begun |= take_tag(alloc, &mut taken, tag, depth, bytes)?;
                depth = depth_after(depth, tag);
                rest = after;
            }
            Markup::Passed(after) => rest = after,
            Markup::End => break,
            Markup::Broken => return Err(ImportFault::Markup),
        }
    }
    if has_begun {
        Ok(taken.into_imported(version))
    } else {
        Err(ImportFault::NoPackager)
    }
}
