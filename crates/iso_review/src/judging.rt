//! What is wrong with a row of a document.

ghost use Rattle.std.specs.Prelude.{◌≡◌};
ghost use Rattle.serde_json.specs.View.{view};
ghost use Rattle.iso_table.specs.Members.{whole_at};

use crate::complaint::{Cause, Finding};
use crate::excerpt::Excerpt;
use crate::kinds::LengthKind;
use crate::words::{class_named, coding_named, digits_named, kind_named, pad_named};
use iso_parts::{CharClass, Coding, Pad, is_element};
use iso_table::members::text_at;
use serde_json::{Map, Value};
use std::alloc::{AllocError, Global};
use strsim::damerau_levenshtein;

/// The members of a row.
const ROW_MEMBERS: [&str; 7] = [
    "class", "coding", "length", "max", "number", "pad", "prefix",
];

/// The elements that may have a row.
const ELEMENTS: &str = "2 to 64 and 66 to 128";

/// The classes of characters.
const CLASSES: &str = "N, A, AN, ANS, Z, ZD, XN, B";

/// The kinds of length.
const LENGTHS: &str = "fixed, LL, LLL, LLLL";

/// The paddings.
const PADS: &str = "none, left:HH, right:HH of two hexadecimal digits HH";

/// No longer name of a member is taken for a misspelled one.
const LONGEST_MISSPELLING: usize = 16;

/// So many letters more, less, changed or in another place make a misspelled name.
const MOST_EDITS: usize = 2;

/// What a row tells: each member that can be read.
#[derive(Clone, Copy)]
struct Told {
    number: Option<u16>,
    class: Option<CharClass>,
    coding: Option<Coding>,
    kind: Option<LengthKind>,
    max: Option<u16>,
    pad: Option<Pad>,
    /// Whether it says how the digits of a length are written.
    has_prefix: bool,
}

/// The whole number at a member, where it fits.
pub(crate) fn u16_at(value: &Value, key: &str) -> Option<u16>
    ensures { result ≡ whole_at key.now 65535 (view value.now) }
{
    u16::try_from(value.get(key)?.as_u64()?).ok()
}

fn read_members(row: &Value) -> Told {
    Told {
        number: u16_at(row, "number"),
        class: text_at(row, "class").and_then(|text| class_named(text)),
        coding: text_at(row, "coding").and_then(|text| coding_named(text)),
        kind: text_at(row, "length").and_then(|text| kind_named(text)),
        max: u16_at(row, "max"),
        pad: text_at(row, "pad").and_then(|text| pad_named(text)),
        has_prefix: text_at(row, "prefix")
            .and_then(|text| digits_named(text))
            .is_some(),
    }
}

/// What is wrong with a member, and what stands there.
pub(crate) fn finding(value: &Value, member: &'static str, cause: Cause) -> Finding {
    Finding {
        member: Excerpt::of(member),
        found: match value.get(member) {
            Some(there) => Excerpt::of(there),
            None => Excerpt::none(),
        },
        cause,
    }
}

/// Appends that a member is missing or has a value that isn't allowed, where it couldn't be read.
pub(crate) fn push_unread(
    value: &Value,
    member: &'static str,
    is_read: bool,
    allowed: &'static str,
    out: &mut Vec<Finding>,
) -> Result<(), AllocError> {
    if is_read {
        return Ok(());
    }
    let cause = match value.get(member) {
        Some(_) => Cause::NotAllowed(allowed),
        None => Cause::Missing(allowed),
    };
    out.push(finding(value, member, cause))?;
    Ok(())
}

/// The name that is like a misspelled one, among those that there are.
fn nearest(
    alloc: Global,
    key: &str,
    names: &[&'static str],
) -> Result<Option<&'static str>, AllocError> {
    if key.len() > LONGEST_MISSPELLING {
        return Ok(None);
    }
    for name in names {
        if damerau_levenshtein(alloc, key, *name)? <= MOST_EDITS {
            return Ok(Some(*name));
        }
    }
    Ok(None)
}

/// Appends the members that are none of the names.
pub(crate) fn push_unknown(
    alloc: Global,
    members: &Map<String, Value>,
    names: &[&'static str],
    out: &mut Vec<Finding>,
) -> Result<(), AllocError> {
    for (key, _) in members.iter() {
        let key = key.as_str();
        if !names.contains(&key) {
            out.push(Finding {
                member: Excerpt::of(key),
                found: Excerpt::of(format_args!("{key:?}")),
                cause: Cause::Unknown(nearest(alloc, key, names)?),
            })?;
        }
    }
    Ok(())
}

/// Appends what can't be read of a row's length: its name, and how its digits are written.
fn push_length(
    row: &Value,
    told: &Told,
    has_four_digits: bool,
    out: &mut Vec<Finding>,
) -> Result<(), AllocError> {
    push_unread(row, "length", told.kind.is_some(), LENGTHS, out)?;
    match told.kind {
        None => Ok(()),
        Some(LengthKind::Fixed) => {
            if row.get("prefix").is_some() {
                out.push(finding(row, "prefix", Cause::PrefixOfFixed))?;
            }
            Ok(())
        }
        Some(kind) => {
            if kind == LengthKind::LLLL && !has_four_digits {
                out.push(finding(row, "length", Cause::LongInProfile1))?;
            }
            push_unread(row, "prefix", told.has_prefix, "ascii, bcd", out)
        }
    }
}

/// Appends what can't be read of a row.
fn push_members(
    row: &Value,
    told: &Told,
    has_four_digits: bool,
    out: &mut Vec<Finding>,
) -> Result<(), AllocError> {
    push_unread(row, "number", told.number.is_some(), ELEMENTS, out)?;
    push_unread(row, "class", told.class.is_some(), CLASSES, out)?;
    push_unread(
        row,
        "coding",
        told.coding.is_some(),
        "ascii, bcd, raw, hex",
        out,
    )?;
    push_length(row, told, has_four_digits, out)?;
    push_unread(row, "max", told.max.is_some(), "1 to 9999", out)?;
    push_unread(row, "pad", told.pad.is_some(), PADS, out)
}

/// What is wrong with the number of a row, which an earlier row has or hasn't.
fn number_cause(number: u16, earlier: Option<usize>) -> Option<Cause> {
    if !is_element(number) {
        return Some(Cause::NotAllowed(ELEMENTS));
    }
    earlier.map(Cause::Twice)
}

/// What is wrong with a maximum behind a length of the kind.
fn max_cause(max: u16, kind: LengthKind) -> Option<Cause> {
    if max < 1 || max > kind.limit() {
        Some(Cause::Max(kind))
    } else {
        None
    }
}

/// Whether a coding writes a class.
fn writes(coding: Coding, class: CharClass) -> bool {
    match coding {
        Coding::Ascii => class != CharClass::B,
        Coding::Bcd => matches!(class, CharClass::N | CharClass::Z),
        Coding::Raw | Coding::HexText => class == CharClass::B,
    }
}

/// What is wrong with a padding, of a row of the class whose length is of the kind.
fn pad_cause(pad: Pad, told: &Told) -> Option<Cause> {
    let byte = match pad {
        Pad::None => return None,
        Pad::Left(byte) | Pad::Right(byte) => byte,
    };
    match (told.kind, told.class, told.coding) {
        (Some(kind), _, _) if kind != LengthKind::Fixed => Some(Cause::PadOfVariable(kind)),
        (_, Some(class), _) if matches!(class, CharClass::XN | CharClass::B) => Some(
            Cause::PadOfClass(class),
        ),
        (_, _, Some(Coding::Ascii)) if !matches!(byte, 0x20..=0x7E) => Some(Cause::PadByte(
            "20 to 7E",
        )),
        (_, _, Some(Coding::Bcd)) if !matches!(byte, 0x30..=0x3F) => Some(Cause::PadByte(
            "30 to 3F",
        )),
        _ => None,
    }
}

/// Appends a cause, if there is one.
fn push_cause(
    row: &Value,
    member: &'static str,
    cause: Option<Cause>,
    out: &mut Vec<Finding>,
) -> Result<(), AllocError> {
    if let Some(cause) = cause {
        out.push(finding(row, member, cause))?;
    }
    Ok(())
}

/// Appends which rules the members of a row break that can be read.
fn push_rules(
    row: &Value,
    told: &Told,
    earlier: Option<usize>,
    out: &mut Vec<Finding>,
) -> Result<(), AllocError> {
    let number = told.number.and_then(|number| number_cause(number, earlier));
    push_cause(row, "number", number, out)?;
    if let (Some(max), Some(kind)) = (told.max, told.kind) {
        push_cause(row, "max", max_cause(max, kind), out)?;
    }
    if let (Some(coding), Some(class)) = (told.coding, told.class) {
        if !writes(coding, class) {
            out.push(finding(row, "coding", Cause::Coding(class)))?;
        }
    }
    let pad = told.pad.and_then(|pad| pad_cause(pad, told));
    push_cause(row, "pad", pad, out)
}

/// All that is wrong with a row: members that are unknown, missing or can't be read, and the rules that the others break.
pub(crate) fn row_findings(
    alloc: Global,
    row: &Value,
    has_four_digits: bool,
    earlier: Option<usize>,
) -> Result<Vec<Finding>, AllocError> {
    let mut out = Vec::new(alloc);
    let Some(members) = row.as_object() else {
        out.push(Finding {
            member: Excerpt::none(),
            found: Excerpt::of(row),
            cause: Cause::NotA("object"),
        })?;
        return Ok(out);
    };
    let told = read_members(row);
    push_unknown(alloc, members, &ROW_MEMBERS, &mut out)?;
    push_members(row, &told, has_four_digits, &mut out)?;
    push_rules(row, &told, earlier, &mut out)?;
    Ok(out)
}
