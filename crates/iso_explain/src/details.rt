//! The parts of a value: those of codes and amounts, of a track, and the data objects of chip data.

use crate::json::push_json_detail;
use crate::lines::push_line_detail;
use crate::meanings::push_part_meaning;
use crate::page::Page;
use crate::seen::whole;
use iso_meaning::{ChipFault, Item, Part, items, parts, tag_name, track2};
use iso_parts::CharClass;
use iso_wire::{Shown, masked};
use std::alloc::AllocError;

/// A part of a value, as it may be shown.
#[derive(Clone, Copy)]
pub(crate) struct Detail<'a> {
    /// The tag of a data object, else empty.
    pub(crate) tag: &'a [u8],
    /// What it is.
    pub(crate) name: &'a [u8],
    /// In how many templates it lies.
    pub(crate) depth: usize,
    /// Whether its value is shown as text or as hexadecimal digits.
    pub(crate) class: CharClass,
    /// What may be shown of its value.
    pub(crate) value: Shown<'a>,
    /// What it means, empty where that isn't known.
    pub(crate) meaning: &'a [u8],
}

/// How an explanation is written.
#[derive(Clone, Copy)]
pub(crate) enum Form {
    Lines,
    Json,
}

/// Appends a part of a value.
fn push_detail(
    page: Page,
    form: Form,
    detail: Detail,
    out: &mut Vec<u8>,
) -> Result<(), AllocError> {
    match form {
        Form::Lines => push_line_detail(page.style, detail, out),
        Form::Json => push_json_detail(detail, out),
    }
}

/// A value of which nothing is shown.
fn hidden<'a>(value: &'a [u8]) -> Shown<'a> {
    Shown {
        front: &[],
        hidden: value.len(),
        end: &[],
    }
}

/// Appends the parts of a value that is no card data.
fn push_parts(
    page: Page,
    form: Form,
    n: u8,
    value: &[u8],
    words: &mut Vec<u8>,
    out: &mut Vec<u8>,
) -> Result<(), AllocError> {
    for part in parts(n, value) {
        let text = value.get(part.start..part.end).unwrap_or(&[]);
        words.clear();
        push_part_meaning(part.name, text, words)?;
        let detail = Detail {
            tag: &[],
            name: part.name.as_bytes(),
            depth: 0,
            class: CharClass::ANS,
            value: whole(text),
            meaning: words.as_slice(),
        };
        push_detail(page, form, detail, out)?;
    }
    Ok(())
}

/// What may be shown of the part of a track: of its account number the ends, of the others nothing but their size.
fn track_shown<'a>(is_clear: bool, is_account: bool, text: &'a [u8]) -> Shown<'a> {
    if is_clear {
        whole(text)
    } else if is_account {
        masked(2, text)
    } else {
        hidden(text)
    }
}

/// Appends a part of track 2 data.
fn push_track_part(
    page: Page,
    form: Form,
    is_account: bool,
    part: Part,
    value: &[u8],
    out: &mut Vec<u8>,
) -> Result<(), AllocError> {
    let text = value.get(part.start..part.end).unwrap_or(&[]);
    let detail = Detail {
        tag: &[],
        name: part.name.as_bytes(),
        depth: 0,
        class: CharClass::ANS,
        value: track_shown(page.style.is_clear, is_account, text),
        meaning: &[],
    };
    push_detail(page, form, detail, out)
}

/// Appends the parts of track 2 data; the separator is no part to be told.
fn push_track(page: Page, form: Form, value: &[u8], out: &mut Vec<u8>) -> Result<(), AllocError> {
    let Some(track) = track2(value) else {
        return Ok(());
    };
    push_track_part(page, form, true, track.account, value, out)?;
    push_track_part(page, form, false, track.expiry, value, out)?;
    push_track_part(page, form, false, track.service, value, out)?;
    push_track_part(page, form, false, track.discretionary, value, out)
}

/// The bytes of a data object's tag.
fn tag_bytes<'a>(item: &Item, value: &'a [u8]) -> &'a [u8] {
    let size = match item.tag {
        0..=0xFF => 1,
        0x100..=0xFFFF => 2,
        _ => 3,
    };
    let (_, rest) = value.split_at(item.start.min(value.len()));
    let (tag, _) = rest.split_at(rest.len().min(size));
    tag
}

/// Appends a data object.
fn push_item(
    page: Page,
    form: Form,
    item: &Item,
    value: &[u8],
    out: &mut Vec<u8>,
) -> Result<(), AllocError> {
    let held = value.get(item.value..item.end).unwrap_or(&[]);
    let held: &[u8] = if item.is_template { &[] } else { held };
    let name: &[u8] = match tag_name(item.tag) {
        Some(name) => name.as_bytes(),
        None => b"unknown tag",
    };
    let detail = Detail {
        tag: tag_bytes(item, value),
        name,
        depth: item.depth,
        class: CharClass::B,
        value: if page.style.is_clear {
            whole(held)
        } else {
            hidden(held)
        },
        meaning: &[],
    };
    push_detail(page, form, detail, out)
}

/// What is wrong with chip data; nothing where memory ran out.
fn chip_words(fault: ChipFault) -> Option<&'static [u8]> {
    match fault {
        ChipFault::Tag(_) => Some(b"the tag isn't whole, or has more than three bytes"),
        ChipFault::Length(_) => Some(b"the length isn't whole, or has more than three bytes"),
        ChipFault::Value(_) => Some(b"the value is longer than what it lies in"),
        ChipFault::Memory => None,
    }
}

/// Appends that chip data aren't of data objects.
fn push_chip_fault(
    page: Page,
    form: Form,
    fault: ChipFault,
    out: &mut Vec<u8>,
) -> Result<(), AllocError> {
    let Some(words) = chip_words(fault) else {
        return Err(AllocError);
    };
    let detail = Detail {
        tag: &[],
        name: b"no data objects",
        depth: 0,
        class: CharClass::ANS,
        value: whole(&[]),
        meaning: words,
    };
    push_detail(page, form, detail, out)
}

/// Appends the data objects of chip data.
fn push_chip(page: Page, form: Form, value: &[u8], out: &mut Vec<u8>) -> Result<(), AllocError> {
    let objects = match items(page.alloc, value) {
        Ok(objects) => objects,
        Err(fault) => return push_chip_fault(page, form, fault, out),
    };
    for item in &objects {
        push_item(page, form, item, value, out)?;
    }
    Ok(())
}

/// Appends the parts of an element's value: of the processing code (3), additional amounts (54), original data (90) and
/// replacement amounts (95) of ISO 8583:1987, of track 2 (35) and of chip data (55).
pub(crate) fn push_details(
    page: Page,
    form: Form,
    n: u8,
    value: &[u8],
    words: &mut Vec<u8>,
    out: &mut Vec<u8>,
) -> Result<(), AllocError> {
    match n {
        3 | 54 | 90 | 95 if page.table.version() == 0 => push_parts(
            page, form, n, value, words, out,
        ),
        35 => push_track(page, form, value, out),
        55 => push_chip(page, form, value, out),
        _ => Ok(()),
    }
}
