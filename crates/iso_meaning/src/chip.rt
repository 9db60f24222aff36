//! Chip data (55): data objects of a tag, a length and a value (BER-TLV), in templates or not.

ghost use Rattle.std.specs.Prelude.{◌≡◌, ◌<◌, ◌≤◌, length, IfOk, IfSome};
ghost use Rattle.iso_meaning.specs.Chip.{tag_of, length_of, next, AreItemsOf};

use std::alloc::{AllocFailed, Global};
use thiserror::Error;

/// A data object: what its tag says, and where it stands in the chip data.
#[derive(Clone, Copy, Debug, PartialEq, Eq)]
pub struct Item {
    /// Its tag, the bytes taken as a number.
    pub tag: u32,
    /// Whether its value is made of data objects.
    pub is_template: bool,
    /// How many templates it lies in.
    pub depth: usize,
    /// Where its tag begins.
    pub start: usize,
    /// Where its value begins.
    pub value: usize,
    /// Where its value ends.
    pub end: usize,
}

/// What is wrong with chip data, and at which byte.
#[derive(Clone, Copy, Debug, PartialEq, Eq, Error)]
pub enum ChipFault {
    /// The tag that begins here isn't whole, or has more than three bytes.
    #[error("the tag at byte {0} isn't whole, or has more than three bytes")]
    Tag(usize),
    /// The length that begins here isn't whole, or has more than three bytes.
    #[error("the length at byte {0} isn't whole, or has more than three bytes")]
    Length(usize),
    /// The value that begins here is longer than what it lies in.
    #[error("the value at byte {0} is longer than what it lies in")]
    Value(usize),
    /// Memory ran out.
    #[error("memory ran out")]
    Memory,
}

impl<T: Drop> From<AllocFailed<T>> for ChipFault {
    fn from(_e: AllocFailed<T>) -> ChipFault {
        ChipFault::Memory
    }
}

/// The number and the size of the tag at the front.
fn tag_of(bytes: &[u8]) -> Option<(u32, usize)>
    ensures tag { result ≡ tag_of bytes.now }
    ensures within { IfSome result (λ tag. (1 ≤ tag.1) × (tag.1 ≤ length bytes.now)) }
{
    match *bytes {
        [a, ..] if a % 32 != 31 => Some((u32::from(a), 1)),
        [a, b, ..] if b < 128 => Some((256 * u32::from(a) + u32::from(b), 2)),
        [a, b, c, ..] if c < 128 => Some((
            65_536 * u32::from(a) + 256 * u32::from(b) + u32::from(c),
            3,
        )),
        _ => None,
    }
}

/// The length at the front, and how many bytes tell it.
fn length_of(bytes: &[u8]) -> Option<(usize, usize)>
    ensures length { result ≡ length_of bytes.now }
    ensures within { IfSome result (λ told. (1 ≤ told.1) × (told.1 ≤ length bytes.now)) }
{
    match *bytes {
        [a, ..] if a < 128 => Some((usize::from(a), 1)),
        [0x81, a, ..] => Some((usize::from(a), 2)),
        [0x82, a, b, ..] => Some((256 * usize::from(a) + usize::from(b), 3)),
        _ => None,
    }
}

/// The object that begins at a place, in so many templates, the innermost of which ends at another place.
fn item_at(bytes: &[u8], start: usize, end: usize, depth: usize) -> Result<Item, ChipFault>
    requires start { start < length bytes.now }
    requires end { end ≤ length bytes.now }
    ensures start { IfOk result (λ item. item.start ≡ start) }
    ensures value { IfOk result (λ item. start < item.value) }
    ensures end { IfOk result (λ item. item.value ≤ item.end) }
    ensures within { IfOk result (λ item. item.end ≤ end) }
{
    let whole = &bytes[..end];
    let Some((tag, tag_size)) = tag_of(whole.get(start..).unwrap_or(&[])) else {
        return Err(ChipFault::Tag(start));
    };
    let length_start = start + tag_size;
    let Some((size, length_size)) = length_of(whole.get(length_start..).unwrap_or(&[])) else {
        return Err(ChipFault::Length(length_start));
    };
    let value = length_start + length_size;
    if value > end || size > end - value {
        return Err(ChipFault::Value(value));
    }
    Ok(Item {
        tag,
        is_template: bytes[start] / 32 % 2 == 1,
        depth,
        start,
        value,
        end: value + size,
    })
}

/// Where the innermost template ends, within so many bytes; without one those bytes' end.
fn innermost(ends: &Vec<usize>, size: usize) -> usize
    ensures { result ≤ size }
{
    match ends.last() {
        Some(end) => size.min(*end),
        None => size,
    }
}

/// Where the object behind this one begins: in a template right at its value.
fn next(item: &Item) -> usize
    ensures { result ≡ next item.now }
{
    if item.is_template {
        item.value
    } else {
        item.end
    }
}

/// The data objects of chip data, in the order in which they begin: a template, then what is in it, then what comes
/// behind. A tag has one to three bytes, and a length too. The first fault tells at which byte it stands; then, and
/// where memory ran out, nothing is left behind.
pub fn items(alloc: Global, bytes: &[u8]) -> Result<Vec<Item>, ChipFault>
    // At `Ok` the objects lie within the bytes and cover them: each begins where the one before it
    // ends, or at that one's value, where it is a template.
    ensures { IfOk result (λ items. AreItemsOf bytes.now items.items) }
{
    let mut items = Vec::new(alloc);
    let mut ends = Vec::new(alloc);
    let mut at = 0;
    while at < bytes.len() {
        ends.retain(|end| *end > at);
        let item = item_at(bytes, at, innermost(&ends, bytes.len()), ends.len())?;
        items.push(item)?;
        ends.push(item.end)?;
        at = next(&item);
    }
    Ok(items)
}
