//! A change to a row as a text: `48 class=ANS length=LLLL max=9999`.

ghost use Rattle.std.specs.Prelude.{◌≡◌, ◌≢◌, ◌==◌, List, ℕ, map, option_map, IfOk, IfErr, Ok, Err};
ghost use Rattle.iso_review.specs.declared.change.RowFault.TheVariants.{Memory};
ghost use Rattle.iso_review.specs.RowText.{member_named, number_after, number_of, no_change, given, with_text, with_member, with_words, change_of, row_change, member_in};

use crate::change::{Member, RowChange, RowFault};
use crate::words::{class_named, coding_named, digits_named, kind_named, pad_named};
use std::alloc::Global;

/// A change that gives nothing.
fn no_change(number: u16) -> RowChange
    ensures { result ≡ no_change number }
{
    RowChange {
        number,
        class: None,
        coding: None,
        length: None,
        prefix: None,
        max: None,
        pad: None,
    }
}

/// The number that decimal digits write behind a number, up to 65,535.
fn number_after(before: u16, digits: &[u8]) -> Option<u16>
    ensures { result ≡ number_after before digits.now }
{
    let mut number = before;
    for digit in digits {
        if !matches!(*digit, b'0'..=b'9') {
            return None;
        }
        number = u16::try_from(10 * u32::from(number) + u32::from(*digit - b'0')).ok()?;
    }
    Some(number)
}

/// The number that one or more decimal digits write, up to 65,535.
fn number_of(text: &str) -> Option<u16>
    ensures { result ≡ number_of text.now }
{
    if text.is_empty() {
        return None;
    }
    number_after(0, text.as_bytes())
}

/// The member of a name.
fn member_named(name: &str) -> Option<Member>
    ensures { result ≡ member_named name.now }
{
    match name {
        "class" => Some(Member::Class),
        "coding" => Some(Member::Coding),
        "length" => Some(Member::Length),
        "prefix" => Some(Member::Prefix),
        "max" => Some(Member::Max),
        "pad" => Some(Member::Pad),
        _ => None,
    }
}

/// The value of a member that hasn't one yet; it must be one that the member may have.
fn given<T: Copy + Drop>(
    old: Option<T>,
    value: Option<T>,
    member: Member,
) -> Result<Option<T>, RowFault>
    ensures { result ≡ given old value member }
{
    match (old, value) {
        (Some(_), _) => Err(RowFault::Twice(member)),
        (None, None) => Err(RowFault::BadValue(member)),
        (None, Some(value)) => Ok(Some(value)),
    }
}

/// A change with the value of a text for the member.
fn with_text(change: RowChange, member: Member, text: &str) -> Result<RowChange, RowFault>
    ensures { result ≡ with_text change member text.now }
{
    let mut change = change;
    match member {
        Member::Class => change.class = given(change.class, class_named(text), member)?,
        Member::Coding => change.coding = given(change.coding, coding_named(text), member)?,
        Member::Length => change.length = given(change.length, kind_named(text), member)?,
        Member::Prefix => change.prefix = given(change.prefix, digits_named(text), member)?,
        Member::Max => change.max = given(change.max, number_of(text), member)?,
        Member::Pad => change.pad = given(change.pad, pad_named(text), member)?,
    }
    Ok(change)
}

/// A change with the member of the word at a place behind the number.
fn with_member(place: usize, word: &str, change: RowChange) -> Result<RowChange, RowFault>
    ensures { result ≡ with_member place (member_in word.now) word.now change }
{
    let Some((name, text)) = word.split_once('=') else {
        return Err(RowFault::NoMember(place));
    };
    match member_named(name) {
        Some(member) => with_text(change, member, text),
        None => Err(RowFault::NoMember(place)),
    }
}

/// A change with the members of words. An empty word stands between two blanks.
fn with_words(words: &[&str], change: RowChange) -> Result<RowChange, RowFault>
    ensures { result ≡ with_words 0 (map (λ word. word.now) words.now) change }
{
    let mut change = change;
    let mut place = 0;
    for word in words {
        if !word.is_empty() {
            place += 1;
            change = with_member(place, *word, change)?;
        }
    }
    Ok(change)
}

/// The change that words write: first the element's number.
fn change_of(words: &[&str]) -> Result<RowChange, RowFault>
    ensures { result ≡ change_of (map (λ word. word.now) words.now) }
{
    let [first, members @ ..] = words else {
        return Err(RowFault::NoNumber);
    };
    match number_of(*first) {
        Some(number) => with_words(members, no_change(number)),
        None => Err(RowFault::NoNumber),
    }
}

/// The change that a text writes: the element's number, and then what is to change of its row, as `class=ANS`, in any order
/// and each member at most once. Blanks stand between them, none before the number. Else the first thing that is wrong with
/// the text.
pub fn parse_row(alloc: Global, text: &str) -> Result<RowChange, RowFault>
    // At `Ok` it is the change that the words of the text write.
    ensures ok { IfOk result (λ change. row_change text.now ≡ Ok change) }
    // Memory aside, the fault is the first one among the words of the text.
    ensures fault { IfErr result (λ e. e ≢ Memory → row_change text.now ≡ Err e) }
{
    let words: Vec<&str> = text.split(' ').collect(alloc)?;
    change_of(&words)
}
