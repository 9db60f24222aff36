//! Changes to the rows of a draft.

ghost use Rattle.std.specs.Prelude.{◌≡◌, ◌≢◌, Ok, Err, IfErr, OnOk, OnErr, is_some};
ghost use Rattle.std.specs.Option.{option_or};
ghost use Rattle.iso_table.specs.Accepted.{contents, row_of};
ghost use Rattle.iso_table.specs.Document.{prefix_named};
ghost use Rattle.iso_review.specs.declared.change.RowFault.TheVariants.{Memory};
ghost use Rattle.iso_review.specs.Changes.{or_missing, length_by, changed, put_row, applied, without_row, old_digits};

use crate::kinds::{LengthKind, length_digits};
use iso_parts::{CharClass, Coding, Digits, FieldSpec, Length, Pad};
use iso_table::{Draft, Row};
use std::alloc::AllocError;
use std::fmt;
use thiserror::Error;

/// The members of a row that a change may give.
#[derive(Clone, Copy, Debug, PartialEq, Eq)]
pub enum Member {
    /// The characters of a value.
    Class,
    /// How they are written.
    Coding,
    /// Whether a length stands before them.
    Length,
    /// How the digits of the length are written.
    Prefix,
    /// The most characters.
    Max,
    /// What fills a value up.
    Pad,
}

/// A change to the row of an element. What isn't given stays as the row has it; in a new row the coding is `ascii`, nothing
/// fills values up, and the digits of a length are written as those of the message type.
#[derive(Clone, Copy, Debug, PartialEq, Eq)]
pub struct RowChange {
    /// The element's number.
    pub number: u16,
    /// The characters of a value.
    pub class: Option<CharClass>,
    /// How they are written.
    pub coding: Option<Coding>,
    /// Whether a length stands before them.
    pub length: Option<LengthKind>,
    /// How the digits of the length are written.
    pub prefix: Option<Digits>,
    /// The most characters of a value.
    pub max: Option<u16>,
    /// What fills a value up.
    pub pad: Option<Pad>,
}

/// Why a text is no change, or a change makes no row.
#[derive(Clone, Copy, Debug, PartialEq, Eq, Error)]
pub enum RowFault {
    /// The first word isn't the number of an element.
    #[error("the first word is no number of an element; write it, as in \"48 class=ANS length=LLL max=999\"")]
    NoNumber,
    /// The word at this place behind the number names no member.
    #[error("word {0} behind the number names no member; allowed are class=, coding=, length=, prefix=, max=, pad=")]
    NoMember(usize),
    /// The member is given a second time.
    #[error("{0} is given twice; give it once")]
    Twice(Member),
    /// The member can't have the value.
    #[error("{0} can't be that; {values}", values = values_of(*.0))]
    BadValue(Member),
    /// A new row must have the member.
    #[error("the element has no row yet, so {0} must be given; {values}", values = values_of(*.0))]
    Missing(Member),
    /// A fixed length has no digits.
    #[error("a fixed length has no digits; leave prefix out")]
    PrefixOfFixed,
    /// Memory ran out.
    #[error("memory ran out")]
    Memory,
}

impl From<AllocError> for RowFault {
    ghost use Rattle.std.specs.Prelude.{◌≡◌};
    ghost use Rattle.iso_review.specs.declared.change.RowFault.TheVariants.{Memory};

    ghost from_gives = { λ _ e. e ≡ Memory };

    fn from(_refused: AllocError) -> RowFault {
        RowFault::Memory
    }
}

impl fmt::Display for Member {
    fn fmt<W: fmt::Write>(&self, f: &mut fmt::Formatter<W>) -> fmt::Result {
        f.write_str(match self {
            Member::Class => "class",
            Member::Coding => "coding",
            Member::Length => "length",
            Member::Prefix => "prefix",
            Member::Max => "max",
            Member::Pad => "pad",
        })
    }
}

/// What a member may be, in words.
fn values_of(member: Member) -> &'static str {
    match member {
        Member::Class => "allowed are N, A, AN, ANS, Z, ZD, XN, B",
        Member::Coding => "allowed are ascii, bcd, raw, hex",
        Member::Length => "allowed are fixed, LL, LLL, LLLL",
        Member::Prefix => "allowed are ascii, bcd",
        Member::Max => "allowed are 1 to 9999",
        Member::Pad => "allowed are none, left:HH, right:HH of two hexadecimal digits HH",
    }
}

/// How the digits of a length are written: as the change says, else as the row that is there has them, else as the table has
/// them.
fn length_by(
    given: Option<Digits>,
    old: Option<Digits>,
    digits: Digits,
    kind: LengthKind,
) -> Result<Length, RowFault>
    ensures { result ≡ length_by given old digits kind }
{
    match (kind, given) {
        (LengthKind::Fixed, Some(_)) => Err(RowFault::PrefixOfFixed),
        (LengthKind::Fixed, None) => Ok(Length::Fixed),
        (LengthKind::LL | LengthKind::LLL | LengthKind::LLLL, _) => {
            Ok(kind.with_digits(given.or(old).unwrap_or(digits)))
        }
    }
}

/// How the digits of a row's length are written.
fn old_digits(old: Option<FieldSpec>) -> Option<Digits>
    ensures { result ≡ old_digits old }
{
    match old {
        Some(spec) => length_digits(spec.length),
        None => None,
    }
}

/// The row that a change makes of the row that is there, if one is, in a table of these digits.
fn changed(
    change: &RowChange,
    old: Option<FieldSpec>,
    digits: Digits,
) -> Result<FieldSpec, RowFault>
    ensures { result ≡ changed change.now old digits }
{
    let Some(class) = change.class.or(old.map(|spec| spec.class)) else {
        return Err(RowFault::Missing(Member::Class));
    };
    let old_kind = old.map(|spec| LengthKind::of(spec.length));
    let Some(kind) = change.length.or(old_kind) else {
        return Err(RowFault::Missing(Member::Length));
    };
    let length = length_by(change.prefix, old_digits(old), digits, kind)?;
    let Some(max) = change.max.or(old.map(|spec| spec.max)) else {
        return Err(RowFault::Missing(Member::Max));
    };
    let coding = change.coding.or(old.map(|spec| spec.coding));
    Ok(FieldSpec {
        class,
        coding: coding.unwrap_or(Coding::Ascii),
        length,
        max,
        pad: change.pad.or(old.map(|spec| spec.pad)).unwrap_or(Pad::None),
    })
}

/// The first row with a number.
fn row_of(rows: &[Row], number: u16) -> Option<FieldSpec>
    ensures { result ≡ row_of rows.now number }
{
    for row in rows {
        if row.number == number {
            return Some(row.spec);
        }
    }
    None
}

/// Puts a row in the place of the first one with its number, or behind all.
fn put_row(rows: &mut Vec<Row>, row: Row) -> Result<(), AllocError>
    ensures ok { OnOk result (rows.new.items ≡ put_row row rows.old.items) }
    ensures unchanged { OnErr result (rows.new.items ≡ rows.old.items) }
{
    for at in 0..rows.len() {
        if rows[at].number == row.number {
            rows[at] = row;
            return Ok(());
        }
    }
    rows.push(row)?;
    Ok(())
}

/// Gives an element the row that the change makes of the one that it has, or a new one. Every other row stays, and so do the
/// version and the codings. The row stands where the old one stood, a new one behind all. Whether a table may have it,
/// [`Table::check`](iso_table::Table::check) judges. A refusal changes nothing.
pub fn apply(draft: &mut Draft, change: &RowChange) -> Result<(), RowFault>
    // At `Ok` the draft has the row that the change makes, in the place of the first row of its
    // number or behind all, and is else as it was.
    ensures ok { OnOk result (applied (contents draft.old) change.now ≡ Ok (contents draft.new)) }
    // Memory aside, the fault tells why the change makes no row: the first member that is missing,
    // or digits for a fixed length.
    ensures fault { IfErr result
        (λ e. e ≢ Memory → applied (contents draft.old) change.now ≡ Err e) }
    // After any fault the draft is as it was.
    ensures unchanged { OnErr result (contents draft.new ≡ contents draft.old) }
{
    let old = row_of(&draft.rows, change.number);
    let spec = changed(change, old, draft.mti)?;
    put_row(
        &mut draft.rows,
        Row {
            number: change.number,
            spec,
        },
    )?;
    Ok(())
}

/// Takes the row of an element out of a draft, and says whether it had one. Every other row stays, in its order, and so do the
/// version and the codings.
pub fn drop_row(draft: &mut Draft, number: u16) -> bool
    // The draft has exactly its rows of other numbers, in their order, and is else as it was.
    ensures rows { contents draft.new ≡ without_row (contents draft.old) number }
    // It answers true exactly where the draft had a row of this number.
    ensures found { result ≡ is_some (row_of draft.old.rows.items number) }
{
    let is_there = row_of(&draft.rows, number).is_some();
    draft.rows.retain(|row| row.number != number);
    is_there
}
