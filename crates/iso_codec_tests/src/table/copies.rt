//! The rows of a table in order, drafts of tables, copies, and tables that are compared.

use super::{draft, table87};
use crate::parts::{LL, TERMINAL_ROW};
use iso_fakes::check;
use iso_parts::{CharClass, Coding, Digits, FieldSpec, Length, Pad};
use iso_table::*;
use std::alloc::Global;
use std::test::*;

const ACCOUNT: (u8, FieldSpec) = (2, number!(Coding::Ascii, LL, 19));

const MAC: (u8, FieldSpec) = (64, bytes!(Coding::Raw, Length::Fixed, 8));

const SETTLEMENT: (u8, FieldSpec) = (66, number!(Coding::Ascii, Length::Fixed, 1));

const SECOND_MAC: (u8, FieldSpec) = (128, bytes!(Coding::Raw, Length::Fixed, 8));

/// Rows of the elements 2, 64, 66 and 128, the last first.
const ROWS: &[(u8, FieldSpec)] = &[SECOND_MAC, ACCOUNT, SETTLEMENT, MAC];

/// A table of these rows.
fn small(
    alloc: Global,
    version: u8,
    bitmap: BitmapCoding,
    rows: &[(u8, FieldSpec)],
) -> Result<Table, TableFault> {
    let draft = draft(alloc, version, Digits::Ascii, bitmap, rows)?;
    Table::check(alloc, draft)
}

/// Whether a table gives these rows, one after the other, and no more.
fn gives(table: &Table, rows: &[(u8, FieldSpec)]) -> bool {
    let mut left = table.iter();
    for (number, row) in rows {
        if left.next() != Some((*number, row)) {
            return false;
        }
    }
    left.next().is_none()
}

#[test]
fn rows_come_in_order(rt: HostRuntime) -> Result<(), Fail> {
    let table = small(rt.alloc(), 1, BitmapCoding::Raw, ROWS)?;
    let is_so = gives(&table, &[ACCOUNT, MAC, SETTLEMENT, SECOND_MAC]);
    check(is_so, "the rows in order")
}

/// Whether each row of a table comes once, in order: so many rows, the last of that element.
fn comes_once(table: &Table, count: usize, last: u8) -> bool {
    let (mut seen, mut before) = (0usize, 0u8);
    for (number, row) in table.iter() {
        if number <= before || table.row(number) != Some(row) {
            return false;
        }
        before = number;
        seen = seen.saturating_add(1);
    }
    seen == count && before == last
}

#[test]
fn each_row_of_the_edition_comes_once(rt: HostRuntime) -> Result<(), Fail> {
    let built = table87(rt.alloc(), Digits::Ascii)?;
    check(comes_once(&built, 126, 128), "the edition's rows")
}

/// Whether a draft has the rows of the edition.
fn is_of_edition(draft: &Draft) -> bool {
    match draft.rows.as_slice() {
        [first, .., last] => { draft.rows.len() == 126 && first.number == 2 && last.number == 128 }
        _ => false,
    }
}

/// Whether the table is made again of its draft.
fn is_made_again(alloc: Global, table: &Table, draft: Draft) -> bool {
    match Table::check(alloc, draft) {
        Ok(again) => again == *table,
        Err(_) => false,
    }
}

/// Gives a draft another version, and element 41 the row of a terminal.
fn change(draft: &mut Draft) {
    draft.version = 1;
    if let Some(row) = draft.rows.get_mut(39) {
        row.spec = TERMINAL_ROW;
    }
}

/// Whether another table is made of a draft that was changed.
fn is_another(alloc: Global, table: &Table, mut draft: Draft) -> bool {
    change(&mut draft);
    match Table::check(alloc, draft) {
        Ok(other) => other != *table && other.row(41) == Some(&TERMINAL_ROW),
        Err(_) => false,
    }
}

/// That a table gives a draft, of which it is made again.
fn check_drafts(alloc: Global, table: &Table) -> Result<(), Fail> {
    let draft = table.to_draft(alloc)?;
    check(
        is_of_edition(&draft),
        "as many rows, the first and the last",
    )?;
    check(is_made_again(alloc, table, draft), "the same table")?;
    let changed = table.to_draft(alloc)?;
    check(is_another(alloc, table, changed), "another table")
}

#[test]
fn a_draft_gives_its_table_again(rt: HostRuntime) -> Result<(), Fail> {
    let table = table87(rt.alloc(), Digits::Bcd)?;
    check_drafts(rt.alloc(), &table)
}

/// The version, the bitmaps and the rows of a table, and whether it equals the first one.
type Compared = (
    &'static str,
    u8,
    BitmapCoding,
    &'static [(u8, FieldSpec)],
    bool,
);

const COMPARED: &[Compared] = &[
    (
        "another order",
        1,
        BitmapCoding::Raw,
        &[MAC, SETTLEMENT, ACCOUNT, SECOND_MAC],
        true,
    ),
    ("another version", 2, BitmapCoding::Raw, ROWS, false),
    ("other bitmaps", 1, BitmapCoding::Hex, ROWS, false),
    (
        "a row less",
        1,
        BitmapCoding::Raw,
        &[SECOND_MAC, ACCOUNT, SETTLEMENT],
        false,
    ),
    (
        "another row",
        1,
        BitmapCoding::Raw,
        &[
            SECOND_MAC,
            (2, number!(Coding::Ascii, LL, 20)),
            SETTLEMENT,
            MAC,
        ],
        false,
    ),
];

/// Whether a table equals the first one, or doesn't.
fn is_compared(alloc: Global, first: &Table, compared: &Compared) -> bool {
    let (_, version, bitmap, rows, is_same) = compared;
    match small(alloc, *version, *bitmap, *rows) {
        Ok(other) => {
            if *is_same {
                other == *first
            } else {
                other != *first
            }
        }
        Err(_) => false,
    }
}

/// Whether a copy equals its table.
fn is_copied(table: &Table) -> bool {
    match table.clone() {
        Ok(copy) => copy == *table,
        Err(_) => false,
    }
}

/// That tables equal the first one, or don't.
fn check_compared(alloc: Global, first: &Table) -> Result<(), Fail> {
    for compared in COMPARED {
        check(is_compared(alloc, first, compared), compared.0)?;
    }
    check(is_copied(first), "a copy")
}

#[test]
fn equal_tables_say_the_same(rt: HostRuntime) -> Result<(), Fail> {
    let table = small(rt.alloc(), 1, BitmapCoding::Raw, ROWS)?;
    check_compared(rt.alloc(), &table)
}
