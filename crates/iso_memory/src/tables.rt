//! The calls on tables.

use crate::ended::Ended;
use iso_parts::{CharClass, Coding, Digits, FieldSpec, Length, Pad};
use iso_table::{BitmapCoding, Draft, NoMemory, Row, Table, TableFault};
use std::alloc::Global;

/// A table of one row.
const ONE_ROW: &[u8] =
    b"{\"bitmap\":\"hex\",\"mti\":\"ascii\",\"profile\":2,\"rows\":[{\"class\":\"ANS\",\
\"coding\":\"ascii\",\"length\":\"fixed\",\"max\":8,\"number\":41,\"pad\":\"right:20\"}],\"version\":0}";

/// The same table, before it is checked.
fn draft(alloc: Global) -> Option<Draft> {
    let spec = FieldSpec {
        class: CharClass::ANS,
        coding: Coding::Ascii,
        length: Length::Fixed,
        max: 8,
        pad: Pad::Right(0x20),
    };
    let rows = Vec::from_array(alloc, [Row { number: 41, spec }]).ok()?;
    Some(Draft {
        version: 0,
        mti: Digits::Ascii,
        bitmap: BitmapCoding::Hex,
        rows,
    })
}

/// Whether it is the table of one row.
fn is_table_of_one_row(told: &Result<Table, TableFault>) -> bool {
    match told {
        Ok(table) => {
            let max = table.row(41).map(|spec| spec.max);
            (table.rows(), table.max_bytes(), max) == (1, 44, Some(8))
        }
        Err(_) => false,
    }
}

fn checks(alloc: Global) -> Ended {
    let (Some(first), Some(second)) = (draft(alloc), draft(alloc)) else {
        return Ended::Unready;
    };
    let mut told = Table::check(alloc, first);
    let was_refused = matches!(&told, Err(TableFault::Memory));
    if was_refused {
        told = Table::check(alloc, second);
    }
    Ended::of(was_refused, is_table_of_one_row(&told))
}

fn reads_json(alloc: Global) -> Ended {
    let mut told = Table::from_json(alloc, ONE_ROW);
    let was_refused = matches!(&told, Err(TableFault::Memory));
    if was_refused {
        told = Table::from_json(alloc, ONE_ROW);
    }
    Ended::of(was_refused, is_table_of_one_row(&told))
}

fn writes_json(alloc: Global) -> Ended {
    let Ok(table) = Table::from_json(alloc, ONE_ROW) else {
        return Ended::Unready;
    };
    let mut told = table.to_json(alloc);
    let was_refused = told.is_err();
    if was_refused {
        told = table.to_json(alloc);
    }
    let is_right = matches!(&told, Ok(text) if text.as_slice() == ONE_ROW);
    Ended::of(was_refused, is_right)
}

/// Whether it is a table of the edition, whose element 7 is written so.
fn is_edition(told: &Result<Table, NoMemory>, coding: Coding) -> bool {
    match told {
        Ok(table) => {
            let seventh = table.row(7).map(|spec| spec.coding);
            (table.rows(), seventh, table.host_ready()) == (126, Some(coding), Ok(()))
        }
        Err(_) => false,
    }
}

fn ascii(alloc: Global) -> Ended {
    let mut told = Table::ascii87(alloc);
    let was_refused = told.is_err();
    if was_refused {
        told = Table::ascii87(alloc);
    }
    Ended::of(was_refused, is_edition(&told, Coding::Ascii))
}

fn bcd(alloc: Global) -> Ended {
    let mut told = Table::bcd87(alloc);
    let was_refused = told.is_err();
    if was_refused {
        told = Table::bcd87(alloc);
    }
    Ended::of(was_refused, is_edition(&told, Coding::Bcd))
}

/// These calls by name, and how each ended.
pub fn rows(alloc: Global) -> [(&'static str, Ended); 5] {
    [
        ("Table::check", checks(alloc)),
        ("Table::from_json", reads_json(alloc)),
        ("Table::to_json", writes_json(alloc)),
        ("Table::ascii87", ascii(alloc)),
        ("Table::bcd87", bcd(alloc)),
    ]
}
