//! `table new`: a table that is made from another one.

ghost use Rattle.std.specs.Prelude.{◌≡◌, ◌++◌, IfErr, IfOk, Ok, OnOk, codes, map};
ghost use Rattle.serde_json.specs.Written.{compact_text};
ghost use Rattle.iso_table.specs.Accepted.{contents};
ghost use Rattle.iso_table.specs.Document.{document};
ghost use Rattle.rumpadol_tables.specs.Tables.{IsChanged, WritesMadeTable, with_text, with_texts, without_rows};

use crate::named::table_named;
use crate::source::Source;
use crate::stop::{Stop, misused, write_output};
use crate::words::NewWords;
use iso_review::{RowFault, apply, drop_row, parse_row};
use iso_table::{Draft, Table, TableFault};
use std::alloc::Global;
use std::io::{Read, Write};

/// Leaves out the rows of these elements, each of which must have one.
fn drop_rows(alloc: Global, draft: &mut Draft, drops: &[u16]) -> Result<(), Stop>
    ensures { OnOk result (contents draft.new ≡ without_rows (contents draft.old) drops.now) }
{
    for element in drops {
        if !drop_row(draft, *element) {
            return Err(misused(format!(in alloc;
                "rumpadol: --drop {element}: the table has no row for element {element}; leave it out\n"
            )));
        }
    }
    Ok(())
}

/// Why a text sets no row.
fn row_refused(alloc: Global, text: &str, fault: RowFault) -> Stop {
    match fault {
        RowFault::Memory => Stop::Memory,
        fault => misused(format!(in alloc; "rumpadol: --set '{text}': {fault}\n")),
    }
}

/// Sets the row that a text writes.
fn set_row(alloc: Global, draft: &mut Draft, text: &str) -> Result<(), RowFault>
    ensures { OnOk result (with_text (contents draft.old) text.now ≡ Ok (contents draft.new)) }
{
    let change = parse_row(alloc, text)?;
    apply(draft, &change)
}

/// Sets the rows that texts write, one after the other.
fn set_rows(alloc: Global, draft: &mut Draft, texts: &[&str]) -> Result<(), Stop>
    ensures { OnOk result (with_texts (contents draft.old) (map (λ text. text.now) texts.now)
        ≡ Ok (contents draft.new)) }
{
    for text in texts {
        if let Err(fault) = set_row(alloc, draft, *text) {
            return Err(row_refused(alloc, *text, fault));
        }
    }
    Ok(())
}

/// What would mend a table that is refused.
fn mend(fault: TableFault) -> &'static str {
    match fault {
        TableFault::BadNumber(_) => "elements are 2 to 64 and 66 to 128",
        TableFault::BadMax(_) => "max is 1 to 99 beside LL, to 9999 beside LLLL, and else to 999",
        TableFault::CodingClass(_) =>
            "bcd writes N and Z, raw and hex write B, and ascii writes every class but B",
        TableFault::PadNotAllowed(_) =>
            "fixed rows have a padding, but none of class XN or B, and of a byte that their coding writes",
        _ => "begin with another table",
    }
}

/// Why there is no new table.
fn table_refused(alloc: Global, fault: TableFault) -> Stop {
    if fault == TableFault::Memory {
        return Stop::Memory;
    }
    let mend = mend(fault);
    misused(format!(in alloc; "rumpadol: the new table is refused: {fault}; {mend}\n"))
}

/// The table that is the other one without the rows of these elements, and then with the rows that these texts write.
fn changed_table(alloc: Global, from: &Table, drops: &[u16], texts: &[&str]) -> Result<Table, Stop>
    ensures { IfOk result (IsChanged from.now drops.now (map (λ text. text.now) texts.now)) }
{
    let mut draft = from.to_draft(alloc)?;
    drop_rows(alloc, &mut draft, drops)?;
    set_rows(alloc, &mut draft, texts)?;
    match Table::check(alloc, draft) {
        Ok(table) => Ok(table),
        Err(fault) => Err(table_refused(alloc, fault)),
    }
}

/// The document of a table, and a newline.
fn document_of(alloc: Global, table: &Table) -> Result<Vec<u8>, Stop>
    ensures { IfOk result (λ text. text.items ≡ compact_text (document table.now) ++ codes "\n") }
{
    let mut text = table.to_json(alloc)?;
    text.push(b'\n')?;
    Ok(text)
}

/// Writes the document of the table that the words ask for. A refusal writes nothing.
pub fn make<S: Source, I: Read, O: Write>(
    alloc: Global,
    words: &NewWords<'_>,
    source: &S,
    input: &mut I,
    output: &mut O,
) -> Result<(), Stop>
    // At `Ok` the output grew by the document of an accepted table, and a newline: the named table
    // without the dropped rows, and then with each row that is set.
    ensures { OnOk result (WritesMadeTable
        (record { file = S.file source.now; input = I.remaining input.old })
        words.now.from.now words.now.drops.items (map (λ text. text.now) words.now.rows.items)
        (record { old = O.contents output.old; new = O.contents output.new })) }
{
    let from = table_named(alloc, source, input, words.from)?;
    let table = changed_table(alloc, &from, &words.drops, &words.rows)?;
    let text = document_of(alloc, &table)?;
    write_output(output, &text)
}
