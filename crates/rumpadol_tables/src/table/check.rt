//! `table check`: whether a document is one of a table.

ghost use Rattle.std.specs.Prelude.{◌≡◌, IfErr, IfOk, OnOk, string_bytes};
ghost use Rattle.rumpadol_tables.specs.Named.{NamesNone};
ghost use Rattle.rumpadol_tables.specs.Stop.{status_of};
ghost use Rattle.rumpadol_tables.specs.Tables.{TellsGoodTable, good_line, sizes_text};

use crate::named::table_named;
use crate::source::Source;
use crate::stop::{Stop, write_output};
use iso_table::Table;
use std::alloc::{AllocError, Global};
use std::io::{Read, Write};

/// A version, how many rows there are, and how many bytes a message may take.
fn sizes_text(alloc: Global, version: u8, rows: usize, longest: u64) -> Result<String, AllocError>
    ensures { IfOk result (λ text. string_bytes text ≡ sizes_text version rows longest) }
{
    format!(in alloc; "version {version}, {rows} rows, at most {longest} bytes")
}

/// The line of a good table.
fn line_of(alloc: Global, word: &str, table: &Table) -> Result<String, AllocError>
    ensures { IfOk result (λ line. string_bytes line ≡ good_line word.now table.now) }
{
    let sizes = sizes_text(alloc, table.version(), table.rows(), table.max_bytes())?;
    format!(in alloc; "{word}: good, {sizes}\n")
}

/// Tells what the table is that a word names: its version, how many rows it has, and how many bytes a message may take. A
/// document that stands for no table is refused, with all that is wrong with it.
pub fn check<S: Source, I: Read, O: Write>(
    alloc: Global,
    word: &str,
    source: &S,
    input: &mut I,
    output: &mut O,
) -> Result<(), Stop>
    // At `Ok` the output grew by the line of the named table: its version, its count of rows, and
    // how many bytes a message may take.
    ensures good { OnOk result (TellsGoodTable
        (record { file = S.file source.now; input = I.remaining input.old }) word.now
        (record { old = O.contents output.old; new = O.contents output.new })) }
    // The status is 1 only where the word names a document that is too long, or that is no table.
    ensures bad { IfErr result (λ stop. status_of stop ≡ 1
        → NamesNone (S.file source.now) (I.remaining input.old) word.now) }
{
    let table = table_named(alloc, source, input, word)?;
    let line = line_of(alloc, word, &table)?;
    write_output(output, line.as_bytes())
}
