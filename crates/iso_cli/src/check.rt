//! What a table is.

ghost use Rattle.std.specs.Prelude.{◌≡◌, ◌≢◌, IfErr, IfOk, OnOk, string_bytes};
ghost use Rattle.iso_cli.specs.Check.{ChecksOnStreams, table_line};
ghost use Rattle.iso_cli.specs.Stop.{status_of};
ghost use Rattle.iso_cli.specs.Refused.{NamesNone};
ghost use Rattle.iso_cli.specs.declared.stop.Stop.TheVariants.{TooManyTurns, Words};

use crate::source::Source;
use crate::stop::Stop;
use crate::streaming::write_output;
use crate::tables::table_named;
use iso_host::Outlet;
use iso_table::Table;
use std::alloc::{AllocError, Global};

/// The line of a table.
fn line_of(alloc: Global, table: &Table) -> Result<String, AllocError>
    ensures { IfOk result (λ line. string_bytes line ≡ table_line table.now) }
{
    let (version, rows, max) = (table.version(), table.rows(), table.max_bytes());
    format!(in alloc; "OK version={version} rows={rows} max={max}\n")
}

/// Writes the version of a good table, how many rows it has, and how many bytes a message may take.
pub fn check<S: Source, O: Outlet>(
    alloc: Global,
    table: &str,
    source: &S,
    output: &mut O,
) -> Result<(), Stop>
    // Where it succeeds, what was written is the line of the table that is named: its version, how
    // many rows it has, and how many bytes a message may take.
    ensures line { OnOk result (ChecksOnStreams (S.file source.now) table.now
        (O.contents output.old) (O.contents output.new)) }
    // A stop of status 1 tells what is wrong with the document that the word names: it is too long,
    // is no JSON, or has this first fault as a table.
    ensures stop { IfErr result
        (λ stop. status_of stop ≡ 1 → NamesNone (S.file source.now) table.now stop) }
    // No stop says that the command line is refused.
    ensures words { IfErr result (λ stop. stop ≢ Words) }
    // No stop says that there were too many reads and writes.
    ensures turns { IfErr result (λ stop. stop ≢ TooManyTurns) }
{
    let table = table_named(alloc, source, table)?;
    let line = line_of(alloc, &table)?;
    write_output(output, line.as_bytes())
}
