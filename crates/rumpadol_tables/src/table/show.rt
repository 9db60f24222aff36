//! `table show`: a table for human eyes.

ghost use Rattle.std.specs.Prelude.{List, ℕ, OnOk};
ghost use Rattle.std.specs.Io.KnownBytes.{Appends};

use crate::named::{names_named, table_named};
use crate::source::Source;
use crate::stop::{Stop, write_output};
use iso_review::append_table;
use std::alloc::Global;
use std::io::{Read, Write};

/// Shows a table row by row, with the names of its elements.
pub fn show<S: Source, I: Read, O: Write>(
    alloc: Global,
    word: &str,
    names: Option<&str>,
    source: &S,
    input: &mut I,
    output: &mut O,
) -> Result<(), Stop>
    // At `Ok` some bytes were appended to the output. It doesn't say which.
    ensures { OnOk result
        ((lines : List ℕ) × Appends (O.contents output.old) (O.contents output.new) lines) }
{
    let table = table_named(alloc, source, input, word)?;
    let names = names_named(alloc, source, names, table.version())?;
    let mut lines = Vec::new(alloc);
    append_table(&table, &names, &mut lines)?;
    write_output(output, &lines)
}
