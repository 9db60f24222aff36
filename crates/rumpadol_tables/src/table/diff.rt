//! `table diff`: how two tables differ.

ghost use Rattle.std.specs.Prelude.{◌≡◌, ◌↔◌, IfOk, false};
ghost use Rattle.std.specs.Io.KnownBytes.{Appends};
ghost use Rattle.iso_table.specs.Layout.{Layout};
ghost use Rattle.rumpadol_tables.specs.Tables.{Compares};

use crate::named::table_named;
use crate::source::Source;
use crate::stop::{Stop, write_output};
use iso_names::Names;
use iso_review::append_differences;
use std::alloc::Global;
use std::io::{Read, Write};

/// Tells how two tables differ, a line each, and whether they do.
pub fn diff<S: Source, I: Read, O: Write>(
    alloc: Global,
    first: &str,
    second: &str,
    source: &S,
    input: &mut I,
    output: &mut O,
) -> Result<bool, Stop>
    // At `Ok` it is true exactly where the named tables differ, and where they are equal nothing
    // was written. Of a second one on the input nothing is said.
    ensures { IfOk result (Compares
        (record { file = S.file source.now; input = I.remaining input.old }) first.now second.now
        (record { old = O.contents output.old; new = O.contents output.new })) }
{
    let a = table_named(alloc, source, input, first)?;
    let b = table_named(alloc, source, input, second)?;
    let names = Names::new(alloc, a.version());
    let mut lines = Vec::new(alloc);
    let differ = append_differences(&a, &b, &names, &mut lines)?;
    write_output(output, &lines)?;
    Ok(differ)
}
