//! What is done with tables.

ghost use Rattle.std.specs.Prelude.{◌≡◌, ◌≤◌, if◌then◌else◌, IfOk};
ghost use Rattle.rumpadol_tables.specs.Jobs.{Does};

mod check;
mod diff;
mod list;
mod new;
mod show;

use crate::source::Source;
use crate::stop::Stop;
use crate::words::TableJob;
use check::check;
use diff::diff;
use list::list;
use new::make;
use show::show;
use std::alloc::Global;
use std::io::{Read, Write};

/// The status of two tables that differ or not.
fn status_of(differ: bool) -> u8
    ensures { result ≡ (if differ then 1 else 0) }
{
    if differ { 1 } else { 0 }
}

/// Does what is asked about tables, and gives the status: 0, or 1 where two tables differ.
pub fn perform_table<S: Source, I: Read, O: Write>(
    alloc: Global,
    job: &TableJob<'_>,
    source: &S,
    input: &mut I,
    output: &mut O,
) -> Result<u8, Stop>
    // Where it ends with a status, the output grew by what the job says; the status is 0, or 1 of a
    // `diff` of tables that differ.
    ensures done { IfOk result (Does job.now
        (record { file = S.file source.now; input = I.remaining input.old })
        (record { old = O.contents output.old; new = O.contents output.new })) }
    // Where it ends with a status, it is 0 or 1.
    ensures range { IfOk result (λ status. status ≤ 1) }
{
    match job {
        TableJob::Check(table) => check(alloc, *table, source, input, output)?,
        TableJob::Show(table, names) => show(alloc, *table, *names, source, input, output)?,
        TableJob::List => list(alloc, output)?,
        TableJob::New(words) => make(alloc, words, source, input, output)?,
        TableJob::Diff(first, second) => {
            let differ = diff(alloc, *first, *second, source, input, output)?;
            return Ok(status_of(differ));
        }
    }
    Ok(0)
}
