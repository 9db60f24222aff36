//! A front before shards.

ghost use Rattle.std.specs.Prelude.{◌≡◌, IfOk};

use crate::job::FrontJob;
use crate::performing::{perform_front, shards_at};
use crate::words::FrontWords;
use iso_host::Link;
use rumpadol_ports::{Outside, System, address_of, check_stop_file, link_under};
use rumpadol_tables::{STANDARD_INPUT, Source, Stop, misused, table_named};
use rumpadol_terminals::Terminals;
use std::alloc::Global;
use std::io::{Read, Write};

/// The table and the header of acquirers and shards.
fn agreed<S: Source, I: Read>(
    alloc: Global,
    source: &S,
    input: &mut I,
    job: &FrontJob<'_>,
) -> Result<Link, Stop> {
    if job.table == STANDARD_INPUT {
        return Err(misused(format!(in alloc;
            "rumpadol: -: the end of standard input stops the front; name a file for the table\n"
        )));
    }
    let table = table_named(alloc, source, input, job.table)?;
    link_under(alloc, job.table, table, job.header)
}

/// Serves the acquirers that come on a port, before shards.
pub fn perform_before_shards<S: Source + System, I: Read, F: Write>(
    alloc: Global,
    job: &FrontJob<'_>,
    source: &S,
    terminals: Terminals,
    input: &mut I,
    faults: &mut F,
) -> Result<u8, Stop>
    // A front that served to its end has status 0.
    ensures { IfOk result (λ status. status ≡ 0) }
{
    let runtime = source.runtime();
    check_stop_file(alloc, runtime, "front", job.stop_file)?;
    let address = address_of(alloc, "listen", job.address)?;
    let link = agreed(alloc, source, input, job)?;
    let shards = shards_at(alloc, source, job.shards)?;
    let words = FrontWords {
        path: job.shards,
        address,
        header: job.header,
        bounds: job.bounds,
    };
    let mut stops = Outside::new(runtime, job.stop_file, input, terminals.input);
    let table = link.table().table();
    perform_front(alloc, runtime, words, &shards, table, &mut stops, faults)
}
