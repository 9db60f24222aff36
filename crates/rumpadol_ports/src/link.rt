//! What a host and its peers have agreed on.

ghost use Rattle.std.specs.Prelude.{◌≡◌, IfOk};

use iso_host::{HostTable, Link};
use iso_table::Table;
use iso_wire::Header;
use rumpadol_tables::{Stop, refused};
use std::alloc::Global;

/// What both ends of the stream have agreed on, under the table that a word names.
pub fn link_under(alloc: Global, word: &str, table: Table, header: Header) -> Result<Link, Stop>
    // At `Ok` the link has the table that was given.
    ensures table { IfOk result (λ link. link.table ≡ table) }
    // At `Ok` the link has the header that was given.
    ensures header { IfOk result (λ link. link.header ≡ header) }
{
    match HostTable::new(table) {
        Ok(table) => Ok(Link::new(table, header)),
        Err((fault, _table)) => Err(refused(format!(in alloc;
            "rumpadol: {word}: a host can't serve under it: {fault}; see what its rows are to be in docs/TABLES.md\n"
        ))),
    }
}
