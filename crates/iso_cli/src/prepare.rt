//! A host on a port, before the port is bound.

ghost use Rattle.std.specs.Prelude.{◌≡◌, ◌≤◌, IfErr, IfOk, OnOk, map};
ghost use Rattle.iso_cli.specs.Listening.{AsksNoServe};
ghost use Rattle.iso_cli.specs.Prepare.{Prepares};
ghost use Rattle.iso_cli.specs.Tells.{TellsStop};
ghost use Rattle.iso_host.specs.Counts.{stream};
ghost use Rattle.iso_cli.specs.declared.stop.Stop.TheVariants as Stop;

use crate::listening::parse_serve;
use crate::run::{accounts_at, host_table};
use crate::source::Source;
use crate::stop::{Stop, tell};
use iso_host::Outlet;
use iso_issuer::{Issuer, MOST_ENTRIES};
use iso_table::Table;
use iso_wire::Header;
use std::alloc::Global;

/// A host on a port, before the port is bound.
#[derive(Drop)]
pub struct Serving {
    /// The table that messages are read and written under. A host can serve under it.
    pub table: Table,
    /// How a frame counts its body.
    pub header: Header,
    /// The accounts, with an empty journal.
    pub issuer: Issuer,
    /// The port, 1 to 65,535.
    pub port: u16,
    /// How many connections are served, 1 to 1,000.
    pub count: u32,
}

/// The host that the words name. The table is read before the accounts.
fn host_named<S: Source>(alloc: Global, words: &[&str], source: &S) -> Result<Serving, Stop>
    ensures prepared { IfOk result (Prepares (map (λ w. w.now) words.now) (S.file source.now)) }
    ensures words { IfErr result
        (λ stop. stop ≡ Stop.Words → AsksNoServe (map (λ w. w.now) words.now)) }
{
    let asked = parse_serve(alloc, words)?;
    let table = host_table(alloc, source, asked.table)?;
    let accounts = accounts_at(alloc, source, asked.accounts)?;
    Ok(Serving {
        table,
        header: asked.header,
        issuer: Issuer::new(accounts, MOST_ENTRIES),
        port: asked.port,
        count: u32::from(asked.count),
    })
}

/// Reads what the words `serve TABLE ACCOUNTS HEADER PORT COUNT` name: the table, then the accounts. Where a word or a
/// document is refused, the line on `faults` says why, and the status is given: 1 a document was refused, 2 the words
/// were, 3 a device or memory failed.
pub fn prepare<S: Source, F: Outlet>(
    alloc: Global,
    words: &[&str],
    source: &S,
    faults: &mut F,
) -> Result<Serving, u8>
    // Where it succeeds, the host is the one that the words name: its table and accounts, an empty
    // journal, its header, port and count.
    ensures prepared { IfOk result (Prepares (map (λ w. w.now) words.now) (S.file source.now)) }
    // Where there is no host to serve with, the status is 1 to 3.
    ensures status { IfErr result (λ status. (1 ≤ status) × (status ≤ 3)) }
    // Status 2 comes of words alone that name no host.
    ensures words { IfErr result (λ status. status ≡ 2 → AsksNoServe (map (λ w. w.now) words.now)) }
    // Where it fails, the line of one stop is told, with the status of that stop; or a write
    // failed, and the status is 3.
    ensures told { IfErr result (TellsStop (stream (F.contents faults.old) (F.counts faults.old))
        (stream (F.contents faults.new) (F.counts faults.new))) }
    // Where it succeeds, nothing is told.
    ensures quiet { OnOk result (F.contents faults.new ≡ F.contents faults.old) }
{
    match host_named(alloc, words, source) {
        Ok(host) => Ok(host),
        Err(stop) => Err(tell(alloc, faults, stop)),
    }
}
