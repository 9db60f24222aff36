//! Connections, one after the other, with one journal.

ghost use Rattle.iso_table.specs.HostReady.{IsHostReady};
ghost use Rattle.iso_cli.specs.Connections.{Serves, lines, port};
ghost use Rattle.iso_cli.specs.OneConnection.{IsConnection, TellsConnectionEnd};
ghost use Rattle.iso_cli.specs.Turns.{most_turns};
ghost use Rattle.iso_host.specs.Counts.{usage};
ghost use Rattle.iso_host.specs.Serving.{Cause, WithinTurns};

use crate::report::write_report;
use crate::run::MOST_TURNS;
use crate::stop::{Stop, tell, tell_as};
use iso_host::laws::one_journal;
use iso_host::{Inlet, Outlet, Report, ServeFault, Std, serve};
use iso_issuer::Issuer;
use iso_table::Table;
use iso_wire::Header;
use std::alloc::Global;
use std::net::{TcpListener, TcpStream};

/// Answers the frames of one connection by its two directions, in at most 100,000,000 reads and writes.
fn serve_directions<R: Inlet, W: Outlet>(
    alloc: Global,
    table: &Table,
    header: Header,
    issuer: &mut Issuer,
    reader: &mut R,
    writer: &mut W,
) -> Result<Report, ServeFault>
    requires { IsHostReady table.now }
    ensures connection { IsConnection table.now issuer.old issuer.new result }
    ensures within { WithinTurns (usage (R.counts reader.old) (W.counts writer.old))
        (usage (R.counts reader.new) (W.counts writer.new)) most_turns }
    ensures cause { Cause (usage (R.counts reader.old) (W.counts writer.old))
        (usage (R.counts reader.new) (W.counts writer.new)) most_turns result }
{
    serve(alloc, table, header, issuer, reader, writer, MOST_TURNS)
}

/// Answers the frames of one connection until its peer closes its writing side, or until a fault. Then it is closed.
fn serve_peer(
    alloc: Global,
    peer: TcpStream,
    table: &Table,
    header: Header,
    issuer: &mut Issuer,
) -> Result<Report, ServeFault>
    requires { IsHostReady table.now }
    ensures { IsConnection table.now issuer.old issuer.new result }
{
    // An answer then leaves at once, though the one before it may not have arrived. Where the system refuses this,
    // answers only come later.
    let _ = peer.set_nodelay(true);
    serve_directions(
        alloc,
        table,
        header,
        issuer,
        &mut Std::new(&peer),
        &mut Std::new(&peer),
    )
}

/// Waits for the next connection and serves it. An `accept` that fails is a connection that can't be read.
fn serve_next(
    alloc: Global,
    listener: &TcpListener,
    table: &Table,
    header: Header,
    issuer: &mut Issuer,
) -> Result<Report, ServeFault>
    requires { IsHostReady table.now }
    ensures { IsConnection table.now issuer.old issuer.new result }
{
    // the proof learns here that no bodies leave the books as they are: none came where `accept` fails
    one_journal(issuer);
    match listener.accept() {
        Ok((peer, _)) => serve_peer(alloc, peer, table, header, issuer),
        Err(_) => Err(ServeFault::Read),
    }
}

/// Tells how a connection ended: its report on the output, or its fault on the fault stream. The status is 0 where the
/// next connection can be served, else 3: memory, the output or the fault stream failed.
fn tell_end<O: Outlet, F: Outlet>(
    alloc: Global,
    ended: Result<Report, ServeFault>,
    output: &mut O,
    faults: &mut F,
) -> u8
    ensures told { TellsConnectionEnd (lines (O.contents output.old) (F.contents faults.old))
        (lines (O.contents output.new) (F.contents faults.new)) ended result }
{
    match ended {
        Ok(report) => write_report(alloc, report, output, faults),
        Err(ServeFault::Memory) => tell(alloc, faults, Stop::Memory),
        Err(fault) => tell_as(alloc, faults, Stop::from(fault), 0),
    }
}

/// Serves `count` connections, one after the other, with one journal, and gives the status: 0 when all of them have
/// ended, 3 where memory, the output or the fault stream failed before.
///
/// Where a connection ends between two frames, the line of its report is written to the output. Where it ends with a
/// fault, the fault's line is written to `faults`, and the next connection is served: its orders meet the journal that
/// all connections before it left. An `accept` that fails is one of the connections. The table is one that
/// `Table::host_ready` accepts.
pub fn serve_connections<O: Outlet, F: Outlet>(
    alloc: Global,
    listener: &TcpListener,
    table: &Table,
    header: Header,
    issuer: &mut Issuer,
    count: u32,
    output: &mut O,
    faults: &mut F,
) -> u8
    // A host can serve under the table: `Table::host_ready` tells.
    requires { IsHostReady table.now }
    // The books are those after the bodies of at most `count` connections, in turn. With status 0
    // exactly `count` were served and told, and none ended for want of memory; else it is 3.
    ensures served { Serves table.now
        (port issuer.old (lines (O.contents output.old) (F.contents faults.old)))
        (port issuer.new (lines (O.contents output.new) (F.contents faults.new))) count result }
{
    // the proof learns here that bodies behind those of another connection are handled as all of them on one stream
    one_journal(issuer);
    for _ in 0..count {
        let ended = serve_next(alloc, listener, table, header, issuer);
        let status = tell_end(alloc, ended, output, faults);
        if status != 0 {
            return status;
        }
    }
    0
}
