//! What a peer sends, frame after frame, and how many came of each kind.
ghost use Rattle.std.specs.Prelude.{◌≡◌, IfErr, IfOk};
ghost use Rattle.iso_peers.specs.Host.{IsInStep};
ghost use Rattle.iso_peers.specs.Turn.{TakesAll, at_books};
ghost use Rattle.iso_service.specs.declared.fault.ServiceFault.TheVariants as service;

use crate::counting::count_taken;
use crate::fault::ServiceFault;
use iso_durable::Log;
use iso_host::{PeerFault, Report};
use iso_peers::laws::piece_by_piece;
use iso_peers::{Connection, DurableHost, TurnFault, Turned};

/// So many bytes were taken, and why no more.
fn turned(used: usize, stopped: Option<PeerFault>) -> Turned
    ensures { result ≡ record { used = used; stopped = stopped } }
{
    Turned { used, stopped }
}

/// Takes all bytes of a peer, as `DurableHost::take_all` does, and counts the frames.
pub(crate) fn take_counted<L: Log>(
    host: &mut DurableHost<L>,
    connection: &mut Connection<'_>,
    bytes: &[u8],
    report: &mut Report,
) -> Result<Turned, ServiceFault>
    ensures took { IfOk result (TakesAll (at_books connection.old host.old.host)
        (at_books connection.new host.new.host) bytes.now) }
    ensures fault { IfErr result (λ e. e ≡ service.Log) }
    ensures table { connection.new.peer.table ≡ connection.old.peer.table }
    ensures header { connection.new.peer.header ≡ connection.old.peer.header }
    ensures log { host.new.log ≡ host.old.log }
    ensures kept { host.new.kept ≡ host.old.kept }
    ensures failed { host.new.has_failed ≡ host.old.has_failed }
    ensures step { IsInStep L.is_ready L.synced L.pending host.old
        → IsInStep L.is_ready L.synced L.pending host.new }
{
    // the laws of pieces that follow others, for the prover
    piece_by_piece(&host.host);
    let mut used = 0;
    'pieces: loop {
        match host.take(connection, &bytes[used..]) {
            Err(TurnFault::Log) => return Err(ServiceFault::Log),
            Err(TurnFault::BadHeader) => return Ok(turned(used, Some(PeerFault::BadHeader))),
            Err(TurnFault::Memory) => return Ok(turned(used, Some(PeerFault::Memory))),
            Ok(taken) => {
                count_taken(report, &taken);
                used += taken.used;
                if used == bytes.len() {
                    return Ok(turned(used, None));
                }
            }
        }
    }
}
