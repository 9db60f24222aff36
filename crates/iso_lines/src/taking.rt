//! What a peer of a line without a guard sends, frame after frame.
ghost use Rattle.std.specs.Prelude.{◌≡◌, true, IfOk, OnErr};
ghost use Rattle.iso_peers.specs.Host.{IsInStep};
ghost use Rattle.iso_peers.specs.Turn.{TakesAll, at_books};
ghost use Rattle.iso_lines.specs.Hearing.{stopped_at};
ghost use Rattle.iso_lines.specs.Turn.{EntersHeard};

use crate::notes::{Notes, Told};
use iso_durable::{Log, LogFailed};
use iso_host::laws::one_journal;
use iso_host::{Link, PeerFault};
use iso_peers::laws::piece_by_piece;
use iso_peers::{Connection, DurableHost, TurnFault, Turned};

/// How taking a peer's bytes ends at a fault, once so many are taken.
fn stopped_at(used: usize, fault: TurnFault) -> Result<Turned, LogFailed>
    ensures { result ≡ stopped_at used fault }
{
    let stopped = match fault {
        TurnFault::Log => return Err(LogFailed),
        TurnFault::BadHeader => Some(PeerFault::BadHeader),
        TurnFault::Memory => Some(PeerFault::Memory),
    };
    Ok(Turned { used, stopped })
}

/// Takes all bytes of a peer, as `DurableHost::take_all` does, and notes what came of each frame.
pub(crate) fn take_noted<L: Log>(
    host: &mut DurableHost<L>,
    connection: &mut Connection<'_>,
    bytes: &[u8],
    agreed: &Link,
    notes: &mut Notes,
    told: &mut Vec<Told>,
) -> Result<Turned, LogFailed>
    // The bodies of all whole frames are entered, one after the other, and their answers wait behind the others.
    ensures took { IfOk result (TakesAll (at_books connection.old host.old.host)
        (at_books connection.new host.new.host) bytes.now) }
    ensures refused { OnErr result (host.old.has_failed ≡ true) }
    ensures table { connection.new.peer.table ≡ connection.old.peer.table }
    ensures header { connection.new.peer.header ≡ connection.old.peer.header }
    // The books grow by bodies, one after the other, and by nothing else.
    ensures heard { EntersHeard host.old.host host.new.host }
    // The log isn't called, and stays in step with the journal.
    ensures log { host.new.log ≡ host.old.log }
    ensures kept { host.new.kept ≡ host.old.kept }
    ensures failed { host.new.has_failed ≡ host.old.has_failed }
    ensures step { IsInStep L.is_ready L.synced L.pending host.old
        → IsInStep L.is_ready L.synced L.pending host.new }
{
    // the laws that bodies have one journal, and of pieces that follow others, for the prover
    one_journal(host.issuer());
    piece_by_piece(&host.host);
    let mut used = 0;
    'pieces: loop {
        match host.take(connection, &bytes[used..]) {
            Err(fault) => return stopped_at(used, fault),
            Ok(taken) => {
                notes.note_taken(agreed, &bytes[used..], &taken, told);
                used += taken.used;
                if used == bytes.len() {
                    let stopped = None;
                    return Ok(Turned { used, stopped });
                }
            }
        }
    }
}
