//! What is read of one peer in a turn.
ghost use Rattle.std.specs.Prelude.{◌≡◌, ℕ};
ghost use Rattle.iso_peers.specs.Host.{IsInStep};
ghost use Rattle.iso_lines.specs.Hearing.{HearsAlone, growth};
ghost use Rattle.iso_lines.specs.Turn.{EntersHeard};

use crate::notes::Told;
use crate::peer::Peer;
use crate::standing::Doing;
use iso_durable::Log;
use iso_guard::Rooms;
use iso_peers::DurableHost;
use iso_wire::laws::frames;
use std::io::{Read, Write};

/// How many bytes are read at once.
pub const BLOCK: usize = 16_384;

/// At least as many orders as are ever kept with one sync: a piece ends no more frames than it has bytes.
pub const MOST_ORDERS: usize = 65_536;

/// How many pieces of a peer are read in one turn.
const READS: usize = 64;

/// Whether as many orders wait as are kept with one sync, or one more piece may bring more.
pub(crate) fn is_full<L: Log>(host: &DurableHost<L>) -> bool {
    host.waits() >= MOST_ORDERS - BLOCK
}

/// Reads what came of a peer, up to its share of the turn.
#[tactic(auto, using(crate::proofs::Heard::none_heard, crate::proofs::Heard::more_heard, crate::proofs::Turns::reads_none, crate::proofs::Turns::reads_more, crate::proofs::Turns::reads_on))]
pub(crate) fn read_share<L: Log, S: Read + Write + Drop>(
    peer: &mut Peer<'_, S>,
    host: &mut DurableHost<L>,
    now: u64,
    block: &mut [u8],
    rooms: &mut Rooms,
    told: &mut Vec<Told>,
)
    // Its frames are those at the front of the bytes that its stream gave, and their answers wait.
    ensures came { (key : ℕ)
        → HearsAlone S.remaining key peer.old peer.new (growth host.old.host host.new.host) }
    // The books grow by bodies, one after the other, and by nothing else.
    ensures heard { EntersHeard host.old.host host.new.host }
    // The log isn't called, and stays in step with the journal.
    ensures log { host.new.log ≡ host.old.log }
    ensures step { IsInStep L.is_ready L.synced L.pending host.old
        → IsInStep L.is_ready L.synced L.pending host.new }
{
    // the laws of frames behind others, for the prover
    frames();
    let mut left = peer.line.terms.limits.share;
    for _ in 0..READS {
        if left == 0 || !peer.may_have_come || is_full(host) {
            return;
        }
        if peer.doing(now) != Doing::Reads {
            return;
        }
        left = left.saturating_sub(peer.read(host, left, now, block, rooms, told));
    }
}
