//! What holds of each host with its peers, and over each of its runs: functions that do nothing, and whose contracts are
//! laws.
ghost use Rattle.iso_peers.specs.Host.{StaysInStep};
ghost use Rattle.iso_peers.specs.Pieces.{PieceLaws};
ghost use Rattle.iso_peers.specs.World.{HandedOutStands};

use crate::durable_host::DurableHost;
use iso_durable::Log;
use iso_durable::laws::{answers_outlive_crashes, orders_enter};
use iso_host::Host;
use iso_host::laws::{one_journal, output_goes_on};
use iso_wire::laws::{frames, splits_once};

/// A peer's bytes can be taken piece by piece, with one call of `DurableHost::take` after the other. What these calls take
/// together is what one `DurableHost::take_all` takes.
pub fn piece_by_piece(host: &Host)
    // At first nothing is taken; each piece comes behind those before it; and the last piece, or
    // a refusal, ends them as `take_all` ends.
    ensures { PieceLaws host.now }
{
    frames();
    splits_once();
    one_journal(host.issuer());
    output_goes_on();
}

/// Whatever orders enter the books of a host, it stays in step with its log, as long as that isn't called.
pub fn stays_in_step<L: Log>(host: &DurableHost<L>)
    // In step with its log, it is so with the books after any orders too.
    ensures { StaysInStep L.is_ready L.synced L.pending host.now }
{
    // the law that orders that come are entered, and what holds of each journal
    orders_enter();
    let _entered = host.issuer().len();
}

/// Over each run of a host, with any number of peers on any links, and with crashes at any moments: each answer that was
/// handed out to a peer is the answer that the orders on the disk give to its body, and the order that the body asks is
/// among them. So a host that starts from the disk gives every repeat its first answer. Only the answer of a full journal,
/// 96, promises nothing.
///
/// The steps are those of `DurableHost`: a `take` that ends a frame (`took`, `comes`), a `take` without memory for the
/// answer, a `keep` (`synced`), after which `hand_out` may give all that waits, and a crash (`crash`) with the start after
/// it.
pub fn handed_out_stands()
    ensures { HandedOutStands }
{
    answers_outlive_crashes();
}
