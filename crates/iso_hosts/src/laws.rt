//! What holds of hosts over one log, whatever comes, is sent, arrives and is read, and whoever
//! crashes: a function that does nothing, and whose contract is the laws.

ghost use Rattle.iso_hosts.specs.Laws.{NoHostIsWrong, HostsAgree, KeptOnce, LogOnlyGrows};
ghost use Rattle.iso_hosts.specs.Laws.{LateIsLost, NoGaps, OwnIsTold, FencedSaysNothingNew};
ghost use Rattle.iso_hosts.specs.Laws.{ReadsOn, OthersLeaveIt, SeenIsKept, StartsAreEvents};
ghost use Rattle.iso_hosts.specs.Laws.{SyncSucceeds, CallsAreEvents, CallsAreTold};

use iso_durable::laws::starts;
use iso_issuer::laws::{answers_are_kept, entries_are_found, journals_grow, keys_stay_distinct};
use iso_order::laws::comparisons;

/// After every list of events of any number of hosts over one log, where a batch may arrive late,
/// twice or never, and a host may go on deciding while a batch is in doubt, or start again from any
/// beginning of the log: each answer that any host told is the one that the log gives to its order,
/// so no two hosts answer one order differently. No two orders that are kept have one key. What is
/// kept stays there, at its place.
pub fn no_host_is_wrong()
    // After every list of events, each answer that any host told is the one that
    // the log gives to its order.
    ensures told { NoHostIsWrong }
    // Two answers to one order are one answer, whichever hosts told them, and whenever.
    ensures agree { HostsAgree }
    // No two orders that are kept have one key, and there are no more of them than the limit.
    ensures once { KeptOnce }
    // What is kept stays in the log, at its place, whatever events follow.
    ensures grows { LogOnlyGrows }
    // A batch whose place is taken is never kept, however late it arrives.
    ensures late { LateIsLost }
    // No batch was sent to a place behind the next one, so the log has no gap.
    ensures gaps { NoGaps }
    // No host has seen more batches than are kept.
    ensures seen { SeenIsKept }
    // A host that reads the batch that it is in doubt of tells the answers that waited for it, and
    // goes on with what it decided behind.
    ensures own { OwnIsTold }
    // A host that reads another batch than the one it is in doubt of tells nothing,
    // and forgets what it decided.
    ensures fenced { FencedSaysNothingNew }
    // A host that reads the next batch has then seen its orders, behind
    // those that it had seen before.
    ensures reads { ReadsOn }
    // What other hosts do, and a batch that arrives, leaves a host as it was that has
    // seen no more than is kept.
    ensures others { OthersLeaveIt }
    // A host that restarts on the first batches of the log is as `DurableIssuer::start` leaves it:
    // their orders are synced, and none waits.
    ensures starts { StartsAreEvents }
    // Where a host has seen all that is kept, and its batch is sent, arrives next and is read, the
    // batch is kept and the answers that waited for it are told.
    ensures succeeds { SyncSucceeds }
    // Orders that come to a host that has seen all that is kept and is in doubt of nothing, and are
    // sent and read then, leave it as `DurableIssuer::answer_all` leaves an issuer.
    ensures calls { CallsAreEvents }
    // Where a host has seen all that is kept and is in doubt of nothing, the answers that
    // `answer_all` gives to orders that come are told, but for those of 96.
    ensures answers { CallsAreTold }
{
    answers_are_kept();
    entries_are_found();
    journals_grow();
    keys_stay_distinct();
    starts();
    comparisons();
}
