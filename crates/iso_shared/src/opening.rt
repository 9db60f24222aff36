//! Opening a journal that others write to as well.
ghost use Rattle.std.specs.Prelude.{◌≡◌, ◌≤◌, [], false, IfOk};
ghost use Rattle.iso_durable.specs.Host.{IsConsistent};
ghost use Rattle.iso_durable.specs.World.{IsStart};
ghost use Rattle.iso_shared.specs.Log.{IsReady, synced_orders, pending_orders};
ghost use Rattle.iso_shared.specs.Store.{Grows};

use crate::heading::Writer;
use crate::log::SharedLog;
use crate::patience::Patience;
use crate::standby::Standby;
use crate::store::Store;
use iso_durable::DurableIssuer;
use iso_issuer::Accounts;
use std::alloc::Global;
use thiserror::Error;

/// Why a journal can't be read on.
#[derive(Clone, Copy, Debug, PartialEq, Eq, Drop, Error)]
pub enum OpenError {
    /// Memory ran out.
    #[error("memory ran out")]
    Memory,
    /// The store gave no answer.
    #[error("the store that keeps the journal gave no answer")]
    Away,
    /// A batch could not be taken before.
    #[error("a batch of the journal could not be taken before")]
    Failed,
    /// What stands at this place is no batch that a host can have written there.
    #[error("what stands at place {0} is no batch that a host can have written there")]
    Damaged(u64),
}

/// Opens a journal: reads the batches of a store from the first on, until no further one is found, and decides each order
/// again. An `Err` hands the store back.
pub fn open<S: Store + Drop, P: Patience + Drop>(
    alloc: Global,
    store: S,
    mut patience: P,
    writer: Writer,
    accounts: Accounts,
    limit: u32,
) -> Result<DurableIssuer<SharedLog<S, P>>, (OpenError, S)>
    // The limit is at least one order.
    requires least { 1 ≤ limit }
    // The limit is at most 999,999 orders.
    requires most { limit ≤ 999999 }
    // Where it succeeds, the host is in step with its log: the log knows only batches that are
    // kept, and the host has their orders.
    ensures consistent { IfOk result (λ host. IsConsistent (λ l. IsReady S.kept l)
        (λ l. synced_orders S.kept l) (λ l. pending_orders S.kept l) host) }
    // Where it succeeds, the host has the accounts that are given.
    ensures accounts { IfOk result (λ host. host.issuer.accounts ≡ accounts) }
    // Where it succeeds, the host has the limit that is given.
    ensures limit { IfOk result (λ host. host.issuer.limit ≡ limit) }
    // Where it succeeds, no two orders of the host have one key, and there are no more than the
    // limit.
    ensures start { IfOk result (λ host. IsStart limit host.issuer.orders) }
    // Where it succeeds, the host's log writes as the writer that is given.
    ensures writer { IfOk result (λ host. host.log.writer ≡ writer) }
    // Where it succeeds, no order waits in the batch that is being made.
    ensures none { IfOk result (λ host. host.log.rows.items ≡ []) }
    // Where it succeeds, every batch that the host knows counts as synced.
    ensures synced { IfOk result (λ host. host.log.synced ≡ host.log.seen) }
    // Where it succeeds, the host hasn't failed.
    ensures good { IfOk result (λ host. host.has_failed ≡ false) }
    // Where it succeeds, what the store kept is kept, each batch at its place.
    ensures grows { IfOk result (λ host. Grows (S.kept store) (S.kept host.log.store)) }
{
    let mut standby = Standby::new(accounts, limit, store);
    match standby.catch_up(alloc, &mut patience) {
        Ok(()) => Ok(standby.start(alloc, patience, writer)),
        Err(error) => Err((error, standby.store)),
    }
}
