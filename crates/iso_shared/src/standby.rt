//! An issuer that follows the batches of a store as they come.
ghost use Rattle.std.specs.Prelude.{◌≡◌, ◌≤◌, ◌++◌, ◌∷◌, ◌+◌, [], true, false, IfOk, IfErr, OnOk, is_err};
ghost use Rattle.iso_durable.specs.Host.{IsConsistent};
ghost use Rattle.iso_durable.specs.World.{IsStart};
ghost use Rattle.iso_shared.specs.Log.{IsReady, synced_orders, pending_orders};
ghost use Rattle.iso_shared.specs.Kept.{orders_of, batch_of};
ghost use Rattle.iso_shared.specs.Written.{IsWritten, AreWritten, IsNext};
ghost use Rattle.iso_shared.specs.Store.{Grows};
ghost use Rattle.iso_shared.specs.Standby.{IsFollowing, ReadsOn, IsTakeFault, IsRefusal};

use crate::heading::Writer;
use crate::log::SharedLog;
use crate::opening::OpenError;
use crate::patience::Patience;
use crate::reading::{ReadFault, read_batch};
use crate::store::{Looked, Store};
use iso_durable::{DurableIssuer, Fault, answer_order};
use iso_issuer::laws::keys_stay_distinct;
use iso_issuer::{Accounts, Issuer};
use iso_record::Row;
use std::alloc::Global;

/// Enters an order, and tells whether the row is the one that a host writes for it then.
fn take_row(issuer: &mut Issuer, row: &Row) -> Result<bool, Fault>
    ensures written { IfOk result (λ b. b ≡ true
        → IsWritten issuer.old.accounts issuer.old.limit issuer.old.orders row.now) }
    ensures not { IfOk result (λ b. b ≡ false
        → IsWritten issuer.old.accounts issuer.old.limit issuer.old.orders row.now → ⊥) }
    ensures entered { IfOk result (λ b. b ≡ true
        → issuer.new.orders ≡ issuer.old.orders ++ row.now.order ∷ []) }
    ensures start { IfOk result (λ b. b ≡ true
        → IsStart issuer.old.limit issuer.old.orders
        → IsStart issuer.new.limit issuer.new.orders) }
    ensures accounts { IfOk result (λ b. issuer.new.accounts ≡ issuer.old.accounts) }
    ensures limit { IfOk result (λ b. issuer.new.limit ≡ issuer.old.limit) }
    ensures memory { IfErr result (λ e. e ≡ Fault.Memory) }
{
    keys_stay_distinct();
    let (answer, is_new) = answer_order(issuer, row.order)?;
    Ok(is_new && answer == row.answer)
}

/// Enters the orders of rows, and tells whether each row is one that a host writes there.
fn take_rows(issuer: &mut Issuer, rows: &[Row]) -> Result<bool, Fault>
    ensures written { IfOk result (λ b. b ≡ true
        → AreWritten issuer.old.accounts issuer.old.limit issuer.old.orders rows.now) }
    ensures not { IfOk result (λ b. b ≡ false
        → AreWritten issuer.old.accounts issuer.old.limit issuer.old.orders rows.now → ⊥) }
    ensures entered { IfOk result (λ b. b ≡ true
        → issuer.new.orders ≡ issuer.old.orders ++ orders_of rows.now) }
    ensures start { IfOk result (λ b. b ≡ true
        → IsStart issuer.old.limit issuer.old.orders
        → IsStart issuer.new.limit issuer.new.orders) }
    ensures accounts { IfOk result (λ b. issuer.new.accounts ≡ issuer.old.accounts) }
    ensures limit { IfOk result (λ b. issuer.new.limit ≡ issuer.old.limit) }
    ensures memory { IfErr result (λ e. e ≡ Fault.Memory) }
{
    for row in rows {
        if !take_row(issuer, row)? {
            return Ok(false);
        }
    }
    Ok(true)
}

/// Enters the orders of the batch that bytes are, and tells whether a host writes that batch at this place.
fn take_batch(
    alloc: Global,
    issuer: &mut Issuer,
    place: u64,
    bytes: &[u8],
) -> Result<bool, OpenError>
    ensures next { IfOk result (λ b. b ≡ true → IsNext issuer.old place bytes.now) }
    ensures not { IfOk result (λ b. b ≡ false → IsNext issuer.old place bytes.now → ⊥) }
    ensures entered { IfOk result (λ b. b ≡ true
        → issuer.new.orders ≡ issuer.old.orders ++ (batch_of bytes.now).orders) }
    ensures start { IfOk result (λ b. b ≡ true
        → IsStart issuer.old.limit issuer.old.orders
        → IsStart issuer.new.limit issuer.new.orders) }
    ensures accounts { IfOk result (λ b. issuer.new.accounts ≡ issuer.old.accounts) }
    ensures limit { IfOk result (λ b. issuer.new.limit ≡ issuer.old.limit) }
    ensures memory { IfErr result (λ e. e ≡ OpenError.Memory) }
{
    let batch = match read_batch(alloc, bytes) {
        Ok(batch) => batch,
        Err(ReadFault::Memory) => return Err(OpenError::Memory),
        Err(ReadFault::Format) => return Ok(false),
    };
    if batch.heading.place != place {
        return Ok(false);
    }
    match take_rows(issuer, &batch.rows) {
        Ok(is_good) => Ok(is_good),
        Err(_) => Err(OpenError::Memory),
    }
}

/// An issuer that follows the batches of a store: a host that doesn't write yet.
#[derive(Drop)]
pub struct Standby<S: Store + Drop> {
    /// Its journal has the orders of the batches that were read.
    pub issuer: Issuer,
    /// The store.
    pub store: S,
    /// How many batches were read.
    pub seen: u64,
    /// A batch could not be taken: nothing is read any more.
    pub has_failed: bool,
}

impl<S: Store + Drop> Standby<S> {
    /// One that has read nothing.
    pub fn new(accounts: Accounts, limit: u32, store: S) -> Standby<S>
        // The limit is at least one order.
        requires least { 1 ≤ limit }
        // The limit is at most 999,999 orders.
        requires most { limit ≤ 999999 }
        // The standby follows its store: its journal has the orders of the batches that it has
        // read, each key once, and within the limit.
        ensures following { IsFollowing S.kept result }
        // The standby has the accounts that are given.
        ensures accounts { result.issuer.accounts ≡ accounts }
        // The standby has the limit that is given.
        ensures limit { result.issuer.limit ≡ limit }
        // The standby reads the store that is given.
        ensures store { result.store ≡ store }
        // The standby hasn't failed.
        ensures failed { result.has_failed ≡ false }
    {
        Standby {
            issuer: Issuer::new(accounts, limit),
            store,
            seen: 0,
            has_failed: false,
        }
    }

    /// Takes what stands at the next place.
    fn take(&mut self, alloc: Global, place: u64, bytes: &[u8]) -> Result<(), OpenError>
        requires here { place ≡ self.old.seen + 1 }
        ensures next { OnOk result (IsNext self.old.issuer place bytes.now) }
        ensures entered { OnOk result (self.new.issuer.orders
            ≡ self.old.issuer.orders ++ (batch_of bytes.now).orders) }
        ensures start { OnOk result (IsStart self.old.issuer.limit self.old.issuer.orders
            → IsStart self.new.issuer.limit self.new.issuer.orders) }
        ensures accounts { OnOk result (self.new.issuer.accounts ≡ self.old.issuer.accounts) }
        ensures limit { OnOk result (self.new.issuer.limit ≡ self.old.issuer.limit) }
        ensures seen { OnOk result (self.new.seen ≡ self.old.seen + 1) }
        ensures store { self.new.store ≡ self.old.store }
        ensures fault { IfErr result (λ e. IsTakeFault self.old.issuer place bytes.now e) }
        ensures failed { self.new.has_failed ≡ is_err result }
    {
        self.has_failed = true;
        if !take_batch(alloc, &mut self.issuer, place, bytes)? {
            return Err(OpenError::Damaged(place));
        }
        self.seen = place;
        self.has_failed = false;
        Ok(())
    }

    /// Reads the next batch, if it is there, and tells whether it was.
    pub fn read_on(&mut self, alloc: Global) -> Result<bool, OpenError>
        // Where a batch was found, it stands at the next place, is one that a host writes there,
        // and counts as read; where none was, the books and the count are as they were.
        ensures reads { IfOk result (λ b. ReadsOn S.kept self.old self.new b) }
        // Where it succeeds, a standby that followed its store still does: its journal has the
        // orders of the batches that it has read, each key once, and within the limit.
        ensures following { OnOk result
            (IsFollowing S.kept self.old → IsFollowing S.kept self.new) }
        // Where it succeeds, the accounts are as they were.
        ensures accounts { OnOk result (self.new.issuer.accounts ≡ self.old.issuer.accounts) }
        // Where it succeeds, the limit is as it was.
        ensures limit { OnOk result (self.new.issuer.limit ≡ self.old.issuer.limit) }
        // What the store kept is kept, each batch at its place.
        ensures grows { Grows (S.kept self.old.store) (S.kept self.new.store) }
        // Nothing is sent.
        ensures sent { S.sent self.new.store ≡ S.sent self.old.store }
        // Where it succeeds, whether the standby has failed is as it was.
        ensures good { OnOk result (self.new.has_failed ≡ self.old.has_failed) }
        // `Damaged` names the next place, where bytes stand that no host writes there; `Failed`
        // comes only after an earlier failure; at `Away` nothing was taken.
        ensures fault { IfErr result (λ e. IsRefusal S.kept self.old self.new e) }
    {
        if self.has_failed {
            return Err(OpenError::Failed);
        }
        let Some(place) = self.seen.checked_add(1) else {
            return Ok(false);
        };
        match self.store.look(place) {
            Looked::Nothing => Ok(false),
            Looked::Away => Err(OpenError::Away),
            Looked::Found(bytes) => match self.take(alloc, place, &bytes) {
                Ok(()) => Ok(true),
                Err(error) => Err(error),
            },
        }
    }

    /// Reads on once, and tells whether to go on: while the store gives no answer, as long as `patience` lasts.
    fn follow<P: Patience>(&mut self, alloc: Global, patience: &mut P) -> Result<bool, OpenError>
        ensures following { OnOk result
            (IsFollowing S.kept self.old → IsFollowing S.kept self.new) }
        ensures accounts { OnOk result (self.new.issuer.accounts ≡ self.old.issuer.accounts) }
        ensures limit { OnOk result (self.new.issuer.limit ≡ self.old.issuer.limit) }
        ensures grows { Grows (S.kept self.old.store) (S.kept self.new.store) }
        ensures good { OnOk result (self.new.has_failed ≡ self.old.has_failed) }
    {
        match self.read_on(alloc) {
            Ok(is_found) => Ok(is_found),
            Err(OpenError::Away) => {
                if patience.may_go_on() {
                    Ok(true)
                } else {
                    Err(OpenError::Away)
                }
            }
            Err(error) => Err(error),
        }
    }

    /// Reads on until no further batch is found, and while the store gives no answer as long as `patience` lasts.
    pub fn catch_up<P: Patience>(
        &mut self,
        alloc: Global,
        patience: &mut P,
    ) -> Result<(), OpenError>
        // Where it succeeds, a standby that followed its store still does: its journal has the
        // orders of the batches that it has read, each key once, and within the limit.
        ensures following { OnOk result
            (IsFollowing S.kept self.old → IsFollowing S.kept self.new) }
        // Where it succeeds, the accounts are as they were.
        ensures accounts { OnOk result (self.new.issuer.accounts ≡ self.old.issuer.accounts) }
        // Where it succeeds, the limit is as it was.
        ensures limit { OnOk result (self.new.issuer.limit ≡ self.old.issuer.limit) }
        // Where it succeeds, what the store kept is kept, each batch at its place.
        ensures grows { OnOk result (Grows (S.kept self.old.store) (S.kept self.new.store)) }
        // Where it succeeds, whether the standby has failed is as it was.
        ensures good { OnOk result (self.new.has_failed ≡ self.old.has_failed) }
    {
        patience.begin();
        for _ in 0..u64::MAX {
            if !self.follow(alloc, patience)? {
                return Ok(());
            }
        }
        Err(OpenError::Away)
    }

    /// The host that goes on from what was read. Takes no memory.
    pub fn start<P: Patience + Drop>(
        self,
        alloc: Global,
        patience: P,
        writer: Writer,
    ) -> DurableIssuer<SharedLog<S, P>>
        // Where the standby follows its store, the host is in step with its log: the log knows only
        // batches that are kept, and the host has their orders.
        ensures consistent { IsFollowing S.kept self
            → IsConsistent (λ l. IsReady S.kept l) (λ l. synced_orders S.kept l)
            (λ l. pending_orders S.kept l) result }
        // The host has the accounts, the limit and the orders of the standby.
        ensures issuer { result.issuer ≡ self.issuer }
        // The host has failed exactly where the standby had.
        ensures failed { result.has_failed ≡ self.has_failed }
        // The host's log writes to the standby's store.
        ensures store { result.log.store ≡ self.store }
        // The host's log knows as many batches as the standby has read.
        ensures seen { result.log.seen ≡ self.seen }
        // The host's log writes as the writer that is given.
        ensures writer { result.log.writer ≡ writer }
        // No order waits in the batch that is being made.
        ensures rows { result.log.rows.items ≡ [] }
        // The host's log counts the batches that the standby has read as synced.
        ensures synced { result.log.synced ≡ self.seen }
    {
        DurableIssuer {
            issuer: self.issuer,
            log: SharedLog::new(alloc, self.store, patience, writer, self.seen),
            has_failed: self.has_failed,
        }
    }
}
