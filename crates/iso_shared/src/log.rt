//! A log of batches in a store that others write to as well.
ghost use Rattle.std.specs.Prelude.{◌≡◌, ◌++◌, ◌∷◌, [], ◌≤◌, true, OnOk, OnErr, IfErr, vec_len, vec_capacity};
ghost use Rattle.iso_durable.specs.Front.{LeavesFront};
ghost use Rattle.iso_shared.specs.Log.{IsReady, synced_orders, pending_orders, MayLeave, is_full};
ghost use Rattle.iso_shared.specs.Steps.{Stays, Sends, Adds, Flushes, Fails, IsWhy};
ghost use Rattle.iso_shared.specs.Fronts.{ready_leaves};

use crate::batch::{MOST_ROWS, write_batch};
use crate::heading::{Heading, MOST_PLACES, Writer};
use crate::laws::batches_come_back;
use crate::patience::Patience;
use crate::settling::settle;
use crate::store::Store;
use crate::why::Why;
use iso_durable::{Log, LogFailed};
use iso_order::{Answer, Order};
use iso_record::Row;
use std::alloc::Global;

/// A log of orders in a store of batches, which other hosts write to as well. Orders that are added make a batch. A sync asks
/// for it at the next place; where another's batch stands there, this log is fenced, and fails.
#[derive(Drop)]
pub struct SharedLog<S: Store + Drop, P: Patience + Drop> {
    /// The store.
    pub store: S,
    /// How long a sync goes on asking.
    pub patience: P,
    /// Who writes.
    pub writer: Writer,
    /// How many batches are known: those that were read, and its own that stand behind them.
    pub seen: u64,
    /// How many of them there were at the last sync.
    pub synced: u64,
    /// The orders behind them, with their answers: the batch that is being made.
    pub rows: Vec<Row>,
    /// The bytes of the batch that was sent last.
    pub bytes: Vec<u8>,
    /// Why it failed, if it did: nothing is added or sent any more.
    pub failure: Option<Why>,
}

impl<S: Store + Drop, P: Patience + Drop> SharedLog<S, P> {
    /// A log behind the first `seen` batches of a store. Takes no memory.
    pub fn new(alloc: Global, store: S, patience: P, writer: Writer, seen: u64) -> SharedLog<S, P>
        // The log writes to the store that is given.
        ensures store { result.store ≡ store }
        // The log writes as the writer that is given.
        ensures writer { result.writer ≡ writer }
        // The log counts the first `seen` batches of the store as known.
        ensures seen { result.seen ≡ seen }
        // The log counts the first `seen` batches of the store as synced.
        ensures synced { result.synced ≡ seen }
        // No order waits in the batch that is being made.
        ensures rows { result.rows.items ≡ [] }
    {
        SharedLog {
            store,
            patience,
            writer,
            seen,
            synced: seen,
            rows: Vec::new(alloc),
            bytes: Vec::new(alloc),
            failure: None,
        }
    }

    /// Why it failed, if it did.
    pub fn why(&self) -> Option<Why>
        ensures { result ≡ self.now.failure }
    {
        self.failure
    }

    /// Has the batch that is being made stand at the next place, and begins the next one. An `Err` leaves the batch.
    fn send(&mut self) -> Result<(), Why>
        ensures sends { OnOk result (Sends S.kept S.sent self.old self.new []) }
        ensures room { OnOk result (vec_len self.old.rows ≤ vec_capacity self.new.rows) }
        ensures stays { OnErr result (Stays S.kept S.sent self.old self.new) }
        ensures why { IfErr result (λ why. IsWhy S.kept S.sent self.old self.new why) }
        ensures synced { self.new.synced ≡ self.old.synced }
        ensures failure { self.new.failure ≡ self.old.failure }
    {
        if self.seen >= MOST_PLACES {
            return Err(Why::TooLarge);
        }
        let place = self.seen + 1;
        let heading = Heading {
            place,
            writer: self.writer,
        };
        write_batch(&mut self.bytes, &heading, &self.rows)?;
        settle(&mut self.store, &mut self.patience, place, &self.bytes)?;
        self.seen = place;
        self.rows.clear();
        Ok(())
    }

    /// Sends the full batch, and begins the next one with a row. There is room: the full one had it.
    fn add_behind(&mut self, row: Row) -> Result<(), Why>
        requires { is_full self.old ≡ true }
        ensures sends { OnOk result (Sends S.kept S.sent self.old self.new (row ∷ [])) }
        ensures stays { OnErr result (Stays S.kept S.sent self.old self.new) }
        ensures why { IfErr result (λ why. IsWhy S.kept S.sent self.old self.new why) }
        ensures synced { self.new.synced ≡ self.old.synced }
        ensures failure { self.new.failure ≡ self.old.failure }
    {
        self.send()?;
        self.rows.push(row)?;
        Ok(())
    }

    /// Adds a row to the batch that is being made. A full one is sent first.
    fn add(&mut self, row: Row) -> Result<(), Why>
        ensures adds { OnOk result (Adds S.kept S.sent self.old self.new row) }
        ensures stays { OnErr result (Stays S.kept S.sent self.old self.new) }
        ensures why { IfErr result (λ why. IsWhy S.kept S.sent self.old self.new why) }
        ensures failure { self.new.failure ≡ self.old.failure }
    {
        if self.rows.len() >= MOST_ROWS {
            return self.add_behind(row);
        }
        self.rows.push(row)?;
        Ok(())
    }

    /// Sends the batch that is being made, if it has an order.
    fn flush(&mut self) -> Result<(), Why>
        ensures flushes { OnOk result (Flushes S.kept S.sent self.old self.new) }
        ensures stays { OnErr result (Stays S.kept S.sent self.old self.new) }
        ensures why { IfErr result (λ why. IsWhy S.kept S.sent self.old self.new why) }
        ensures failure { self.new.failure ≡ self.old.failure }
    {
        if !self.rows.is_empty() {
            self.send()?;
        }
        self.synced = self.seen;
        Ok(())
    }
}

impl<S: Store + Drop, P: Patience + Drop> Log for SharedLog<S, P> {
    ghost is_ready = { λ l. IsReady S.kept l };

    ghost synced = { λ l. synced_orders S.kept l };

    ghost pending = { λ l. pending_orders S.kept l };

    // As if nobody else wrote. Where others do, a start finds what is known and whatever came behind it, so the law to go
    // by there is that of hosts over one log.
    ghost may_leave = { λ l. MayLeave S.kept l };

    /// Adds an order with its answer to the batch that is being made. A full one is sent first.
    fn append(&mut self, order: Order, answer: Answer) -> Result<(), LogFailed>
        // After a call that succeeds, a log that was ready still is.
        ensures ready { OnOk result (IsReady S.kept self.old → IsReady S.kept self.new) }
        // At `Ok` the synced orders are those of before.
        ensures synced { OnOk result (IsReady S.kept self.old
            → synced_orders S.kept self.new ≡ synced_orders S.kept self.old) }
        // At `Ok` the order waits behind the others.
        ensures pending { OnOk result (IsReady S.kept self.old
            → pending_orders S.kept self.new ≡ pending_orders S.kept self.old ++ order ∷ []) }
        // However it ends, a crash of a sole writer leaves the synced orders, and of those behind
        // them some from the front.
        ensures crash { IsReady S.kept self.old
            → LeavesFront (MayLeave S.kept self.new) (synced_orders S.kept self.old)
            (pending_orders S.kept self.old ++ order ∷ []) }
        // At `Ok` the order joins the batch that is being made; where that was full, it stands at
        // the next place, and the order begins another.
        ensures adds { OnOk result (Adds S.kept S.sent self.old self.new
            (record { order = order; answer = answer })) }
        // After a failure the orders are as they were, and nothing was sent but the batch that was
        // made.
        ensures stays { OnErr result (Stays S.kept S.sent self.old self.new) }
        // A failure has a reason. After it each call fails, with the same one.
        ensures fails { Fails S.kept S.sent self.old self.new result }
    {
        batches_come_back();
        if self.failure.is_some() {
            return Err(LogFailed);
        }
        match self.add(Row { order, answer }) {
            Ok(()) => Ok(()),
            Err(why) => {
                self.failure = Some(why);
                Err(LogFailed)
            }
        }
    }

    /// Has the batch that is being made stand at the next place. Where it has no order, the store isn't asked.
    fn sync(&mut self) -> Result<(), LogFailed>
        // After a call that succeeds, a log that was ready still is.
        ensures ready { OnOk result (IsReady S.kept self.old → IsReady S.kept self.new) }
        // At `Ok` every order that waited is synced, behind those that were.
        ensures synced { OnOk result (IsReady S.kept self.old
            → synced_orders S.kept self.new
            ≡ synced_orders S.kept self.old ++ pending_orders S.kept self.old) }
        // At `Ok` nothing waits for a sync any more.
        ensures none { OnOk result (IsReady S.kept self.old → pending_orders S.kept self.new ≡ []) }
        // However it ends, a crash of a sole writer leaves the synced orders, and of those behind
        // them some from the front.
        ensures crash { IsReady S.kept self.old
            → LeavesFront (MayLeave S.kept self.new) (synced_orders S.kept self.old)
            (pending_orders S.kept self.old) }
        // At `Ok` the batch that was made, if it has orders, stands at the next place, and all that
        // was seen is synced.
        ensures flushes { OnOk result (Flushes S.kept S.sent self.old self.new) }
        // After a failure the orders are as they were, and nothing was sent but the batch that was
        // made.
        ensures stays { OnErr result (Stays S.kept S.sent self.old self.new) }
        // A failure has a reason. After it each call fails, with the same one.
        ensures fails { Fails S.kept S.sent self.old self.new result }
    {
        batches_come_back();
        if self.failure.is_some() {
            return Err(LogFailed);
        }
        match self.flush() {
            Ok(()) => Ok(()),
            Err(why) => {
                self.failure = Some(why);
                Err(LogFailed)
            }
        }
    }

    /// Syncs: a store has room for as many batches as are ever made.
    fn make_room(&mut self, _orders: usize) -> Result<(), LogFailed> {
        self.sync()
    }

    ghost leaves_front = { λ l is orders left. ready_leaves S.kept l is orders left };
}
