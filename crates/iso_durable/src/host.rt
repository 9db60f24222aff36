//! An issuer over its log.
ghost use Rattle.std.specs.Prelude.{◌≡◌, ◌≤◌, ℕ, List, [], ◌∷◌, ◌++◌, OnOk, OnErr, IfOk, IfErr, IsErrOf, take, length};
ghost use Rattle.iso_order.specs.Order.{Instruction};
ghost use Rattle.iso_issuer.specs.Books.{Books};
ghost use Rattle.iso_durable.specs.Durable.{MayLeave, comes, come_all, outcome, outcomes, syncs};
ghost use Rattle.iso_durable.specs.Host.{state_of, IsConsistent, IsOpened, AnswersOrder, Stops, with_new};
ghost use Rattle.iso_durable.specs.World.{IsStart};
ghost use Rattle.iso_durable.specs.Front.{LeavesFront};

use crate::log::{Log, LogFailed};
use iso_issuer::laws::keys_stay_distinct;
use iso_issuer::{Accounts, Issuer, Refused};
use iso_order::codes::SYSTEM_MALFUNCTION;
use iso_order::{Answer, NoMemory, Order};
use std::alloc::Global;
use thiserror::Error;

/// Why an order has no answer. The log is then to be opened again, and no order that waits is answered.
#[derive(Clone, Copy, Debug, PartialEq, Eq, Drop, Error)]
pub enum Fault {
    /// Memory ran out.
    #[error("memory ran out")]
    Memory,
    /// The log failed.
    #[error("the log failed")]
    Log,
    /// The log holds two orders of one key, or more than the limit.
    #[error("the log holds what no host can have written")]
    Damaged,
}

impl From<LogFailed> for Fault {
    fn from(_: LogFailed) -> Fault {
        Fault::Log
    }
}

/// An issuer, and the log of its orders.
#[derive(Drop)]
pub struct DurableIssuer<L: Log> {
    /// Its journal has the orders of the log, those that wait for a sync too.
    pub issuer: Issuer,
    /// The orders that are kept.
    pub log: L,
    /// A call failed: nothing is decided any more, until the log is opened again.
    pub has_failed: bool,
}

/// Has the issuer answer an order, and tells whether the order is a new entry: 96 where its journal is full.
#[inline(always)]
pub fn answer_order(issuer: &mut Issuer, order: Order) -> Result<(Answer, bool), Fault>
    // Memory aside, the answer is that of the books, or 96 for a new key where the journal is full.
    // An order is entered, and told as new, exactly where its key is new and there is room.
    ensures answer { IfOk result (λ r. AnswersOrder issuer.old issuer.new order r.0 r.1) }
    // The only fault is want of memory.
    ensures memory { IfErr result (λ e. e ≡ Fault.Memory) }
{
    keys_stay_distinct();
    let before = issuer.len();
    match issuer.handle(order) {
        Ok(answer) => {
            let is_new = issuer.len() > before;
            Ok((answer, is_new))
        }
        Err(Refused::Full) => Ok((Answer::only(SYSTEM_MALFUNCTION), false)),
        Err(Refused::Memory) => Err(Fault::Memory),
    }
}

/// Adds an order to the log if it is a new entry.
#[inline(always)]
fn keep<L: Log>(log: &mut L, order: Order, answer: Answer, is_new: bool) -> Result<(), LogFailed>
    ensures ready { OnOk result (L.is_ready log.old → L.is_ready log.new) }
    ensures synced { OnOk result (L.is_ready log.old → L.synced log.new ≡ L.synced log.old) }
    ensures pending { OnOk result (L.is_ready log.old
        → L.pending log.new ≡ with_new is_new (L.pending log.old) order) }
    ensures crash { L.is_ready log.old
        → LeavesFront (L.may_leave log.new) (L.synced log.old)
        (with_new is_new (L.pending log.old) order) }
{
    if is_new {
        log.append(order, answer)
    } else {
        Ok(())
    }
}

impl<L: Log> DurableIssuer<L> {
    /// A host over a log that was opened, with the orders that it holds. An `Err` hands the log back.
    pub fn start(
        accounts: Accounts,
        limit: u32,
        orders: &[Order],
        log: L,
    ) -> Result<DurableIssuer<L>, (Fault, L)>
        // The journal's limit is at least one order.
        requires least { 1 ≤ limit }
        // The journal's limit is at most 999,999 orders.
        requires most { limit ≤ 999999 }
        // At `Ok`, over a log that was opened with these orders, the log is ready, and the
        // issuer has exactly its orders.
        ensures consistent { IfOk result
            (λ host. IsOpened L.is_ready L.synced L.pending log orders.now
            → IsConsistent L.is_ready L.synced L.pending host) }
        // At `Ok`, over a log that was opened with these orders, the host has the given accounts
        // and limit, these orders synced, and none that waits.
        ensures state { IfOk result (λ host. IsOpened L.is_ready L.synced L.pending log orders.now
            → state_of L.synced L.pending host
            ≡ record { accounts = accounts; limit = limit; synced = orders.now; pending = [] }) }
        // An `Err` hands back the log that was given.
        ensures log { IfErr result (λ e. e.1 ≡ log) }
    {
        match replay(accounts, limit, orders) {
            Ok(issuer) => Ok(DurableIssuer {
                issuer,
                log,
                has_failed: false,
            }),
            Err(fault) => Err((fault, log)),
        }
    }

    /// Decides an order, and adds it to the log if its key is new. The answer is not to be given before the next sync.
    pub fn decide(&mut self, order: Order) -> Result<Answer, Fault>
        // At `Ok` a host in step with its log gives the answer of its books, or 96 for a new key
        // where the journal is full.
        ensures answer { IfOk result (λ a. IsConsistent L.is_ready L.synced L.pending self.old
            → a ≡ outcome (state_of L.synced L.pending self.old) order) }
        // At `Ok` a host in step with its log stays so: the log is ready, with the issuer's orders.
        ensures consistent { OnOk result (IsConsistent L.is_ready L.synced L.pending self.old
            → IsConsistent L.is_ready L.synced L.pending self.new) }
        // At `Ok`, of a host in step with its log, an order of a new key waits for a sync behind
        // the others, if there is room, and nothing else changes.
        ensures comes { OnOk result (IsConsistent L.is_ready L.synced L.pending self.old
            → state_of L.synced L.pending self.new
            ≡ comes (state_of L.synced L.pending self.old) order) }
        // However it ends, a crash leaves what it may leave once the order has come.
        ensures crash { IsConsistent L.is_ready L.synced L.pending self.old
            → (c : List Instruction) → L.may_leave self.new.log c
            → MayLeave (comes (state_of L.synced L.pending self.old) order) c }
        // After a failure each call fails.
        ensures stops { Stops self.old.has_failed self.new.has_failed result }
    {
        if self.has_failed {
            return Err(Fault::Log);
        }
        self.has_failed = true;
        let (answer, is_new) = answer_order(&mut self.issuer, order)?;
        keep(&mut self.log, order, answer, is_new)?;
        self.has_failed = false;
        Ok(answer)
    }

    /// Has the log synced: after it, the answers of the orders that came before may be given.
    pub fn sync(&mut self) -> Result<(), Fault>
        // At `Ok` a host in step with its log stays so: the log is ready, with the issuer's orders.
        ensures consistent { OnOk result (IsConsistent L.is_ready L.synced L.pending self.old
            → IsConsistent L.is_ready L.synced L.pending self.new) }
        // At `Ok`, of a host in step with its log, all orders are synced, and none waits.
        ensures synced { OnOk result (IsConsistent L.is_ready L.synced L.pending self.old
            → state_of L.synced L.pending self.new
            ≡ syncs (state_of L.synced L.pending self.old)) }
        // However it ends, a crash leaves what it may leave before.
        ensures crash { IsConsistent L.is_ready L.synced L.pending self.old
            → (c : List Instruction) → L.may_leave self.new.log c
            → MayLeave (state_of L.synced L.pending self.old) c }
        // It succeeds only where no call failed before, and after a failure each call fails.
        ensures stops { Stops self.old.has_failed self.new.has_failed result }
    {
        if self.has_failed {
            return Err(Fault::Log);
        }
        self.has_failed = true;
        self.log.sync()?;
        self.has_failed = false;
        Ok(())
    }

    /// Answers orders, each after those before it: decides them, adds them to the log, has the log synced, and only then
    /// gives the answers.
    pub fn answer_all(&mut self, alloc: Global, orders: &[Order]) -> Result<Vec<Answer>, Fault>
        // At `Ok` a host in step with its log gives the answers of its books, each after the orders
        // before it, and 96 for a new key where the journal is full.
        ensures answers { IfOk result
            (λ answers. IsConsistent L.is_ready L.synced L.pending self.old
            → answers.items ≡ outcomes (state_of L.synced L.pending self.old) orders.now) }
        // At `Ok` a host in step with its log stays so: the log is ready, with the issuer's orders.
        ensures consistent { OnOk result (IsConsistent L.is_ready L.synced L.pending self.old
            → IsConsistent L.is_ready L.synced L.pending self.new) }
        // At `Ok`, of a host in step with its log, the orders of new keys are entered in their
        // order, as far as there is room, and all orders are synced.
        ensures synced { OnOk result (IsConsistent L.is_ready L.synced L.pending self.old
            → state_of L.synced L.pending self.new
            ≡ syncs (come_all (state_of L.synced L.pending self.old) orders.now)) }
        // However it ends, a crash leaves what it may leave once some of the orders have come, the first ones.
        ensures crash { IsConsistent L.is_ready L.synced L.pending self.old
            → (c : List Instruction) → L.may_leave self.new.log c
            → (n : ℕ)
            × MayLeave (come_all (state_of L.synced L.pending self.old) (take n orders.now)) c }
        // It succeeds only where no call failed before, and after a failure each call fails.
        ensures stops { Stops self.old.has_failed self.new.has_failed result }
    {
        let Ok(mut answers) = Vec::with_capacity(alloc, orders.len()) else {
            self.has_failed = true;
            return Err(Fault::Memory);
        };
        for order in orders {
            let answer = self.decide(*order)?;
            answers.push(answer).unwrap();
        }
        self.sync()?;
        Ok(answers)
    }
}

/// The issuer whose journal has these orders, as a log that is opened gives them. `Damaged` where no host can have
/// written them.
pub fn replay(accounts: Accounts, limit: u32, orders: &[Order]) -> Result<Issuer, Fault>
    // The journal's limit is at least one order.
    requires least { 1 ≤ limit }
    // The journal's limit is at most 999,999 orders.
    requires most { limit ≤ 999999 }
    // At `Ok` the issuer has the given accounts and limit, and exactly these orders in its journal.
    ensures issuer { IfOk result (λ issuer. issuer
        ≡ record { accounts = accounts; limit = limit; orders = orders.now }) }
    // `Damaged` comes only where no host can have written the orders: two of them have one key, or
    // they are more than the limit.
    ensures damaged { IsErrOf result Fault.Damaged → IsStart limit orders.now → ⊥ }
{
    let mut issuer = Issuer::new(accounts, limit);
    for order in orders {
        let (_, is_new) = answer_order(&mut issuer, *order)?;
        if !is_new {
            return Err(Fault::Damaged);
        }
    }
    Ok(issuer)
}
