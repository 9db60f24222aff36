//! The issuer.

ghost use Rattle.std.specs.Prelude.{◌≡◌, ◌≢◌, ◌≤◌, ◌<◌, ◌↔◌, ◌++◌, ◌∷◌, []};
ghost use Rattle.std.specs.Prelude.{IsTrue, true, false, length, map, sum_by, take, slice_get, is_some, IfSome, IfOk, OnOk, OnErr, IfErr, IsOk, option_map};
ghost use Rattle.iso_issuer.specs.declared.fault.Refused.TheVariants.{Full, Memory};
ghost use Rattle.iso_issuer.specs.Account.{account_of};
ghost use Rattle.iso_issuer.specs.Journal.{firsts, is_entered, HasDistinctKeys};
ghost use Rattle.iso_issuer.specs.Balance.{total, ledger, available, balance_on};
ghost use Rattle.iso_issuer.specs.declared.effect.Side.TheVariants.{Held};
ghost use Rattle.iso_issuer.specs.Holds.{open_holds};
ghost use Rattle.iso_issuer.specs.Decision.{new_answer, answer_for};
ghost use Rattle.iso_issuer.specs.Books.{journal, is_full, IsFullFor, IsRoomFor, IsRun, answered_of};
ghost use Rattle.iso_issuer.specs.Decision.{is_shown_for};

use crate::accounts::Accounts;
use crate::balances::{Balance, Balances};
use crate::decision::{balance_for, new_answer, place_in, repeat_answer};
use crate::effect::effect_of;
use crate::fault::Refused;
use crate::holds::{OpenHold, open_holds};
use crate::journal::{Entry, Journal};
use crate::posting::post_all;
use iso_order::{Answer, NoMemory, Order, Pan, TxKey};
use std::alloc::Global;
use std::marker::Model;

/// The most orders that a journal can take: an answer tells the place of its order in six digits (element 38).
pub const MOST_ENTRIES: u32 = 999_999;

/// An issuer: its accounts with what is on them, and the journal of the orders that were entered. No
/// call but `open_holds` looks through the journal or the accounts: what it needs is found by key and
/// by number, and the balances are kept up to date.
#[derive(Drop)]
pub struct Issuer {
    limit: u32,
    balances: Balances,
    journal: Journal,
}

impl Model for Issuer {
    ghost use Rattle.std.specs.Prelude.{map};
    ghost use Rattle.iso_issuer.specs.Books.{Books};
    ghost use Rattle.iso_issuer.specs.Index.{IsKept};
    ghost use Rattle.iso_issuer.specs.Balances.{accounts_of};
    ghost use Rattle.iso_issuer.specs.Index.{IsSummed};

    ghost Value = { Books };

    ghost view = { λ i. record {
      accounts = accounts_of i.balances;
      limit = i.limit;
      orders = map (λ e. e.order) i.journal;
    } };

    ghost invariant = { λ i. IsKept (accounts_of i.balances) i.limit i.journal
        × IsSummed i.journal i.balances };
}

impl Issuer {
    /// An issuer with an empty journal, which takes at most `limit` orders, 1 to `MOST_ENTRIES`. Takes no memory. The
    /// journal grows by the allocator of the accounts.
    pub fn new(accounts: Accounts, limit: u32) -> Issuer
        // The limit is at least 1.
        requires least { 1 ≤ limit }
        // The limit is at most 999,999 (`MOST_ENTRIES`).
        requires most { limit ≤ 999999 }
        ensures { result ≡ record { accounts = accounts; limit = limit; orders = [] } }
    {
        let balances = accounts.into_balances();
        let journal = Journal::new(balances.allocator());
        Issuer {
            limit,
            balances,
            journal,
        }
    }

    /// Decides and enters an order of a new key, where there is room.
    fn enter(&mut self, order: &Order) -> Result<Answer, Refused>
        requires new { is_entered self.old.orders order.now.key ≡ false }
        requires below { length self.old.orders < self.old.limit }
        ensures answer { IfOk result (λ answer.
            answer ≡ new_answer self.old.accounts (journal self.old) order.now) }
        ensures entered { OnOk result
            (self.new ≡ record self.old { orders = self.old.orders ++ order.now ∷ [] }) }
        ensures memory { IfErr result (λ e. e ≡ Memory) }
        ensures unchanged { OnErr result (self.new ≡ self.old) }
    {
        let effect = effect_of(order);
        let found = self.journal.find(order, &effect);
        let placed = balance_for(&self.balances, order);
        let answer = new_answer(&self.journal, &placed, order, &effect, found.left);
        let entry = Entry {
            order: *order,
            answer,
        };
        self.journal.enter(&entry, &effect, &found)?;
        post_all(
            &self.journal,
            &mut self.balances,
            &entry,
            &effect,
            place_in(&placed),
            &found,
        );
        Ok(answer)
    }

    /// Answers an order: decides it once, however often it comes. A repeat gets the first answer again,
    /// and another order of a known key 94. A new key is entered with its code, its place in the
    /// journal and, for an inquiry, what is available. A known key and a full journal take no memory.
    pub fn handle(&mut self, order: Order) -> Result<Answer, Refused>
        // An order of a known key is answered: it takes no memory.
        ensures repeat { IsTrue (is_entered self.old.orders order.key) → IsOk result }

        // The answer is that of the rules on the whole journal: a known key gets its first answer
        // again, or 94 for another order; a new key is decided on the entries before it.
        ensures answer { IfOk result
            (λ answer. answer ≡ answer_for self.old.accounts (journal self.old) order) }
        // After an answer the journal is the first order of each key: a new key comes last, a
        // known key changes nothing.
        ensures entered { OnOk result
            (self.new ≡ record self.old { orders = firsts (self.old.orders ++ order ∷ []) }) }

        // An inquiry alone shows a balance, of at most twelve digits.
        ensures shown { IfOk result (λ answer. is_shown_for order.act answer.shown ≡ true) }

        // Memory aside, the journal has the first order of each key, up to its limit.
        ensures kept { result ≢ Err Refused.Memory →
            self.new ≡ record self.old {
              orders = take self.old.limit (firsts (self.old.orders ++ order ∷ []));
            } }

        // `Full` comes exactly for a new key where the journal is at its limit.
        ensures full { (result ≡ Err Refused.Full) ↔ IsFullFor self.old order.key }
        // Want of memory is told only of a new key, and only where the journal has room for it.
        ensures memory { result ≡ Err Refused.Memory → IsRoomFor self.old order.key }
        // An order that is refused changes nothing.
        ensures unchanged { OnErr result (self.new ≡ self.old) }
    {
        if let Some(entry) = self.journal.get(order.key()) {
            return Ok(repeat_answer(entry, order));
        }
        if self.journal.len() >= self.limit as usize {
            return Err(Refused::Full);
        }
        self.enter(&order)
    }

    /// Answers a list of orders, each as `handle` does. The room for the answers is taken first; where
    /// there is none, no order is handled.
    pub fn run(
        &mut self,
        alloc: Global,
        orders: &[Order],
    ) -> Result<Vec<Result<Answer, Refused>>, NoMemory>
        // With room for the answers, each order is answered or refused as `handle` does it, one
        // after the other, on what those before it left.
        ensures run { IfOk result (λ answers. IsRun self.old orders.now answers.items self.new) }
        // With room for the answers, the journal becomes the first order of each key, of those that
        // it had and of those that were answered.
        ensures entered { IfOk result (λ answers. self.new.orders
            ≡ firsts (self.old.orders ++ answered_of orders.now answers.items)) }
        // Without room for the answers nothing changes.
        ensures unchanged { OnErr result (self.new ≡ self.old) }
    {
        // The keys are distinct, before any order is handled.
        // the proof learns here what holds of every issuer
        let _ = &self.journal;
        let mut answers = Vec::with_capacity(alloc, orders.len())?;
        for order in orders {
            let answer = self.handle(*order);
            answers.push(answer).unwrap();
        }
        Ok(answers)
    }

    /// What is on an account, in minor units, where there is such an account. Takes no memory.
    pub fn ledger(&self, pan: Pan) -> Option<i64>
        // It is the opening amount plus the credits and less the debits that stand, by what is left
        // of each, over the whole journal; `None` exactly where there is no such account.
        ensures { result
            ≡ option_map (ledger (journal self.now)) (account_of self.now.accounts pan) }
    {
        Some(self.balances.get(pan)?.ledger)
    }

    /// What may still be taken from an account, in minor units, where there is such an account: what is
    /// on it, less what is held. Takes no memory.
    pub fn available(&self, pan: Pan) -> Option<i64>
        // It is the ledger less what is left of the holds that stand, summed over the whole
        // journal; `None` exactly where there is no such account.
        ensures { result
            ≡ option_map (available (journal self.now)) (account_of self.now.accounts pan) }
    {
        Some(self.balances.get(pan)?.available)
    }

    /// What is held on an account, in minor units, where there is such an account. Takes no memory.
    pub fn held(&self, pan: Pan) -> Option<u64>
        // It is what is left of the holds that stand, summed over the whole journal; `None` exactly
        // where there is no such account.
        ensures { result ≡ option_map (λ a. total Held a.pan (journal self.now))
            (account_of self.now.accounts pan) }
    {
        Some(self.balances.get(pan)?.held())
    }

    /// What is on each account, in the order in which the accounts were listed. Takes no memory.
    pub fn balances(&self) -> &[Balance]
        // Each account comes in listed order with its ledger and what is available on it, as
        // sums over the whole journal.
        ensures { result.now ≡ map (balance_on (journal self.now)) self.now.accounts }
    {
        self.balances.rows()
    }

    /// The holds that are open on an account, in the order of entry: those that were granted, and that
    /// are neither reversed in full nor completed, each with what it still holds. Goes through the whole journal.
    pub fn open_holds(&self, alloc: Global, pan: Pan) -> Result<Vec<OpenHold>, NoMemory>
        // Memory aside, they are the entries that hold on this account and stand, in order of
        // entry, each with what is left of it.
        ensures holds { IfOk result (λ holds. holds.items ≡ open_holds (journal self.now) pan) }
        // Together they hold what is held on the account.
        ensures held { IfOk result
            (λ holds. sum_by (λ h. h.amount) holds.items ≡ total Held pan (journal self.now)) }
    {
        open_holds(&self.journal, alloc, pan)
    }

    /// Whether an order of that key would be refused as `Full`: its key is new, and the journal is at its limit. Takes no
    /// memory.
    pub fn is_full_for(&self, key: &TxKey) -> bool
        ensures { result ≡ is_full self.now key.now }
    {
        match self.journal.get(*key) {
            Some(_) => false,
            None => self.journal.len() >= self.limit as usize,
        }
    }

    /// The orders that were entered, in the order in which they were: no two of one key. Takes no memory.
    pub fn orders(&self) -> &[Order]
        ensures { result.now ≡ self.now.orders }
    {
        self.journal.orders()
    }

    /// The answer that the order at a place of `orders` was given, from 0 on, where there is one. Takes no memory.
    pub fn answer_of_entry(&self, i: usize) -> Option<Answer>
        ensures { result ≡ option_map (λ e. e.answer) (slice_get (journal self.now) i) }
    {
        Some(self.journal.entry(i)?.answer)
    }

    /// The most orders that the journal takes. Takes no memory.
    pub fn limit(&self) -> u32
        ensures { result ≡ self.now.limit }
    {
        self.limit
    }

    /// How many orders were entered: no two of one key, and at most as many as the limit. Takes no memory.
    pub fn len(&self) -> u32
        // It is the number of orders that were entered.
        ensures len { result ≡ length self.now.orders }
        // No more orders are entered than the limit.
        ensures few { length self.now.orders ≤ self.now.limit }
        // No two orders that were entered have one key.
        ensures distinct { HasDistinctKeys self.now.orders }
    {
        self.journal.len() as u32
    }
}
