//! Where messages go.

ghost use Rattle.std.specs.Prelude.{◌≡◌, ◌<◌, ℕ, Some, IfOk};
ghost use Rattle.iso_order.specs.Order.{Instruction};
ghost use Rattle.iso_shards.specs.Shards.{account_named, is_sent, numbers_of};
ghost use Rattle.iso_front.specs.Routing.{asked_in, order_route, verdict_route, route_of};
ghost use Rattle.iso_front.specs.Routing.{goes_to, home_of};

use crate::shards::Shards;
use iso_order::{NoMemory, Order, TxKey, Verdict, order_of};
use iso_table::Table;
use iso_wire::{Message, UnpackCause, unpack_into};

/// Where the body of a frame goes.
#[derive(Clone, Copy, Debug, PartialEq, Eq)]
pub enum Route {
    /// It asks an order on an account: to the shard that has it.
    One {
        /// The place of the shard.
        shard: usize,
        /// The order's key.
        key: TxKey,
    },
    /// It asks a reversal, which need not name an account: to all shards.
    All {
        /// The order's key.
        key: TxKey,
    },
    /// It asks an order on an account that no shard has: to none. The front is to answer it 14.
    Nobody {
        /// The order's key.
        key: TxKey,
    },
    /// It asks for no order, and each shard answers this response code: to any.
    Any {
        /// The response code.
        code: u8,
    },
    /// It wants no answer: to none.
    Unanswered,
    /// It is no whole message: to none.
    Unreadable,
}

impl Route {
    /// Whether an order goes to the shard at a place.
    pub fn goes_to(&self, place: usize) -> bool
        ensures { result ≡ goes_to self.now place }
    {
        match self {
            Route::One { shard, .. } => *shard == place,
            Route::All { .. } => true,
            Route::Nobody { .. } => false,
            Route::Any { .. } => false,
            Route::Unanswered => false,
            Route::Unreadable => false,
        }
    }
}

/// What a body asks that is a whole message. It is read into the room that is lent.
fn asked_in(table: &Table, body: &[u8], room: &mut Message) -> Result<Option<Verdict>, NoMemory>
    ensures { IfOk result (λ asked. asked ≡ asked_in table.now body.now) }
{
    match unpack_into(table, body, room) {
        Ok(used) => {
            if used == body.len() {
                Ok(Some(order_of(room)))
            } else {
                Ok(None)
            }
        }
        Err(fault) => match fault.cause {
            UnpackCause::Memory => Err(NoMemory),
            _ => Ok(None),
        },
    }
}

/// Where an order goes.
fn order_route(shards: &Shards, order: &Order) -> Route
    ensures { result ≡ order_route shards.now order.now.key (account_named order.now) }
{
    let key = order.key();
    match order.act().money() {
        None => Route::All { key },
        Some(money) => match shards.shard_of(&money.pan) {
            Some(shard) => Route::One { shard, key },
            None => Route::Nobody { key },
        },
    }
}

/// Where what a message asks goes.
fn verdict_route(shards: &Shards, verdict: &Verdict) -> Route
    ensures { result ≡ verdict_route shards.now verdict.now }
{
    match verdict {
        Verdict::Order(order) => order_route(shards, order),
        Verdict::Reply(code) => Route::Any { code: *code },
        Verdict::Silent => Route::Unanswered,
    }
}

impl Shards {
    /// Where the body of a frame goes. Its message is read into the room that is lent. Refuses only for want of memory.
    pub fn route(&self, table: &Table, body: &[u8], room: &mut Message) -> Result<Route, NoMemory>
        // Memory aside, what the message asks decides: an order on an account goes to the shard
        // that has it, a reversal to all; a body that is no whole message is `Unreadable`.
        ensures route { IfOk result (λ r. r ≡ route_of self.now (asked_in table.now body.now)) }
        // An order goes to those shards to which the law of shards has it sent.
        ensures sent { IfOk result (λ r. (o : Instruction) (n : ℕ)
            → asked_in table.now body.now ≡ Some (Verdict.Order o) → n < self.now.count
            → goes_to r n ≡ is_sent (numbers_of (home_of self.now) n) o) }
    {
        match asked_in(table, body, room) {
            Ok(Some(verdict)) => Ok(verdict_route(self, &verdict)),
            Ok(None) => Ok(Route::Unreadable),
            Err(fault) => Err(fault),
        }
    }
}
