//! Orders.

ghost use Rattle.std.specs.Prelude.{◌≡◌, ◌<◌, IsTrue, ◌↔◌, Option, Some, None, if◌then◌else◌};

use crate::act::Act;
use crate::key::TxKey;
use std::marker::Model;

/// An order that a message can carry: what is asked, and under which key. Every order is valid.
#[derive(Clone, Copy, Debug, PartialEq, Eq)]
pub struct Order {
    key: TxKey,
    act: Act,
}

impl Model for Order {
    ghost use Rattle.std.specs.Prelude.{IsTrue};
    ghost use Rattle.iso_order.specs.Order.{Instruction, is_valid};

    ghost Value = { Instruction };

    ghost view = { λ o. record { key = o.key; act = o.act } };

    ghost invariant = { λ o. IsTrue (is_valid (record { key = o.key; act = o.act })) };

    ghost inverse = { λ v. record { key = v.key; act = v.act } };
}

impl Order {
    ghost use Rattle.iso_order.specs.Order.{Instruction, is_valid, same_order, amount_of};

    /// The order, where a message can carry it. Takes no memory.
    #[tactic(auto, unfolding(crate::specs::Order::is_valid))]
    pub fn new(key: TxKey, act: Act) -> Option<Order>
        ensures { let order : Instruction = record { key = key; act = act } in
            result ≡ (if is_valid order then Some order else None) }
    {
        if key.is_valid() && act.is_valid(&key) {
            Some(Order { key, act })
        } else {
            None
        }
    }

    /// The order, which is valid.
    pub(crate) fn valid(key: TxKey, act: Act) -> Order
        requires { let order : Instruction = record { key = key; act = act } in
            IsTrue (is_valid order) }
        ensures { result ≡ record { key = key; act = act } }
    {
        Order { key, act }
    }

    /// The key under which it is asked. Takes no memory.
    pub fn key(&self) -> TxKey
        // It is the key of this order.
        ensures value { result ≡ self.now.key }
        // The order is one that a message can carry.
        ensures valid { IsTrue (is_valid self.now) }
    {
        self.key
    }

    /// What is asked. Takes no memory.
    #[tactic(auto, unfolding(crate::specs::Order::is_valid))]
    pub fn act(&self) -> Act
        // It is what this order asks.
        ensures value { result ≡ self.now.act }
        // The order is one that a message can carry.
        ensures valid { IsTrue (is_valid self.now) }
        // The amount that it names, or that a reversal leaves, is below 10^12.
        ensures bounded { amount_of self.now.act < 1000000000000 }
    {
        self.act
    }

    /// As `is_same`. A function of its own, for the prover, which proves `is_same` by this contract.
    fn is_same_order(&self, other: &Order) -> bool
        ensures { result ≡ same_order self.now other.now }
    {
        self.key.is_same(&other.key) && self.act.is_same(&other.act)
    }

    /// Whether two orders ask the same under the same key. Takes no memory.
    pub fn is_same(&self, other: &Order) -> bool
        // It is so exactly where the keys compare alike, and what is asked under them too.
        ensures same { result ≡ same_order self.now other.now }
        // It is so exactly where the two are one order.
        ensures equal { IsTrue result ↔ (self.now ≡ other.now) }
    {
        self.is_same_order(other)
    }
}
