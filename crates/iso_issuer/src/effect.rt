//! What an order does to its account.

ghost use Rattle.std.specs.Prelude.{◌≡◌, ◌≤◌, true, None, IfSome};
ghost use Rattle.iso_order.specs.Order.{most_amount};
ghost use Rattle.iso_order.specs.declared.key.TxKey.{TxKey};
ghost use Rattle.iso_order.specs.Key.{class_digit};
ghost use Rattle.iso_issuer.specs.Journal.{undone_key};
ghost use Rattle.iso_issuer.specs.Index.{hold_by};
ghost use Rattle.iso_issuer.specs.Effect.{effect_amount, effect_of, is_key, side_of, is_drawn};
ghost use Rattle.iso_issuer.specs.Found.{ended_by};

use iso_order::{Act, Order, Pan, TxKey};

/// Which way an amount counts.
#[derive(Clone, Copy)]
pub enum Side {
    /// It is added to the ledger.
    Credited,
    /// It is taken from the ledger.
    Debited,
    /// It is held: taken only from what is available.
    Held,
}

/// What an order does to its account, as long as it stands.
#[derive(Clone, Copy)]
pub struct Effect {
    pub pan: Pan,
    pub side: Side,
    /// In minor units.
    pub amount: u64,
    /// The hold that it ends on the account.
    pub ends: Option<TxKey>,
}

/// A hold, by its key and its account.
#[derive(Clone, Copy, PartialEq, Eq, PartialOrd, Ord)]
pub struct Hold {
    pub key: TxKey,
    pub pan: Pan,
}

/// The hold that an effect ends.
pub fn hold_by(effect: &Option<Effect>) -> Option<Hold>
    ensures { result ≡ hold_by effect.now }
{
    match effect {
        Some(effect) => match effect.ends {
            Some(key) => Some(Hold {
                key,
                pan: effect.pan,
            }),
            None => None,
        },
        None => None,
    }
}

/// Which way a debit counts.
fn side_of(key: TxKey) -> Side
    ensures { result ≡ side_of key }
{
    if key.class() == 1 {
        Side::Held
    } else {
        Side::Debited
    }
}

impl Side {
    /// Whether the amount is drawn from what is available.
    pub fn is_drawn(self) -> bool
        ensures { result ≡ is_drawn self }
    {
        match self {
            Side::Credited => false,
            Side::Debited | Side::Held => true,
        }
    }
}

/// The key of the hold that an effect ends.
pub fn ended_by(effect: &Option<Effect>) -> Option<TxKey>
    ensures { result ≡ ended_by effect.now }
{
    match effect {
        Some(effect) => effect.ends,
        None => None,
    }
}

/// The amount of an effect.
pub fn effect_amount(effect: &Option<Effect>) -> u64
    // It is the amount of the effect, and 0 where there is no effect.
    ensures { result ≡ effect_amount effect.now }
{
    match effect {
        Some(effect) => effect.amount,
        None => 0,
    }
}

/// What an order does to its account, where it does anything.
pub fn effect_of(order: &Order) -> Option<Effect>
    // A debit, a credit and a completion have an effect: the account, which way it counts, the
    // amount, and the hold that it ends, if any. No other order has one.
    ensures value { result ≡ effect_of order.now }
    // The amount has at most twelve digits.
    ensures small { effect_amount result ≤ most_amount }
    // An order with an effect of its own is no reversal.
    ensures own { IfSome result (λ f. undone_key order.now.act ≡ None) }
    // What ends a hold is of class 2, and a hold of class 1.
    ensures ends { (q : TxKey) → is_key (ended_by result) q ≡ true
        → (class_digit q ≡ 1) × (class_digit order.now.key ≡ 2) }
{
    match order.act() {
        Act::Debit(money) => Some(Effect {
            pan: money.pan,
            side: side_of(order.key()),
            amount: money.amount,
            ends: None,
        }),
        Act::Credit(money) => Some(Effect {
            pan: money.pan,
            side: Side::Credited,
            amount: money.amount,
            ends: None,
        }),
        Act::Complete { money, hold } => Some(Effect {
            pan: money.pan,
            side: Side::Debited,
            amount: money.amount,
            ends: Some(hold),
        }),
        Act::Inquiry(_) | Act::Undo { .. } => None,
    }
}
