//! What an order finds in the journal: looked up once, before the order is entered.

ghost use Rattle.iso_order.specs.Order.{most_amount};
ghost use Rattle.iso_issuer.specs.Effect.{is_key, effect_of};
ghost use Rattle.iso_issuer.specs.Found.{is_of_earlier, weight_in, IsFoundFor, reversed_by, ended_key, released_by};
ghost use Rattle.std.specs.Prelude.{◌≡◌, ◌≤◌, true, false, None, IfSome};
ghost use Rattle.iso_issuer.specs.Journal.{undone_key, left_at};

use crate::effect::{Effect, effect_of, ended_by};
use crate::found::Found;
use crate::journal::{Entry, Journal};
use iso_order::{Act, Order, TxKey};

/// The key that a reversal names.
fn undone_key(order: &Order) -> Option<TxKey>
    ensures { result ≡ undone_key order.now.act }
{
    match order.act() {
        Act::Undo { original, .. } => Some(original),
        Act::Debit(_) | Act::Credit(_) | Act::Inquiry(_) | Act::Complete { .. } => None,
    }
}

/// Whether an order may reverse an entry or end a hold.
fn is_of_earlier(order: &Order) -> bool
    ensures { result ≡ is_of_earlier order.now.act }
{
    match order.act() {
        Act::Undo { .. } | Act::Complete { .. } => true,
        Act::Debit(_) | Act::Credit(_) | Act::Inquiry(_) => false,
    }
}

impl Journal {
    /// The entry that an order reverses, where there is one.
    fn reversed_by(&self, order: &Order) -> Option<Entry>
        ensures { result ≡ reversed_by self.now order.now }
    {
        match undone_key(order) {
            Some(original) => self.get(original),
            None => None,
        }
    }

    /// The key of the hold that an order ends, or that it gives back by reversing what ended it.
    fn ended_key(
        &self,
        order: &Order,
        effect: &Option<Effect>,
        reversed: &Option<Entry>,
    ) -> Option<TxKey>
        requires effect { effect.now ≡ effect_of order.now }
        requires kept { IfSome effect.now (λ f. undone_key order.now.act ≡ None) }
        requires reversed { reversed.now ≡ reversed_by self.now order.now }
        ensures value { result ≡ ended_key self.now order.now }
        ensures apart { (q : TxKey) → is_key result q ≡ true
            → is_key (undone_key order.now.act) q ≡ false }
    {
        match ended_by(effect) {
            Some(hold) => Some(hold),
            None => match reversed {
                Some(reversed) => ended_by(&effect_of(&reversed.order)),
                None => None,
            },
        }
    }

    /// That hold, where it is there.
    fn released_by(
        &self,
        order: &Order,
        effect: &Option<Effect>,
        reversed: &Option<Entry>,
    ) -> Option<Entry>
        requires effect { effect.now ≡ effect_of order.now }
        requires kept { IfSome effect.now (λ f. undone_key order.now.act ≡ None) }
        requires reversed { reversed.now ≡ reversed_by self.now order.now }
        ensures value { result ≡ released_by self.now order.now }
        ensures apart { (q : TxKey) → is_key (ended_key self.now order.now) q ≡ true
            → is_key (undone_key order.now.act) q ≡ false }
    {
        match self.ended_key(order, effect, reversed) {
            Some(hold) => self.get(hold),
            None => None,
        }
    }

    /// What the first reversal of the key of an order leaves, unless the order is a reversal.
    fn own_left(&self, order: &Order) -> Option<u64>
        ensures { undone_key order.now.act ≡ None → result ≡ left_at self.now order.now.key }
    {
        match undone_key(order) {
            Some(_) => None,
            None => self.left_at(order.key()),
        }
    }

    /// What an order finds that may reverse an entry or end a hold. Apart, so that other orders need none of its room.
    #[inline(never)]
    fn find_earlier(&self, order: &Order, effect: &Option<Effect>) -> Found
        requires effect { effect.now ≡ effect_of order.now }
        requires kept { IfSome effect.now (λ f. undone_key order.now.act ≡ None) }
        ensures found { IsFoundFor self.now order.now result }
        ensures reversed { weight_in result.reversed ≤ most_amount }
        ensures released { weight_in result.released ≤ most_amount }
        ensures apart { (q : TxKey) → is_key (ended_key self.now order.now) q ≡ true
            → is_key (undone_key order.now.act) q ≡ false }
    {
        let reversed = self.reversed_by(order);
        let released = self.released_by(order, effect, &reversed);
        Found {
            left: self.own_left(order),
            reversed: self.touched_at(reversed),
            released: self.touched_at(released),
        }
    }

    /// What an order finds, which has this effect.
    pub fn find(&self, order: &Order, effect: &Option<Effect>) -> Found
        // The effect is what this order does to its account.
        requires effect { effect.now ≡ effect_of order.now }
        // An order with an effect of its own is no reversal.
        requires kept { IfSome effect.now (λ f. undone_key order.now.act ≡ None) }
        // It finds the entry that the order reverses, the hold that it ends or gives back, and,
        // unless it is a reversal, what the first reversal of its own key leaves.
        ensures found { IsFoundFor self.now order.now result }
        // What the entry counts for that the order reverses has at most twelve digits.
        ensures reversed { weight_in result.reversed ≤ most_amount }
        // What the hold counts for that the order ends or gives back has at most twelve digits.
        ensures released { weight_in result.released ≤ most_amount }
        // The hold that an order ends or gives back has another key than
        // the entry that it reverses.
        ensures apart { (q : TxKey) → is_key (ended_key self.now order.now) q ≡ true
            → is_key (undone_key order.now.act) q ≡ false }
    {
        if !is_of_earlier(order) {
            return Found {
                left: self.left_at(order.key()),
                reversed: None,
                released: None,
            };
        }
        self.find_earlier(order, effect)
    }
}
