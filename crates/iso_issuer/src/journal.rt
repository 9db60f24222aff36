//! The journal: the orders that were entered, each with the answer that it was given.

ghost use Rattle.iso_order.specs.Order.{most_amount};
ghost use Rattle.iso_issuer.specs.Effect.{is_key, effect_of, effect_amount};
ghost use Rattle.iso_issuer.specs.Found.{touched_at, weight_in, IsFoundFor, reversed_by};
ghost use Rattle.iso_issuer.specs.declared.journal.Entry.{Entry};
ghost use Rattle.iso_order.specs.Pan.{AccountNumber};
ghost use Rattle.std.specs.Prelude.{◌≡◌, ◌≤◌, ◌<◌, ◌+◌, ◌-◌, ◌==◌, ◌++◌, ◌∷◌, [], if◌then◌else◌};
ghost use Rattle.std.specs.Prelude.{ℕ, List, is_some, true, false, map, Some, None, IfSome, IfOk, OnOk, OnErr, length, slice_get};
ghost use Rattle.std.specs.BTreeMap as tree;
ghost use Rattle.std.specs.Ordering.{nat_cmp};
ghost use Rattle.std.specs.Option.{option_or};
ghost use Rattle.iso_issuer.specs.Index.{added_by, dropped_of_entry, dropped_by_act, key_cmp, hold_count, mark_at};
ghost use Rattle.iso_issuer.specs.Journal.{entry_at, undone_key, left_by, left_at, is_nothing, smaller_of, is_counted_with, is_completed, is_ended, is_standing, weight};
ghost use Rattle.iso_issuer.specs.Journal.{HasDistinctKeys};

use crate::effect::{Effect, Hold, Side, effect_amount, effect_of, hold_by};
use crate::found::{Found, Touched};
use crate::index::Index;
use crate::key_places::KeyPlaces;
use crate::storing::store;
use iso_order::{Act, Answer, Order, Pan, TxKey};
use std::alloc::{AllocError, Global};
use std::collections::BTreeMap;
use std::marker::Model;

/// An order in the journal, and the answer that it was given.
#[derive(Clone, Copy)]
pub struct Entry {
    pub order: Order,
    pub answer: Answer,
}

/// The entries in order, no two of one key, and beside them an index and the place of each key. Of an answer the code is kept,
/// and, by its place, the balance that it shows: few answers show one. Its number is its place from 1 on.
#[derive(Drop)]
pub struct Journal {
    orders: Vec<Order>,
    codes: Vec<u8>,
    shown: BTreeMap<u32, i64>,
    index: Index,
    places: KeyPlaces,
}

impl Model for Journal {
    ghost use Rattle.std.specs.Prelude.{List};
    ghost use Rattle.iso_issuer.specs.declared.journal.Entry.{Entry};

    ghost Value = { List Entry };

    ghost use Rattle.iso_issuer.specs.Index.{entries_from, AreStored};
    ghost use Rattle.iso_issuer.specs.Places.{TellsPlaces};

    ghost view = { λ j. entries_from 0 j.orders.items j.codes.items j.shown };

    ghost invariant = { λ j. AreStored j.orders.items j.codes.items j.shown j.index
        × TellsPlaces j.places.slots.items j.places.others j.orders.items };
}

/// Whether nothing is left.
pub fn is_nothing(left: Option<u64>) -> bool
    // It is so where a reversal leaves 0, and not where there is no reversal.
    ensures { result ≡ is_nothing left }
{
    match left {
        Some(left) => left == 0,
        None => false,
    }
}

/// The smaller of an amount and what is left of it.
pub fn smaller_of(amount: u64, left: Option<u64>) -> u64
    // It is the amount, or what a reversal leaves of it where that is less; the whole
    // amount without a reversal.
    ensures value { result ≡ smaller_of amount left }
    // It is never more than the amount.
    ensures small { result ≤ amount }
{
    match left {
        Some(left) => { if left < amount { left } else { amount } }
        None => amount,
    }
}

/// Whether an entry counts of which so much is left, whose order has this effect.
fn is_counted_with(left: Option<u64>, entry: &Entry, effect: &Option<Effect>) -> bool
    requires { effect.now ≡ effect_of entry.now.order }
    ensures { result ≡ is_counted_with left entry.now }
{
    effect.is_some() && entry.answer.code == 0 && !is_nothing(left)
}

/// The hold that an entry no longer completes, after a reversal that leaves so much.
fn dropped_of_entry(before: Option<u64>, left: u64, reversed: &Entry) -> Option<Hold>
    ensures { result ≡ dropped_of_entry before left reversed.now }
{
    match before {
        Some(_) => None,
        None => {
            let effect = effect_of(&reversed.order);
            if is_counted_with(None, reversed, &effect) && left == 0 {
                hold_by(&effect)
            } else {
                None
            }
        }
    }
}

/// The hold that an entry completes of which so much is left, whose order has this effect.
fn added_by(left: Option<u64>, entry: &Entry, effect: &Option<Effect>) -> Option<Hold>
    requires { effect.now ≡ effect_of entry.now.order }
    ensures { (es : List Entry)
        → (undone_key entry.now.order.act ≡ None → left ≡ left_at es entry.now.order.key)
        → result ≡ added_by es entry.now }
{
    match hold_by(effect) {
        Some(hold) => {
            if is_counted_with(left, entry, effect) {
                Some(hold)
            } else {
                None
            }
        }
        None => None,
    }
}

/// The hold that an order lets the entry that it reverses no longer complete.
fn dropped_by_order(order: &Order, reversed: &Option<Touched>) -> Option<Hold>
    ensures { (es : List Entry) → reversed.now ≡ touched_at es (reversed_by es order.now)
        → result ≡ dropped_by_act es order.now.act }
{
    match order.act() {
        Act::Undo { left, .. } => match reversed {
            Some(reversed) => dropped_of_entry(reversed.left, left, &reversed.entry),
            None => None,
        },
        Act::Debit(_) | Act::Credit(_) | Act::Inquiry(_) | Act::Complete { .. } => None,
    }
}

impl Journal {
    /// No entry. Takes no memory.
    pub fn new(alloc: Global) -> Journal
        ensures { result ≡ [] }
    {
        Journal {
            orders: Vec::new(alloc),
            codes: Vec::new(alloc),
            shown: BTreeMap::new(alloc),
            index: Index::new(alloc),
            places: KeyPlaces::new(alloc),
        }
    }

    /// How many entries there are.
    pub fn len(&self) -> usize
        ensures { result ≡ length self.now }
    {
        self.orders.len()
    }

    /// The orders of the entries, in their order.
    pub fn orders(&self) -> &[Order]
        ensures { result.now ≡ map (λ e. e.order) self.now }
    {
        &self.orders
    }

    /// The entry at a place, from 0 on, that has one.
    pub fn at(&self, place: usize) -> Entry
        // There is an entry at the place.
        requires { place < length self.now }
        ensures { slice_get self.now place ≡ Some result }
    {
        let order = self.orders[place];
        let number = place as u32;
        Entry {
            order,
            answer: Answer {
                code: self.codes[place],
                seq: number + 1,
                shown: self.shown.get(&number).copied(),
            },
        }
    }

    /// The entry at a place, from 0 on, where there is one.
    pub fn entry(&self, place: usize) -> Option<Entry>
        ensures { result ≡ slice_get self.now place }
    {
        if place < self.orders.len() {
            Some(self.at(place))
        } else {
            None
        }
    }

    /// The entry of a key, where there is one.
    pub fn get(&self, key: TxKey) -> Option<Entry>
        ensures { result ≡ entry_at self.now key }
    {
        let place = self.places.find(&self.orders, &key)?;
        self.entry(place as usize)
    }

    /// What the first reversal of this key leaves, where there is one.
    pub fn left_at(&self, key: TxKey) -> Option<u64>
        ensures { result ≡ left_at self.now key }
    {
        self.index.left(key)
    }

    /// Whether some entry that counts completes the hold of this key on this account. Apart, as few entries are holds.
    #[inline(never)]
    fn is_completed(&self, key: TxKey, pan: Pan) -> bool
        ensures { result ≡ is_completed self.now key pan }
    {
        self.index.count(&Hold { key, pan }) != 0
    }

    /// Whether it is a hold that is completed.
    fn is_ended(&self, key: TxKey, effect: &Option<Effect>) -> bool
        ensures { result ≡ is_ended self.now key effect.now }
    {
        match effect {
            Some(effect) => match effect.side {
                Side::Held => self.is_completed(key, effect.pan),
                Side::Credited | Side::Debited => false,
            },
            None => false,
        }
    }

    /// Whether an entry stands. What its order does is handed in, and what the first reversal of it leaves.
    pub fn is_standing(&self, entry: &Entry, effect: &Option<Effect>, left: Option<u64>) -> bool
        // The effect is that of the entry's order.
        requires effect { effect.now ≡ effect_of entry.now.order }
        // Where the order has an effect, what is handed in is what the first reversal of its key
        // leaves.
        requires left { is_some (effect_of entry.now.order) ≡ true
            → left ≡ left_at self.now entry.now.order.key }
        ensures { result ≡ is_standing self.now entry.now }
    {
        is_counted_with(left, entry, effect) && !self.is_ended(entry.order.key(), effect)
    }

    /// What is left of the amount of an entry that stands, else 0. What its order does is handed in, and
    /// what the first reversal of it leaves.
    #[inline(always)]
    pub fn weight(&self, entry: &Entry, effect: &Option<Effect>, left: Option<u64>) -> u64
        // The effect is what the entry's order does to its account.
        requires effect { effect.now ≡ effect_of entry.now.order }
        // The amount of the effect has at most twelve digits.
        requires amount { effect_amount effect.now ≤ most_amount }
        // Where the order has an effect, `left` is what the first entered
        // reversal of its key leaves.
        requires left { is_some (effect_of entry.now.order) ≡ true
            → left ≡ left_at self.now entry.now.order.key }
        // An entry that stands counts for what is left of its amount, and one
        // that doesn't counts for 0.
        ensures value { result ≡ weight self.now entry.now }
        // What an entry counts for has at most twelve digits.
        ensures small { result ≤ most_amount }
    {
        if self.is_standing(entry, effect, left) {
            smaller_of(effect_amount(effect), left)
        } else {
            0
        }
    }

    /// An entry with what the first reversal of it leaves, and its weight.
    pub fn touched_at(&self, entry: Option<Entry>) -> Option<Touched>
        // It is the entry, what the first reversal of its key leaves, and what it counts for; none
        // where there is no entry.
        ensures value { result ≡ touched_at self.now entry }
        // What the entry counts for has at most twelve digits.
        ensures small { weight_in result ≤ most_amount }
    {
        match entry {
            Some(entry) => {
                let left = self.left_at(entry.order.key());
                let effect = effect_of(&entry.order);
                let weight = self.weight(&entry, &effect, left);
                Some(Touched {
                    entry,
                    left,
                    weight,
                })
            }
            None => None,
        }
    }

    /// Enters an entry of a new key, whose order has this effect. Where there is no memory for it, whatever the call added
    /// is taken away again.
    pub fn enter(
        &mut self,
        entry: &Entry,
        effect: &Option<Effect>,
        found: &Found,
    ) -> Result<(), AllocError>
        // The effect is what this order does to its account.
        requires effect { effect.now ≡ effect_of entry.now.order }
        // What was found is what this journal has for the order.
        requires found { IsFoundFor self.old entry.now.order found.now }
        // No entry has the order's key yet.
        requires new { entry_at self.old entry.now.order.key ≡ None }
        // No two orders that were entered have one key.
        requires distinct { HasDistinctKeys (map (λ e. e.order) self.old) }
        // The journal has fewer than 999,999 entries.
        requires few { length self.old < 999999 }
        // The answer tells the place of the new entry, counted from 1.
        requires seq { entry.now.answer.seq ≡ length self.old + 1 }
        // Memory aside, the entry comes behind all others.
        ensures ok { OnOk result (self.new ≡ self.old ++ entry.now ∷ []) }
        // Without memory the entries stay as they were.
        ensures unchanged { OnErr result (self.new ≡ self.old) }
    {
        let added = added_by(found.left, entry, effect);
        let dropped = dropped_by_order(&entry.order, &found.reversed);
        let key = entry.order.key();
        let place = self.orders.len() as u32;
        let slot = self.places.prepare(&self.orders, &key)?;
        if let Err(fault) = store(
            &mut self.orders,
            &mut self.codes,
            &mut self.shown,
            &mut self.index,
            *entry,
            added,
            dropped,
        ) {
            self.places.withdraw(&key);
            return Err(fault);
        }
        self.places.settle(&key, place, slot);
        Ok(())
    }
}
