//! Where the entry of each key is: a table of slots, found by the digest of a key.
//!
//! A key stands in the first free one of the 16 slots that its digest names. A key that finds none free, and that is rare
//! unless someone chooses keys for it, stands in a tree: so no key costs more than a look at 16 slots and one into the tree.

ghost use Rattle.std.specs.Prelude.{◌≡◌, ◌≤◌, ◌<◌, ◌+◌, ◌++◌, ◌∷◌, [], List, length, IfSome, IfOk, None};
ghost use Rattle.std.specs.BTreeMap as tree;
ghost use Rattle.std.specs.List.{position_from};
ghost use Rattle.iso_order.specs.Order.{Instruction};
ghost use Rattle.iso_issuer.specs.Index.{key_cmp};
ghost use Rattle.iso_issuer.specs.Journal.{HasDistinctKeys};
ghost use Rattle.iso_issuer.specs.Places.{digest, tag_of, start_of, window_of, is_free, has_key, sought, checked, key_place, TellsPlaces, IsFreeFor, IsReadyFor};

use iso_order::{Order, TxKey};
use std::alloc::{AllocError, Global};
use std::collections::BTreeMap;

/// How many slots a key may stand in.
const WINDOW: usize = 16;

/// The fewest slots of a table that has any.
pub(crate) const FEWEST_SLOTS: usize = 64;

/// A table of so many slots or more only doubles when it grows.
const MANY_SLOTS: usize = 65_536;

/// One more than 32 bits hold.
pub(crate) const HALF: u64 = 4_294_967_296;

/// A slot of the table.
#[derive(Clone, Copy)]
pub struct Slot {
    /// The tag of the key that stands here: a part of its digest.
    pub tag: u32,
    /// The number of the key's entry, from 1 on; 0 where no key stands here.
    pub number: u32,
}

/// The places of the keys of some orders, which stand elsewhere.
#[derive(Drop)]
pub struct KeyPlaces {
    slots: Vec<Slot>,
    others: BTreeMap<TxKey, u32>,
}

/// The digest of a key.
#[inline(always)]
fn digest(key: &TxKey) -> u64
    ensures { result ≡ digest key.now }
{
    let sent = key.sent.wrapping_mul(11_400_714_819_323_198_485);
    let stan = u64::from(key.stan).wrapping_mul(14_029_467_366_897_019_727);
    let acquirer = key.acquirer.wrapping_mul(1_609_587_929_392_839_161);
    let base = u64::from(key.base).wrapping_mul(9_650_029_242_287_828_579);
    sent.wrapping_add(stan)
        .wrapping_add(acquirer)
        .wrapping_add(base)
}

/// The part of its digest that stands in a key's slot.
#[inline(always)]
fn tag_of(key: &TxKey) -> u32
    ensures { result ≡ tag_of key.now }
{
    (digest(key) % HALF) as u32
}

/// Where the slots begin that a key may stand in, of a table of so many.
#[inline(always)]
fn start_of(count: usize, key: &TxKey) -> usize
    requires { 16 < count }
    ensures value { result ≡ start_of count key.now }
    ensures within { result + 16 ≤ count }
{
    let starts = count - WINDOW;
    let spread = (digest(key) / HALF).wrapping_mul(starts as u64) / HALF;
    (spread as usize).min(starts)
}

/// The slots that a key may stand in.
#[inline(always)]
fn window_of<'a>(slots: &'a [Slot], key: &TxKey) -> &'a [Slot]
    ensures { result.now ≡ window_of slots.now key.now }
{
    if slots.len() <= WINDOW {
        return &[];
    }
    let (_, behind) = slots.split_at(start_of(slots.len(), key));
    let (window, _) = behind.split_at(WINDOW);
    window
}

/// How many slots a table of so many has once it has grown: a small one grows fourfold, so that it seldom does.
fn more_slots(count: usize) -> usize {
    let times = if count < MANY_SLOTS { 4 } else { 2 };
    count.saturating_mul(times).max(FEWEST_SLOTS)
}

/// Whether the order at a place has this key.
#[inline(always)]
fn has_key(orders: &[Order], place: u32, key: &TxKey) -> bool
    ensures { result ≡ has_key orders.now place key.now }
{
    match orders.get(place as usize) {
        Some(order) => order.key().is_same(key),
        None => false,
    }
}

/// The place that slots tell of a key with this tag.
#[inline(always)]
fn sought(slots: &[Slot], tag: u32, orders: &[Order], key: &TxKey) -> Option<u32>
    ensures { result ≡ sought slots.now tag orders.now key.now }
{
    let mut rest = slots;
    while let [slot, behind @ ..] = rest {
        if slot.number == 0 {
            return None;
        }
        if slot.tag == tag && has_key(orders, slot.number - 1, key) {
            return Some(slot.number - 1);
        }
        rest = behind;
    }
    None
}

/// The place that the tree tells of a key.
fn sought_apart(others: &BTreeMap<TxKey, u32>, orders: &[Order], key: &TxKey) -> Option<u32>
    ensures { result ≡ checked (tree.get key_cmp others.now key.now) orders.now key.now }
{
    match others.get(key) {
        Some(place) => {
            if has_key(orders, *place, key) {
                Some(*place)
            } else {
                None
            }
        }
        None => None,
    }
}

/// The first free one of some slots.
#[inline(always)]
fn first_free(slots: &[Slot]) -> Option<usize>
    ensures { result ≡ position_from is_free 0 slots.now }
{
    slots.iter().position(|slot| slot.number == 0)
}

/// The first free slot that a key may stand in, by its place in the table.
#[inline(always)]
fn free_for(slots: &[Slot], key: &TxKey) -> Option<usize>
    ensures { IfSome result (IsFreeFor slots.now key.now) }
{
    match first_free(window_of(slots, key)) {
        Some(behind) if slots.len() > WINDOW => Some(start_of(slots.len(), key) + behind),
        _ => None,
    }
}

impl KeyPlaces {
    /// The places of no order. Takes no memory.
    pub fn new(alloc: Global) -> KeyPlaces
        ensures { TellsPlaces result.slots.items result.others [] }
    {
        KeyPlaces {
            slots: Vec::new(alloc),
            others: BTreeMap::new(alloc),
        }
    }

    /// The place of a key's order.
    #[inline(always)]
    pub fn find(&self, orders: &[Order], key: &TxKey) -> Option<u32>
        // The places are those of the keys of these orders.
        requires { TellsPlaces self.now.slots.items self.now.others orders.now }
        ensures { result ≡ key_place orders.now key.now }
    {
        let window = window_of(&self.slots, key);
        match sought(window, tag_of(key), orders, key) {
            Some(place) => Some(place),
            None => sought_apart(&self.others, orders, key),
        }
    }

    /// Makes ready for an order of a new key behind these orders: tells the slot that is free for the key; where there is none,
    /// the tree has its place.
    fn ready(&mut self, orders: &[Order], key: &TxKey) -> Result<Option<usize>, AllocError>
        requires few { length orders.now < 999999 }
        ensures told { TellsPlaces self.old.slots.items self.old.others orders.now
            → key_place orders.now key.now ≡ None
            → TellsPlaces self.new.slots.items self.new.others orders.now }
        ensures ready { IfOk result
            (IsReadyFor self.new.slots.items self.new.others (length orders.now) key.now) }
    {
        if let Some(at) = free_for(&self.slots, key) {
            return Ok(Some(at));
        }
        self.others.insert(*key, orders.len() as u32)?;
        Ok(None)
    }

    /// Puts a key for which all is ready at the next place, whose order comes behind the others.
    pub fn settle(&mut self, key: &TxKey, place: u32, slot: Option<usize>)
        // Fewer than 999,999 orders are stored.
        requires few { place < 999999 }
        // A slot that is told is one of the table.
        requires within { IfSome slot (λ at. at < length self.old.slots.items) }
        // The places are then those of the orders with the new one behind them.
        ensures { (orders : List Instruction) → (order : Instruction)
            → TellsPlaces self.old.slots.items self.old.others orders
            → HasDistinctKeys orders → order.key ≡ key.now → length orders ≡ place
            → key_place orders order.key ≡ None
            → IsReadyFor self.old.slots.items self.old.others place key.now slot
            → TellsPlaces self.new.slots.items self.new.others (orders ++ order ∷ []) }
    {
        if let Some(at) = slot {
            self.slots[at] = Slot {
                tag: tag_of(key),
                number: place + 1,
            };
        }
    }

    /// Takes back what was made ready for a key whose order doesn't come.
    pub fn withdraw(&mut self, key: &TxKey)
        // The places stay those of orders that don't have the key.
        ensures { (orders : List Instruction)
            → TellsPlaces self.old.slots.items self.old.others orders
            → key_place orders key.now ≡ None
            → TellsPlaces self.new.slots.items self.new.others orders }
    {
        self.others.remove(key);
    }

    /// A table of so many slots with the keys of these orders.
    fn grown(alloc: Global, orders: &[Order], count: usize) -> Result<KeyPlaces, AllocError>
        requires few { length orders.now ≤ 999999 }
        requires distinct { HasDistinctKeys orders.now }
        ensures { IfOk result (λ places. TellsPlaces places.slots.items places.others orders.now) }
    {
        let free = Slot { tag: 0, number: 0 };
        let mut places = KeyPlaces {
            slots: vec![in alloc; free; count]?,
            others: BTreeMap::new(alloc),
        };
        for (place, order) in orders.iter().enumerate() {
            let key = order.key();
            let slot = places.ready(&orders[..place], &key)?;
            places.settle(&key, place as u32, slot);
        }
        Ok(places)
    }

    /// Makes ready for an order of a new key behind these orders, in a larger table where this one is half full: tells
    /// the slot that is free for the key; where there is none, the tree has its place.
    pub fn prepare(&mut self, orders: &[Order], key: &TxKey) -> Result<Option<usize>, AllocError>
        // Fewer than 999,999 orders are stored.
        requires few { length orders.now < 999999 }
        // No two of the orders have one key.
        requires distinct { HasDistinctKeys orders.now }
        // No order has this key.
        requires new { key_place orders.now key.now ≡ None }
        // The places are those of the keys of these orders.
        requires told { TellsPlaces self.old.slots.items self.old.others orders.now }
        // The places stay those of these orders, however the call ends.
        ensures told { TellsPlaces self.new.slots.items self.new.others orders.now }
        // Memory aside, all is ready for the order.
        ensures ready { IfOk result
            (IsReadyFor self.new.slots.items self.new.others (length orders.now) key.now) }
    {
        if orders.len() >= self.slots.len() / 2 {
            let count = more_slots(self.slots.len());
            *self = KeyPlaces::grown(*self.slots.allocator(), orders, count)?;
        }
        self.ready(orders, key)
    }
}
