//! The requests that wait for what several shards say.

ghost use Rattle.std.specs.Prelude.{◌≡◌, ◌≤◌, ◌<◌, ◌==◌, ◌+◌, ℕ, List, ◌∷◌, [], length, true, false};
ghost use Rattle.std.specs.Prelude.{Option, Some, None, OnOk, OnErr, IfSome};
ghost use Rattle.std.specs.List.{list_any};
ghost use Rattle.iso_order.specs.Key.{same_key};
ghost use Rattle.iso_order.specs.declared.key.TxKey.{TxKey};
ghost use Rattle.iso_front.specs.declared.gathering.Heard.{Heard};
ghost use Rattle.iso_front.specs.Gathering.{is_asked, is_nothing, heard_from};
ghost use Rattle.iso_relay.specs.Entries.{key_of, place_of, heard_under, put, newest, asked, decided, answered};
ghost use Rattle.iso_relay.specs.Entries.{entry, first_heard, most_pending};
ghost use Rattle.iso_relay.specs.History.{Event, entries_after, IsSaidByAll};
ghost use Rattle.iso_relay.specs.History.Event.{Says};

use crate::decision::Decision;
use crate::entry::Entry;
use iso_front::{Gathering, Joint, Route, Shards};
use iso_order::{NoMemory, TxKey};
use std::alloc::Global;
use std::marker::Model;

/// The most requests that wait.
pub const MOST_PENDING: usize = 1_024;

/// The requests that went to several shards and wait for what all of them say.
#[derive(Drop)]
pub struct Pending {
    count: usize,
    entries: Vec<Entry>,
}

impl Model for Pending {
    ghost use Rattle.iso_relay.specs.Entries.{Table, IsTable};

    ghost Value = { Table };

    ghost view = { λ p. record { count = p.count; entries = p.entries.items } };

    ghost invariant = { λ p. IsTable (record { count = p.count; entries = p.entries.items }) };
}

/// The key under which shards are asked, if some are.
fn key_of(route: &Route) -> Option<TxKey>
    ensures { result ≡ key_of route.now }
{
    match route {
        Route::One { key, .. } | Route::All { key } => Some(*key),
        Route::Nobody { .. } | Route::Any { .. } | Route::Unanswered | Route::Unreadable => None,
    }
}

/// The place of the request under a key.
fn place_of(entries: &[Entry], key: &TxKey) -> Option<usize>
    ensures place { result ≡ place_of key.now entries.now }
    ensures there { IfSome result (λ n. n < length entries.now) }
{
    for place in 0..entries.len() {
        if entries[place].key.is_same(key) {
            return Some(place);
        }
    }
    None
}

/// A request of which this was heard.
fn with_heard(key: TxKey, gathering: Gathering) -> Entry
    ensures made { result ≡ entry key gathering.heard }
    ensures whole { length gathering.heard ≡ 64 }
{
    Entry { key, gathering }
}

/// A request of which nothing was heard yet, where there are so many shards.
fn first_entry(route: &Route, count: usize, key: TxKey) -> Entry
    ensures { result ≡ entry key (first_heard route.now count) }
{
    with_heard(key, Gathering::new(route, count))
}

/// Puts a request in the place of the one of its key, or behind all others. Where there are too many then, the first one ends.
fn put(entries: &mut Vec<Entry>, entry: Entry) -> Result<(), NoMemory>
    requires short { length entries.old.items ≤ most_pending }
    ensures put { OnOk result (entries.new.items ≡ newest (put entry entries.old.items)) }
    ensures unchanged { OnErr result (entries.new.items ≡ entries.old.items) }
{
    match place_of(entries, &entry.key) {
        Some(place) => entries[place] = entry,
        None => {
            if entries.push(entry).is_err() {
                return Err(NoMemory);
            }
            if entries.len() > MOST_PENDING {
                entries.remove(0);
            }
        }
    }
    Ok(())
}

/// What becomes of an answer, and of the request that it answers.
fn hear(entries: &mut Vec<Entry>, shard: usize, key: &TxKey, code: u8) -> Decision
    ensures decided { result ≡ decided shard code (heard_under key.now entries.old.items) }
    ensures left { entries.new.items ≡ answered shard key.now code entries.old.items }
{
    let Some(place) = place_of(entries, key) else {
        return Decision::Drop;
    };
    let gathering = entries[place].gathering;
    if !gathering.is_asked(shard) {
        return Decision::Drop;
    }
    let heard = gathering.with(shard, code);
    match heard.joint(code) {
        Joint::Waits => {
            entries[place] = with_heard(*key, heard);
            Decision::Hold
        }
        Joint::Same => {
            entries.remove(place);
            Decision::PassOn
        }
        Joint::Differ => {
            entries.remove(place);
            Decision::GiveUp
        }
    }
}

impl Pending {
    /// None wait, and there are so many shards. Takes no memory.
    pub fn new(alloc: Global, shards: &Shards) -> Pending
        ensures { result ≡ record { count = shards.now.count; entries = [] } }
    {
        Pending {
            count: shards.len(),
            entries: Vec::new(alloc),
        }
    }

    /// How many wait.
    pub fn len(&self) -> usize
        // The number is that of the requests that wait.
        ensures value { result ≡ length self.now.entries }
        // At most 1,024 requests wait.
        ensures few { result ≤ most_pending }
    {
        self.entries.len()
    }

    /// Whether none waits.
    pub fn is_empty(&self) -> bool
        ensures { result ≡ (length self.now.entries == 0) }
    {
        self.entries.is_empty()
    }

    /// Notes that a request goes to the shards of its route. What was heard under its key before doesn't count. Where too many
    /// wait then, the first one ends. Refuses only for want of memory.
    pub fn ask(&mut self, route: &Route) -> Result<(), NoMemory>
        // Memory aside, what is asked under a key waits, nothing heard yet, in place of the one of
        // its key or behind all others; beyond 1,024 the first one ends.
        ensures asked { OnOk result (self.new ≡ record {
          count = self.old.count;
          entries = asked route.now self.old.count self.old.entries;
        }) }
        // For want of memory nothing changes in what waits.
        ensures unchanged { OnErr result (self.new ≡ self.old) }
        // Requests under other keys stay, where there is room.
        ensures others { OnOk result (IfSome (key_of route.now) (λ key. (other : TxKey)
            → same_key key other ≡ false → length self.old.entries < most_pending
            → heard_under other self.new.entries ≡ heard_under other self.old.entries)) }
    {
        let Some(key) = key_of(route) else {
            return Ok(());
        };
        put(&mut self.entries, first_entry(route, self.count, key))
    }

    /// What becomes of a shard's answer of this code to the request under this key. Takes no memory.
    pub fn hear(&mut self, shard: usize, key: &TxKey, code: u8) -> Decision
        // What becomes of the answer is decided by what was heard under its key: it is passed on,
        // held, given up or dropped.
        ensures decided { result ≡ decided shard code (heard_under key.now self.old.entries) }
        // A request of which an answer is held waits on with what was heard; one that each asked
        // shard answered waits no more; all others are as they were.
        ensures left { self.new ≡ record {
          count = self.old.count;
          entries = answered shard key.now code self.old.entries;
        } }
        // What is passed on was said last by every shard that was asked, since it was asked,
        // whatever happened before.
        ensures said { result ≡ Decision.PassOn → (events : List Event)
            → self.old.entries ≡ entries_after self.old.count events
            → IsSaidByAll self.old.count shard key.now code (Says shard key.now code ∷ events) }
        // While a shard that was asked is silent, the answer of one that was asked is held.
        ensures silent { (heard : List Heard) → heard_under key.now self.old.entries ≡ Some heard
            → list_any is_nothing (heard_from shard code heard) ≡ true
            → is_asked shard heard ≡ true → result ≡ Decision.Hold }
        // An answer under a key under which no request waits is dropped.
        ensures unasked { heard_under key.now self.old.entries ≡ None → result ≡ Decision.Drop }
        // Once an answer is passed on, no request waits under its key any more.
        ensures once { result ≡ Decision.PassOn → heard_under key.now self.new.entries ≡ None }
        // Requests under other keys stay.
        ensures others { (other : TxKey) → same_key key.now other ≡ false
            → heard_under other self.new.entries ≡ heard_under other self.old.entries }
    {
        hear(&mut self.entries, shard, key, code)
    }
}
