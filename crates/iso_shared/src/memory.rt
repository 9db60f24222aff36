//! A store in memory.
ghost use Rattle.std.specs.Prelude.{◌≡◌, ◌≢◌, ◌++◌, ◌∷◌, [], IsTrue, IsFalse, IfSome, IsNone};
ghost use Rattle.iso_shared.specs.Store.{Grows, StandsAt, IsAsked, IsSent, IsLooked};
ghost use Rattle.iso_shared.specs.Memory.{texts, WasSent};

use crate::store::{Asked, Looked, Store};
use std::alloc::Global;

/// What becomes of a batch that is asked for.
#[derive(Clone, Copy, Debug, PartialEq, Eq)]
pub enum Turn {
    /// It is put if there is none, and the answer comes.
    Answers,
    /// It is put if there is none, and the answer is lost.
    Lost,
    /// It is put before the next call, if there is none by then, and no answer comes.
    Late,
    /// Nothing is sent.
    Away,
}

/// A batch on its way.
#[derive(Debug, Drop)]
struct Coming {
    place: u64,
    bytes: Vec<u8>,
}

/// A store in memory, for tests, which plays what may happen among hosts.
#[derive(Drop)]
pub struct MemoryStore {
    alloc: Global,
    /// The batches that are kept.
    pub batches: Vec<Vec<u8>>,
    /// Those that were sent.
    pub sent: Vec<Vec<u8>>,
    /// What becomes of the batches that are asked for, the next one last. Where there is none, the answers come.
    pub turns: Vec<Turn>,
    /// Another host's batch, which is put at the next place before the next call.
    pub theirs: Option<Vec<u8>>,
    late: Option<Coming>,
}

/// Puts a batch at a place, if that is the next one.
fn put(batches: &mut Vec<Vec<u8>>, place: u64, bytes: Vec<u8>)
    ensures { Grows (texts batches.old.items) (texts batches.new.items) }
{
    if place == batches.len() as u64 + 1 {
        let _ = batches.push(bytes);
    }
}

/// Whether the bytes are the same.
fn is_same(first: &[u8], second: &[u8]) -> bool
    ensures same { IsTrue result → first.now ≡ second.now }
    ensures other { IsFalse result → first.now ≢ second.now }
{
    first == second
}

/// The bytes that stand at a place.
fn batch_at(batches: &[Vec<u8>], place: u64) -> Option<&[u8]>
    ensures { IfSome result (λ b. StandsAt (texts batches.now) place b.now) }
{
    if place == 0 {
        return None;
    }
    match batches.get(place as usize - 1) {
        Some(batch) => Some(batch.as_slice()),
        None => None,
    }
}

/// What an answer says of a place where a batch was asked for.
fn answer(alloc: Global, batches: &[Vec<u8>], place: u64, bytes: &[u8]) -> Asked
    ensures asked { IsAsked (texts batches.now) place bytes.now result }
    ensures sent { WasSent result }
{
    let Some(found) = batch_at(batches, place) else {
        return Asked::Unknown;
    };
    if is_same(found, bytes) {
        return Asked::Stands;
    }
    match found.to_vec(alloc) {
        Ok(copy) => Asked::Other(copy),
        Err(_) => Asked::Unknown,
    }
}

/// What stands at a place.
fn found_at(alloc: Global, batches: &[Vec<u8>], place: u64) -> Looked
    ensures { IsLooked (texts batches.now) place result }
{
    let Some(found) = batch_at(batches, place) else {
        return Looked::Nothing;
    };
    match found.to_vec(alloc) {
        Ok(copy) => Looked::Found(copy),
        Err(_) => Looked::Away,
    }
}

impl MemoryStore {
    /// An empty one.
    pub fn new(alloc: Global) -> MemoryStore
        // The store keeps no batch.
        ensures kept { texts result.batches.items ≡ [] }
        // No batch was sent through the store.
        ensures sent { texts result.sent.items ≡ [] }
    {
        MemoryStore {
            alloc,
            batches: Vec::new(alloc),
            sent: Vec::new(alloc),
            turns: Vec::new(alloc),
            theirs: None,
            late: None,
        }
    }

    /// What is on its way arrives.
    fn arrive(&mut self)
        ensures grows { Grows (texts self.old.batches.items) (texts self.new.batches.items) }
        ensures sent { self.new.sent ≡ self.old.sent }
    {
        let next = self.batches.len() as u64 + 1;
        if let Some(bytes) = self.theirs.take() {
            put(&mut self.batches, next, bytes);
        }
        if let Some(coming) = self.late.take() {
            put(&mut self.batches, coming.place, coming.bytes);
        }
    }

    /// Notes that a batch was sent, and gives a copy of it. Where it isn't sent, nothing is noted.
    fn note(&mut self, bytes: &[u8]) -> Option<Vec<u8>>
        ensures sent { IfSome result
            (λ copy. texts self.new.sent.items ≡ texts self.old.sent.items ++ bytes.now ∷ []) }
        ensures none { IsNone result → texts self.new.sent.items ≡ texts self.old.sent.items }
        ensures kept { self.new.batches ≡ self.old.batches }
    {
        let copy = bytes.to_vec(self.alloc).ok()?;
        let noted = bytes.to_vec(self.alloc).ok()?;
        self.sent.push(noted).ok()?;
        Some(copy)
    }

    /// Sends a batch. Where `is_put`, it is put at once; else it is on its way.
    fn deliver(&mut self, place: u64, bytes: Vec<u8>, is_put: bool)
        ensures grows { Grows (texts self.old.batches.items) (texts self.new.batches.items) }
        ensures sent { self.new.sent ≡ self.old.sent }
    {
        if is_put {
            put(&mut self.batches, place, bytes);
        } else {
            self.late = Some(Coming { place, bytes });
        }
    }

    /// Sends a batch whose answer doesn't come.
    fn ask_unheard(&mut self, place: u64, bytes: &[u8], is_put: bool) -> Asked
        ensures grows { Grows (texts self.old.batches.items) (texts self.new.batches.items) }
        ensures sent { IsSent
            (texts self.old.sent.items) (texts self.new.sent.items) bytes.now result }
        ensures asked { IsAsked (texts self.new.batches.items) place bytes.now result }
    {
        let Some(copy) = self.note(bytes) else {
            return Asked::Unsent;
        };
        self.deliver(place, copy, is_put);
        Asked::Unknown
    }

    /// Sends a batch whose answer comes.
    fn ask_heard(&mut self, place: u64, bytes: &[u8]) -> Asked
        ensures grows { Grows (texts self.old.batches.items) (texts self.new.batches.items) }
        ensures sent { IsSent
            (texts self.old.sent.items) (texts self.new.sent.items) bytes.now result }
        ensures asked { IsAsked (texts self.new.batches.items) place bytes.now result }
    {
        let Some(copy) = self.note(bytes) else {
            return Asked::Unsent;
        };
        self.deliver(place, copy, true);
        answer(self.alloc, &self.batches, place, bytes)
    }
}

impl Store for MemoryStore {
    ghost kept = { λ s. texts s.batches.items };

    ghost sent = { λ s. texts s.sent.items };

    fn ask(&mut self, place: u64, bytes: &[u8]) -> Asked {
        self.arrive();
        match self.turns.pop() {
            Some(Turn::Away) => Asked::Unsent,
            Some(Turn::Late) => self.ask_unheard(place, bytes, false),
            Some(Turn::Lost) => self.ask_unheard(place, bytes, true),
            Some(Turn::Answers) => self.ask_heard(place, bytes),
            None => self.ask_heard(place, bytes),
        }
    }

    fn look(&mut self, place: u64) -> Looked {
        self.arrive();
        found_at(self.alloc, &self.batches, place)
    }
}
