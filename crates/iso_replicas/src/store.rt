//! The members of a cluster as a store of batches.
ghost use Rattle.std.specs.Prelude.{◌≡◌, ◌≢◌, ◌++◌, ◌∷◌, ◌+◌, [], length, IsTrue, IsFalse, IfSome};
ghost use Rattle.iso_replicas.specs.Heard.{heard};

use crate::ahead::{most_after, next_page};
use http_server::Log;
use iso_etcd::{Append, Cause, Cluster, Dial, Doubt, FEW, Fault};
use iso_shared::{Asked, Looked, Store};
use std::alloc::Global;
use std::collections::VecDeque;

/// Why a store gave no answer last.
#[derive(Clone, Copy, Debug, PartialEq, Eq, Drop)]
pub enum Trouble {
    /// Nothing was sent.
    Unsent(Cause),
    /// It isn't known what came of it.
    Doubt(Doubt),
    /// Nothing was read.
    Unread(Fault),
}

/// Whether the bytes are the same.
fn are_same(one: &[u8], other: &[u8]) -> bool
    ensures same { IsTrue result → one.now ≡ other.now }
    ensures other { IsFalse result → one.now ≢ other.now }
{
    one == other
}

/// How many bytes batches have.
fn bytes_of(batches: &[Vec<u8>]) -> u64 {
    let mut bytes: u64 = 0;
    for batch in batches {
        bytes = bytes.saturating_add(batch.len() as u64);
    }
    bytes
}

/// The members of a cluster as a store of batches. It is asked for the place behind those that it has heard of, and for no other:
/// what it has heard is all that a contract says of it. Where it looks, it reads many batches at a time.
#[derive(Drop)]
pub struct EtcdStore<D: Dial + Drop> {
    alloc: Global,
    cluster: Cluster<D>,
    /// The batches behind those that it has heard of, as far as they were read with one of these.
    ahead: VecDeque<Vec<u8>>,
    /// How many batches it reads at a time.
    most: u32,
    /// How many batches it has heard of.
    count: u64,
    /// Why it gave no answer last.
    trouble: Option<Trouble>,
    heard: Log<Vec<u8>, ()>,
    sent: Log<Vec<u8>, ()>,
    ghost counted: { count ≡ length heard.items },
}

impl<D: Dial + Drop> EtcdStore<D> {
    /// The store that a cluster is, of which nothing was heard.
    pub fn new(alloc: Global, cluster: Cluster<D>) -> EtcdStore<D>
        // The store has heard of no batch.
        ensures kept { heard result.heard.items ≡ [] }
        // No batch was sent through the store.
        ensures sent { heard result.sent.items ≡ [] }
    {
        EtcdStore {
            alloc,
            cluster,
            ahead: VecDeque::new(alloc),
            most: FEW,
            count: 0,
            trouble: None,
            heard: Log::new(),
            sent: Log::new(),
        }
    }

    /// Why it gave no answer last, if it gave none.
    pub fn trouble(&self) -> Option<Trouble> {
        self.trouble
    }

    /// The cluster.
    pub fn cluster(&mut self) -> &mut Cluster<D> {
        &mut self.cluster
    }
}

impl<D: Dial + Drop> EtcdStore<D> {
    /// The place behind those that it has heard of, if that is the one that is asked for.
    fn next(&self, place: u64) -> Option<u32>
        ensures { IfSome result (λ n. (n ≡ place) × (place ≡ self.now.count + 1)) }
    {
        if self.count.checked_add(1) != Some(place) {
            return None;
        }
        u32::try_from(place).ok()
    }

    /// It has heard that this batch stands at the next place.
    fn hear(&mut self, place: u64, batch: &Vec<u8>)
        requires { place ≡ self.old.count + 1 }
        ensures heard { heard self.new.heard.items
            ≡ heard self.old.heard.items ++ batch.now.items ∷ [] }
        ensures sent { self.new.sent ≡ self.old.sent }
    {
        self.heard = self.heard.and(batch, &());
        self.count = place;
    }

    /// Reads the batches from a place on, many at a time.
    fn read_ahead(&mut self, place: u32) -> Result<(), Fault>
        ensures heard { self.new.heard ≡ self.old.heard }
        ensures sent { self.new.sent ≡ self.old.sent }
        ensures count { self.new.count ≡ self.old.count }
    {
        let page = next_page(self.alloc, &mut self.cluster, place, self.most)?;
        self.most = most_after(page.batches.len() as u64, bytes_of(&page.batches));
        self.ahead = VecDeque::from_vec(page.batches);
        Ok(())
    }

    /// The batch at the next place, if one was found there.
    fn found(&mut self, place: u32) -> Result<Option<Vec<u8>>, Fault>
        ensures heard { self.new.heard ≡ self.old.heard }
        ensures sent { self.new.sent ≡ self.old.sent }
        ensures count { self.new.count ≡ self.old.count }
    {
        if self.ahead.is_empty() {
            self.read_ahead(place)?;
        }
        Ok(self.ahead.pop_front())
    }

    /// A batch was sent, and it has heard that this one stands at the next place.
    fn hear_own(&mut self, place: u64, own: &Vec<u8>) -> Asked
        requires { place ≡ self.old.count + 1 }
        ensures result { result ≡ Asked.Stands }
        ensures heard { heard self.new.heard.items
            ≡ heard self.old.heard.items ++ own.now.items ∷ [] }
        ensures sent { heard self.new.sent.items
            ≡ heard self.old.sent.items ++ own.now.items ∷ [] }
    {
        self.sent = self.sent.and(own, &());
        self.hear(place, own);
        Asked::Stands
    }

    /// A batch was sent, and it isn't known what came of it.
    fn doubt(&mut self, batch: &Vec<u8>, doubt: Doubt) -> Asked
        ensures result { result ≡ Asked.Unknown }
        ensures heard { self.new.heard ≡ self.old.heard }
        ensures sent { heard self.new.sent.items
            ≡ heard self.old.sent.items ++ batch.now.items ∷ [] }
    {
        self.sent = self.sent.and(batch, &());
        self.trouble = Some(Trouble::Doubt(doubt));
        Asked::Unknown
    }
}

impl<D: Dial + Drop> Store for EtcdStore<D> {
    ghost kept = { λ s. heard s.heard.items };

    ghost sent = { λ s. heard s.sent.items };

    fn ask(&mut self, place: u64, bytes: &[u8]) -> Asked {
        let (Some(next), Ok(batch)) = (self.next(place), bytes.to_vec(self.alloc)) else {
            return Asked::Unsent;
        };
        self.ahead.clear();
        match self.cluster.append_once(next, bytes) {
            Append::Appended => self.hear_own(place, &batch),
            Append::Taken(other) if are_same(&other, bytes) => self.hear_own(place, &batch),
            Append::Taken(other) => {
                self.sent = self.sent.and(&batch, &());
                self.hear(place, &other);
                Asked::Other(other)
            }
            Append::Unknown(doubt) => self.doubt(&batch, doubt),
            Append::Unsent(cause) => {
                self.trouble = Some(Trouble::Unsent(cause));
                Asked::Unsent
            }
        }
    }

    fn look(&mut self, place: u64) -> Looked {
        let Some(next) = self.next(place) else {
            return Looked::Away;
        };
        match self.found(next) {
            Ok(Some(batch)) => {
                self.hear(place, &batch);
                Looked::Found(batch)
            }
            Ok(None) => Looked::Nothing,
            Err(fault) => {
                self.trouble = Some(Trouble::Unread(fault));
                Looked::Away
            }
        }
    }
}
