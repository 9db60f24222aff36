//! Shards: hosts that each have some of the account numbers.

ghost use Rattle.std.specs.Prelude.{◌≡◌, ◌==◌, ◌<◌, ◌≤◌, ◌+◌, ◌-◌, ◌++◌, [], ◌∷◌, length};
ghost use Rattle.std.specs.Prelude.{nat_lt, is_some};
ghost use Rattle.std.specs.Prelude.{IfSome, IfErr, IsNone, OnOk, OnErr, Some, ℕ, true};
ghost use Rattle.std.specs.List.{AllByRecursion};
ghost use Rattle.iso_front.specs.Prefixes.{AreApart, Meeting, are_prefixes};
ghost use Rattle.iso_front.specs.Shards.{shard_in};

use crate::document::read_shards;
use crate::fault::{GiveFault, ShardsFault};
use crate::prefixes::{Given, Prefixes};
use iso_order::Pan;
use std::alloc::Global;
use std::marker::Model;
use std::net::SocketAddr;

/// The most shards.
pub const MOST_SHARDS: usize = 64;

/// A shard: a host that has some of the account numbers.
#[derive(Debug, PartialEq, Drop)]
pub struct Shard {
    /// The name by which it is told of.
    pub name: String,
    /// Where it listens.
    pub address: SocketAddr,
}

/// Shards, and the account numbers that are theirs. No account number is of two.
#[derive(Drop)]
pub struct Shards {
    shards: Vec<Shard>,
    given: Vec<Given>,
}

impl Model for Shards {
    ghost use Rattle.std.specs.Prelude.{length};
    ghost use Rattle.iso_front.specs.Shards.{Split, IsSplit};

    ghost Value = { Split };

    ghost view = { λ s. record { count = length s.shards.items; given = s.given.items } };

    ghost invariant = { λ s. IsSplit (record {
      count = length s.shards.items;
      given = s.given.items;
    }) };
}

/// The place of the shard that has an account number.
fn shard_in(given: &[Given], pan: &Pan) -> Option<usize>
    ensures { result ≡ shard_in given.now pan.now }
{
    for one in given {
        if one.prefixes.covers(pan) {
            return Some(one.shard);
        }
    }
    None
}

/// Those of the given prefixes that these meet, if some do.
fn met_in(given: &[Given], prefixes: &Prefixes) -> Option<Given>
    ensures met { are_prefixes prefixes.now ≡ true
        → AllByRecursion (λ g. are_prefixes g.prefixes ≡ true) given.now
        → IfSome result (λ g. Meeting g.prefixes prefixes.now) }
    ensures none { IsNone result
        → AllByRecursion (λ g. AreApart g.prefixes prefixes.now) given.now }
{
    for one in given {
        if one.prefixes.meets(prefixes) {
            return Some(*one);
        }
    }
    None
}

impl Shards {
    ghost use Rattle.iso_front.specs.Shards.{Belongs, NoneMeet, shard_of};
    ghost use Rattle.iso_front.specs.Faults.{IfMeets};

    /// No shards yet. Takes no memory.
    pub fn new(alloc: Global) -> Shards
        ensures { result ≡ record { count = 0; given = [] } }
    {
        Shards {
            shards: Vec::new(alloc),
            given: Vec::new(alloc),
        }
    }

    /// The shards of a JSON text: `{"shards":[..]}`, 1 to 64 of them, no two with one name or one address, each an object of
    /// `name`, `address` and `accounts`, an array of objects of `from` and `to`, two prefixes of as many digits. No account
    /// number begins with prefixes of two of them. Or else the first fault.
    pub fn from_json(alloc: Global, text: &[u8]) -> Result<Shards, ShardsFault> {
        read_shards(alloc, text)
    }

    /// Adds a shard behind the others. No account number is its own yet.
    pub fn add(&mut self, shard: Shard) -> Result<(), ShardsFault>
        // Where it succeeds, there is one shard more, and the same prefixes are given.
        ensures added { OnOk result (self.new
            ≡ record { count = self.old.count + 1; given = self.old.given }) }
        // A shard that is refused changes nothing.
        ensures unchanged { OnErr result (self.new ≡ self.old) }
    {
        if self.shards.len() >= MOST_SHARDS {
            return Err(ShardsFault::Count(self.shards.len()));
        }
        match self.shards.push(shard) {
            Ok(()) => Ok(()),
            Err(_) => Err(ShardsFault::Memory),
        }
    }

    /// Gives the account numbers that begin with one of these prefixes to the shard that was added last.
    pub fn give(&mut self, prefixes: Prefixes) -> Result<(), GiveFault>
        // Where it succeeds, the prefixes stand behind the others, given to the shard that was
        // added last.
        ensures given { OnOk result (self.new ≡ record {
          count = self.old.count;
          given = self.old.given
              ++ record { prefixes = prefixes; shard = self.old.count - 1 } ∷ [];
        }) }
        // Prefixes are refused as meeting others only where an account number begins with one of
        // each.
        ensures met { are_prefixes prefixes ≡ true
            → AllByRecursion (λ g. are_prefixes g.prefixes ≡ true) self.old.given
            → IfErr result (λ e. IfMeets e (λ g. Meeting g.prefixes prefixes)) }
        // Prefixes that are refused change nothing.
        ensures unchanged { OnErr result (self.new ≡ self.old) }
    {
        let Some(shard) = self.shards.len().checked_sub(1) else {
            return Err(GiveFault::NoShard);
        };
        match met_in(&self.given, &prefixes) {
            Some(other) => return Err(GiveFault::Meets(other)),
            None => {}
        }
        self.given.push(Given { prefixes, shard })?;
        Ok(())
    }

    /// How many prefixes are given, of all shards.
    pub fn given(&self) -> usize
        ensures { result ≡ length self.now.given }
    {
        self.given.len()
    }

    /// The shards, in their order.
    pub fn as_slice(&self) -> &[Shard]
        // The slice has as many shards as there are.
        ensures { length result.now ≡ self.now.count }
    {
        &self.shards
    }

    /// How many there are.
    pub fn len(&self) -> usize
        // The number is that of the shards.
        ensures value { result ≡ self.now.count }
        // There are at most 64 shards.
        ensures few { result ≤ 64 }
    {
        self.shards.len()
    }

    /// Whether there are none.
    pub fn is_empty(&self) -> bool
        ensures { result ≡ (self.now.count == 0) }
    {
        self.shards.is_empty()
    }

    /// The shard at a place.
    pub fn get(&self, place: usize) -> Option<&Shard>
        // There is a shard exactly at each place below their number.
        ensures { is_some result ≡ nat_lt place self.now.count }
    {
        self.shards.get(place)
    }

    /// The place of the shard that has an account number: of which a prefix begins it. Takes no memory.
    pub fn shard_of(&self, pan: &Pan) -> Option<usize>
        // The answer is the shard of the first given prefixes with which the account number begins,
        // and `None` where it begins with none.
        ensures value { result ≡ shard_of self.now pan.now }
        // The shard that is told has the account number: a prefix that is given to it begins it.
        ensures found { IfSome result (Belongs self.now pan.now) }
        // A shard that has the account number is the one that is told, so no two have it.
        ensures only { (shard : ℕ) → Belongs self.now pan.now shard → result ≡ Some shard }
        // The shard that is told is one of those that there are.
        ensures there { IfSome result (λ shard. shard < self.now.count) }
        // No account number begins with a prefix of two that are given.
        ensures apart { NoneMeet self.now.given }
    {
        shard_in(&self.given, pan)
    }
}
