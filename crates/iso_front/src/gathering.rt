//! What shards answer to a request that goes to several.

ghost use Rattle.std.specs.Prelude.{◌≡◌, ◌<◌, ℕ, true, slice_index_or};
ghost use Rattle.std.specs.List.{list_any, list_all};
ghost use Rattle.iso_front.specs.Gathering.{at_first, was_asked, is_asked, is_nothing, agrees};
ghost use Rattle.iso_front.specs.Gathering.{heard_from, joint};

use crate::route::Route;

/// What was heard of a shard.
#[derive(Clone, Copy, Debug, PartialEq, Eq)]
pub enum Heard {
    /// It wasn't asked.
    Unasked,
    /// It was asked, and is silent.
    Nothing,
    /// It answered this response code.
    Code(u8),
}

/// What comes of an answer.
#[derive(Clone, Copy, Debug, PartialEq, Eq)]
pub enum Joint {
    /// A shard that was asked is silent.
    Waits,
    /// All that were asked answered, and said the same.
    Same,
    /// All that were asked answered, and didn't say the same.
    Differ,
}

/// What was heard of each shard.
#[derive(Clone, Copy, Debug, PartialEq, Eq)]
pub struct Gathering {
    /// By the place of the shard.
    pub heard: [Heard; 64],
}

/// What is heard at first of a shard.
fn at_first(route: &Route, count: usize, place: usize) -> Heard
    ensures { result ≡ at_first route.now count place }
{
    if place < count && route.goes_to(place) {
        Heard::Nothing
    } else {
        Heard::Unasked
    }
}

/// Whether a shard was asked.
fn was_asked(heard: Heard) -> bool
    ensures { result ≡ was_asked heard }
{
    match heard {
        Heard::Unasked => false,
        Heard::Nothing => true,
        Heard::Code(_) => true,
    }
}

/// Whether a shard was asked, and is silent.
fn is_nothing(heard: Heard) -> bool
    ensures { result ≡ is_nothing heard }
{
    match heard {
        Heard::Unasked => false,
        Heard::Nothing => true,
        Heard::Code(_) => false,
    }
}

/// Whether a shard, if it was asked, answered this code.
fn agrees(code: u8, heard: Heard) -> bool
    ensures { result ≡ agrees code heard }
{
    match heard {
        Heard::Unasked => true,
        Heard::Nothing => false,
        Heard::Code(said) => said == code,
    }
}

/// Whether a shard is silent.
fn any_nothing(heard: &[Heard]) -> bool
    ensures { result ≡ list_any is_nothing heard.now }
{
    heard.iter().any(|one| is_nothing(*one))
}

/// Whether all answered this code.
fn all_agree(code: u8, heard: &[Heard]) -> bool
    ensures { result ≡ list_all (agrees code) heard.now }
{
    heard.iter().all(|one| agrees(code, *one))
}

/// What comes of an answer of this code.
fn joined(code: u8, heard: &[Heard]) -> Joint
    ensures { result ≡ joint code heard.now }
{
    if any_nothing(heard) {
        Joint::Waits
    } else if all_agree(code, heard) {
        Joint::Same
    } else {
        Joint::Differ
    }
}

impl Gathering {
    /// What is heard before any answer came, where there are so many shards.
    pub fn new(route: &Route, count: usize) -> Gathering
        // Each shard that is there and to which the request goes was asked and is silent; no other
        // was asked.
        ensures { (n : ℕ) (d : Heard) → n < 64
            → slice_index_or result.heard n d ≡ at_first route.now count n }
    {
        let mut heard = [Heard::Unasked; 64];
        for place in 0..64 {
            heard[place] = at_first(route, count, place);
        }
        Gathering { heard }
    }

    /// Whether the shard at a place was asked.
    pub fn is_asked(&self, shard: usize) -> bool
        ensures { result ≡ is_asked shard self.now.heard }
    {
        shard < 64 && was_asked(self.heard[shard])
    }

    /// The same with what the shard at a place answers, if it was asked.
    pub fn with(self, shard: usize, code: u8) -> Gathering
        ensures { result.heard ≡ heard_from shard code self.heard }
    {
        let mut heard = self.heard;
        if shard < 64 && was_asked(heard[shard]) {
            heard[shard] = Heard::Code(code);
        }
        Gathering { heard }
    }

    /// What comes of an answer of this code, which is among those that were heard.
    pub fn joint(&self, code: u8) -> Joint
        // What comes of it is `Waits` while a shard that was asked is silent, else `Same` where all
        // that were asked said this code, and `Differ` where not.
        ensures value { result ≡ joint code self.now.heard }
        // `Same` comes only where every shard that was asked said this code.
        ensures same { result ≡ Joint.Same → list_all (agrees code) self.now.heard ≡ true }
        // While a shard that was asked is silent, `Waits` comes.
        ensures waits { list_any is_nothing self.now.heard ≡ true → result ≡ Joint.Waits }
    {
        joined(code, &self.heard)
    }
}
