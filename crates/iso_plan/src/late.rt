//! Frames and answers that are held back until their moment.
ghost use Rattle.std.specs.Prelude.{◌≡◌, ◌≤◌, ◌<◌, ◌∷◌, [], OnOk, OnErr, IfSome, IfNone, option_map, slice_get};
ghost use Rattle.std.specs.List.{AllByRecursion};
ghost use Rattle.iso_plan.specs.Late.{put, IsFirstDue};

use crate::came::Came;
use std::alloc::{AllocError, Global};
use std::collections::BTreeMap;
use std::marker::Model;

/// What is held back.
#[derive(Debug, PartialEq, Eq, Drop)]
pub enum Held {
    /// A frame that goes out, and whether its connection is cut behind it.
    Goes(Vec<u8>, bool),
    /// An answer that came.
    Came(Came),
}

/// What is held back, by its moment in milliseconds. Of one moment, what was held back first comes first. A contract sees how
/// often something was held back, and what waits, in the order of its moments.
#[derive(Drop)]
pub struct Late {
    by_moment: BTreeMap<(u64, u64), Held>,
    /// How often something was held back.
    count: u64,
}

impl Model for Late {
    ghost use Rattle.std.specs.Prelude.{◌≤◌};
    ghost use Rattle.std.specs.List.{AllByRecursion};
    ghost use Rattle.iso_plan.specs.Late.{Waiting, waits_of};

    ghost Value = { Waiting };

    ghost view = { λ l. record { count = l.count; waits = waits_of l.by_moment.entries } };

    ghost invariant = { λ l. AllByRecursion (λ e. e.0.1 ≤ l.count) l.by_moment.entries };
}

impl Late {
    /// Nothing is held back. Takes no memory.
    pub fn new(alloc: Global) -> Late
        ensures { result ≡ record { count = 0; waits = [] } }
    {
        Late {
            by_moment: BTreeMap::new(alloc),
            count: 0,
        }
    }

    /// Holds something back until a moment, in milliseconds. After an `Err` nothing changed.
    pub fn hold(&mut self, at: u64, held: Held) -> Result<(), AllocError>
        // At `Ok`, for the first 2^64 - 1 that are held, it waits behind what waits for that moment
        // or an earlier one, and before all else.
        ensures held { OnOk result (self.old.count < 18446744073709551615
            → self.new.waits ≡ put at held self.old.waits) }
        // Without memory all that is held back is as before.
        ensures unchanged { OnErr result (self.new ≡ self.old) }
    {
        let number = self.count.saturating_add(1);
        self.by_moment.insert((at, number), held)?;
        self.count = number;
        Ok(())
    }

    /// The moment at which the next one is due. Takes no memory.
    pub fn next_due(&self) -> Option<u64>
        // It is the moment of the first that waits, and `None` where none waits.
        ensures first { result ≡ option_map (λ w. w.0) (slice_get self.now.waits 0) }
        // Nothing that waits is due before that moment.
        ensures none_before { IfSome result (λ at. AllByRecursion (λ w. at ≤ w.0) self.now.waits) }
    {
        match self.by_moment.first_key_value() {
            Some((key, _)) => Some(key.0),
            None => None,
        }
    }

    /// Takes the one that is due first, if it is due by that moment. Takes no memory.
    pub fn take_due(&mut self, now: u64) -> Option<Held>
        // What is taken was due, and was the first.
        ensures due { IfSome result (λ held. IsFirstDue now held self.old.waits self.new.waits) }
        // Where none is taken, none is due.
        ensures none { IfNone result (AllByRecursion (λ w. now < w.0) self.old.waits) }
        // Where none is taken, all wait as before.
        ensures unchanged { IfNone result (self.new ≡ self.old) }
    {
        let at = self.next_due()?;
        if now < at {
            return None;
        }
        match self.by_moment.pop_first() {
            Some((_, held)) => Some(held),
            None => None,
        }
    }
}
