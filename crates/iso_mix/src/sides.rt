//! What is asked beside purchases, and what was answered.
ghost use Rattle.std.specs.Prelude.{◌≡◌, ◌≤◌, ◌↔◌, ◌++◌, ◌∷◌, [], ℕ, List, IsTrue};
ghost use Rattle.std.specs.Prelude.{IfOk, OnErr, OnOk, IfSome, length, max, option_map, slice_get};
ghost use Rattle.std.specs.List.{AllByRecursion};
ghost use Rattle.iso_waits.specs.Waits.{moment_after};
ghost use Rattle.iso_mix.specs.declared.asked.Asked.{Asked};
ghost use Rattle.iso_mix.specs.Asked.{asked_at};
ghost use Rattle.iso_mix.specs.Begun.{Begins, EndsOrNot, OpensOrNot};
ghost use Rattle.iso_mix.specs.Book.{AreAllAnswered, HasNoKey, IsKept, sides_in, waiting_in};
ghost use Rattle.iso_mix.specs.Book.{asked_again, due_order, sides_heard, waiting_heard};
ghost use Rattle.iso_mix.specs.Counts.{counts_of};
ghost use Rattle.iso_mix.specs.Hearing.{hearing_of};
ghost use Rattle.iso_mix.specs.Taken.{taken_from};

use crate::asked::{
    Side, asked_at, is_free_at, order_at, place_of, push_opened, put_code, put_follower,
};
use crate::counts::{Counts, counts_of};
use crate::draft::Draft;
use crate::hearing::{Hearing, hearing_of};
use crate::mix::Kind;
use crate::orders::{follower_at, opening_order};
use crate::taken::taken_from;
use iso_order::{Order, Told};
use iso_waits::laws::who_waits;
use iso_waits::{Due, first_of, is_empty, leave_out, moment_after, put_off, wait};
use std::alloc::{AllocError, Global};
use std::collections::VecDeque;

/// One more than the largest trace number.
const ABOVE: u32 = 1_000_000;

/// The place that is ready first.
fn front_of(ready: &VecDeque<usize>) -> Option<usize> {
    ready.get(0).copied()
}

/// The orders of what is asked beside purchases, their first answers, and until when the others wait for one. Moments are
/// in milliseconds, of any clock that goes on; one before the latest that was told counts as the latest.
#[derive(Drop)]
pub struct Sides {
    made: Vec<Side>,
    waiting: VecDeque<Due>,
    /// The places of holds that were granted, in that order. A hold leaves it once it was to be followed.
    ready: VecDeque<usize>,
    /// How long an answer is waited for.
    patience: u64,
    /// The latest moment that was told.
    clock: u64,
}

impl Sides {
    /// None yet. Each answer is waited for so long, in milliseconds. Takes no memory.
    pub fn new(alloc: Global, patience: u64) -> Sides
        // No order was made yet.
        ensures none { sides_in result ≡ [] }
        // The books are in order: each order lies under its own trace number, and each one without
        // an answer waits once, the one due first in front.
        ensures kept { IsKept result }
    {
        Sides {
            made: Vec::new(alloc),
            waiting: VecDeque::new(alloc),
            ready: VecDeque::new(alloc),
            patience,
            clock: 0,
        }
    }

    /// A hold begins, or an inquiry.
    fn open_one(&mut self, kind: Kind, draft: &Draft, now: u64) -> Result<Option<Order>, AllocError>
        ensures kept { IsKept self.old → IsKept self.new }
        ensures opens { IfOk result (λ o.
            OpensOrNot kind draft.now (sides_in self.old) (sides_in self.new) o) }
        ensures unchanged { OnErr result (sides_in self.new ≡ sides_in self.old) }
        ensures waiting { OnErr result (waiting_in self.new ≡ waiting_in self.old) }
    {
        // the laws of those who wait, for the prover
        who_waits();
        let Some(order) = opening_order(kind, draft, self.made.len()) else {
            return Ok(None);
        };
        self.made.reserve(1)?;
        self.waiting.reserve(1)?;
        self.clock = self.clock.max(now);
        let at = moment_after(self.clock, self.patience);
        push_opened(&mut self.made, draft.place, &order);
        wait(&mut self.waiting, order.key().stan, at);
        Ok(Some(order))
    }

    /// A completion or a partial reversal begins, if a hold is there that can be followed.
    fn follow_one(
        &mut self,
        kind: Kind,
        draft: &Draft,
        now: u64,
    ) -> Result<Option<Order>, AllocError>
        ensures kept { IsKept self.old → IsKept self.new }
        ensures ends { IfOk result (λ o.
            EndsOrNot kind draft.now (sides_in self.old) (sides_in self.new) o) }
        ensures unchanged { OnErr result (sides_in self.new ≡ sides_in self.old) }
        ensures waiting { OnErr result (waiting_in self.new ≡ waiting_in self.old) }
    {
        // the laws of those who wait, for the prover
        who_waits();
        let Some(place) = front_of(&self.ready) else {
            return Ok(None);
        };
        self.waiting.reserve(1)?;
        self.ready.pop_front();
        let Some(order) = follower_at(&self.made, place, kind, draft) else {
            return Ok(None);
        };
        self.clock = self.clock.max(now);
        let at = moment_after(self.clock, self.patience);
        put_follower(&mut self.made, place, &order);
        wait(&mut self.waiting, order.key().stan, at);
        Ok(Some(order))
    }

    /// An order begins at a moment, and is to be sent. A completion or a partial reversal falls on a hold that was granted
    /// and that nothing follows; where none is there, a hold begins in its place, and so it does for `Purchase`. Its trace
    /// number is new: two for each hold and each inquiry, from 999,999 downwards and above those of others. `None` where
    /// none is left, or what was drawn is no order. An `Err` leaves all as it was.
    pub fn begin(
        &mut self,
        kind: Kind,
        draft: &Draft,
        now: u64,
    ) -> Result<Option<Order>, AllocError>
        // Books in order stay so: each order lies under its own trace number, and each one without
        // an answer waits once, the one due first in front.
        ensures kept { IsKept self.old → IsKept self.new }
        // A hold or an inquiry begins under the next trace number, or what follows a granted hold
        // that nothing followed; nothing only where no number is left or no message can carry it.
        ensures begins { IfOk result (λ o.
            Begins kind draft.now (sides_in self.old) (sides_in self.new) o) }
        // No order had the trace number.
        ensures new_number { IfOk result (λ r. IfSome r (λ o.
            asked_at (sides_in self.old) o.key.stan ≡ None)) }
        // Without memory the orders stay as they were.
        ensures unchanged { OnErr result (sides_in self.new ≡ sides_in self.old) }
    {
        if let Kind::Complete | Kind::Undo = kind {
            if let Some(order) = self.follow_one(kind, draft, now)? {
                return Ok(Some(order));
            }
        }
        self.open_one(kind, draft, now)
    }

    /// The order that waits first, if it is due at a moment: it is to be sent again, and waits again behind all others.
    /// Takes no memory.
    pub fn next(&mut self, now: u64) -> Option<Order>
        // Books in order stay so: each order lies under its own trace number, and each one without
        // an answer waits once, the one due first in front.
        ensures kept { IsKept self.old → IsKept self.new }
        // The order that waits first is given where it is due at this moment, or at the latest one
        // that was told; else none.
        ensures order { result
            ≡ due_order (max self.old.clock now) (waiting_in self.old) (sides_in self.old) }
        // An order that is due waits again, behind all others and as long as any answer is waited
        // for; where none is due, all wait as before.
        ensures waiting { let clock = max self.old.clock now in waiting_in self.new
            ≡ asked_again clock (moment_after clock self.old.patience) (waiting_in self.old) }
        // The orders and their answers stay as they were.
        ensures sides { sides_in self.new ≡ sides_in self.old }
    {
        // the laws of those who wait, for the prover
        who_waits();
        self.clock = self.clock.max(now);
        let Some(first) = first_of(&self.waiting) else {
            return None;
        };
        if self.clock < first.at {
            return None;
        }
        let at = moment_after(self.clock, self.patience);
        put_off(&mut self.waiting, at);
        order_at(&self.made, first.stan)
    }

    /// The first answer came to the order of a trace number.
    fn take(&mut self, stan: u32, code: u8) -> Result<(), AllocError>
        ensures sides { OnOk result (sides_in self.new
            ≡ sides_heard Hearing.First stan code (sides_in self.old)) }
        ensures waiting { OnOk result (waiting_in self.new
            ≡ waiting_heard Hearing.First stan (waiting_in self.old)) }
        ensures clock { self.new.clock ≡ self.old.clock }
        ensures patience { self.new.patience ≡ self.old.patience }
        ensures unchanged { OnErr result (sides_in self.new ≡ sides_in self.old) }
        ensures still { OnErr result (waiting_in self.new ≡ waiting_in self.old) }
    {
        self.ready.reserve(1)?;
        put_code(&mut self.made, stan, code);
        leave_out(&mut self.waiting, stan);
        let place = place_of(stan);
        if is_free_at(&self.made, place) {
            self.ready.push_back_reserved(place);
        }
        Ok(())
    }

    /// Takes an answer: the key and code of a response. The first one to an order counts, and the order waits no longer; each
    /// later one changes nothing, and so does one that says that nothing was done (94, 96), or that is to another key. An
    /// `Err` leaves all as it was: the answer may be heard again.
    pub fn hear(&mut self, told: &Told) -> Result<Hearing, AllocError>
        // Books in order stay so: each order lies under its own trace number, and each one without
        // an answer waits once, the one due first in front.
        ensures kept { IsKept self.old → IsKept self.new }
        // It tells whether the answer is the first to the order of its trace number, nothing new
        // (94 and 96 too), another code than the first, or not to that order's key.
        ensures comes { IfOk result (λ h. h ≡ hearing_of
            (asked_at (sides_in self.old) told.now.key.stan) told.now.key told.now.code) }
        // The first answer to an order is kept with it; any other answer
        // leaves all orders as they were.
        ensures sides { IfOk result (λ h. sides_in self.new
            ≡ sides_heard h told.now.key.stan told.now.code (sides_in self.old)) }
        // An order that got its first answer waits no longer; any other answer leaves
        // all waiting as they were.
        ensures waiting { IfOk result (λ h. waiting_in self.new
            ≡ waiting_heard h told.now.key.stan (waiting_in self.old)) }
        // In books that are in order, `Foreign` is told only where no order has that key.
        ensures foreign { result ≡ Ok Hearing.Foreign → IsKept self.old
            → HasNoKey (sides_in self.old) told.now.key }
        // Without memory the orders and their answers stay as they were.
        ensures unchanged { OnErr result (sides_in self.new ≡ sides_in self.old) }
    {
        // the law that all others go on to wait, for the prover
        who_waits();
        let asked = asked_at(&self.made, told.key.stan);
        let hearing = hearing_of(&asked, &told.key, told.code);
        match hearing {
            Hearing::First => {
                self.take(told.key.stan, told.code)?;
                Ok(Hearing::First)
            }
            Hearing::Known => Ok(Hearing::Known),
            Hearing::Differs => Ok(Hearing::Differs),
            Hearing::Foreign => Ok(Hearing::Foreign),
        }
    }

    /// The moment at which the next order is due: no other is due before. `None` where all are answered. Takes no memory.
    pub fn next_due(&self) -> Option<u64>
        // It is the moment at which the order is due that waits first; `None` where no order waits.
        ensures first { result ≡ option_map (λ d. d.at) (slice_get (waiting_in self.now) 0) }
        // In books that are in order, no order that waits is due before that moment.
        ensures none_before { IfSome result (λ at. IsKept self.now
            → AllByRecursion (λ d. at ≤ d.at) (waiting_in self.now)) }
    {
        // the law that no other is due before the one in front, for the prover
        who_waits();
        match first_of(&self.waiting) {
            Some(first) => Some(first.at),
            None => None,
        }
    }

    /// How many orders wait for an answer. Takes no memory.
    pub fn open(&self) -> usize
        ensures { result ≡ length (waiting_in self.now) }
    {
        self.waiting.len()
    }

    /// Whether each order has its answer. Takes no memory.
    pub fn is_closed(&self) -> bool
        // It is so exactly where no order waits.
        ensures none { IsTrue result ↔ (waiting_in self.now ≡ []) }
        // In books that are in order, it is so exactly where each order has its answer.
        ensures closed { IsKept self.now → (IsTrue result ↔ AreAllAnswered (sides_in self.now)) }
    {
        // the law that none waits where no order does, for the prover
        who_waits();
        is_empty(&self.waiting)
    }

    /// From this one on upwards trace numbers are taken, or kept for what follows a hold. Takes no memory.
    pub fn lowest(&self) -> u32
        // No order has a lower trace number.
        ensures { (stan : ℕ) (a : Asked) → asked_at (sides_in self.now) stan ≡ Some a
            → result ≤ stan }
    {
        ABOVE - self.made.len().saturating_mul(2).min(ABOVE as usize) as u32
    }

    /// What is taken from the account of a place: for each hold of it that was granted, what its follower that was granted
    /// completed or left, or else what is held. Takes no memory, and time by how many orders there are.
    pub fn moved(&self, place: usize) -> u128
        ensures { result ≡ taken_from place (sides_in self.now) }
    {
        taken_from(&self.made, place)
    }

    /// How far the orders of a kind got. Takes no memory, and time by how many orders there are.
    pub fn counts(&self, kind: Kind) -> Counts
        // It tells how many orders of the kind wait for an answer, were granted with 00, and were
        // refused with another code.
        ensures { result ≡ counts_of kind (sides_in self.now) }
    {
        counts_of(&self.made, kind)
    }
}
