//! What is asked beside purchases.

use crate::engine::Engine;
use crate::fault::TrafficFault;
use crate::moment::Moment;
use iso_counting::count_beside;
use iso_drive::Driver;
use iso_mix::{Draft, Hearing, Kind};
use iso_order::{MOST_STAN, Money, Order, Told};
use iso_restarts::NoteLog;
use iso_tally::{Mixed, Tally, add_one};
use std::alloc::AllocError;
use std::io::{Read, Write};

/// A hundred transactions are drawn from.
const LAST_DRAW: u64 = 99;

impl<S: Read + Write + Drop> Engine<'_, S> {
    /// The trace numbers up to this one are those of the driver, of the reversals that it may yet make, and of what is
    /// asked for balances.
    fn highest<L: NoteLog>(&self, driver: &Driver<L>) -> u32 {
        let made = (self.highest as usize).saturating_add(driver.open());
        let asked = self.plan.buyers.len().saturating_mul(2);
        made.max(asked).min(MOST_STAN as usize) as u32
    }

    /// Whether trace numbers are left for a purchase and its reversal.
    fn has_room<L: NoteLog>(&self, driver: &Driver<L>) -> bool {
        self.highest(driver).saturating_add(2) < self.sides.lowest()
    }

    /// Notes the trace numbers of orders of the driver.
    pub fn note_numbers(&mut self, orders: &[Order]) {
        for order in orders {
            self.highest = self.highest.max(order.key().stan);
        }
    }

    /// The kind of the next transaction, as it is drawn.
    fn draw_kind(&mut self) -> Kind {
        let draw = self.chance.draw.amount(0, LAST_DRAW).min(LAST_DRAW) as u32;
        self.plan.mix.kind_of(draw)
    }

    /// Begins an order that is no purchase, on an account: whether it did. It goes out with what is due. Where no trace
    /// number is left, nothing begins any more.
    fn begin_beside<L: NoteLog>(
        &mut self,
        driver: &Driver<L>,
        kind: Kind,
        place: usize,
        money: Money,
        now: Moment,
    ) -> Result<bool, TrafficFault> {
        let draft = Draft {
            place,
            money,
            share: self.chance.draw.amount(0, u64::MAX),
            sent: now.sent,
            acquirer: self.plan.acquirer,
            highest: self.highest(driver),
        };
        self.fresh.reserve(1)?;
        let Some(order) = self.sides.begin(kind, &draft, now.millis())? else {
            self.pace.count = 0;
            return Ok(false);
        };
        self.fresh.push(order)?;
        add_one(&mut self.tally.begun);
        Ok(true)
    }

    /// Begins a transaction of the kind that is drawn, on an account: whether it did.
    pub fn begin_mixed<L: NoteLog>(
        &mut self,
        driver: &mut Driver<L>,
        place: usize,
        money: Money,
        now: Moment,
    ) -> Result<bool, TrafficFault> {
        let kind = self.draw_kind();
        if kind != Kind::Purchase {
            return self.begin_beside(driver, kind, place, money, now);
        }
        if !self.has_room(driver) {
            self.pace.count = 0;
            return Ok(false);
        }
        self.buy(driver, &money, now)
    }

    /// Sends what began.
    fn send_fresh(&mut self, now: Moment) -> Result<(), TrafficFault> {
        let fresh = std::mem::replace(&mut self.fresh, Vec::new(self.alloc));
        for order in &fresh {
            self.send(order, now)?;
        }
        Ok(())
    }

    /// Sends again what no answer came to in time, where a connection is open.
    fn send_again(&mut self, now: Moment) -> Result<(), TrafficFault> {
        if self.lines.open() == 0 {
            return Ok(());
        }
        for _ in 0..self.sides.open() {
            let Some(order) = self.sides.next(now.millis()) else {
                return Ok(());
            };
            add_one(&mut self.tally.again);
            self.send(&order, now)?;
        }
        Ok(())
    }

    /// Sends what began, and what no answer came to in time.
    pub fn send_beside(&mut self, now: Moment) -> Result<(), TrafficFault> {
        self.send_fresh(now)?;
        self.send_again(now)
    }

    /// Takes an answer to an order that is no purchase: whether it is one.
    pub fn hear_beside(&mut self, told: &Told) -> Result<bool, TrafficFault> {
        let hearing = self.sides.hear(told)?;
        count_beside(&mut self.tally, hearing);
        Ok(hearing != Hearing::Foreign)
    }

    /// How far all got that aren't purchases, where a mix was asked.
    pub fn mixed(&self) -> Option<Mixed> {
        if self.plan.mix.is_none() {
            return None;
        }
        Some(Mixed {
            mix: self.plan.mix,
            holds: self.sides.counts(Kind::Hold),
            completions: self.sides.counts(Kind::Complete),
            inquiries: self.sides.counts(Kind::Inquiry),
            undone: self.sides.counts(Kind::Undo),
        })
    }

    /// What they took from each account, in the order of the plan.
    pub fn moved(&self) -> Result<Vec<u128>, AllocError> {
        let mut moved = Vec::new(self.alloc);
        for place in 0..self.plan.buyers.len() {
            moved.push(self.sides.moved(place))?;
        }
        Ok(moved)
    }
}
