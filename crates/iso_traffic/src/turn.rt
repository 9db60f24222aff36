//! A turn of the engine.
ghost use Rattle.std.specs.Prelude.{◌≡◌, true};
ghost use Rattle.iso_acquirer.specs.Acquirer.{IsFair};

use crate::engine::Engine;
use crate::fault::TrafficFault;
use crate::moment::Moment;
use crate::watch::Progress;
use iso_acquirer::AcqFault;
use iso_drive::Driver;
use iso_order::{MOST_AMOUNT, Money, Order, currency_of};
use iso_plan::{Held, due_purchases, next_moment};
use iso_restarts::{Fault, NoteLog};
use iso_tally::add_one;
use std::io::{Read, Write};

/// The longest that a turn waits for events, in milliseconds.
const LONGEST_WAIT: u64 = 50;

/// The largest number of ten digits.
const MOST_SENT: u64 = 9_999_999_999;

/// Whether an amount, a currency and a time can stand in a purchase.
fn is_fair(money: &Money, sent: u64) -> bool
    ensures { result ≡ true → IsFair money.now.amount money.now.currency sent }
{
    1 <= money.amount
        && money.amount <= MOST_AMOUNT
        && currency_of(&money.currency).is_some()
        && sent <= MOST_SENT
}

/// The sooner of two moments.
fn sooner(one: Option<u64>, other: Option<u64>) -> Option<u64> {
    match (one, other) {
        (Some(one), Some(other)) => Some(one.min(other)),
        (Some(at), None) | (None, Some(at)) => Some(at),
        (None, None) => None,
    }
}

/// The fault of a call on the notes.
fn noted(fault: Fault) -> TrafficFault {
    match fault {
        Fault::Memory => TrafficFault::Memory,
        Fault::Refused(_) | Fault::Unkept | Fault::Log | Fault::Damaged => TrafficFault::Notes,
    }
}

impl<S: Read + Write + Drop> Engine<'_, S> {
    /// Delivers what was held back and is due.
    fn deliver<L: NoteLog>(
        &mut self,
        driver: &mut Driver<L>,
        now: Moment,
    ) -> Result<(), TrafficFault> {
        for _ in 0..u64::MAX {
            match self.late.take_due(now.millis()) {
                None => return Ok(()),
                Some(Held::Came(came)) => self.hear(driver, &came, now)?,
                Some(Held::Goes(frame, cuts)) => self.go(frame.as_slice(), cuts)?,
            }
        }
        Ok(())
    }

    /// An account, by its place, and an amount, as they are drawn.
    fn draw_money(&mut self) -> Option<(usize, Money)> {
        let count = self.plan.buyers.len();
        let (least, most) = (self.plan.least, self.plan.most);
        if count == 0 || least > most {
            return None;
        }
        let place = self.chance.draw.place(count);
        let amount = self.chance.draw.amount(least, most);
        let buyer = self.plan.buyers[place];
        let currency = buyer.currency;
        let money = Money {
            pan: buyer.pan,
            amount,
            currency,
        };
        Some((place, money))
    }

    /// Begins a transaction: whether it did. Without a mix it is a purchase.
    fn begin<L: NoteLog>(
        &mut self,
        driver: &mut Driver<L>,
        now: Moment,
    ) -> Result<bool, TrafficFault> {
        let Some((place, money)) = self.draw_money() else {
            return Ok(false);
        };
        if self.plan.mix.is_none() {
            self.buy(driver, &money, now)
        } else {
            self.begin_mixed(driver, place, money, now)
        }
    }

    /// Begins a purchase: whether it did. Where no trace number is left, none begins any more.
    pub fn buy<L: NoteLog>(
        &mut self,
        driver: &mut Driver<L>,
        money: &Money,
        now: Moment,
    ) -> Result<bool, TrafficFault> {
        if !is_fair(money, now.sent) {
            return Ok(false);
        }
        match driver.begin(money, now.sent, now.millis()) {
            Ok(stan) => {
                self.highest = self.highest.max(stan);
                add_one(&mut self.tally.begun);
                Ok(true)
            }
            Err(Fault::Refused(AcqFault::NoMoreTrace)) => {
                self.pace.count = 0;
                Ok(false)
            }
            Err(fault) => Err(noted(fault)),
        }
    }

    /// How many transactions are open.
    fn open_with<L: NoteLog>(&self, driver: &Driver<L>) -> usize {
        driver.open().saturating_add(self.sides.open())
    }

    /// Begins the transactions that are due.
    fn begin_due<L: NoteLog>(
        &mut self,
        driver: &mut Driver<L>,
        now: Moment,
    ) -> Result<(), TrafficFault> {
        let open = self.open_with(driver);
        let due = due_purchases(&self.pace, now.millis(), self.tally.begun, open);
        for _ in 0..due {
            if !self.begin(driver, now)? {
                return Ok(());
            }
        }
        Ok(())
    }

    /// What the driver has to send at a moment, once its notes are kept: what is due is asked again or reversed, and the
    /// purchases that are due begin.
    fn orders<L: NoteLog>(
        &mut self,
        driver: &mut Driver<L>,
        now: Moment,
    ) -> Result<Vec<Order>, TrafficFault> {
        if self.lines.open() > 0 {
            if let Err(fault) = driver.wake(now.millis()) {
                return Err(noted(fault));
            }
            self.begin_due(driver, now)?;
        }
        match driver.keep() {
            Ok(orders) => {
                if !self.plan.mix.is_none() {
                    self.note_numbers(&orders);
                }
                Ok(orders)
            }
            Err(fault) => Err(noted(fault)),
        }
    }

    /// Hears what came on all connections, once it is known where something came, and what was held back and is due.
    pub fn hear_all<L: NoteLog>(
        &mut self,
        driver: &mut Driver<L>,
        now: Moment,
    ) -> Result<(), TrafficFault> {
        self.read_all(driver, now)?;
        self.deliver(driver, now)
    }

    /// Sends what is due: the orders of the driver, once their notes are kept, and inquiries.
    pub fn send_due<L: NoteLog>(
        &mut self,
        driver: &mut Driver<L>,
        now: Moment,
    ) -> Result<(), TrafficFault> {
        let orders = self.orders(driver, now)?;
        self.send_all(&orders, now)?;
        if !self.plan.mix.is_none() {
            self.send_beside(now)?;
        }
        self.send_inquiries(now)?;
        self.write_all(now);
        Ok(())
    }

    /// Whether no purchase begins any more.
    pub fn is_closing(&self, now: Moment) -> bool {
        now.millis() >= self.pace.closing || self.tally.begun >= u64::from(self.pace.count)
    }

    /// The moment at which the next purchase begins by the rate, in milliseconds.
    fn next_purchase(&self) -> Option<u64> {
        let after = next_moment(self.pace.rate, self.tally.begun)?;
        Some(self.pace.opening.saturating_add(after))
    }

    /// The moment at which the driver has something to send without an event, in milliseconds.
    fn next_order<L: NoteLog>(&self, driver: &Driver<L>, now: Moment) -> Option<u64> {
        if self.lines.open() == 0 {
            return None;
        }
        let begins = if self.is_closing(now) || self.open_with(driver) >= self.pace.most_open {
            None
        } else {
            self.next_purchase()
        };
        sooner(sooner(driver.next_due(), self.sides.next_due()), begins)
    }

    /// How long the next turn waits for events at most, in milliseconds.
    pub fn pause<L: NoteLog>(&self, driver: &Driver<L>, now: Moment) -> u64 {
        if self.lines.goes_on() {
            return 0;
        }
        let held = sooner(self.late.next_due(), self.lines.next_due());
        match sooner(held, self.next_order(driver, now)) {
            Some(at) => at.saturating_sub(now.millis()).min(LONGEST_WAIT),
            None => LONGEST_WAIT,
        }
    }

    /// How far it is.
    pub fn progress<L: NoteLog>(&self, driver: &Driver<L>, now: Moment) -> Progress {
        Progress {
            elapsed: now.millis(),
            begun: self.tally.begun,
            open: self.open_with(driver),
            sent: self.tally.sent,
            answers: self.tally.answers,
            connected: self.lines.open(),
        }
    }
}
