//! What goes out.

use crate::connection::State;
use crate::engine::Engine;
use crate::fault::TrafficFault;
use crate::lines::WRITES;
use crate::moment::Moment;
use iso_frames::write_frame;
use iso_order::{MOST_STAN, Order};
use iso_plan::{Comes, Held, Inquiries};
use iso_tally::add_one;
use std::io::{Read, Write};

impl<S: Read + Write + Drop> Engine<'_, S> {
    /// A frame goes out on the next open connection, which may be cut behind it. Where none is open it is lost.
    pub fn go(&mut self, frame: &[u8], cuts: bool) -> Result<(), TrafficFault> {
        let Some(place) = self.lines.next_open() else {
            return Ok(());
        };
        if let Some(connection) = self.lines.get_mut(place) {
            connection.waiting.extend_from_slice(frame)?;
            if cuts {
                connection.state = State::Cut;
            }
        }
        add_one(&mut self.tally.sent);
        Ok(())
    }

    /// A frame goes out so much later, in milliseconds.
    fn go_later(
        &mut self,
        frame: &[u8],
        delay: u64,
        cuts: bool,
        now: Moment,
    ) -> Result<(), TrafficFault> {
        if delay == 0 {
            return self.go(frame, cuts);
        }
        add_one(&mut self.tally.delayed);
        let held = Held::Goes(Vec::from_slice(self.alloc, frame)?, cuts);
        self.late.hold(now.millis().saturating_add(delay), held)?;
        Ok(())
    }

    /// A frame goes out as its fate says.
    fn go_by_fate(&mut self, frame: &[u8], now: Moment) -> Result<(), TrafficFault> {
        let fate = self.chance.going.next();
        match fate.comes {
            Comes::Never => {
                add_one(&mut self.tally.lost);
                if fate.cuts {
                    self.go(&[], true)?;
                }
                Ok(())
            }
            Comes::Once(delay) => self.go_later(frame, delay, fate.cuts, now),
            Comes::Twice(first, second) => {
                add_one(&mut self.tally.repeated);
                self.go_later(frame, first, false, now)?;
                self.go_later(frame, second, fate.cuts, now)
            }
        }
    }

    /// Counts that an order is sent at a moment.
    fn count_sending(&mut self, order: &Order, now: Moment) -> Result<(), TrafficFault> {
        let key = order.key();
        let is_first = self.sendings.send(key.stan, now.micros)?;
        if is_first && key.class() == 4 {
            add_one(&mut self.tally.reversals);
        }
        if !is_first {
            add_one(&mut self.tally.again);
        }
        Ok(())
    }

    /// Writes the frame of an order, and has it go out as its fate says.
    pub fn send(&mut self, order: &Order, now: Moment) -> Result<(), TrafficFault> {
        let mut frame = std::mem::replace(&mut self.frame, Vec::new(self.alloc));
        let written = write_frame(
            self.alloc,
            self.plan.table,
            self.plan.header,
            order,
            &mut frame,
        );
        let went = match written {
            Ok(()) => self.go_by_fate(frame.as_slice(), now),
            Err(fault) => Err(TrafficFault::from(fault)),
        };
        self.frame = frame;
        went
    }

    /// Sends orders that are kept.
    pub fn send_all(&mut self, orders: &[Order], now: Moment) -> Result<(), TrafficFault> {
        for order in orders {
            self.count_sending(order, now)?;
            self.send(order, now)?;
        }
        Ok(())
    }

    /// Asks for the balance of each account from now on, before the first purchase.
    pub fn ask_before(&mut self, now: Moment) -> Result<(), TrafficFault> {
        let (acquirer, sent) = (self.plan.acquirer, now.sent);
        self.pace.opening = u64::MAX;
        self.inquiries.ask(self.plan.buyers, acquirer, sent, 0)?;
        Ok(())
    }

    /// What was asked for before the first purchase is done with: purchases begin.
    pub fn open(&mut self, now: Moment) -> Result<(), TrafficFault> {
        self.before = self.inquiries.balances(self.alloc)?;
        self.inquiries = Inquiries::none(self.alloc, self.plan.patience);
        self.pace.opening = now.millis();
        Ok(())
    }

    /// Asks for the balance of each account from now on, once all is closed: under other trace numbers than before.
    pub fn ask_after(&mut self, now: Moment) -> Result<(), TrafficFault> {
        let behind = self.plan.buyers.len().min(MOST_STAN as usize) as u32;
        let (acquirer, sent) = (self.plan.acquirer, now.sent);
        self.inquiries
            .ask(self.plan.buyers, acquirer, sent, behind)?;
        Ok(())
    }

    /// Sends the inquiries that are due, as they are: nothing is done to them.
    pub fn send_inquiries(&mut self, now: Moment) -> Result<(), TrafficFault> {
        for _ in 0..u64::MAX {
            if self.lines.open() == 0 {
                return Ok(());
            }
            let Some(order) = self.inquiries.next(now.millis()) else {
                return Ok(());
            };
            let mut frame = std::mem::replace(&mut self.frame, Vec::new(self.alloc));
            let written = write_frame(
                self.alloc,
                self.plan.table,
                self.plan.header,
                &order,
                &mut frame,
            );
            let went = match written {
                Ok(()) => self.go(frame.as_slice(), false),
                Err(fault) => Err(TrafficFault::from(fault)),
            };
            self.frame = frame;
            went?;
        }
        Ok(())
    }

    /// Writes what waits at a place, as far as the system takes it, and cuts the connection, if it is to be cut.
    fn write_at(&mut self, place: usize, now: Moment) {
        let Some(connection) = self.lines.get_mut(place) else {
            return;
        };
        for _ in 0..WRITES {
            if !connection.may_write() {
                break;
            }
            connection.write();
        }
        if connection.state == State::Cut {
            add_one(&mut self.tally.cut);
            self.lines.drop_at(place, now.millis());
        }
    }

    /// Writes what waits on all connections.
    pub fn write_all(&mut self, now: Moment) {
        for place in 0..self.lines.len() {
            self.write_at(place, now);
            self.drop_closed(place, now);
        }
    }
}
