//! What is done with what came.

use crate::connection::State;
use crate::engine::Engine;
use crate::fault::TrafficFault;
use crate::moment::Moment;
use iso_counting::count_heard;
use iso_drive::{Driver, Heard};
use iso_frames::{Read as Reading, Taken, add_digests, take_frames};
use iso_plan::{Came, Comes, Fate, Held};
use iso_restarts::NoteLog;
use iso_tally::add_one;
use std::io::{Read, Write};

/// How many pieces of one connection are read in one turn.
const READS: usize = 16;

impl<S: Read + Write + Drop> Engine<'_, S> {
    /// The driver hears an answer.
    pub fn hear<L: NoteLog>(
        &mut self,
        driver: &mut Driver<L>,
        came: &Came,
        now: Moment,
    ) -> Result<(), TrafficFault> {
        let told = &came.told;
        if !self.plan.mix.is_none() && self.hear_beside(told)? {
            return Ok(());
        }
        let Ok(heard) = driver.heard(told) else {
            return Err(TrafficFault::Notes);
        };
        let differs = self.sendings.differs(told.key.stan, came.digest);
        count_heard(&mut self.tally, heard, differs);
        if let Heard::Closed { .. } = heard {
            if let Some(micros) = self.sendings.latency(told.key.stan, now.micros) {
                self.latencies.add(micros)?;
            }
            self.sendings.close(told.key.stan, came.digest);
        }
        Ok(())
    }

    /// An answer comes so much later, in milliseconds.
    fn hear_later<L: NoteLog>(
        &mut self,
        driver: &mut Driver<L>,
        came: &Came,
        delay: u64,
        now: Moment,
    ) -> Result<(), TrafficFault> {
        if delay == 0 {
            return self.hear(driver, came, now);
        }
        add_one(&mut self.tally.delayed);
        self.late
            .hold(now.millis().saturating_add(delay), Held::Came(*came))?;
        Ok(())
    }

    /// An answer has that fate.
    fn hear_by<L: NoteLog>(
        &mut self,
        driver: &mut Driver<L>,
        came: &Came,
        fate: Fate,
        now: Moment,
    ) -> Result<(), TrafficFault> {
        match fate.comes {
            Comes::Never => {
                add_one(&mut self.tally.lost);
                Ok(())
            }
            Comes::Once(delay) => self.hear_later(driver, came, delay, now),
            Comes::Twice(first, second) => {
                add_one(&mut self.tally.repeated);
                self.hear_later(driver, came, first, now)?;
                self.hear_later(driver, came, second, now)
            }
        }
    }

    /// Takes what a frame told: whether its connection is cut behind it.
    fn take<L: NoteLog>(
        &mut self,
        driver: &mut Driver<L>,
        read: Reading,
        digest: u64,
        now: Moment,
    ) -> Result<bool, TrafficFault> {
        match read {
            Reading::Unreadable => {
                add_one(&mut self.tally.unreadable);
                Ok(false)
            }
            Reading::Answer(told, balance) => {
                if self.inquiries.hear(&told, balance) {
                    add_one(&mut self.tally.answers);
                    return Ok(false);
                }
                let fate = self.chance.coming.next();
                self.hear_by(driver, &Came { told, digest }, fate, now)?;
                Ok(fate.cuts)
            }
        }
    }

    /// Takes what the frames told: whether their connection is cut behind one of them. What came behind that is lost.
    fn take_all<L: NoteLog>(
        &mut self,
        driver: &mut Driver<L>,
        taken: &Taken,
        now: Moment,
    ) -> Result<bool, TrafficFault> {
        for (told, digest) in taken.read.iter().zip(&taken.digests) {
            if self.take(driver, *told, *digest, now)? {
                return Ok(true);
            }
        }
        Ok(false)
    }

    /// Closes the connection at a place and counts why, where it is cut, or a header can't be read.
    fn end_at(&mut self, place: usize, is_cut: bool, is_bad: bool, now: Moment) {
        if is_cut {
            add_one(&mut self.tally.cut);
        } else if is_bad {
            add_one(&mut self.tally.bad_frames);
        }
        if is_cut || is_bad {
            self.lines.drop_at(place, now.millis());
        }
    }

    /// Takes the frames that came at a place, and what they told, in the lists that are lent. A header that can't be read closes
    /// the connection, and so does a cut.
    fn hear_frames<L: NoteLog>(
        &mut self,
        driver: &mut Driver<L>,
        place: usize,
        taken: &mut Taken,
        now: Moment,
    ) -> Result<(), TrafficFault> {
        let Some(connection) = self.lines.get_mut(place) else {
            return Ok(());
        };
        let header = self.plan.header;
        add_digests(header, connection.came.as_slice(), &mut taken.digests)?;
        let is_bad = take_frames(
            self.alloc,
            self.plan.table,
            header,
            &mut self.text,
            &mut connection.came,
            &mut taken.read,
        )?;
        let is_cut = self.take_all(driver, taken, now)?;
        taken.clear();
        self.end_at(place, is_cut, is_bad, now);
        Ok(())
    }

    /// Reads once at a place: whether more may have come.
    fn read_once(&mut self, place: usize) -> Result<bool, TrafficFault> {
        let Some(connection) = self.lines.get_mut(place) else {
            return Ok(false);
        };
        if !connection.may_have_come || connection.state == State::Asked {
            return Ok(false);
        }
        connection.read()?;
        Ok(connection.may_have_come && connection.state != State::Closed)
    }

    /// Reads at a place what came, and takes its frames.
    fn read_at<L: NoteLog>(
        &mut self,
        driver: &mut Driver<L>,
        place: usize,
        taken: &mut Taken,
        now: Moment,
    ) -> Result<(), TrafficFault> {
        for _ in 0..READS {
            let more = self.read_once(place)?;
            self.hear_frames(driver, place, taken, now)?;
            if !more {
                return Ok(());
            }
        }
        Ok(())
    }

    /// Drops the connection at a place, if it was closed.
    pub fn drop_closed(&mut self, place: usize, now: Moment) {
        let is_closed = match self.lines.get_mut(place) {
            Some(connection) => connection.state == State::Closed,
            None => false,
        };
        if is_closed {
            add_one(&mut self.tally.closed);
            self.lines.drop_at(place, now.millis());
        }
    }

    /// Reads what came on all connections, and takes the frames.
    pub fn read_all<L: NoteLog>(
        &mut self,
        driver: &mut Driver<L>,
        now: Moment,
    ) -> Result<(), TrafficFault> {
        let mut taken = std::mem::replace(&mut self.taken, Taken::new(self.alloc));
        for place in 0..self.lines.len() {
            self.read_at(driver, place, &mut taken, now)?;
            self.drop_closed(place, now);
        }
        self.taken = taken;
        Ok(())
    }
}
