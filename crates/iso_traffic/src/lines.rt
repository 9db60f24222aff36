//! The connections to the host.

use crate::connection::{Connection, State};
use iso_tally::{Tally, add_one};
use std::alloc::{AllocError, Global};
use std::io::{Read, Write};

/// How long it takes until a connection that was lost is asked for again, in milliseconds.
pub(crate) const PAUSE: u64 = 100;

/// How many writes a connection has in one turn.
pub(crate) const WRITES: usize = 64;

/// The place behind another, of so many; behind the last one comes the first.
fn following(place: usize, count: usize) -> usize {
    let next = place.saturating_add(1);
    if next < count { next } else { 0 }
}

/// One place for a connection.
#[derive(Drop)]
struct Place<S> {
    connection: Option<Connection<S>>,
    /// From when on it may be asked for, in milliseconds.
    from: u64,
}

/// The connections to the host, at fixed places.
#[derive(Drop)]
pub(crate) struct Lines<S> {
    alloc: Global,
    places: Vec<Place<S>>,
    /// The place at which the next order goes out, or behind it.
    next: usize,
    /// How many are open.
    open: usize,
}

impl<S: Read + Write + Drop> Lines<S> {
    /// So many places, without a connection.
    pub fn new(alloc: Global, count: usize) -> Result<Lines<S>, AllocError> {
        let mut places = Vec::new(alloc);
        for _ in 0..count {
            places.push(Place {
                connection: None,
                from: 0,
            })?;
        }
        Ok(Lines {
            alloc,
            places,
            next: 0,
            open: 0,
        })
    }

    /// How many places there are.
    pub fn len(&self) -> usize {
        self.places.len()
    }

    /// How many connections are open.
    pub fn open(&self) -> usize {
        self.open
    }

    /// Whether a connection is to be asked for at a place, at a moment.
    pub fn is_due(&self, place: usize, now: u64) -> bool {
        match self.places.get(place) {
            Some(at) => at.connection.is_none() && at.from <= now,
            None => false,
        }
    }

    /// The connection at a place.
    pub fn get_mut(&mut self, place: usize) -> Option<&mut Connection<S>> {
        match self.places.get_mut(place) {
            Some(at) => at.connection.as_mut(),
            None => None,
        }
    }

    /// A connection is asked for at a place.
    pub fn ask(&mut self, place: usize, stream: S) {
        let connection = Connection::new(self.alloc, stream);
        if let Some(at) = self.places.get_mut(place) {
            at.connection = Some(connection);
        }
    }

    /// Something may have come at a place, or it may take bytes again: whether its end came too.
    pub fn notice(&mut self, place: usize, ends: bool) {
        if let Some(connection) = self.get_mut(place) {
            connection.may_have_come = true;
            connection.is_ending = connection.is_ending || ends;
            connection.may_take = true;
        }
    }

    /// Whether at any place something is left to be read without a further event.
    pub fn goes_on(&self) -> bool {
        self.places.iter().any(|at| match &at.connection {
            Some(connection) => connection.may_have_come && connection.state == State::Open,
            None => false,
        })
    }

    /// From when on a connection may be asked for again, in milliseconds, at the place that is first.
    pub fn next_due(&self) -> Option<u64> {
        let mut first = None;
        for at in &self.places {
            if at.connection.is_none() {
                first = Some(match first {
                    Some(before) => at.from.min(before),
                    None => at.from,
                });
            }
        }
        first
    }

    /// The host took the connection that was asked for.
    pub fn opens(&mut self, place: usize, tally: &mut Tally) {
        let mut opens = false;
        if let Some(connection) = self.get_mut(place)
            && connection.state == State::Asked
        {
            connection.state = State::Open;
            opens = true;
        }
        if opens {
            self.open = self.open.saturating_add(1);
            add_one(&mut tally.connected);
        }
    }

    /// There is no connection at a place any more: it is asked for again after a pause.
    pub fn drop_at(&mut self, place: usize, now: u64) {
        let mut was_open = false;
        if let Some(at) = self.places.get_mut(place) {
            was_open = match &at.connection {
                Some(connection) => connection.state != State::Asked,
                None => false,
            };
            at.connection = None;
            at.from = now.saturating_add(PAUSE);
        }
        if was_open {
            self.open = self.open.saturating_sub(1);
        }
    }

    /// The place of the next connection on which an order goes out, in turn.
    pub fn next_open(&mut self) -> Option<usize> {
        let count = self.places.len();
        for _ in 0..count {
            let place = self.next;
            self.next = following(place, count);
            if let Some(at) = self.places.get(place)
                && let Some(connection) = &at.connection
                && connection.is_open()
            {
                return Some(place);
            }
        }
        None
    }
}
