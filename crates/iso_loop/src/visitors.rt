//! The visitors that come beside the peers, each with one request.

use iso_lines::{MOST_REQUEST, Pages, Visit, Visiting, lets_visit};
use slab::Slab;
use std::alloc::Global;
use std::io::{ErrorKind, Read, Write};

/// How many bytes of a visitor are read at once.
const REQUEST_PIECE: usize = 1_024;

/// How many reads and writes a visitor has in one turn.
const STEPS: usize = 64;

/// A visitor on a stream that doesn't wait.
#[derive(Drop)]
struct Visitor<S> {
    stream: S,
    request: Vec<u8>,
    answer: Vec<u8>,
    /// How many bytes of the answer were written.
    written: usize,
    standing: Visiting,
    /// Whether something may have come that isn't read.
    may_have_come: bool,
    /// Whether the stream may take bytes.
    may_take: bool,
}

impl<S: Read + Write + Drop> Visitor<S> {
    /// A visitor that comes now.
    fn new(alloc: Global, stream: S, now: u64) -> Visitor<S> {
        Visitor {
            stream,
            request: Vec::new(alloc),
            answer: Vec::new(alloc),
            written: 0,
            standing: Visiting::new(now),
            may_have_come: true,
            may_take: true,
        }
    }

    /// Takes bytes that came, and answers the request if they end it.
    fn hear<P: Pages>(&mut self, bytes: &[u8], pages: &mut P) {
        if self.request.extend_from_slice(bytes).is_err() {
            self.standing.is_over = true;
            return;
        }
        self.standing.held = self.request.len();
        if pages.answer(self.request.as_slice(), &mut self.answer) {
            self.standing.is_answered = true;
            self.standing.waiting = self.answer.len();
        }
    }

    /// Reads a piece of the request.
    fn read<P: Pages>(&mut self, pages: &mut P) {
        let mut piece = [0u8; REQUEST_PIECE];
        let most = MOST_REQUEST
            .saturating_sub(self.standing.held)
            .min(REQUEST_PIECE);
        let Some(room) = piece.get_mut(..most) else {
            return;
        };
        match self.stream.read(room) {
            Ok(0) => self.standing.is_over = true,
            Ok(count) => {
                if let Some(bytes) = piece.get(..count) {
                    self.hear(bytes, pages);
                }
            }
            Err(error) if error.kind() == ErrorKind::WouldBlock => self.may_have_come = false,
            Err(error) if error.kind() == ErrorKind::Interrupted => {}
            Err(_) => self.standing.is_over = true,
        }
    }

    /// Writes a piece of the answer.
    fn write(&mut self) {
        let Some(rest) = self.answer.get(self.written..) else {
            return;
        };
        match self.stream.write(rest) {
            Ok(0) => self.standing.is_over = true,
            Ok(count) => {
                self.written = self.written.saturating_add(count);
                self.standing.waiting = self.answer.len().saturating_sub(self.written);
            }
            Err(error) if error.kind() == ErrorKind::WouldBlock => self.may_take = false,
            Err(error) if error.kind() == ErrorKind::Interrupted => {}
            Err(_) => self.standing.is_over = true,
        }
    }

    /// Reads and writes as far as the stream goes now, and tells whether it stays.
    fn visit<P: Pages>(&mut self, pages: &mut P, now: u64) -> bool {
        for _ in 0..STEPS {
            match self.standing.doing(now) {
                Visit::Reads if self.may_have_come => self.read(pages),
                Visit::Writes if self.may_take => self.write(),
                Visit::Closes => return false,
                Visit::Reads | Visit::Writes => return true,
            }
        }
        true
    }

    /// Whether it can be read from or written to without a further event.
    fn goes_on(&self, now: u64) -> bool {
        match self.standing.doing(now) {
            Visit::Reads => self.may_have_come,
            Visit::Writes => self.may_take,
            Visit::Closes => true,
        }
    }
}

/// The visitors, by their keys.
#[derive(Drop)]
pub struct Visitors<S> {
    alloc: Global,
    all: Slab<Visitor<S>>,
}

impl<S: Read + Write + Drop> Visitors<S> {
    /// None yet. Takes no memory.
    pub fn new(alloc: Global) -> Visitors<S> {
        Visitors {
            alloc,
            all: Slab::new(alloc),
        }
    }

    /// Lets a visitor in and gives its key, where there is room for it.
    pub fn let_in(&mut self, stream: S, now: u64) -> Option<usize> {
        if !lets_visit(self.all.len()) {
            return None;
        }
        self.all.insert(Visitor::new(self.alloc, stream, now)).ok()
    }

    /// The stream of a visitor.
    pub fn stream_mut(&mut self, key: usize) -> Option<&mut S> {
        match self.all.get_mut(key) {
            Some(visitor) => Some(&mut visitor.stream),
            None => None,
        }
    }

    /// Something may have come of a visitor, or it may take bytes again. One that is gone is passed over.
    pub fn notice(&mut self, key: usize) {
        if let Some(visitor) = self.all.get_mut(key) {
            visitor.may_have_come = true;
            visitor.may_take = true;
        }
    }

    /// Closes a visitor.
    pub fn close(&mut self, key: usize) {
        let _ = self.all.try_remove(key);
    }

    /// Reads and writes as far as one visitor's stream goes now, and tells whether it goes on without a further event.
    fn visit_one<P: Pages>(&mut self, key: usize, pages: &mut P, now: u64) -> bool {
        let (stays, goes_on) = match self.all.get_mut(key) {
            Some(visitor) => (visitor.visit(pages, now), visitor.goes_on(now)),
            None => return false,
        };
        if !stays {
            self.close(key);
        }
        stays && goes_on
    }

    /// Answers requests that are whole, and closes the visitors that are done with or late. Tells whether one goes on without
    /// a further event.
    pub fn visit_all<P: Pages>(&mut self, pages: &mut P, now: u64) -> bool {
        let mut goes_on = false;
        for key in 0..self.all.capacity() {
            if self.visit_one(key, pages, now) {
                goes_on = true;
            }
        }
        goes_on
    }
}
