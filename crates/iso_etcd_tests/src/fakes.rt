//! Members that aren't there: what each does with a request is told by its port.

use iso_etcd::{Dial, Member, Timed, Watch};
use std::alloc::Global;
use std::cell::Cell;
use std::io;
use std::io::{Read, Write};

/// What a member does with a request.
#[derive(Clone, Copy)]
pub enum Behaviour {
    /// It takes no connection.
    Refuses,
    /// It puts the value.
    Puts,
    /// It closes the connection without an answer.
    Closes,
    /// It answers something that is no HTTP.
    Babbles,
    /// It puts the value, and closes the connection so many bytes before the end of its answer.
    Cuts(usize),
    /// It puts the value, and sends a byte every 100 milliseconds.
    Trickles,
    /// It takes the second token that it gave, and no other.
    Guards,
    /// It knows no user.
    Denies,
}

const PUT: &[u8] =
    b"HTTP/1.1 200 OK\r\nContent-Type: application/json\r\nContent-Length: 18\r\n\r\n{\"succeeded\":true}";

const CHUNKED: &[u8] =
    b"HTTP/1.1 200 OK\r\nTransfer-Encoding: chunked\r\n\r\n7\r\n{\"succe\r\nb\r\neded\":true}\r\n0\r\n\r\n";

const REFUSED: &[u8] = b"HTTP/1.1 401 Unauthorized\r\nContent-Length: 11\r\n\r\n{\"code\":16}";

const DENIED: &[u8] = b"HTTP/1.1 400 Bad Request\r\nContent-Length: 10\r\n\r\n{\"code\":3}";

const FIRST_TOKEN: &[u8] = b"HTTP/1.1 200 OK\r\nContent-Length: 15\r\n\r\n{\"token\":\"one\"}";

const SECOND_TOKEN: &[u8] = b"HTTP/1.1 200 OK\r\nContent-Length: 15\r\n\r\n{\"token\":\"two\"}";

/// What the members count: the milliseconds of a clock, and the tokens that they gave.
#[derive(Drop)]
pub struct Counts {
    clock: Cell<u64>,
    logins: Cell<u32>,
}

impl Counts {
    /// None yet.
    pub fn new() -> Counts {
        Counts {
            clock: Cell::new(0),
            logins: Cell::new(0),
        }
    }

    /// Lets some milliseconds pass.
    fn pass(&self, milliseconds: u64) {
        self.clock
            .set(self.clock.get().saturating_add(milliseconds));
    }
}

/// The members, by what each does.
#[derive(Drop)]
pub struct FakeMembers<'m> {
    alloc: Global,
    behaviours: &'m [Behaviour],
    counts: &'m Counts,
}

/// A connection to one of them.
#[derive(Drop)]
pub struct FakeStream<'m> {
    behaviour: Behaviour,
    counts: &'m Counts,
    written: Vec<u8>,
    answer: &'static [u8],
}

/// Whether a text is in bytes.
fn has(bytes: &[u8], text: &[u8]) -> bool {
    bytes
        .windows(text.len().max(1))
        .any(|window| window == text)
}

impl<'m> FakeStream<'m> {
    /// The answer to what was written.
    fn answer(&self) -> &'static [u8] {
        if has(self.written.as_slice(), b"/v3/auth/authenticate") {
            return self.token();
        }
        match self.behaviour {
            Behaviour::Guards if has(self.written.as_slice(), b"authorization: two") => CHUNKED,
            Behaviour::Guards => REFUSED,
            Behaviour::Cuts(short) => PUT.get(..PUT.len().saturating_sub(short)).unwrap_or(PUT),
            Behaviour::Closes => b"",
            Behaviour::Babbles => b"what?\r\n\r\n",
            _ => PUT,
        }
    }

    /// The answer to a login.
    fn token(&self) -> &'static [u8] {
        let logins = self.counts.logins.get().saturating_add(1);
        self.counts.logins.set(logins);
        match self.behaviour {
            Behaviour::Denies => DENIED,
            _ if logins > 1 => SECOND_TOKEN,
            _ => FIRST_TOKEN,
        }
    }
}

impl<'m> Read for FakeStream<'m> {
    fn read(&mut self, buffer: &mut [u8]) -> io::Result<usize> {
        if !self.written.is_empty() {
            self.answer = self.answer();
            self.written.clear();
        }
        if matches!(self.behaviour, Behaviour::Trickles) {
            self.counts.pass(100);
        }
        match (self.answer.split_first(), buffer.first_mut()) {
            (Some((byte, rest)), Some(place)) => {
                *place = *byte;
                self.answer = rest;
                Ok(1)
            }
            _ => Ok(0),
        }
    }
}

impl<'m> Write for FakeStream<'m> {
    fn write(&mut self, bytes: &[u8]) -> io::Result<usize> {
        let some = bytes.get(..7).unwrap_or(bytes);
        self.written.extend_from_slice(some)?;
        Ok(some.len())
    }

    fn flush(&mut self) -> io::Result<()> {
        Ok(())
    }
}

impl<'m> Timed for FakeStream<'m> {
    fn set_wait(&mut self, _milliseconds: u64) -> bool {
        true
    }
}

impl<'m> Watch for FakeMembers<'m> {
    fn now(&self) -> Option<u64> {
        Some(self.counts.clock.get())
    }
}

impl<'m> FakeMembers<'m> {
    /// Members that do this.
    pub fn new(alloc: Global, behaviours: &'m [Behaviour], counts: &'m Counts) -> FakeMembers<'m> {
        FakeMembers {
            alloc,
            behaviours,
            counts,
        }
    }

    /// What the member of a port does.
    fn behaviour(&self, port: u16) -> Option<Behaviour> {
        self.behaviours
            .get((port as usize).checked_sub(1)?)
            .copied()
    }

    /// A connection to a member that does this.
    fn stream(&self, behaviour: Behaviour) -> FakeStream<'m> {
        FakeStream {
            behaviour,
            counts: self.counts,
            written: Vec::new(self.alloc),
            answer: b"",
        }
    }
}

impl<'m> Dial for FakeMembers<'m> {
    type Stream = FakeStream<'m>;

    fn dial(&self, member: &Member, _milliseconds: u64) -> Option<FakeStream<'m>> {
        match self.behaviour(member.port)? {
            Behaviour::Refuses => None,
            behaviour => Some(self.stream(behaviour)),
        }
    }
}
