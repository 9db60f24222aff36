//! A member that isn't there, and a clock that is set.

use iso_etcd::{Cluster, Dial, Endpoints, Member, Timed, Waits, Watch};
use std::alloc::Global;
use std::cell::Cell;
use std::io;
use std::io::{ErrorKind, Read, Write};
use std::process::Abort;
use std::rc::Rc;
use std::time::{Clock, Duration};

/// A member that gives these bodies, one for each request. An empty one closes the connection.
#[derive(Drop)]
pub struct FakeMember {
    alloc: Global,
    bodies: &'static [&'static str],
    asked: Rc<Cell<usize>>,
}

/// A connection to it.
#[derive(Drop)]
pub struct FakeStream {
    alloc: Global,
    bodies: &'static [&'static str],
    asked: Rc<Cell<usize>>,
    has_written: bool,
    answer: Vec<u8>,
    read: usize,
}

impl FakeStream {
    /// The response to the next request.
    fn respond(&mut self) -> io::Result<()> {
        let body = self.bodies.get(self.asked.get()).copied().unwrap_or("");
        self.asked.set(self.asked.get().saturating_add(1));
        self.answer.clear();
        self.read = 0;
        if !body.is_empty() {
            let count = body.len();
            let text = format!(in self.alloc;
                "HTTP/1.1 200 OK\r\nContent-Length: {count}\r\n\r\n{body}"
            )?;
            self.answer.extend_from_slice(text.as_bytes())?;
        }
        Ok(())
    }
}

impl Read for FakeStream {
    fn read(&mut self, buffer: &mut [u8]) -> io::Result<usize> {
        if self.has_written {
            self.has_written = false;
            self.respond()?;
        }
        match (self.answer.get(self.read), buffer.first_mut()) {
            (Some(byte), Some(place)) => {
                *place = *byte;
                self.read = self.read.saturating_add(1);
                Ok(1)
            }
            _ => Ok(0),
        }
    }
}

impl Write for FakeStream {
    fn write(&mut self, bytes: &[u8]) -> io::Result<usize> {
        self.has_written = true;
        Ok(bytes.len())
    }

    fn flush(&mut self) -> io::Result<()> {
        Ok(())
    }
}

impl Timed for FakeStream {
    fn set_wait(&mut self, _milliseconds: u64) -> bool {
        true
    }
}

impl Watch for FakeMember {
    fn now(&self) -> Option<u64> {
        Some(0)
    }
}

impl Dial for FakeMember {
    type Stream = FakeStream;

    fn dial(&self, _member: &Member, _milliseconds: u64) -> Option<FakeStream> {
        Some(FakeStream {
            alloc: self.alloc,
            bodies: self.bodies,
            asked: self.asked.clone().ok()?,
            has_written: false,
            answer: Vec::new(self.alloc),
            read: 0,
        })
    }
}

const WAITS: Waits = Waits {
    connect: 500,
    each: 1_000,
    whole: 2_000,
};

/// A cluster of that one member, which keeps the journal `day`, and counts what it is asked.
pub fn cluster<R: Abort>(
    rt: &R,
    alloc: Global,
    bodies: &'static [&'static str],
    asked: &Rc<Cell<usize>>,
) -> Cluster<FakeMember> {
    let member = FakeMember {
        alloc,
        bodies,
        asked: asked.clone().expect(rt, "memory"),
    };
    let place = Endpoints::from_text(alloc, "etcd://a:1/day").expect(rt, "a place");
    Cluster::new(alloc, member, place, WAITS)
}

/// A clock that tells this moment, in milliseconds. Without one it fails.
#[derive(Drop)]
pub struct FakeClock {
    pub now: Cell<Option<u64>>,
}

impl Clock for FakeClock {
    fn monotonic(&self) -> io::Result<Duration> {
        match self.now.get() {
            Some(now) => Ok(Duration::from_millis(now)),
            None => Err(io::Error::from(ErrorKind::Other)),
        }
    }

    fn since_1970(&self) -> io::Result<Duration> {
        self.monotonic()
    }
}
