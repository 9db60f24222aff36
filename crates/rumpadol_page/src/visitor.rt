//! A browser, or whatever else connects.

use crate::site::Site;
use http_server::{Config, Connection};
use http1::Limits;
use mio::net::TcpStream;
use std::alloc::Global;
use std::hash::RandomState;
use std::io;
use std::io::ErrorKind;

/// The most reads and writes of one connection in a turn.
const MOST_STEPS: u32 = 64;

/// How many milliseconds nothing may come from a connection, or go to it.
const MOST_SILENCE: u64 = 10_000;

/// What a request may have.
const CONFIG: Config = Config {
    limits: Limits {
        max_head_len: 8_192,
        max_extensions_len: 256,
        max_trailers_len: 256,
    },
    max_body_len: 1_000_000,
    max_pending: 65_536,
    read_size: 16_384,
};

/// A browser, or whatever else connects.
#[derive(Drop)]
pub(crate) struct Visitor {
    /// Its stream.
    pub(crate) stream: TcpStream,
    connection: Connection,
    /// When something last came from it or went to it, in milliseconds.
    heard: u64,
}

/// How a turn of a connection ended.
pub(crate) enum Turn {
    /// The connection has ended.
    Ended,
    /// Its stream would wait.
    Waits,
    /// It may go on at once, but others have their turn first.
    Busy,
}

/// Whether a connection goes on after a step: `None` where it failed.
fn goes_on(step: io::Result<usize>) -> Option<bool> {
    match step {
        Ok(_) => Some(true),
        Err(error) if error.kind() == ErrorKind::WouldBlock => Some(false),
        Err(_) => None,
    }
}

impl Visitor {
    /// One that just came.
    pub(crate) fn new(alloc: Global, keys: RandomState, stream: TcpStream, now: u64) -> Visitor {
        Visitor {
            stream,
            connection: Connection::new(alloc, keys, CONFIG),
            heard: now,
        }
    }

    /// Whether nothing passed for too long.
    pub(crate) fn is_silent(&self, now: u64) -> bool {
        now.saturating_sub(self.heard) >= MOST_SILENCE
    }

    /// One read, or one write where something waits for it.
    fn step(&mut self) -> io::Result<usize> {
        if self.connection.wants_write() {
            self.connection.write_to(&mut self.stream)
        } else {
            self.connection.read_from(&mut self.stream)
        }
    }

    /// Reads, answers and writes until the stream would wait.
    pub(crate) fn turn(&mut self, site: &mut Site, now: u64) -> Turn {
        self.heard = now;
        for _ in 0..MOST_STEPS {
            self.connection.advance(site);
            if self.connection.is_done() {
                return Turn::Ended;
            }
            match goes_on(self.step()) {
                Some(true) => {}
                Some(false) => return Turn::Waits,
                None => return Turn::Ended,
            }
        }
        Turn::Busy
    }
}
