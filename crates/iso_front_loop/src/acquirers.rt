//! All acquirers of a front, and what a turn does with them.

use crate::acquirer::{Acquirer, Rooms};
use crate::serving::Front;
use crate::telling::Event;
use iso_edge::Telling;
use iso_order::NoMemory;
use iso_parts::Mti;
use iso_wire::Message;
use slab::Slab;
use std::alloc::Global;
use std::io::{Read, Write};
use std::net::SocketAddr;

/// How many connections an acquirer has at most: its own, and one to each shard.
const CONNECTIONS: usize = 65;

/// What opens connections to shards.
pub trait Dial<S> {
    /// Begins a connection to an address, whose events are told under this token. It isn't waited for.
    fn dial(&mut self, token: usize, address: SocketAddr) -> Option<S>;
}

/// The token of a connection of the acquirer with this key: 0 is its own, and the shards' follow.
pub fn token_of(key: usize, place: usize) -> usize {
    key.saturating_mul(CONNECTIONS).saturating_add(place)
}

/// All acquirers of a front, and what they have in common.
#[derive(Drop)]
pub struct Acquirers<'f, S, W> {
    alloc: Global,
    front: Front<'f>,
    all: Slab<Acquirer<S>>,
    rooms: Rooms,
    told: Telling<W>,
    /// How many acquirers were let in.
    count: u64,
}

impl<'f, S: Read + Write + Drop, W: Write> Acquirers<'f, S, W> {
    /// None yet. What happens is told to the writer. Takes no memory.
    pub fn new(alloc: Global, front: Front<'f>, told: W) -> Acquirers<'f, S, W> {
        Acquirers {
            alloc,
            front,
            all: Slab::new(alloc),
            rooms: Rooms {
                message: Message::new(alloc, Mti::from_digits(0).unwrap()),
                text: Vec::new(alloc),
            },
            told: Telling::new(alloc, told),
            count: 0,
        }
    }

    /// How many are connected.
    pub fn len(&self) -> usize {
        self.all.len()
    }

    /// Whether none is connected.
    pub fn is_empty(&self) -> bool {
        self.all.is_empty()
    }

    /// The stream of an acquirer.
    pub fn stream_mut(&mut self, key: usize) -> Option<&mut S> {
        match self.all.get_mut(key) {
            Some(acquirer) => Some(&mut acquirer.own.stream),
            None => None,
        }
    }

    /// The stream of an acquirer's connection to a shard, where there is one.
    pub fn shard_mut(&mut self, key: usize, shard: usize) -> Option<&mut S> {
        let acquirer = self.all.get_mut(key)?;
        let leg = acquirer.legs.get_mut(shard)?;
        match &mut leg.way {
            Some(way) => Some(&mut way.stream),
            None => None,
        }
    }

    /// Lets an acquirer in, and gives its key. One for whom there is no room is closed.
    pub fn let_in(&mut self, stream: S, now: u64) -> Option<usize> {
        if !self.front.bounds.lets_in(self.all.len()) {
            self.told.tell(&Event::Refused);
            return None;
        }
        let number = self.count.saturating_add(1);
        let Ok(acquirer) = Acquirer::new(self.alloc, &self.front, stream, number, now) else {
            self.told.tell(&Event::Refused);
            return None;
        };
        match self.all.insert(acquirer) {
            Ok(key) => {
                self.count = number;
                self.told.tell(&Event::Connected(number));
                Some(key)
            }
            Err(_) => {
                self.told.tell(&Event::Refused);
                None
            }
        }
    }

    /// Closes an acquirer.
    pub fn close(&mut self, key: usize) {
        if let Some(acquirer) = self.all.try_remove(key) {
            self.told.tell(&Event::Closed {
                acquirer: acquirer.number,
                counts: acquirer.counts,
            });
        }
    }

    /// Something may have come of the connection with this token, or it may take bytes again: whether its end came too.
    pub fn notice(&mut self, token: usize, ends: bool) {
        if let Some(acquirer) = self.all.get_mut(token / CONNECTIONS) {
            acquirer.notice(token % CONNECTIONS, ends);
        }
    }

    /// Reads what came of an acquirer and of its shards, and sends it on.
    fn hear<D: Dial<S>>(&mut self, key: usize, now: u64, dial: &mut D) -> Result<(), NoMemory> {
        let Some(acquirer) = self.all.get_mut(key) else {
            return Ok(());
        };
        acquirer.hear(self.alloc, &self.front, &mut self.rooms, key, now, dial)?;
        acquirer.hear_shards(&self.front, &mut self.rooms, now)
    }

    /// Reads what came of all, and sends it on. Without memory an acquirer is closed.
    pub fn hear_all<D: Dial<S>>(&mut self, now: u64, dial: &mut D) {
        for key in 0..self.all.capacity() {
            if self.hear(key, now, dial).is_err() {
                self.close(key);
            }
        }
    }

    /// Writes what waits for an acquirer and its shards: whether it is closed then, and whether it goes on without an event.
    fn look(&mut self, key: usize, now: u64) -> (bool, bool) {
        let Some(acquirer) = self.all.get_mut(key) else {
            return (false, false);
        };
        let lost = acquirer.settle(now);
        if lost > 0 {
            let number = acquirer.number;
            self.told.tell(&Event::Lost {
                acquirer: number,
                shards: lost,
            });
        }
        let bounds = &self.front.bounds;
        (acquirer.is_done(bounds, now), acquirer.goes_on(bounds))
    }

    /// Writes what waits for all, closes those that are done, and tells whether one goes on without a further event.
    pub fn settle(&mut self, now: u64) -> bool {
        let mut goes_on = false;
        for key in 0..self.all.capacity() {
            let (is_done, more) = self.look(key, now);
            if is_done {
                self.close(key);
            } else if more {
                goes_on = true;
            }
        }
        goes_on
    }
}
