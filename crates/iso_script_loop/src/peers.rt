//! All peers of a host with rules, and what a turn does with them.

use crate::late::{Held, Late};
use crate::peer::Peer;
use crate::telling::{Event, tell_rule};
use iso_edge::Telling;
use iso_host::Link;
use iso_order::NoMemory;
use iso_script::{Behaviour, Scripted};
use iso_script_peers::{Bounds, Going, Standing, going_of};
use iso_wire::{Framed, unframe};
use slab::Slab;
use std::alloc::{AllocError, Global};
use std::io::{Read, Write};

/// How many frames are taken of one peer in one turn.
const FRAMES: usize = 256;

/// How many writes a peer has in one turn.
const WRITES: usize = 64;

/// All peers, and what they have in common.
#[derive(Drop)]
pub(crate) struct Peers<'l, S, W> {
    alloc: Global,
    link: &'l Link,
    bounds: Bounds,
    all: Slab<Peer<S>>,
    late: Late,
    told: Telling<W>,
    /// What is written for a message.
    out: Vec<u8>,
    /// How many peers were let in.
    count: u64,
}

/// Lets what was written for a message out, as its behaviour says.
fn let_out<S: Read + Write + Drop>(
    alloc: Global,
    key: usize,
    peer: &mut Peer<S>,
    late: &mut Late,
    (behaviour, now): (&Behaviour, u64),
    out: &[u8],
) -> Result<(), AllocError> {
    match going_of(behaviour, now) {
        Going::Now => peer.waiting.extend_from_slice(out),
        Going::Cut => {
            peer.standing = Standing::Cut;
            Ok(())
        }
        Going::At(at) => {
            let held = Held {
                key,
                peer: peer.number,
                frame: Vec::from_slice(alloc, out)?,
            };
            late.hold(at, held)?;
            peer.held = peer.held.saturating_add(out.len());
            Ok(())
        }
    }
}

impl<'l, S: Read + Write + Drop, W: Write> Peers<'l, S, W> {
    /// None yet, on this link. What happens is told to the writer. Takes no memory.
    pub fn new(alloc: Global, link: &'l Link, bounds: Bounds, told: W) -> Peers<'l, S, W> {
        Peers {
            alloc,
            link,
            bounds,
            all: Slab::new(alloc),
            late: Late::new(alloc),
            told: Telling::new(alloc, told),
            out: Vec::new(alloc),
            count: 0,
        }
    }

    /// The stream of a peer.
    pub fn stream_mut(&mut self, key: usize) -> Option<&mut S> {
        match self.all.get_mut(key) {
            Some(peer) => Some(&mut peer.stream),
            None => None,
        }
    }

    /// Lets a peer in, and gives its key. One for whom there is no room is closed.
    pub fn let_in(&mut self, stream: S) -> Option<usize> {
        if !self.bounds.lets_in(self.all.len()) {
            self.told.tell(&Event::Refused);
            return None;
        }
        let number = self.count.saturating_add(1);
        let peer = Peer::new(self.alloc, stream, number);
        match self.all.insert(peer) {
            Ok(key) => {
                self.count = number;
                self.told.tell(&Event::Connected(number));
                Some(key)
            }
            Err(_) => {
                self.told.tell(&Event::Refused);
                None
            }
        }
    }

    /// Closes a peer.
    pub fn close(&mut self, key: usize) {
        if let Some(peer) = self.all.try_remove(key) {
            self.told.tell(&Event::Closed(peer.number));
        }
    }

    /// Something may have come of a peer, or it may take bytes again: whether its end came too.
    pub fn notice(&mut self, key: usize, ends: bool) {
        if let Some(peer) = self.all.get_mut(key) {
            peer.notice(ends);
        }
    }

    /// Treats the frame at the front of what came of a peer: whether another may stand behind it.
    fn take_frame(
        &mut self,
        key: usize,
        scripted: &mut Scripted,
        now: u64,
    ) -> Result<bool, NoMemory> {
        let peer = match self.all.get_mut(key) {
            Some(peer) if peer.may_take_frames(&self.bounds) => peer,
            Some(_) | None => return Ok(false),
        };
        let (body, used) = match unframe(self.link.header(), peer.came.as_slice()) {
            Ok(Framed::Got { body, used }) => (body, used),
            other => {
                let is_bad = other.is_err();
                peer.stop_taking(is_bad);
                return Ok(false);
            }
        };
        self.out.clear();
        let behaviour = scripted.answer(self.link, body, &mut self.out)?;
        peer.came.advance(used);
        tell_rule(&mut self.told, peer.number, &behaviour);
        let deed = (&behaviour, now);
        let_out(self.alloc, key, peer, &mut self.late, deed, &self.out)?;
        Ok(true)
    }

    /// Treats the frames that came of a peer, up to some.
    fn take_frames(
        &mut self,
        key: usize,
        scripted: &mut Scripted,
        now: u64,
    ) -> Result<(), NoMemory> {
        for _ in 0..FRAMES {
            if !self.take_frame(key, scripted, now)? {
                return Ok(());
            }
        }
        Ok(())
    }

    /// Reads of a peer, where something may have come.
    fn read(&mut self, key: usize) -> Result<(), NoMemory> {
        if let Some(peer) = self.all.get_mut(key)
            && peer.may_read(&self.bounds)
        {
            peer.read()?;
        }
        Ok(())
    }

    /// Reads of a peer, and treats what came. Without memory it is closed.
    fn hear(&mut self, key: usize, scripted: &mut Scripted, now: u64) {
        let heard = match self.read(key) {
            Ok(()) => self.take_frames(key, scripted, now),
            Err(fault) => Err(fault),
        };
        if heard.is_err() {
            self.close(key);
        }
    }

    /// Reads of all peers, and treats what came.
    pub fn hear_all(&mut self, scripted: &mut Scripted, now: u64) {
        for key in 0..self.all.capacity() {
            self.hear(key, scripted, now);
        }
    }

    /// Lets an answer out that was held back, if its peer is still there. Without memory the peer is closed.
    fn deliver(&mut self, held: &Held) {
        let Some(peer) = self.all.get_mut(held.key) else {
            return;
        };
        if peer.number != held.peer {
            return;
        }
        peer.held = peer.held.saturating_sub(held.frame.len());
        if peer.waiting.extend_from_slice(&held.frame).is_err() {
            peer.standing = Standing::Closed;
        }
    }

    /// Lets all answers out that are due.
    pub fn deliver_due(&mut self, now: u64) {
        for _ in 0..u64::MAX {
            match self.late.take_due(now) {
                Some(held) => self.deliver(&held),
                None => return,
            }
        }
    }

    /// Writes what waits for a peer, as far as it takes it.
    fn write(&mut self, key: usize) {
        let Some(peer) = self.all.get_mut(key) else {
            return;
        };
        for _ in 0..WRITES {
            if !peer.may_write() {
                return;
            }
            peer.write();
        }
    }

    /// Whether a peer is closed now, and whether it goes on without a further event.
    fn look(&self, key: usize) -> (bool, bool) {
        match self.all.get(key) {
            Some(peer) => {
                let goes_on = peer.may_read(&self.bounds)
                    || peer.may_take_frames(&self.bounds)
                    || peer.may_write();
                (peer.is_done(), goes_on)
            }
            None => (false, false),
        }
    }

    /// Writes what waits for all peers, closes those that are done, and tells whether one goes on without a further event.
    pub fn settle(&mut self) -> bool {
        let mut goes_on = false;
        for key in 0..self.all.capacity() {
            self.write(key);
            let (is_done, more) = self.look(key);
            if is_done {
                self.close(key);
            } else if more {
                goes_on = true;
            }
        }
        goes_on
    }

    /// The moment at which the next answer is due that is held back, in milliseconds.
    pub fn next_due(&self) -> Option<u64> {
        self.late.next_due()
    }
}
