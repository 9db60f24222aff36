//! One acquirer, and its connections to the shards.

use crate::acquirers::{Dial, token_of};
use crate::leg::{Leg, PATIENCE};
use crate::serving::Front;
use crate::way::{Standing, Way};
use iso_order::NoMemory;
use iso_relay::{Bounds, Decision, Pending, Sending, send, take};
use iso_wire::{Framed, Message, unframe};
use std::alloc::{AllocError, Global};
use std::io::{Read, Write};

/// How many frames are taken of one connection in one turn.
const FRAMES: usize = 256;

/// What a message and its texts are read into.
#[derive(Drop)]
pub(crate) struct Rooms {
    pub message: Message,
    pub text: Vec<u8>,
}

/// What is counted of an acquirer.
#[derive(Clone, Copy, PartialEq, Eq, Default)]
pub(crate) struct Counts {
    /// Frames that came of it.
    pub frames: u64,
    /// Answers that were passed on.
    pub answers: u64,
    /// Frames that went to no shard, or to one that wasn't there.
    pub dropped: u64,
    /// Answers that weren't passed on.
    pub held: u64,
}

/// One acquirer, and its connections to the shards.
#[derive(Drop)]
pub(crate) struct Acquirer<S> {
    pub own: Way<S>,
    pub legs: Vec<Leg<S>>,
    pub number: u64,
    pub counts: Counts,
    pending: Pending,
    /// When something came of it or of a shard, in milliseconds.
    last: u64,
}

/// One more.
fn add_one(count: &mut u64) {
    *count = count.saturating_add(1);
}

impl Counts {
    /// One more frame, that went to its shards or not.
    fn add_frame(&mut self, went: bool) {
        add_one(&mut self.frames);
        if !went {
            add_one(&mut self.dropped);
        }
    }

    /// One more answer, that was passed on or not.
    fn add_answer(&mut self, passed: bool) {
        if passed {
            add_one(&mut self.answers);
        } else {
            add_one(&mut self.held);
        }
    }
}

/// A place for the connection to each shard.
fn legs_of<S: Read + Write + Drop>(alloc: Global, count: usize) -> Result<Vec<Leg<S>>, AllocError> {
    let mut legs = Vec::new(alloc);
    for _ in 0..count {
        legs.push(Leg::new())?;
    }
    Ok(legs)
}

/// Puts a frame behind what waits for a shard, whose connection is opened first where there is none: whether there is one.
fn put<S: Read + Write + Drop, D: Dial<S>>(
    alloc: Global,
    front: &Front<'_>,
    legs: &mut [Leg<S>],
    place: (usize, usize),
    now: u64,
    dial: &mut D,
    frame: &[u8],
) -> Result<bool, AllocError> {
    let (key, shard) = place;
    let (Some(leg), Some(told)) = (legs.get_mut(shard), front.shards.get(shard)) else {
        return Ok(false);
    };
    if leg.is_wanted(now) {
        let token = token_of(key, shard.saturating_add(1));
        leg.open(alloc, now, dial.dial(token, told.address));
    }
    leg.put(frame)
}

/// Puts a frame behind what waits for all shards: whether there is a connection to each.
fn put_all<S: Read + Write + Drop, D: Dial<S>>(
    alloc: Global,
    front: &Front<'_>,
    legs: &mut [Leg<S>],
    key: usize,
    now: u64,
    dial: &mut D,
    frame: &[u8],
) -> Result<bool, AllocError> {
    let mut all = true;
    for shard in 0..legs.len() {
        all = put(alloc, front, legs, (key, shard), now, dial, frame)? && all;
    }
    Ok(all)
}

/// Puts a frame behind what waits where it is sent to: whether there is a connection to each of those shards.
fn put_where<S: Read + Write + Drop, D: Dial<S>>(
    alloc: Global,
    front: &Front<'_>,
    legs: &mut [Leg<S>],
    sent: (usize, Sending),
    now: u64,
    dial: &mut D,
    frame: &[u8],
) -> Result<bool, AllocError> {
    let (key, sending) = sent;
    match sending {
        Sending::Nowhere => Ok(false),
        Sending::One(shard) => put(alloc, front, legs, (key, shard), now, dial, frame),
        Sending::All => put_all(alloc, front, legs, key, now, dial, frame),
    }
}

/// The connection to a shard, where answers may have come of it.
fn answering<S>(legs: &mut [Leg<S>], shard: usize) -> Option<&mut Way<S>> {
    let way = legs.get_mut(shard)?.way.as_mut()?;
    if way.has_frames { Some(way) } else { None }
}

impl<S: Read + Write + Drop> Acquirer<S> {
    /// An acquirer that was let in.
    pub fn new(
        alloc: Global,
        front: &Front<'_>,
        stream: S,
        number: u64,
        now: u64,
    ) -> Result<Acquirer<S>, AllocError> {
        Ok(Acquirer {
            own: Way::new(alloc, stream),
            legs: legs_of(alloc, front.shards.len())?,
            number,
            counts: Counts::default(),
            pending: Pending::new(alloc, front.shards),
            last: now,
        })
    }

    /// Something may have come of one of its connections, or it may take bytes again: whether its end came too.
    pub fn notice(&mut self, place: usize, ends: bool) {
        match place.checked_sub(1) {
            None => self.own.notice(ends),
            Some(shard) => {
                if let Some(leg) = self.legs.get_mut(shard) {
                    leg.notice(ends);
                }
            }
        }
    }

    /// Whether so much waits for a shard that nothing more is taken of the acquirer.
    fn is_full(&self, bounds: &Bounds) -> bool {
        for leg in &self.legs {
            if bounds.is_full(leg.waiting()) {
                return true;
            }
        }
        false
    }

    /// Whether frames may have come of it that are sent on now.
    fn may_send(&self, bounds: &Bounds) -> bool {
        self.own.has_frames && !self.is_full(bounds)
    }

    /// Whether there is room for its answers.
    fn has_room(&self, bounds: &Bounds) -> bool {
        !bounds.is_full(self.own.waiting.len())
    }

    /// Sends the frame at the front of what came on: whether another may stand behind it.
    fn send_frame<D: Dial<S>>(
        &mut self,
        alloc: Global,
        front: &Front<'_>,
        rooms: &mut Rooms,
        key: usize,
        now: u64,
        dial: &mut D,
    ) -> Result<bool, NoMemory> {
        let came = self.own.came.as_slice();
        let (body, used) = match unframe(front.header, came) {
            Ok(Framed::Got { body, used }) => (body, used),
            other => {
                let is_none = other.is_err();
                self.own.stop_taking(is_none);
                return Ok(false);
            }
        };
        let frame = &came[..used];
        let room = &mut rooms.message;
        let sending = send(&mut self.pending, front.shards, front.table, body, room)?;
        let sent = (key, sending);
        let went = put_where(alloc, front, &mut self.legs, sent, now, dial, frame)?;
        self.own.came.advance(used);
        self.counts.add_frame(went);
        Ok(true)
    }

    /// Sends the frames that came on, up to some.
    fn send_frames<D: Dial<S>>(
        &mut self,
        alloc: Global,
        front: &Front<'_>,
        rooms: &mut Rooms,
        key: usize,
        now: u64,
        dial: &mut D,
    ) -> Result<(), NoMemory> {
        for _ in 0..FRAMES {
            if !self.may_send(&front.bounds) {
                return Ok(());
            }
            if !self.send_frame(alloc, front, rooms, key, now, dial)? {
                return Ok(());
            }
        }
        Ok(())
    }

    /// Reads what came of the acquirer, and sends it on.
    pub fn hear<D: Dial<S>>(
        &mut self,
        alloc: Global,
        front: &Front<'_>,
        rooms: &mut Rooms,
        key: usize,
        now: u64,
        dial: &mut D,
    ) -> Result<(), NoMemory> {
        if self.own.may_read() && !self.is_full(&front.bounds) && self.own.read()? {
            self.last = now;
        }
        self.send_frames(alloc, front, rooms, key, now, dial)
    }

    /// Passes the answer at the front of what came of a shard on, or not: whether another may stand behind it.
    fn pass_answer(
        &mut self,
        front: &Front<'_>,
        rooms: &mut Rooms,
        shard: usize,
    ) -> Result<bool, NoMemory> {
        let Some(way) = answering(&mut self.legs, shard) else {
            return Ok(false);
        };
        let came = way.came.as_slice();
        let (body, used) = match unframe(front.header, came) {
            Ok(Framed::Got { body, used }) => (body, used),
            other => {
                let is_none = other.is_err();
                way.stop_taking(is_none);
                return Ok(false);
            }
        };
        let decision = take(&mut self.pending, shard, front.table, body, &mut rooms.text)?;
        let passes = decision == Decision::PassOn;
        if passes {
            self.own.waiting.extend_from_slice(&came[..used])?;
        }
        self.counts.add_answer(passes);
        way.came.advance(used);
        Ok(true)
    }

    /// Passes the answers on that came of a shard, up to some.
    fn pass_answers(
        &mut self,
        front: &Front<'_>,
        rooms: &mut Rooms,
        shard: usize,
    ) -> Result<(), NoMemory> {
        for _ in 0..FRAMES {
            if !self.has_room(&front.bounds) || !self.pass_answer(front, rooms, shard)? {
                return Ok(());
            }
        }
        Ok(())
    }

    /// Reads of a shard, where the acquirer has room for its answers.
    fn read_shard(&mut self, front: &Front<'_>, shard: usize, now: u64) -> Result<(), AllocError> {
        let has_room = self.has_room(&front.bounds);
        if let Some(leg) = self.legs.get_mut(shard)
            && let Some(way) = &mut leg.way
            && way.may_read()
            && has_room
            && way.read()?
        {
            self.last = now;
        }
        Ok(())
    }

    /// Reads what came of all shards, and passes it on or not.
    pub fn hear_shards(
        &mut self,
        front: &Front<'_>,
        rooms: &mut Rooms,
        now: u64,
    ) -> Result<(), NoMemory> {
        for shard in 0..self.legs.len() {
            self.read_shard(front, shard, now)?;
            self.pass_answers(front, rooms, shard)?;
        }
        Ok(())
    }

    /// Writes what waits, and lets connections go that ended: how many shards were lost.
    pub fn settle(&mut self, now: u64) -> u64 {
        self.own.write_all();
        let mut lost = 0u64;
        for leg in &mut self.legs {
            leg.write();
            if leg.let_go(now) {
                lost = lost.saturating_add(1);
            }
        }
        lost
    }

    /// Whether it is closed now: it ended and has had time for its answers, or nothing came of it for long.
    pub fn is_done(&self, bounds: &Bounds, now: u64) -> bool {
        match self.own.standing {
            Standing::Open => bounds.is_over(self.last, now),
            Standing::Ended => self.last.saturating_add(PATIENCE) <= now && !self.own.may_write(),
            Standing::Closed => true,
        }
    }

    /// Whether something is done for it without a further event.
    pub fn goes_on(&self, bounds: &Bounds) -> bool {
        let takes = !self.is_full(bounds);
        if self.own.may_write() || (takes && (self.own.may_read() || self.own.has_frames)) {
            return true;
        }
        let has_room = self.has_room(bounds);
        for leg in &self.legs {
            if leg.goes_on(has_room) {
                return true;
            }
        }
        false
    }
}
