//! How a peer stands, and what is done with it.
ghost use Rattle.std.specs.Prelude.{◌≡◌, None, Some};
ghost use Rattle.iso_lines.specs.Standing.{has_passed, lasts_too_long, late_of, closing_of, staying_of, doing_of};
ghost use Rattle.iso_lines.specs.Standing.{frame_since, unread_since, begun_anew, hearing_of, paused_of, writing_of};

use iso_links::Limits;

/// Why a peer is closed.
#[derive(Clone, Copy, Debug, PartialEq, Eq)]
pub enum Closing {
    /// It ended its side, and has all its answers.
    Ended,
    /// It ended its side inside a frame.
    CutFrame,
    /// Its connection failed.
    Failed,
    /// A frame's header is of digits, and what stands there is not.
    BadHeader,
    /// There was no memory for it.
    Memory,
    /// Nothing came for too long.
    Idle,
    /// Its frame wasn't whole for too long.
    UnfinishedFrame,
    /// It took none of its answers for too long.
    DoesNotRead,
    /// The host stops.
    Stopped,
}

/// What is done with a peer.
#[derive(Clone, Copy, Debug, PartialEq, Eq)]
pub enum Doing {
    /// It is read from.
    Reads,
    /// It isn't read from, until it takes what waits for it.
    Waits,
    /// It is closed.
    Closes(Closing),
}

/// How a peer stands. Moments are milliseconds of a clock that never goes back.
#[derive(Clone, Copy, Debug, PartialEq, Eq)]
pub struct Standing {
    /// When bytes came last, or it was let in.
    pub heard: u64,
    /// Since when its frame isn't whole.
    pub frame: Option<u64>,
    /// Since when bytes wait and none was taken.
    pub unread: Option<u64>,
    /// How many bytes wait for it.
    pub waiting: usize,
    /// Why nothing more comes.
    pub ended: Option<Closing>,
}

/// Whether so many seconds have passed since a moment.
pub(crate) fn has_passed(seconds: u32, since: u64, now: u64) -> bool
    ensures { result ≡ has_passed seconds since now }
{
    now.saturating_sub(since) >= 1000 * seconds as u64
}

/// Whether so many seconds have passed since a state began that lasts.
fn lasts_too_long(seconds: u32, since: Option<u64>, now: u64) -> bool
    ensures { result ≡ lasts_too_long seconds since now }
{
    match since {
        Some(since) => has_passed(seconds, since, now),
        None => false,
    }
}

/// Since when a frame isn't whole, once bytes came.
fn frame_since(is_whole: bool, ends: bool, began: Option<u64>, now: u64) -> Option<u64>
    ensures { result ≡ frame_since is_whole ends began now }
{
    if is_whole {
        return None;
    }
    if ends {
        return Some(now);
    }
    match began {
        Some(since) => Some(since),
        None => Some(now),
    }
}

/// Since when bytes wait and none was taken.
fn unread_since(some: bool, began: Option<u64>, now: u64) -> Option<u64>
    ensures { result ≡ unread_since some began now }
{
    if some {
        return Some(now);
    }
    match began {
        Some(since) => Some(since),
        None => Some(now),
    }
}

/// A state that lasts, begun anew.
fn begun_anew(began: Option<u64>, now: u64) -> Option<u64>
    ensures { result ≡ begun_anew began now }
{
    match began {
        Some(_) => Some(now),
        None => None,
    }
}

impl Standing {
    /// A peer that is let in now.
    pub fn new(now: u64) -> Standing
        // It was heard of now, no frame is unfinished, no byte waits for it, and it hasn't ended.
        ensures { result
            ≡ record { heard = now; frame = None; unread = None; waiting = 0; ended = None } }
    {
        Standing {
            heard: now,
            frame: None,
            unread: None,
            waiting: 0,
            ended: None,
        }
    }

    /// Bytes came: whether no frame is unfinished now, and whether they end one.
    pub fn hears(&mut self, now: u64, is_whole: bool, ends: bool)
        // It was heard of now. An unfinished frame counts from the piece with its
        // first byte, however many come.
        ensures { self.new ≡ hearing_of self.old now is_whole ends }
    {
        self.heard = now;
        self.frame = frame_since(is_whole, ends, self.frame, now);
    }

    /// While the host reads nothing of it, because too many bytes wait, nothing it sends counts as late.
    fn pauses(&mut self, limits: &Limits, now: u64)
        ensures { self.new ≡ paused_of limits.now self.old now }
    {
        if self.waiting >= limits.waiting {
            self.heard = now;
            self.frame = begun_anew(self.frame, now);
        }
    }

    /// It was written to: how many bytes wait still, and whether it took some.
    pub fn sends(&mut self, limits: &Limits, now: u64, waiting: usize, some: bool)
        // Bytes wait unread since some were last taken, or since they began to wait. Where too many
        // waited for it to be read from, its other times begin anew.
        ensures { self.new ≡ writing_of limits.now self.old now waiting some }
    {
        self.pauses(limits, now);
        self.unread = if waiting == 0 {
            None
        } else {
            unread_since(some, self.unread, now)
        };
        self.waiting = waiting;
    }

    /// Why a peer is late that the host reads from.
    fn late(&self, limits: &Limits, now: u64) -> Option<Closing>
        ensures { result ≡ late_of limits.now self.now now }
    {
        if lasts_too_long(limits.frame, self.frame, now) {
            return Some(Closing::UnfinishedFrame);
        }
        if has_passed(limits.idle, self.heard, now) {
            return Some(Closing::Idle);
        }
        None
    }

    /// Why it is to be closed at this moment, if it is.
    pub fn closing(&self, limits: &Limits, now: u64) -> Option<Closing>
        // The reasons: it takes no answer for too long; it ended, and has all of them; or else,
        // unless too much waits for it, its frame isn't whole, or nothing comes, for too long.
        ensures { result ≡ closing_of limits.now self.now now }
    {
        if lasts_too_long(limits.unread, self.unread, now) {
            return Some(Closing::DoesNotRead);
        }
        match self.ended {
            Some(why) if self.waiting == 0 => Some(why),
            Some(_) => None,
            None if self.waiting >= limits.waiting => None,
            None => self.late(limits, now),
        }
    }

    /// Whether it is read from, if it stays.
    fn staying(&self, limits: &Limits) -> Doing
        ensures { result ≡ staying_of limits.now self.now }
    {
        if self.ended.is_some() {
            return Doing::Waits;
        }
        if self.waiting < limits.waiting {
            Doing::Reads
        } else {
            Doing::Waits
        }
    }

    /// What is done with it at this moment.
    pub fn doing(&self, limits: &Limits, now: u64) -> Doing
        // It is closed where `closing` tells why. Else it is read from exactly where it hasn't
        // ended and fewer bytes wait for it than are allowed.
        ensures { result ≡ doing_of limits.now self.now now }
    {
        match self.closing(limits, now) {
            Some(why) => Doing::Closes(why),
            None => self.staying(limits),
        }
    }
}
