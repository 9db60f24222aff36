//! The way to the members, and the clock.
ghost use Rattle.std.specs.Prelude.{◌≡◌};
ghost use Rattle.iso_etcd.specs.Waiting.{left_of};

use crate::member::Member;
use std::io::{Read, Write};

/// How long is waited, in milliseconds.
#[derive(Clone, Copy, Debug, PartialEq, Eq)]
pub struct Waits {
    /// For a connection to one member.
    pub connect: u64,
    /// For each read and each write.
    pub each: u64,
    /// For a whole request: the way to a member, the request and its response.
    pub whole: u64,
}

/// How long may be waited now, if the end isn't there yet.
pub fn time_left(now: u64, end: u64, most: u64) -> Option<u64>
    // What is left up to the end may be waited, but never more than `most`; nothing from the end
    // on.
    ensures { result ≡ left_of now end most }
{
    if now < end {
        Some((end - now).min(most))
    } else {
        None
    }
}

/// A clock that only goes on.
pub trait Watch {
    /// The time in milliseconds. `None` where it can't be told.
    fn now(&self) -> Option<u64>;
}

/// A stream whose reads and writes fail where they take too long.
pub trait Timed: Read + Write + Drop {
    /// Sets how long a read or a write may take from now on, in milliseconds. False where it can't be set.
    fn set_wait(&mut self, milliseconds: u64) -> bool
        ensures { Self.contents self.new ≡ Self.contents self.old };
}

/// Connects to members.
pub trait Dial: Watch {
    /// A connection.
    type Stream: Timed;

    /// Connects to a member, in so many milliseconds. `None` where that fails.
    fn dial(&self, member: &Member, milliseconds: u64) -> Option<Self::Stream>;
}
