//! One peer of a host with many.
ghost use Rattle.std.specs.Prelude.{◌≡◌, ◌↔◌, [], true, Some, IsSome};
ghost use Rattle.iso_lines.specs.declared.standing.Closing.TheVariants.{Failed};
ghost use Rattle.iso_lines.specs.Agreeing.{IsOfLine};

use crate::line::Line;
use crate::notes::Notes;
use crate::standing::{Closing, Doing, Standing};
use iso_guard::GuardedPeer;
use iso_peers::Connection;
use std::alloc::Global;
use std::io::{Read, Write};

/// After so many bytes the memory of a peer's buffers is given back, once they are empty.
const KEPT: usize = 1_024;

/// One peer on a stream that doesn't wait.
#[derive(Drop)]
pub(crate) struct Peer<'l, S> {
    /// Where it is read from and written to.
    pub stream: S,
    /// Its line.
    pub line: Line<'l>,
    pub alloc: Global,
    /// Of a line that isn't guarded: its unfinished frame, and the answers that wait.
    pub connection: Connection<'l>,
    /// Of a guarded line: the same.
    pub guarded: GuardedPeer<'l>,
    /// What is noted of its frames.
    pub notes: Notes,
    /// How many bytes went through its buffers since their memory was given back.
    pub used: usize,
    /// How it stands.
    pub standing: Standing,
    /// Whether something may have come that isn't read.
    pub may_have_come: bool,
    /// Whether its end came, read or not yet.
    pub is_ending: bool,
    /// Whether the stream may take bytes.
    pub may_take: bool,
    /// Whether it is in the list of those that a turn looks at.
    pub is_listed: bool,
    // Its bytes are read and written as its line says.
    ghost agreed: { IsOfLine line connection guarded },
}

impl<'l, S: Read + Write + Drop> Peer<'l, S> {
    ghost use Rattle.iso_lines.specs.Standing.{closing_of, doing_of};
    ghost use Rattle.iso_lines.specs.Keys.{IsSame};
    ghost use Rattle.iso_lines.specs.Hearing.{KeepsBytes};

    /// A peer that was let in now.
    pub fn new(
        alloc: Global,
        stream: S,
        line: Line<'l>,
        link: usize,
        number: u64,
        now: u64,
    ) -> Peer<'l, S>
        // The peer is on that stream.
        ensures stream { result.stream ≡ stream }
        // No byte of a frame is held of it.
        ensures held { (result.connection.peer.held ≡ []) × (result.guarded.held ≡ []) }
        // No byte of an answer waits for it.
        ensures none { (result.connection.waiting ≡ []) × (result.guarded.waiting ≡ []) }
    {
        Peer {
            stream,
            line,
            alloc,
            connection: Connection::new(alloc, line.link),
            guarded: GuardedPeer::new(alloc, line.link, line.terms),
            notes: Notes::new(link, number),
            used: 0,
            standing: Standing::new(now),
            may_have_come: true,
            is_ending: false,
            may_take: true,
            is_listed: false,
        }
    }

    /// How many bytes of answers wait to be written.
    pub fn waiting(&self) -> usize
        // It is 0 exactly where no byte of an answer waits.
        ensures none { (result ≡ 0)
            ↔ ((self.now.connection.waiting ≡ []) × (self.now.guarded.waiting ≡ [])) }
    {
        self.connection
            .waiting()
            .saturating_add(self.guarded.waiting())
    }

    /// Whether no frame is unfinished.
    pub fn is_whole(&self) -> bool
        ensures { (result ≡ true)
            ↔ ((self.now.connection.peer.held ≡ []) × (self.now.guarded.held ≡ [])) }
    {
        self.connection.may_end() && self.guarded.may_end()
    }

    /// What is done with it at this moment.
    pub fn doing(&self, now: u64) -> Doing
        // It is closed where `closing` tells why. Else it is read from exactly where it hasn't
        // ended and fewer bytes wait for it than are allowed.
        ensures { result ≡ doing_of self.now.line.terms.now.limits self.now.standing now }
    {
        self.standing.doing(&self.line.terms.limits, now)
    }

    /// Why it is to be closed at this moment, if it is.
    pub fn closing(&self, now: u64) -> Option<Closing>
        // The reasons: it takes no answer for too long; it ended, and has all of them; or else,
        // unless too much waits for it, its frame isn't whole, or nothing comes, for too long.
        ensures { result ≡ closing_of self.now.line.terms.now.limits self.now.standing now }
    {
        self.standing.closing(&self.line.terms.limits, now)
    }

    /// Whether it can be read from or written to without a further event.
    pub fn goes_on(&self, now: u64) -> bool {
        if self.may_have_come && self.doing(now) == Doing::Reads {
            return true;
        }
        self.may_take && self.waiting() > 0
    }

    /// Nothing more is read of it, and it is closed once it has its answers.
    pub fn end(&mut self, why: Closing)
        // Its stream and its line stay, and so do the bytes that it holds
        // and those that wait for it.
        ensures bytes { KeepsBytes self.old self.new }
        // It has ended, for that reason.
        ensures ended { self.new.standing.ended ≡ Some why }
    {
        self.may_have_come = false;
        self.standing.ended = Some(why);
    }

    /// Its connection failed: what waits for it is of no use.
    pub fn fail(&mut self)
        // Its stream and its line stay, and so do the bytes that it holds
        // and those that wait for it.
        ensures bytes { KeepsBytes self.old self.new }
        // It has ended, because its connection failed.
        ensures ended { self.new.standing.ended ≡ Some Failed }
        // It counts as ended.
        ensures over { IsSome self.new.standing.ended }
    {
        self.end(Closing::Failed);
        self.standing.waiting = 0;
        self.standing.unread = None;
        self.may_take = false;
    }

    /// Gives back the memory of its buffers, once so many bytes went through them and none is in use.
    pub fn rest(&mut self)
        // Its stream, its line, its bytes and how it stands stay the same.
        ensures same { IsSame self.old self.new }
    {
        if self.used <= KEPT || self.waiting() > 0 || !self.is_whole() {
            return;
        }
        self.connection = Connection::new(self.alloc, self.line.link);
        self.guarded = GuardedPeer::new(self.alloc, self.line.link, self.line.terms);
        self.used = 0;
    }
}
