//! What is counted of one link.
ghost use Rattle.std.specs.Prelude.{◌≡◌};
ghost use Rattle.iso_counts.specs.Counted.{framed_of, answered_of, refused_of, opened_of, closed_of, moved_of, heard_of, counted_of};

use crate::counting::count_at;
use crate::histogram::Histogram;
use crate::kind::{KINDS, Kind};
use crate::reasons::{CLOSINGS, REFUSALS, closing_place, refusal_place};
use iso_lines::{Closing, Event, Refusal};
use iso_order::codes::INVALID_TRANSACTION;

/// How many response codes there are.
pub const CODES: usize = 100;

/// What is counted of one link. Counts stop at the greatest number.
#[derive(Clone, Copy, Debug, PartialEq, Eq)]
pub struct LinkCounts {
    /// Frames that came, by their kinds.
    pub frames: [u64; KINDS],
    /// Answers that were made, by their codes.
    pub answers: [u64; CODES],
    /// How long answers took, from the reading of a frame to the writing of its answer.
    pub times: Histogram,
    /// Frames that aren't answered.
    pub silent: u64,
    /// Orders of an acquirer that the link may not speak for.
    pub foreign: u64,
    /// Peers that were let in.
    pub opened: u64,
    /// Those that are connected now.
    pub connected: u64,
    /// Peers that were closed, by the reasons.
    pub closed: [u64; CLOSINGS.len()],
    /// Peers that weren't let in, by the reasons.
    pub refused: [u64; REFUSALS.len()],
    /// How often the system handed out no connection.
    pub not_accepted: u64,
    /// Bytes that came.
    pub came: u64,
    /// Bytes that were written.
    pub went: u64,
}

impl LinkCounts {
    /// Before anything happened.
    pub const NONE: LinkCounts = LinkCounts {
        frames: [0; KINDS],
        answers: [0; CODES],
        times: Histogram::NONE,
        silent: 0,
        foreign: 0,
        opened: 0,
        connected: 0,
        closed: [0; CLOSINGS.len()],
        refused: [0; REFUSALS.len()],
        not_accepted: 0,
        came: 0,
        went: 0,
    };

    /// Counts a frame.
    fn count_frame(&mut self, kind: Kind)
        ensures { self.new ≡ framed_of self.old kind }
    {
        count_at(&mut self.frames, kind.place());
    }

    /// Counts a frame and its answer.
    fn count_answer(&mut self, kind: Kind, code: u8, micros: u64)
        ensures { self.new ≡ answered_of self.old kind code micros }
    {
        self.count_frame(kind);
        count_at(&mut self.answers, code as usize);
        self.times.add(micros);
    }

    /// Counts a peer that wasn't let in.
    fn count_refusal(&mut self, why: Refusal)
        ensures { self.new ≡ refused_of self.old why }
    {
        count_at(&mut self.refused, refusal_place(why));
    }

    /// Counts a peer that was let in.
    fn count_opening(&mut self)
        ensures { self.new ≡ opened_of self.old }
    {
        self.opened = self.opened.saturating_add(1);
        self.connected = self.connected.saturating_add(1);
    }

    /// Counts a peer that was closed.
    fn count_closing(&mut self, why: Closing)
        ensures { self.new ≡ closed_of self.old why }
    {
        self.connected = self.connected.saturating_sub(1);
        count_at(&mut self.closed, closing_place(why));
    }

    /// Counts bytes.
    fn count_bytes(&mut self, came: u64, went: u64)
        ensures { self.new ≡ moved_of self.old came went }
    {
        self.came = self.came.saturating_add(came);
        self.went = self.went.saturating_add(went);
    }

    /// Counts a frame by what came of it. Any other event counts no frame.
    fn count_heard(&mut self, event: &Event)
        ensures { self.new ≡ heard_of self.old event.now }
    {
        match *event {
            Event::Answered {
                kind,
                code,
                micros,
                ..
            } => self.count_answer(Kind::of_frame(kind), code, micros),
            Event::Replied {
                kind,
                code,
                micros,
                ..
            } => self.count_answer(Kind::of_frame(kind), code, micros),
            Event::Foreign { kind, micros, .. } => {
                self.count_answer(Kind::of_frame(kind), INVALID_TRANSACTION, micros);
                self.foreign = self.foreign.saturating_add(1);
            }
            Event::Silent { kind, .. } => {
                self.count_frame(Kind::of_frame(kind));
                self.silent = self.silent.saturating_add(1);
            }
            Event::Unreadable { .. } => self.count_frame(Kind::Unreadable),
            _ => {}
        }
    }

    /// Counts an event of the link.
    pub fn count(&mut self, event: &Event)
        // An event changes its own counts of the link, and no other.
        ensures { self.new ≡ counted_of self.old event.now }
    {
        match *event {
            Event::Connected { .. } => self.count_opening(),
            Event::Refused { why, .. } => self.count_refusal(why),
            Event::NotAccepted { .. } => self.not_accepted = self.not_accepted.saturating_add(1),
            Event::Closed { why, .. } => self.count_closing(why),
            Event::Moved { came, went, .. } => self.count_bytes(came, went),
            Event::Answered { .. }
            | Event::Replied { .. }
            | Event::Foreign { .. }
            | Event::Silent { .. }
            | Event::Unreadable { .. } => self.count_heard(event),
            Event::Listening { .. }
            | Event::Kept { .. }
            | Event::Journal { .. }
            | Event::LogFailed
            | Event::Stopping { .. } => {}
        }
    }
}
