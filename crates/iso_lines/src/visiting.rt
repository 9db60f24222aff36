//! How a visitor stands, who comes beside the peers with one request, and what is done with it.
ghost use Rattle.std.specs.Prelude.{◌≡◌, ◌↔◌, ◌<◌, true};
ghost use Rattle.iso_lines.specs.Visiting.{visit_of, asking_of, telling_of};

use crate::standing::has_passed;

/// How many visitors there are at once.
pub const MOST_VISITORS: usize = 16;

/// How many bytes the request of a visitor has at most.
pub const MOST_REQUEST: usize = 8_192;

/// After so many seconds a visitor is closed.
pub const STAY: u32 = 10;

/// What is done with a visitor.
#[derive(Clone, Copy, Debug, PartialEq, Eq)]
pub enum Visit {
    /// It is read from.
    Reads,
    /// It is written to.
    Writes,
    /// It is closed.
    Closes,
}

/// How a visitor stands. Moments are milliseconds of a clock that never goes back.
#[derive(Clone, Copy, Debug, PartialEq, Eq)]
pub struct Visiting {
    /// When it came.
    pub since: u64,
    /// How many bytes of its request came.
    pub held: usize,
    /// Whether its request was answered.
    pub is_answered: bool,
    /// How many bytes wait for it.
    pub waiting: usize,
    /// Whether its connection ended or failed.
    pub is_over: bool,
}

/// Whether one more visitor is let in beside so many.
pub fn lets_visit(count: usize) -> bool
    // It is true exactly beside fewer visitors than 16.
    ensures { (result ≡ true) ↔ (count < MOST_VISITORS) }
{
    count < MOST_VISITORS
}

impl Visiting {
    /// A visitor that comes now.
    pub fn new(now: u64) -> Visiting {
        Visiting {
            since: now,
            held: 0,
            is_answered: false,
            waiting: 0,
            is_over: false,
        }
    }

    /// What is done with one that wasn't answered: more of its request is read, up to its length.
    fn asking(&self) -> Visit
        ensures { result ≡ asking_of self.now }
    {
        if self.held < MOST_REQUEST {
            Visit::Reads
        } else {
            Visit::Closes
        }
    }

    /// What is done with one that was answered: the answer is written, and then it is closed.
    fn telling(&self) -> Visit
        ensures { result ≡ telling_of self.now }
    {
        if self.waiting > 0 {
            Visit::Writes
        } else {
            Visit::Closes
        }
    }

    /// What is done with it at this moment.
    pub fn doing(&self, now: u64) -> Visit
        // It is closed once its connection is over, 10 seconds passed, or its answer is written.
        // Till then its request is read, up to 8 KiB, and then it is written to.
        ensures { result ≡ visit_of self.now now }
    {
        if self.is_over || has_passed(STAY, self.since, now) {
            return Visit::Closes;
        }
        if self.is_answered {
            self.telling()
        } else {
            self.asking()
        }
    }
}
