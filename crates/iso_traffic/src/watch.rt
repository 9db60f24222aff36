//! How far a run is, for those who watch it.

/// How far a run is.
#[derive(Clone, Copy, Debug, PartialEq, Eq)]
pub struct Progress {
    /// Milliseconds since the run began.
    pub elapsed: u64,
    /// Transactions that this run began.
    pub begun: u64,
    /// Transactions that are open.
    pub open: usize,
    /// Frames that were written.
    pub sent: u64,
    /// Frames that came and were read as answers.
    pub answers: u64,
    /// Connections that are open.
    pub connected: usize,
}

/// Who is told how far a run is.
pub trait Watch {
    /// It is told a few times a second, at a moment in milliseconds of the clock that never goes back.
    fn moment(&mut self, now: u64, progress: &Progress);
}

/// Nobody watches.
#[derive(Clone, Copy, Debug)]
pub struct Unwatched;

impl Watch for Unwatched {
    fn moment(&mut self, _now: u64, _progress: &Progress) {}
}
