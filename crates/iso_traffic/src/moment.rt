//! A moment of a run.

/// A moment: microseconds of a clock that never goes back, and the time in UTC as messages have it.
#[derive(Clone, Copy)]
pub(crate) struct Moment {
    /// Microseconds since the run began.
    pub micros: u64,
    /// The transmission date and time (element 7): MMDDhhmmss.
    pub sent: u64,
}

impl Moment {
    /// Milliseconds since the run began.
    pub fn millis(&self) -> u64 {
        self.micros / 1_000
    }
}
