//! A moment of a run.
ghost use Rattle.std.specs.Prelude.{◌≡◌};
ghost use Rattle.iso_lines.specs.Moment.{millis_of};

/// A moment: microseconds of a clock that never goes back, and milliseconds since 1970.
#[derive(Clone, Copy, Debug)]
pub struct Moment {
    /// Microseconds of a clock that never goes back.
    pub micros: u64,
    /// Milliseconds since 1970.
    pub since_1970: u64,
}

impl Moment {
    /// Milliseconds of the clock that never goes back.
    pub fn millis(&self) -> u64
        ensures { result ≡ millis_of self.now }
    {
        self.micros / 1_000
    }
}
