//! A patience by the clock.
ghost use Rattle.std.specs.Prelude.{◌≡◌};
ghost use Rattle.iso_replicas.specs.Waiting.{is_before};

use iso_shared::Patience;
use std::thread;
use std::time::{Clock, Duration};

/// Whether a moment is before an end, where both are known.
pub(crate) fn is_before(now: Option<u64>, end: Option<u64>) -> bool
    ensures { result ≡ is_before now end }
{
    match (now, end) {
        (Some(now), Some(end)) => now < end,
        (Some(_), None) | (None, Some(_)) | (None, None) => false,
    }
}

/// Asks again and again for so long, with a pause each time.
#[derive(Drop)]
pub struct Clocked<'c, C: Clock> {
    clock: &'c C,
    /// How long it asks, in milliseconds.
    whole: u64,
    /// How long it pauses, in milliseconds.
    pause: u64,
    /// When it ends, in milliseconds of the clock that never goes back.
    end: Option<u64>,
}

impl<'c, C: Clock> Clocked<'c, C> {
    /// So long, and with such pauses, in milliseconds.
    pub fn new(clock: &'c C, whole: u64, pause: u64) -> Clocked<'c, C> {
        Clocked {
            clock,
            whole,
            pause,
            end: None,
        }
    }

    /// The moment now, in milliseconds, where the clock tells it.
    fn now(&self) -> Option<u64> {
        let time = self.clock.monotonic().ok()?;
        u64::try_from(time.as_millis()).ok()
    }
}

impl<'c, C: Clock> Patience for Clocked<'c, C> {
    fn begin(&mut self) {
        self.end = match self.now() {
            Some(now) => Some(now.saturating_add(self.whole)),
            None => None,
        };
    }

    fn may_go_on(&mut self) -> bool {
        if !is_before(self.now(), self.end) {
            return false;
        }
        thread::sleep(self.clock, Duration::from_millis(self.pause));
        true
    }
}
