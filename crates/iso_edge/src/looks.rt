//! When a loop looks whether it is called off.

use iso_lines::{Control, Stop};

/// When a loop looks whether it is called off, as by a stop file.
#[derive(Clone, Copy, Debug)]
pub struct Looks {
    /// The milliseconds from a look to the next.
    pause: u64,
    /// The moment of the last look, in milliseconds.
    last: u64,
}

impl Looks {
    /// Looks every so many milliseconds. The first look is due once the clock shows as many.
    pub fn every(pause: u64) -> Looks {
        Looks { pause, last: 0 }
    }

    /// Why a loop stops at this moment of its clock, in milliseconds, if it does: standard input has ended, or a look is due
    /// and the loop is called off.
    pub fn stop<C: Control>(&mut self, control: &mut C, has_ended: bool, now: u64) -> Option<Stop> {
        if has_ended {
            return Some(Stop::Input);
        }
        if now.saturating_sub(self.last) < self.pause {
            return None;
        }
        self.last = now;
        if control.is_called_off() {
            Some(Stop::File)
        } else {
            None
        }
    }
}
