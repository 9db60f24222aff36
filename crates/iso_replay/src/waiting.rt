//! What an exchange waits with.

use crate::fault::ReplayFault;

/// A clock, and a wait for what an exchange's streams may do.
pub trait Waiting {
    /// The moment, in milliseconds of a clock that never goes back.
    fn now(&mut self) -> Result<u64, ReplayFault>;

    /// Waits until the streams may give or take bytes again, for so many milliseconds at most.
    fn wait(&mut self, millis: u64) -> Result<(), ReplayFault>;
}
