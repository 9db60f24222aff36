//! The clock of a loop.

use iso_lines::LoopFault;
use std::time::Clock;

/// The milliseconds of a clock that never goes back. `Wait` says that the system doesn't tell them.
pub fn moment<R: Clock>(rt: &R) -> Result<u64, LoopFault> {
    match rt.monotonic() {
        Ok(time) => Ok(
            time.as_secs()
                .saturating_mul(1_000)
                .saturating_add(u64::from(time.subsec_millis())),
        ),
        Err(_) => Err(LoopFault::Wait),
    }
}
