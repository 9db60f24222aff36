//! Moments, and pauses.
use std::thread;
use std::time::{Clock, Duration};

/// How long is paused before it is looked again, in milliseconds.
const PAUSE: u64 = 50;

/// The moment now, in milliseconds of the clock that never goes back; 0 where it can't be told.
pub fn now<R: Clock>(runtime: &R) -> u64 {
    match runtime.monotonic() {
        Ok(time) => u64::try_from(time.as_millis()).unwrap_or(0),
        Err(_) => 0,
    }
}

/// Pauses before it is looked again.
pub fn pause<R: Clock>(runtime: &R) {
    thread::sleep(runtime, Duration::from_millis(PAUSE));
}
