//! How long something took.

use anyhow::Result;
use std::rt::Clock;
use std::time::{Duration, Instant};

/// So many steps, and the time that they took.
#[derive(Clone, Copy)]
pub struct Speed {
    steps: u64,
    nanos: u64,
}

impl Speed {
    /// The steps, and the time since the start.
    pub fn since(rt: &impl Clock, start: Instant, steps: u64) -> Result<Speed> {
        let took: Duration = start.elapsed(rt)?;
        let nanos = u64::try_from(took.as_nanos()).unwrap_or(u64::MAX);
        Ok(Speed { steps, nanos })
    }

    /// The nanoseconds of one step.
    pub fn nanos_each(self) -> u64 {
        self.nanos / self.steps.max(1)
    }

    /// The steps of one second.
    pub fn each_second(self) -> u64 {
        self.steps.saturating_mul(1_000_000_000) / self.nanos.max(1)
    }
}
