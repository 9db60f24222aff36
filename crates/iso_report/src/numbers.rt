//! Numbers as people read them.

use std::alloc::{AllocError, Global};

/// Microseconds as milliseconds, with about three digits: 0.845, 1.92, 12.3, 145. What is left over is cut off.
pub(crate) fn millis(alloc: Global, micros: u64) -> Result<String, AllocError> {
    let whole = micros / 1_000;
    let part = micros % 1_000;
    match micros {
        0..1_000 => format!(in alloc; "{whole}.{part:03}"),
        1_000..10_000 => format!(in alloc; "{whole}.{:02}", part / 10),
        10_000..100_000 => format!(in alloc; "{whole}.{}", part / 100),
        _ => format!(in alloc; "{whole}"),
    }
}

/// Microseconds as seconds, with two digits behind the point. What is left over is cut off.
pub(crate) fn seconds(alloc: Global, micros: u64) -> Result<String, AllocError> {
    let whole = micros / 1_000_000;
    let part = micros % 1_000_000 / 10_000;
    format!(in alloc; "{whole}.{part:02}")
}

/// The bound of a bucket, in the unit that makes it short: 500 us, 20 ms, 5 s.
pub(crate) fn bound(alloc: Global, micros: u64) -> Result<String, AllocError> {
    if micros >= 1_000_000 && micros % 1_000_000 == 0 {
        return format!(in alloc; "{} s", micros / 1_000_000);
    }
    if micros >= 1_000 && micros % 1_000 == 0 {
        return format!(in alloc; "{} ms", micros / 1_000);
    }
    format!(in alloc; "{micros} us")
}

/// A chance of so many millionths, as a part of 100: 5 %, 0.25 %, 0.0001 %.
pub(crate) fn chance(alloc: Global, millionths: u32) -> Result<String, AllocError> {
    let whole = millionths / 10_000;
    let part = millionths % 10_000;
    if part == 0 {
        return format!(in alloc; "{whole} %");
    }
    if part % 100 == 0 {
        return format!(in alloc; "{whole}.{:02} %", part / 100);
    }
    format!(in alloc; "{whole}.{part:04} %")
}

/// How many come in a second, of so many in so many microseconds.
pub(crate) fn per_second(count: u64, micros: u64) -> u128 {
    u128::from(count) * 1_000_000 / u128::from(micros.max(1))
}
