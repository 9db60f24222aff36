//! Numbers as people read them, in the text of a report.

use super::writing::idle;
use iso_fakes::check;
use iso_report::Report;
use iso_tally::{Bucket, Summary};
use std::alloc::{AllocError, Global};
use std::test::Fail;

/// A number that is told.
#[derive(Clone, Copy)]
enum Number {
    /// The least time that an answer took, in microseconds.
    Time(u64),
    /// Where a bucket begins, in microseconds.
    Bound(u64),
    /// How likely a frame was lost, in millionths.
    Chance(u32),
    /// How many purchases began, and in how many microseconds.
    Pace(u64, u64),
}

/// A number, and how the text of a report tells it.
const NUMBERS: &[(Number, &str)] = &[
    (
        Number::Time(0),
        "\n  least                          0.000\n",
    ),
    (
        Number::Time(845),
        "\n  least                          0.845\n",
    ),
    (
        Number::Time(1_009),
        "\n  least                           1.00\n",
    ),
    (
        Number::Time(1_920),
        "\n  least                           1.92\n",
    ),
    (
        Number::Time(12_345),
        "\n  least                           12.3\n",
    ),
    (
        Number::Time(145_900),
        "\n  least                            145\n",
    ),
    (Number::Bound(500), "\n    500 us to     more "),
    (Number::Bound(20_000), "\n     20 ms to     more "),
    (Number::Bound(5_000_000), "\n       5 s to     more "),
    (Number::Bound(1_500), "\n   1500 us to     more "),
    (Number::Chance(50_000), ", 5 % lost\n"),
    (Number::Chance(2_500), ", 0.25 % lost\n"),
    (Number::Chance(1), ", 0.0001 % lost\n"),
    (Number::Chance(1_000_000), ", 100 % lost\n"),
    (
        Number::Pace(0, 10_029_999),
        "\n0 purchases in 10.02 s, 0 a second\n",
    ),
    (
        Number::Pace(3_000, 1_500_000),
        "\n3000 purchases in 1.50 s, 2000 a second\n",
    ),
    (
        Number::Pace(3, 0),
        "\n3 purchases in 0.00 s, 3000000 a second\n",
    ),
];

/// Percentiles that are all the same.
fn all_at(micros: u64) -> Summary {
    Summary {
        least: micros,
        p50: micros,
        p90: micros,
        p99: micros,
        p999: micros,
        most: micros,
    }
}

/// A report that tells the number.
fn telling(alloc: Global, number: Number) -> Result<Report<'static>, AllocError> {
    let mut report = idle(alloc);
    match number {
        Number::Time(micros) => report.summary = Some(all_at(micros)),
        Number::Bound(micros) => {
            report.summary = Some(all_at(0));
            report.buckets.push(Bucket {
                from: micros,
                below: None,
                count: 1,
            })?;
        }
        Number::Chance(millionths) => {
            report.settings.lose = millionths;
            report.settings.cut = 0;
            report.settings.delay.0 = 0;
            report.settings.delay.1 = 0;
        }
        Number::Pace(begun, micros) => {
            report.tally.begun = begun;
            report.micros = micros;
        }
    }
    Ok(report)
}

/// Whether the number is told so.
fn is_told(alloc: Global, number: Number, wanted: &str) -> Result<bool, AllocError> {
    let report = telling(alloc, number)?;
    let text = report.to_text(alloc)?;
    Ok(text.as_str().contains(wanted))
}

#[test]
fn numbers_as_people_read_them(rt: HostRuntime) -> Result<(), Fail> {
    for (number, wanted) in NUMBERS {
        check(is_told(rt.alloc(), *number, wanted)?, wanted)?;
    }
    Ok(())
}
