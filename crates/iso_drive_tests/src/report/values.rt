//! Percentiles, buckets and verdicts that are worked out by hand.

use iso_fakes::check;
use iso_order::Pan;
use iso_tally::{AccountBooks, BOUNDS, Latencies, Summary, Tally, Verdict, add_one, all_agree};
use std::alloc::{AllocError, Global};
use std::test::Fail;

/// The latencies of these values.
fn latencies(alloc: Global, values: &[u64]) -> Result<Latencies, AllocError> {
    let mut latencies = Latencies::new(alloc);
    for value in values {
        latencies.add(*value)?;
    }
    Ok(latencies)
}

/// Values, and their least, p50, p90, p99 and most by the nearest rank; p99.9 is the most.
const WORKED: &[(&[u64], [u64; 5])] = &[
    (&[7], [7, 7, 7, 7, 7]),
    (&[2, 1], [1, 1, 2, 2, 2]),
    (&[35, 20, 15, 50, 40], [15, 35, 50, 50, 50]),
    (&[3, 6, 7, 8, 8, 10, 13, 15, 16, 20], [3, 8, 16, 20, 20]),
    (&[3, 6, 7, 8, 8, 9, 10, 13, 15, 16, 20], [3, 9, 16, 20, 20]),
];

/// Whether the values have these percentiles.
fn is_worked(alloc: Global, values: &[u64], wanted: [u64; 5]) -> Result<bool, AllocError> {
    let mut given = latencies(alloc, values)?;
    let [least, p50, p90, p99, most] = wanted;
    let wanted = Summary {
        least,
        p50,
        p90,
        p99,
        p999: most,
        most,
    };
    Ok(given.len() == values.len() && given.summary() == Some(wanted))
}

#[test]
fn percentiles(rt: HostRuntime) -> Result<(), Fail> {
    for (values, wanted) in WORKED {
        check(is_worked(rt.alloc(), values, *wanted)?, "percentiles")?;
    }
    Ok(())
}

/// The latencies from 1,000 down to 1.
fn a_thousand(alloc: Global) -> Result<Latencies, AllocError> {
    let mut given = Latencies::new(alloc);
    for value in 0..1_000u64 {
        given.add(1_000 - value)?;
    }
    Ok(given)
}

const OF_A_THOUSAND: Summary = Summary {
    least: 1,
    p50: 500,
    p90: 900,
    p99: 990,
    p999: 999,
    most: 1_000,
};

#[test]
fn many_values_and_none(rt: HostRuntime) -> Result<(), Fail> {
    let mut given = a_thousand(rt.alloc())?;
    check(
        given.summary() == Some(OF_A_THOUSAND),
        "a thousand values from the greatest down",
    )?;
    let mut none = Latencies::new(rt.alloc());
    check(none.is_empty(), "no value")?;
    check(none.summary().is_none(), "no value has no percentile")
}

/// The place of a bucket, its bounds, and how many of the values below it has.
const BUCKETS: &[(usize, u64, Option<u64>, usize)] = &[
    (0, 0, Some(10), 2),
    (1, 10, Some(20), 2),
    (2, 20, Some(50), 1),
    (3, 50, Some(100), 0),
    (18, 5_000_000, Some(10_000_000), 0),
    (19, 10_000_000, None, 2),
];

#[test]
fn buckets_begin_at_their_bounds(rt: HostRuntime) -> Result<(), Fail> {
    let alloc = rt.alloc();
    let mut given = latencies(alloc, &[99_999_999, 19, 0, 20, 10_000_000, 10, 9])?;
    let buckets = given.buckets(alloc)?;
    check(buckets.len() == BOUNDS.len() + 1, "how many")?;
    for (place, from, below, count) in BUCKETS {
        let is_so = match buckets.get(*place) {
            Some(of) => of.from == *from && of.below == *below && of.count == *count,
            None => false,
        };
        check(is_so, "a bucket")?;
    }
    Ok(())
}

/// What was on an account, what was spent, what the host told, and what that comes to.
const VERDICTS: &[(i64, u128, Option<i64>, Verdict)] = &[
    (1_000, 0, Some(1_000), Verdict::Agree),
    (1_000, 250, Some(750), Verdict::Agree),
    (1_000, 1_250, Some(-250), Verdict::Agree),
    (-5, 5, Some(-10), Verdict::Agree),
    (1_000, 250, Some(751), Verdict::Differ),
    (1_000, 250, Some(1_250), Verdict::Differ),
    (1_000, 0, Some(-1_000), Verdict::Differ),
    (1_000, 250, None, Verdict::Untold),
];

/// Whether that is the verdict on such an account.
fn is_verdict(opening: i64, spent: u128, told: Option<i64>, wanted: Verdict) -> Option<bool> {
    let books = AccountBooks {
        pan: Pan::from_digits(b"4111111111111111")?,
        opening,
        spent,
        told,
    };
    let is_agreed = all_agree(&[books]) == (wanted == Verdict::Agree);
    Some(books.verdict() == wanted && is_agreed)
}

#[test]
fn verdicts(_rt: HostRuntime) -> Result<(), Fail> {
    for (opening, spent, told, wanted) in VERDICTS {
        let is_so = is_verdict(*opening, *spent, *told, *wanted);
        check(is_so == Some(true), "a verdict")?;
    }
    Ok(())
}

#[test]
fn counts_stay_at_the_greatest(_rt: HostRuntime) -> Result<(), Fail> {
    let mut tally = Tally::NONE;
    add_one(&mut tally.sent);
    check(tally.sent == 1, "one more")?;
    tally.sent = u64::MAX;
    add_one(&mut tally.sent);
    check(tally.sent == u64::MAX, "the greatest")
}
