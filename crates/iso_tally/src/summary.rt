//! The percentiles of a run.
ghost use Rattle.std.specs.Prelude.{◌≡◌, ◌≤◌, ◌<◌, ◌-◌, ◌*◌, length, IfSome, IfNone};
ghost use Rattle.std.specs.List.Sorted.{IsNonDecreasing};
ghost use Rattle.iso_tally.specs.Percentile.{IsPercentile, IsSummary};

/// The percentiles of the times that answers took, in microseconds: each is one of the times.
#[derive(Clone, Copy, Debug, PartialEq, Eq)]
pub struct Summary {
    /// The least.
    pub least: u64,
    /// Half of all answers took at most so long.
    pub p50: u64,
    /// 90 of 100 answers took at most so long.
    pub p90: u64,
    /// 99 of 100.
    pub p99: u64,
    /// 999 of 1000.
    pub p999: u64,
    /// The most.
    pub most: u64,
}

/// How many of so many values all but one in so many are, rounded up.
fn rank(count: usize, one_in: usize) -> usize
    requires { 1 < one_in }
    ensures within { result ≤ count }
    ensures some { 0 < count → 0 < result }
    ensures enough { (one_in - 1) * count ≤ one_in * result }
    ensures fewer { 0 < count → one_in * (result - 1) < (one_in - 1) * count }
{
    count - count / one_in
}

/// The least of the sorted values that all but one in so many are at most.
fn percentile(sorted: &[u64], one_in: usize) -> Option<u64>
    requires sorted { IsNonDecreasing sorted.now }
    requires several { 1 < one_in }
    ensures value { IfSome result (λ v. IsPercentile (one_in - 1) one_in sorted.now v) }
    ensures none { IfNone result (length sorted.now ≡ 0) }
{
    let rank = rank(sorted.len(), one_in);
    if rank == 0 {
        return None;
    }
    Some(sorted[rank - 1])
}

/// The percentiles of values that are sorted. `None` where there are none.
pub(crate) fn summary_of(sorted: &[u64]) -> Option<Summary>
    requires sorted { IsNonDecreasing sorted.now }
    ensures summary { IfSome result (IsSummary sorted.now) }
    ensures none { IfNone result (length sorted.now ≡ 0) }
{
    Some(Summary {
        least: *sorted.first()?,
        p50: percentile(sorted, 2)?,
        p90: percentile(sorted, 10)?,
        p99: percentile(sorted, 100)?,
        p999: percentile(sorted, 1000)?,
        most: *sorted.last()?,
    })
}
