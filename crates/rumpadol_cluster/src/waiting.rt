//! How long one waits.
ghost use Rattle.std.specs.Prelude.{◌≡◌};
ghost use Rattle.rumpadol_cluster.specs.Waiting.{has_passed, longest_wait, lease_timeout};

/// How often the lease of the host before may last before this one goes on all the same.
const LEASES: u64 = 3;

/// How long is waited for the host before, in milliseconds, where a lease has so many seconds.
pub fn longest_wait(seconds: u32) -> u64
    // It is three leases.
    ensures { result ≡ longest_wait seconds }
{
    u64::from(seconds) * 1_000 * LEASES
}

/// The milliseconds of a call about a lease of so many seconds: a call that waits is to leave time for another one.
pub fn lease_timeout(timeout: u64, seconds: u32) -> u64
    // It is the timeout of a call, but at most a third of the lease.
    ensures { result ≡ lease_timeout timeout seconds }
{
    timeout.min(u64::from(seconds) * 1_000 / 3)
}

/// Whether so long has passed since a moment, in milliseconds.
pub fn has_passed(since: u64, now: u64, wait: u64) -> bool
    ensures { result ≡ has_passed since now wait }
{
    since <= now && wait <= now - since
}
