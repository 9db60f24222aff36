//! How many purchases begin, and until when.
ghost use Rattle.std.specs.Prelude.{◌≡◌, ◌<◌, ◌≤◌, ◌*◌, ◌/◌, ◌+◌, ℕ, IfSome, ◌^◌};
ghost use Rattle.iso_plan.specs.Pace.{closing_moment, allowed, due_purchases, IsNextMoment};

/// How purchases begin.
#[derive(Clone, Copy, Debug)]
pub struct Pace {
    /// How many in a second; without it, as many as may be open.
    pub rate: Option<u32>,
    /// How many at most.
    pub count: u32,
    /// How many transactions may be open when another one begins.
    pub most_open: usize,
    /// From that moment of the run on, in milliseconds, they begin.
    pub opening: u64,
    /// From that moment of the run on, in milliseconds, none begins.
    pub closing: u64,
}

/// The moment of a run of so many seconds from which on no purchase begins, in milliseconds: four times as long as an answer
/// is waited for before its end, or the half of it before.
pub fn closing_moment(seconds: u64, patience: u64) -> u64
    ensures { result ≡ closing_moment seconds patience }
{
    let whole = seconds.saturating_mul(1_000);
    whole - (whole / 2).min(patience.saturating_mul(4))
}

/// How many purchases may have begun by a moment of the run, in milliseconds.
fn allowed(pace: &Pace, elapsed: u64) -> u64
    ensures { result ≡ allowed pace.now elapsed }
{
    let count = u64::from(pace.count);
    match pace.rate {
        None => count,
        Some(rate) => {
            let since = elapsed.saturating_sub(pace.opening);
            let by_rate = u128::from(since) * u128::from(rate) / 1_000;
            by_rate.min(u128::from(count)) as u64
        }
    }
}

/// How many purchases begin at a moment of the run, in milliseconds, where so many have begun and so many transactions are
/// open.
pub fn due_purchases(pace: &Pace, elapsed: u64, begun: u64, opened: usize) -> u64
    // It is how many more the rate and the count allow than have begun, as far as there is room for
    // open ones; none before the opening, and none from the closing on.
    ensures { result ≡ due_purchases pace.now elapsed begun opened }
{
    if elapsed < pace.opening || elapsed >= pace.closing {
        return 0;
    }
    let room = pace.most_open.saturating_sub(opened) as u64;
    allowed(pace, elapsed).saturating_sub(begun).min(room)
}

/// How many milliseconds after the opening the rate allows one more purchase than so many. `None` where there is no rate.
pub fn next_moment(rate: Option<u32>, begun: u64) -> Option<u64>
    // By that moment the rate allows one purchase more, and not a millisecond before.
    ensures { IfSome result (λ at. IsNextMoment rate begun at) }
{
    let rate = u64::from(rate?);
    if rate == 0 {
        return None;
    }
    let thousands = begun.checked_add(1)?.checked_mul(1_000)?;
    Some(thousands.div_ceil(rate))
}
