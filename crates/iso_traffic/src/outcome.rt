//! How a run ended.

use iso_tally::Mixed;

/// How a run ended.
#[derive(Debug, Drop)]
pub struct Outcome {
    /// Whether each purchase is approved, declined or reversed, and each other order has its answer.
    pub all_closed: bool,
    /// What was taken from each account, in the order of the plan, by what isn't a purchase: what holds keep, completions took
    /// and partial reversals left.
    pub moved: Vec<u128>,
    /// How far those got that aren't purchases, where a mix was asked.
    pub mixed: Option<Mixed>,
    /// What the host told of each account before the first purchase, in the order of the plan, in minor units: `None` where
    /// it told none. Empty where it wasn't asked: without checks, and where the driver goes on with an earlier run.
    pub before: Vec<Option<i64>>,
    /// The same once each transaction was closed.
    pub balances: Vec<Option<i64>>,
    /// How long the run took, in microseconds.
    pub micros: u64,
}
