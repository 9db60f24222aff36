//! What is counted and timed of a run of `rumpadol drive`.
//!
//! - `Tally`: what happened to its traffic. `add_one`: counts one more.
//! - `Latencies`: how long answers took. `Summary`: their percentiles. `Bucket` and `BOUNDS`: their histogram.
//! - `Ended` and `Declined`: how far its purchases got. `Mixed`: how far all others got.
//! - `AccountBooks`, `Verdict` and `all_agree`: whether both ends have the same on an account. `Doubt`: what to look at where
//!   they haven't.
#![tactic(auto)]

mod books;
mod bucket;
mod ended;
mod latencies;
mod mixed;
mod summary;
mod tally;

pub use books::{AccountBooks, Doubt, Verdict, all_agree};
pub use bucket::{BOUNDS, Bucket};
pub use ended::{Declined, Ended};
pub use latencies::Latencies;
pub use mixed::Mixed;
pub use summary::Summary;
pub use tally::{Tally, add_one};
