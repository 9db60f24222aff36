//! Messages beside each other: at which elements two of them differ, what became of an answer that was expected, and how a
//! list of answers agrees with the one that was expected.
#![tactic(auto)]

mod comparison;
mod difference;
mod json;
mod lines;
mod reading;
mod splitting;
mod tally;
mod telling;

pub use comparison::{Comparison, Side, compare_frames};
pub use difference::{Difference, differing};
pub use json::append_differences_json;
pub use lines::append_differences;
pub use reading::NoMessage;
pub use splitting::{Front, Split, count_frames, split_frames};
pub use tally::Tally;
pub use telling::Telling;
