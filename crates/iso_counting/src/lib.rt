//! How the answers that come to a driver are counted.
//!
//! - `count_heard`: an answer, by what the driver makes of it.
//! - `count_beside`: an answer to an order that is no purchase.
#![tactic(auto)]

mod beside;
mod heard;

pub use beside::count_beside;
pub use heard::count_heard;
