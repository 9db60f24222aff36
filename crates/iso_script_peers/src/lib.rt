//! The peers of a host with rules: when they get their answers, when they are read from, and when they are closed.
//!
//! - `Going` and `going_of`: when the answer to a message goes out.
//! - `Bounds`: how many peers there may be, and how many bytes may wait for one.
//! - `Standing` and `is_done`: when a peer is closed.
//! - `pause_of`: how long a turn waits for events, `PAUSE` at most.
#![tactic(auto)]

mod going;
mod pausing;
mod standing;

pub use going::{Going, going_of};
pub use pausing::{PAUSE, pause_of};
pub use standing::{Bounds, Standing, is_done};
