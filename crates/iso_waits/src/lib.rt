//! Orders that wait for an answer, in the order in which they become due.
//!
//! - `Due`: an order that waits, by its trace number, and the moment from which on no answer came in time.
//! - `wait`, `put_off`, `leave_out`: one order more waits, the first one waits on behind all others, one waits no longer.
//! - `first_of`, `due_by`, `is_empty`: which one is due first, how many are due by a moment, whether none waits.
//! - `laws`: who waits after each of these calls, and in which order.
//!
//! Who waits stands in a deque of its owner's. Moments are milliseconds of a clock that never goes back.
#![tactic(auto)]

mod due;
pub mod laws;

pub use due::{Due, due_by, first_of, is_empty, leave_out, moment_after, put_off, wait};
