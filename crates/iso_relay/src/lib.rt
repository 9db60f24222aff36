//! What a front before shards decides: where a frame goes, and what it passes on of what the shards answer.
//!
//! - `send` and `take`: where the body of an acquirer's frame goes, and whether a shard's answer is passed on.
//! - `Pending`: the requests that went to several shards and wait for what all of them say. `Pending::ask` notes one,
//!   `Pending::hear` decides on an answer.
//! - `Sending` and `Decision`: where a frame goes, and whether an answer is passed on.
//! - `Bounds`: how many acquirers there may be, how many bytes may wait for one connection, and how long an acquirer may be silent.
#![tactic(auto)]

mod bounds;
mod deciding;
mod decision;
mod entry;
mod pending;

pub use bounds::Bounds;
pub use deciding::{Sending, send, take};
pub use decision::Decision;
pub use entry::Entry;
pub use pending::{MOST_PENDING, Pending};
