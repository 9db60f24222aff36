//! The way to the members of a cluster that keeps journals, as a command line names them.
//!
//! - `cluster_of`: the one cluster whose members words name. `OneCluster`: the way to its members, and to no other.
//! - `user_at`: who asks there.
//! - `Way`: the way to the journal that a word names. `Members`: the members that keep it.
//! - `now`, `pause`: the moment of a call, and a pause before the next one.
#![tactic(auto)]

mod dial;
mod members;
mod moment;
mod password;
mod way;

pub use dial::OneCluster;
pub use members::cluster_of;
pub use moment::{now, pause};
pub use password::user_at;
pub use way::{Members, Way};
