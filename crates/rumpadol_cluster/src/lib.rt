//! The words about a journal on etcd, and what decides whose turn it is.
//!
//! - `is_on_etcd`, `place_of`: which words name such a journal, and where it is.
//! - `ReplicaWords`: what is told about a host over one. `check_words` refuses them where the journal is a file.
//! - `joined`: whether the members that tell their cluster are of one.
//! - `heard`: whether what a standby hears tells it to take over: a `Told`. No line is longer than `MOST_LINE`.
//! - `longest_wait`, `lease_timeout`: how long a host waits for the one before it, and a call for its lease. `has_passed`:
//!   whether so long has passed.
#![tactic(auto)]

mod members;
mod place;
mod telling;
mod waiting;
mod words;

pub use members::joined;
pub use place::{is_on_etcd, place_of};
pub use telling::{MOST_LINE, Told, heard};
pub use waiting::{has_passed, lease_timeout, longest_wait};
pub use words::{ReplicaWords, check_words};
