//! A journal on etcd, as a host has it.
//!
//! - `EtcdStore`: the members of a cluster as a store of batches. What it knows is what their answers said.
//! - `next_page`: the batches of a journal, read many at a time. `most_after`: how many.
//! - `Clocked`: a patience by the clock.
//! - `begin_journal` and `check_journal`: what a journal is, in its first key. `check_free`: that nothing has its name.
//! - `Stand`: who is active, by a lease.
#![tactic(auto)]

mod ahead;
mod heading;
mod patience;
mod stand;
mod store;

pub use ahead::{most_after, next_page};
pub use heading::{JournalFault, begin_journal, check_free, check_journal};
pub use patience::Clocked;
pub use stand::{Stand, Standing};
pub use store::{EtcdStore, Trouble};
