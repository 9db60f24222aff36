//! Hosts whose journal is on etcd, as a command line names them.
//!
//! - `start_active`: a host that is the active one of its journal. `start_standby`: one that reads on until it is its turn.
//! - `Replica`: such a host, and the lease that says so.
//! - `Lost`: how the program stops where a host's log failed.
#![tactic(auto)]

mod active;
mod control;
mod following;
mod lost;
mod progress;
mod sentences;
mod standby;

pub use active::start_active;
pub use following::{EtcdLog, Replica};
pub use lost::Lost;
pub use standby::start_standby;
