//! The engine of a proved acquirer that drives a host: connections, and the loop around the sockets. What a run is to do, and
//! what decides it, is `iso_plan`; what frames tell is `iso_frames`.
//!
//! - `drive`: has a driver buy from a host as a plan says, until all is closed or its time is up. `Outcome` tells how it
//!   ended, and `TrafficFault` why it ends otherwise.
//! - `Watch` and `Progress`: how far a run is, for those who watch it. `Unwatched` is nobody.
#![tactic(auto)]

mod beside;
mod connection;
mod edge;
mod engine;
mod fault;
mod hearing;
mod lines;
mod moment;
mod outcome;
mod running;
mod sending;
mod turn;
mod watch;

pub use fault::TrafficFault;
pub use outcome::Outcome;
pub use running::drive;
pub use watch::{Progress, Unwatched, Watch};
