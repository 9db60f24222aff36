//! The other end: an acquirer that sends debits and reverses what it doesn't hear of, and what both ends agree on.
#![tactic(auto)]

mod acquirer;
mod event;
mod fault;
pub mod laws;
mod slot;
mod stage;
mod state;
mod world;

pub use acquirer::Acquirer;
pub use event::{Event, Given};
pub use fault::{AcqFault, StepFault};
pub use state::State;
pub use world::World;
