//! What loops around sockets have in common: how they listen, read their clock, stop, and tell what happens.
//!
//! - `listen`: a port on an address, which the system watches.
//! - `moment`: the milliseconds of a clock that never goes back.
//! - `Looks`: when a loop looks whether it is called off, and why it stops.
//! - `Telling`: writes lines of JSON without waiting for who reads them. `Told`: what such a line tells.
#![tactic(auto)]

mod clock;
mod listening;
mod looks;
mod telling;

pub use clock::moment;
pub use listening::listen;
pub use looks::Looks;
pub use telling::{Telling, Told};
