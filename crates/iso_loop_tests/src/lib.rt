//! The tests of `iso_loop`, over its public calls: turns of a host over streams, a log and a clock in memory.
#![tactic(auto)]

#[cfg(test)]
mod lines;
mod seen;
mod stream;
#[cfg(test)]
mod tests;

pub use seen::Seen;
pub use stream::{Coming, Script};
