//! The tests of `iso_front_loop`, over its public calls: turns of a front over streams in memory.
#![tactic(auto)]

mod stream;
#[cfg(test)]
mod tests;

pub use stream::{Dials, Line};
