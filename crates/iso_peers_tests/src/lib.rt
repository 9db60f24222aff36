//! The tests of `iso_peers`, over its public calls: two peers in one turn, and a log that fails.
#![tactic(auto)]

mod log;
#[cfg(test)]
mod tests;

pub use log::ToldLog;
