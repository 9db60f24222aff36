//! A disk that tears and fails, and what a log makes of it.
#![tactic(auto)]

mod disk;
#[cfg(test)]
mod tests;

pub use disk::{Tear, TornDisk};
