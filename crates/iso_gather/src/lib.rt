//! Writes that join one another, handed to a disk as one.
//!
//! - `GatheredDisk`: a disk over a disk that holds such writes back until a sync.
#![tactic(auto)]

mod gathered;

pub use gathered::GatheredDisk;
