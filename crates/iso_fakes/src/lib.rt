//! What tests share: a reader and a writer that move a few bytes at a time and fail at a call, streams that are interrupted,
//! and the checks that end a test. No crate uses it but in its tests.
#![tactic(auto)]

mod checks;
mod streams;

pub use checks::{check, check_of};
pub use streams::{FewBytes, FewTaken, Interrupted};
