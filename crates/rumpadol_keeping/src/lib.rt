//! A host over a journal on etcd keeps its lease while it serves.
//!
//! - `Keeping`: what stops a host on ports, and keeps the lease meanwhile.
//! - `Beating`: an input before each read of which the lease is kept.
#![tactic(auto)]

mod beating;
mod keeping;
mod lease;

pub use beating::Beating;
pub use keeping::Keeping;
