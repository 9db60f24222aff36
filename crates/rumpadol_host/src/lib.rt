//! A host over a journal that outlives it, as a command line asks for it.
//!
//! - `perform_host`: what `HostWords` ask: a host of the standard streams, of peers on ports, or one that misbehaves by rules; over a
//!   journal in a file or on etcd.
#![tactic(auto)]

mod performing;
mod ports;
mod replicas;
mod stream;

pub use performing::perform_host;
