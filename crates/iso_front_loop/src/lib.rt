//! A front before shards: it sends what acquirers ask to the shards' hosts, and gives their answers back.
//!
//! - `Acquirers`: all acquirers on any streams, each with connections of its own to the shards, which a `Dial` opens.
//! - `Port` and `serve_front`: the loop over sockets. `iso_lines`'s `Control` stops it.
//!
//! Where a frame goes, which answers are passed on, and what is allowed to acquirers is `iso_relay`'s.
#![tactic(auto)]

mod acquirer;
mod acquirers;
mod edge;
mod leg;
mod serving;
mod telling;
mod way;

pub use acquirers::{Acquirers, Dial, token_of};
pub use edge::Port;
pub use serving::{Front, serve_front};
