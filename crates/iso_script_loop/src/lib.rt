//! A host with rules on a port: it misbehaves to many peers.
//!
//! - `Port` and `serve_script`: the loop over sockets. `iso_lines`'s `Control` stops it, and its `LoopFault` says why it ends
//!   otherwise.
//!
//! When an answer goes out, when a peer is closed and what is allowed to peers is `iso_script_peers`'.
#![tactic(auto)]

mod edge;
mod late;
mod peer;
mod peers;
mod serving;
mod telling;

pub use edge::Port;
pub use serving::serve_script;
