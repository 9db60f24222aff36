//! A turn of a host: what peers send is decided, kept, and only then answered.
//!
//! - `DurableHost`: a host and the log of its orders. `take` and `take_all` decide what a peer sends, `keep` keeps the
//!   orders of all peers with one sync, and `hand_out` gives the bytes that may be written. `turn` is the first two for one
//!   peer.
//! - `laws`: what was handed out stands, whatever comes and whenever the host crashes; what a peer sends is taken piece by
//!   piece; and a host stays in step with its log.
//! - `Connection`: one peer, and the answers that wait for it. `Turned` and `TurnFault` say what came of its bytes.
#![tactic(auto)]

mod connection;
mod durable_host;
mod fault;
mod keeping;
pub mod laws;
mod taking;
mod turn;

pub use connection::Connection;
pub use durable_host::DurableHost;
pub use fault::TurnFault;
pub use turn::Turned;
