//! Links of a host: the addresses on which it listens, and what is agreed on for each.
//!
//! - `Terms`: what is agreed on for a link. `Terms::lets_connect`: who may connect. `Terms::speaks_for`: whom its peers may
//!   speak for.
//! - `Network`: all addresses that begin with the same bits. `Limits`: what a host allows its peers.
//! - `read_links`: the links of a JSON document. `LinksFault` says what is wrong with it, and in which link's which `Member`.
#![tactic(auto)]

mod document;
mod fault;
mod limits;
mod network;
mod number;
mod reading;
mod terms;

pub use document::{MOST_PEERS, MOST_SECONDS, MOST_WAITING};
pub use fault::{LinksFault, Member};
pub use limits::Limits;
pub use network::Network;
pub use number::Number;
pub use reading::{MOST_LINKS, read_links};
pub use terms::Terms;
