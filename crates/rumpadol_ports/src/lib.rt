//! Hosts and fronts on ports, as a command line asks for them: where they listen, how their peers write there, and what stops them.
//!
//! - `HostWords`: the words about a host, with its `Place`. `System`: what it has of the system beside its files.
//! - `asked_of`: where the words ask a host to listen. `address_of`: the address that a word writes.
//! - `link_under`, `all_agreed`: what is agreed on with peers, under the tables that words name. `lines_of`: the lines on which a
//!   host listens, and `addresses_of` their addresses.
//! - `Outside`: what stops a host or a front. `check_stop_file`: none starts that would stop at once. `log_asked`: the log of a host.
#![tactic(auto)]

mod asking;
mod link;
mod outside;
mod system;
mod words;

pub use asking::{Asked, address_of, addresses_of, all_agreed, asked_of, lines_of};
pub use link::link_under;
pub use outside::{Outside, check_stop_file, log_asked};
pub use system::System;
pub use words::{HostWords, ListenWords, Place, StreamWords};
