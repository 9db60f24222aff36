//! An issuer whose journal outlives it: an order is decided, kept in a log, and answered once the log is synced.
//!
//! - `DurableIssuer`: an issuer and its log. `start` takes the orders that the log holds, `answer_all` answers orders that
//!   come together with one sync, and `decide` is one step of it.
//! - `Log`: what a log of orders is, and what a crash leaves of it. `MemoryLog` is one in memory.
//! - `replay` and `answer_order`: what a start does with the orders that a log holds.
//! - `laws`: the answers that were given outlive each crash, and what holds of the orders that a host can start on.
#![tactic(auto)]

mod host;
pub mod laws;
mod log;
mod memory;

pub use host::{DurableIssuer, Fault, answer_order, replay};
pub use log::{Log, LogFailed};
pub use memory::MemoryLog;
