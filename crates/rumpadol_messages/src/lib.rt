//! What is done with messages, as a command line asks for it.
//!
//! - `perform_messages`: what a `MessageJob` asks: messages that are explained, decoded, encoded or written under another table.
#![tactic(auto)]

mod performing;
mod words;

pub use performing::perform_messages;
pub use words::{ConvertWords, MessageJob, MessageWords};
