//! A host that misbehaves on purpose, as a command line asks for it.
//!
//! - `perform_by_script`: what the words about such a host ask: the rules of a document, its accounts and its port.
#![tactic(auto)]

mod by_script;
mod performing;
mod words;

pub use by_script::perform_by_script;
