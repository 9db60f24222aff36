//! A front before shards, as a command line asks for it.
//!
//! - `perform_before_shards`: what a `FrontJob` asks: the shards of a document, and the port before them.
#![tactic(auto)]

mod before_shards;
mod job;
mod performing;
mod words;

pub use before_shards::perform_before_shards;
pub use job::FrontJob;
