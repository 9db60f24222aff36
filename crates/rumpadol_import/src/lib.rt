//! `table import`: the table of another program as a document of ours, as a command line asks for it.
//!
//! - `perform_import`: what `ImportWords` ask.
#![tactic(auto)]

mod performing;
mod words;

pub use performing::perform_import;
pub use words::ImportWords;
