//! The standard streams of the program as its user has them.
//!
//! - `Terminals`: which of them are terminals, and whether colours are wanted.
//! - `asks_for_no_colours`: whether the environment asks for none.
#![tactic(auto)]

mod terminals;

pub use terminals::{Terminals, asks_for_no_colours};
