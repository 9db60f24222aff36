//! The command line of the program for people, as `clap` judges it: its subcommands, their arguments, and its help.
//!
//! Each subcommand is a table of its words. What makes a command of such a table stands in `words`.
//!
//! - `command`: the program's command line.
#![tactic(auto)]

mod books;
mod drive;
mod front;
mod host;
mod messages;
mod page;
mod program;
mod tables;
mod words;

pub use program::command;
