//! What a page asks of the codec, and what it is told: questions and answers are JSON, and nothing is kept between them.
//!
//! - `Question`: a question, and what its members are. `DeskFault`: why one isn't answered.
//! - `table_in`: the table that a question brings, or all that is wrong with its document.
//! - `tell_messages`: what is told of the messages of an input, in memory. `make_bytes`: the bytes of a message that a text says.
//! - `tell_table`, `look`, `build`, `convert`: the answers.
//! - `push_text`, `push_lines`: pieces of an answer, for who answers other questions.
#![tactic(auto)]

mod building;
mod converting;
mod fault;
mod form;
mod looking;
mod question;
mod showing;
mod tables;
mod telling;
mod writing;

pub use building::build;
pub use converting::convert;
pub use fault::DeskFault;
pub use looking::look;
pub use question::Question;
pub use showing::tell_table;
pub use tables::{Found, push_complaints, table_in};
pub use telling::{Told, make_bytes, tell_messages};
pub use writing::{push_items, push_lines, push_text};
