//! The tables, documents and names that a command line names, what is done with tables, and how a program stops that doesn't
//! end well.
//!
//! - `Source`: files by path. `document_at`, `document_named`: the bytes of a document.
//! - `table_named`, `names_named`: the table and the names that words name.
//! - `perform_table`: what a `TableJob` asks.
//! - `Stop`: sentences on the error stream, and a status. `tell` tells them.
#![tactic(auto)]

mod documents;
mod named;
mod source;
mod stop;
mod table;
mod words;

pub use documents::{STANDARD_INPUT, document_at};
pub use named::{names_named, table_named};
pub use source::{MOST_BYTES, Source, SourceFault, read_front};
pub use stop::{Stop, failed, misused, refused, refused_or_failed, tell, write_output};
pub use table::perform_table;
pub use words::{NewWords, TableJob};
