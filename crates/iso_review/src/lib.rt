//! Tables for the people who write them: all that is wrong with a document, a table as lines, changes to a draft, and how
//! two tables differ.
#![tactic(auto)]

mod change;
mod complaint;
mod differences;
mod document;
mod excerpt;
mod judging;
mod kinds;
mod listing;
mod parsing;
mod words;

pub use change::{Member, RowChange, RowFault, apply, drop_row};
pub use complaint::{Cause, Complaint, Finding, Place};
pub use differences::append_differences;
pub use document::complaints;
pub use excerpt::Excerpt;
pub use kinds::LengthKind;
pub use listing::append_table;
pub use parsing::parse_row;
