//! An order and its answer as a record of 128 bytes of text and back, and the record that a journal begins with.
//!
//! - `row_bytes`: the record of an order and its answer. `read_row`: what a record tells; any other bytes tell nothing.
//! - `heading_bytes`: the first record of a journal, which tells its format, the version of the rules, and a digest of the
//!   accounts' document. `heading_fault` says what another journal's first record tells otherwise.
//! - `laws`: what was written comes back, each record is whole, and nothing else is read as one; numbers and blanks as its
//!   columns.
#![tactic(auto)]

mod heading;
pub mod laws;
mod reading;
mod row;
mod writing;

pub use heading::{Heading, HeadingFault, heading_bytes, heading_fault};
pub use reading::read_row;
pub use row::Row;
pub use writing::row_bytes;
