//! An acquirer's notes in a file of records: its diary, behind a heading.
//!
//! - `create`: a new diary in an empty file. `open`: the diary in a file and its notes, whenever the last acquirer was cut
//!   off: `DurableAcquirer::start` goes on with both. `OpenError` says why there is none.
//! - `DiaryLog`: the file as a log of notes. `grow` makes room for more.
//! - `line_bytes`: the record of a note and its place, 128 bytes of text. `read_line`: what a record tells; any other bytes
//!   tell nothing.
//! - `heading_bytes`: the first record of a diary, which tells its format, the version of the rules, and the acquirer's
//!   number. `heading_fault` says what another file's first record tells otherwise.
//! - `laws`: what was written comes back, each record is whole, nothing else is read as one; a crash of an acquirer, and the start after it.
#![tactic(auto)]

mod creating;
mod diary;
mod error;
mod heading;
pub mod laws;
mod line;
mod opening;
mod putting;
mod reading;
mod scanning;
mod writing;

pub use creating::create;
pub use diary::DiaryLog;
pub use error::OpenError;
pub use heading::{Heading, HeadingFault, heading_bytes, heading_fault};
pub use line::Line;
pub use opening::{Opened, open};
pub use reading::read_line;
pub use writing::line_bytes;
