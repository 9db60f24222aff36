//! The journal of an issuer in a file of records: each order with the answer that it got, behind a heading.
//!
//! - `create`: a new journal in an empty file. `open`: an issuer over the journal in a file, whenever the last host was cut
//!   off. `OpenError` says why there is none.
//! - `JournalLog`: the file as a log of orders. `grow` makes room for more.
//! - `Watch`: who is told how far a long start is. `Unwatched`: nobody.
//! - `replay_record`: one record decided again, for who only reads.
//! - `laws`: a crash of a host, and the start after it.
#![tactic(auto)]

mod creating;
mod error;
mod journal;
pub mod laws;
mod opening;
mod replaying;
mod watching;

pub use creating::create;
pub use error::OpenError;
pub use journal::JournalLog;
pub use opening::open;
pub use replaying::replay_record;
pub use watching::{Unwatched, Watch};
