//! A log of records of 128 bytes in a file whose room is laid out beforehand, with one sync for each group of records and no
//! checksum.
//!
//! The file is zeros before its first record, and a record has no zero byte. So a record is there exactly where none of the
//! bytes of its slot is zero, and a torn one is seen as such. This stands on one property of the disk: after a crash each
//! byte of a write that wasn't synced is the old one or the one that was written (`Disk::mixes`).
//!
//! - `laws`: which records stand where in a file, and what a crash leaves of what they tell.
#![tactic(auto)]

pub mod laws;
mod log;
mod making;
mod piece;
mod recovery;

pub use log::{LogError, MOST_RECORDS, RECORD, RecordLog, is_whole};
pub use making::make;
pub use recovery::{Found, recover};
