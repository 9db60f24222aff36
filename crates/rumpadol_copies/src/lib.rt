//! Journals on etcd as a command line names them: what is told of one, and copies between files and etcd.
//!
//! - `perform_journal`: what a `JournalJob` asks about journals in files and on etcd.
//! - `cluster_at`: the members that keep a journal, as words say it.
//! - `fetch`: a journal on etcd as the records of a file. `Held`: such records, looked into as a file is.
//! - `file_records`: records as a file. `send_records`: records as a journal on etcd.
#![tactic(auto)]

mod copying;
mod fetching;
mod filing;
mod held;
mod performing;
mod place;
mod reaching;
mod sending;
mod sentences;

pub use fetching::{FetchFault, fetch};
pub use filing::file_records;
pub use held::Held;
pub use performing::perform_journal;
pub use reaching::cluster_at;
pub use sending::{SendFault, send_records};
