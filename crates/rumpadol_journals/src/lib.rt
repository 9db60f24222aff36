//! Journals as a command line names them: a host that starts over one, and what is told of one.
//!
//! - `Disk`: the files of the system, and the journals in them.
//! - `open_at`, `begin_at` and `finish_at`: files that one process at a time writes, for other logs than journals.
//! - `accounts_at`: the accounts of a document. `start_host`: a host over its journal, which is made before where that is asked.
//! - `Keeper`: what keeps a journal that is looked into. `InFiles`: files.
//! - `perform_books`: what a `BooksJob` asks about a journal. `survey_at`: how many orders one has.
//! - `JournalJob`: what is asked about journals in files and on etcd, for who knows both.
//! - `Progress`: how far a long job is, on a terminal.
#![tactic(auto)]

mod accounts;
mod books;
mod disk;
mod files;
mod journals;
mod keeper;
mod progress;
mod starting;
mod words;

pub use accounts::accounts_at;
pub use books::{Surveyed, perform_books, survey_at};
pub use disk::Disk;
pub use files::{begin_at, finish_at, front_at, give_up_at, open_at};
pub use keeper::{InFiles, Keeper};
pub use progress::Progress;
pub use starting::{not_kept, start_host};
pub use words::{BooksJob, BooksWords, CopyWords, EtcdWords, JournalJob, KeptWords};
