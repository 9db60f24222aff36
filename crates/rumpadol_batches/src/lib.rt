//! What a copy of a journal has: its batches on etcd, and the records of its file.
//!
//! - `add_batch`: the records of a batch, behind those of so many orders.
//! - `batches_of`, `batch_at`: records as batches of `MOST_ORDERS` each. `laws`: the batches have all records.
//! - `write_journal`: a heading and records as the file of a journal. `slots_for`: for how many records such a file has room.
#![tactic(auto)]

mod batches;
mod filing;
pub mod laws;
mod records;

pub use batches::{MOST_ORDERS, batch_at, batches_of};
pub use filing::{slots_for, write_journal};
pub use records::add_batch;
