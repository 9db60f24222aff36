//! A log of batches in a store that others write to as well.
#![tactic(auto)]

mod batch;
mod heading;
pub mod laws;
mod log;
mod memory;
mod opening;
mod patience;
mod reading;
mod settling;
mod standby;
mod store;
mod why;

pub use batch::{MOST_BATCH_BYTES, MOST_ROWS, write_batch};
pub use heading::{Heading, MOST_PLACES, Writer, heading_bytes, read_heading};
pub use log::SharedLog;
pub use memory::{MemoryStore, Turn};
pub use opening::{OpenError, open};
pub use patience::{Patience, Tries};
pub use reading::{Batch, ReadFault, read_batch};
pub use settling::settle;
pub use standby::Standby;
pub use store::{Asked, Looked, Store};
pub use why::Why;
