//! An acquirer whose books outlive it: what it begins and what it is told is written down, and it is sent or counted once
//! that is kept. So either end may crash at any moment, and both ends go on to agree.
//!
//! - `DurableAcquirer`: an acquirer and the log of its notes. `start` goes through the notes that the log holds; `begin`,
//!   `timed_out` and `told` write one; `keep` has them synced, and gives the orders that may be sent then.
//! - `Note`: what an acquirer writes down.
//! - `NoteLog`: what a log of notes is, and what a crash leaves of it. `MemoryNotes` is one in memory.
//! - `laws`: both ends agree, whichever of them crashes; what follows from notes, and what a crash may leave of them.
#![tactic(auto)]

mod durable;
pub mod laws;
mod log;
mod memory;
mod note;
mod replaying;

pub use durable::{DurableAcquirer, Fault};
pub use log::{LogFailed, NoteLog};
pub use memory::MemoryNotes;
pub use note::Note;
pub use replaying::replay;
