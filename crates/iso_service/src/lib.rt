//! A host that outlives its process: how its journal's file is made and opened, and how a stream is served over it.
//!
//! - `Journals`: the files of a device, as a host wants them. `FileFault` says why one isn't opened or made.
//! - `make_journal`: a new journal, which has its name only once it is whole. `start`: a host over the journal at a path.
//!   `StartFault` says why there is none, each by a sentence that says what would mend it.
//! - `front_fault`: what the first bytes of a file tell otherwise than a journal's, before it is opened.
//! - `serve_kept`: reads frames to the end of the input, and writes an answer only once its order is kept. `ServiceFault` says
//!   why it ends before, and `Report` what came.
#![tactic(auto)]

mod answering;
mod counting;
mod device;
mod fault;
mod front;
mod making;
mod serving;
mod starting;
mod taking;

pub use device::{FileFault, Journals};
pub use fault::{ServiceFault, StartFault};
pub use front::{FrontFault, front_fault};
pub use making::{FIRST_ROOM, make_journal};
pub use serving::{BLOCK, serve_kept};
pub use starting::{LARGEST_GROUP, RULES, start};
