//! Many peers on the lines of a host, on any streams: who is let in, read from, written to and closed, and when.
//!
//! - `Line`: one of the addresses that a host listens on, with its table, header and terms. `Standing`: how a peer stands,
//!   and `Standing::doing`, what is done with it then.
//! - `Peers`: all peers, on any streams. In a turn what came of all of them is decided, kept with one sync, and only then
//!   answered.
//! - `Event` and `Lines`: what happens, for a log. `closing_word` and `refusal_word`: how it writes why.
//! - `Visiting`: how one stands that comes beside the peers with one request, as for metrics, which `Pages` answers.
//! - `Filling`: when it is told how full the journal is.
//! - `Control` stops a loop over such peers, and `LoopFault` says why it ends otherwise.
#![tactic(auto)]

mod control;
mod event;
mod fault;
mod hearing;
mod journal;
mod kind;
mod letting;
mod line;
mod moment;
mod notes;
mod pages;
mod peer;
mod peers;
mod settling;
mod share;
mod standing;
mod taking;
mod tally;
mod visiting;
mod words;
mod writing;

pub use control::{Control, is_at_end};
pub use event::{Counts, Event, Lines, Refusal, Stop};
pub use fault::{LoopFault, Unbound};
pub use journal::Filling;
pub use line::Line;
pub use moment::Moment;
pub use pages::{NoPages, Pages};
pub use peers::{PAUSE, Peers};
pub use share::MOST_ORDERS;
pub use standing::{Closing, Doing, Standing};
pub use visiting::{MOST_REQUEST, MOST_VISITORS, STAY, Visit, Visiting, lets_visit};
pub use words::{closing_word, refusal_word};
