//! What a command line asks, from the words that `clap` let pass.
//!
//! - `Job`: what the program is to do, with the words about it. `job_of`: the job that words ask for.
#![tactic(auto)]

mod asking;
mod drive;
mod front;
mod host;
mod job;
mod journal;
mod messages;
mod page;
mod tables;
mod values;

pub use asking::job_of;
pub use job::Job;
