//! A day that is sent again: its frames go to a host as fast as it takes them, and the frames that it answers are heard, until
//! as many came as are wanted or nothing more comes.
#![tactic(auto)]

mod day;
mod exchange;
mod fault;
mod heard;
mod moving;
mod replaying;
mod running;
mod waiting;

pub use day::{Day, DayFault, Part, append_outcome, replay_day};
pub use exchange::{Ending, Exchange};
pub use fault::ReplayFault;
pub use heard::Heard;
pub use replaying::replay;
pub use running::{Exchanged, Plan, exchange_over};
pub use waiting::Waiting;
