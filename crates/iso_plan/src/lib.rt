//! What a run of a driver is to do, and what decides it: over moments, seeds and numbers, with no socket and no clock.
//!
//! - `Plan`, `Faults` and `Buyer`: what a run is to do. `PlanFault`: what is wrong with a plan. `CERTAIN`: a certainty.
//! - `Pace`, `due_purchases`, `next_moment`, `closing_moment`: how many purchases begin, and until when.
//! - `Stage`, `Standing`, `next_stage`: how far a run got, and what comes next.
//! - `Fates`: what networks do to each frame, by a seed. `Fate` and `Comes`: what becomes of one.
//! - `Late`: what is held back until its moment. `Held`: a frame that goes out, or an answer that `Came`.
//! - `Sendings`: when orders were sent, and what closed them. `Sending`: what is known of one.
//! - `Inquiries`: the balances that the host is asked for.
//! - `stamp`, `left_of_second`: the transmission date and time of a message, and how long a second still takes.
#![tactic(auto)]

mod came;
mod fate;
mod inquiries;
mod late;
mod pace;
mod plan;
mod sendings;
mod stage;
mod transmission;

pub use came::Came;
pub use fate::{Comes, Fate, Fates};
pub use inquiries::Inquiries;
pub use late::{Held, Late};
pub use pace::{Pace, closing_moment, due_purchases, next_moment};
pub use plan::{Buyer, CERTAIN, Faults, Plan, PlanFault};
pub use sendings::{Sending, Sendings};
pub use stage::{Stage, Standing, next_stage};
pub use transmission::{left_of_second, stamp};
