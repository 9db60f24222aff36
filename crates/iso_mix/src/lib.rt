//! What a driver asks of a host beside its purchases: holds, completions, inquiries and partial reversals, by a mix.
//!
//! - `Mix`: of a hundred transactions so many are of each `Kind`; `kind_of` says which one a number drawn from 0 to 99 is.
//! - `Sides`: the orders of these. `begin` makes one, `next` gives one that no answer came to in time, `hear` takes an
//!   answer, of which the first one counts. `moved` is what they took from an account, by their answers. They are asked
//!   again until an answer comes, and never reversed as a whole.
//! - `laws`: what holds of each mix and of each order that follows a hold.
#![tactic(auto)]

mod asked;
mod counts;
mod draft;
mod hearing;
pub mod laws;
mod mix;
mod orders;
mod sides;
mod taken;

pub use counts::Counts;
pub use draft::Draft;
pub use hearing::Hearing;
pub use mix::{Kind, Mix};
pub use sides::Sides;
