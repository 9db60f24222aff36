//! What the file of a journal tells: its entries, whether it is whole, and what is on each account. Only reads.
//!
//! - `survey`: how many orders a journal has, and whether it is whole, torn behind them, or damaged.
//! - `replay`: the same where each answer is decided again, and the issuer that a start would give.
//! - `laws`: a record that `survey` calls damaged is one that no host wrote, whatever its accounts.
//! - `tell`: the entries, as lines, as JSON or as CSV; `append_entry`: one of them. `append_balances`: what is on each account.
#![tactic(auto)]

mod balances;
mod columns;
mod csv;
mod fault;
mod form;
mod heading;
mod json;
pub mod laws;
mod lines;
mod members;
mod records;
mod replaying;
mod shown;
mod steps;
mod surveying;
mod telling;

pub use balances::{AccountRow, account_rows, append_balances};
pub use fault::BooksFault;
pub use form::Form;
pub use heading::Wanted;
pub use replaying::{Replayed, replay};
pub use surveying::{Condition, survey};
pub use telling::{append_entry, tell};
