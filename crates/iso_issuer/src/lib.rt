//! An issuer: its accounts, and a journal that answers each payment order once, reversals included.
#![tactic(auto)]

mod account;
mod accounts;
mod balances;
mod change;
mod decision;
mod document;
mod effect;
mod fault;
mod finding;
mod found;
mod guesses;
mod holds;
mod index;
mod issuer;
mod journal;
mod key_places;
pub mod laws;
mod posting;
mod storing;

pub use account::Account;
pub use accounts::Accounts;
pub use balances::Balance;
pub use fault::{AccountsFault, Refused};
pub use holds::OpenHold;
pub use issuer::{Issuer, MOST_ENTRIES};
pub use journal::Entry;
