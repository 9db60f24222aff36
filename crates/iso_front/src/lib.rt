//! A front before shards: which account numbers are whose, where a message goes, and what of the shards' answers is passed on.
//!
//! - `Shards`: hosts that each have some of the account numbers, read from a JSON document. `Shards::shard_of`: which one has an
//!   account number. `Prefixes` of account numbers are given to them, and no two meet.
//! - `Shards::route`: where the body of a frame goes. An order on an account goes to the shard that has it, a reversal to all.
//! - `Gathering`: what was heard of the shards that were asked. Only what all of them say is passed on.
#![tactic(auto)]

mod document;
mod fault;
mod gathering;
mod prefixes;
mod route;
mod shards;

pub use document::MOST_GIVEN;
pub use fault::{GiveFault, Member, ShardsFault};
pub use gathering::{Gathering, Heard, Joint};
pub use prefixes::{Given, Prefixes};
pub use route::Route;
pub use shards::{MOST_SHARDS, Shard, Shards};
