//! What is counted of a host with many peers, and which request for its metrics gets which status.
//!
//! - `LinkCounts`: what is counted of one link. `link_of` and `count_link`: of which link an event is, and what it changes.
//! - `HostCounts`: what is counted of a host and its journal.
//! - `Histogram`: how long something took, by buckets. `count_at`: how a count grows.
//! - `Kind`: what kind of message a frame is. `refusal_place` and `closing_place`: the places of the reasons.
//! - `Asked`: what a request asks for, and the status of its answer.
#![tactic(auto)]

mod asked;
mod counting;
mod histogram;
mod host_counts;
mod kind;
mod link_counts;
mod links;
mod reasons;

pub use asked::Asked;
pub use counting::count_at;
pub use histogram::{BOUNDS, BUCKETS, Histogram, SECONDS};
pub use host_counts::HostCounts;
pub use kind::{KIND_WORDS, KINDS, Kind};
pub use link_counts::{CODES, LinkCounts};
pub use links::{count_link, link_of};
pub use reasons::{CLOSINGS, REFUSALS, closing_place, refusal_place};
