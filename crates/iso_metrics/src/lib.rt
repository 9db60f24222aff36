//! What a host with many peers tells of itself over HTTP.
//!
//! - `Metrics`: what is counted of a host and its links, as text and as JSON, and the answers to requests for it.
//! - `Both`: a log beside metrics.
//!
//! What an event changes of the counts, and which request gets which status, is `iso_counts`'.
#![tactic(auto)]

mod answering;
mod both;
mod labels;
mod metrics;
mod writing;

pub use both::Both;
pub use metrics::Metrics;
