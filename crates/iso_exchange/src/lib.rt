//! An order and its answer as bytes, with no message between where that can be spared.
//!
//! - `write_request`: writes the message that asks for an order. A purchase is written part by part.
//! - `answer_in`: what a message tells of a transaction, read where it lies.
#![tactic(auto)]

mod answer;
mod packed;
mod purchase;
mod request;
mod viewing;

pub use answer::answer_in;
pub use request::write_request;
