//! What happens between an acquirer and an issuer, as lines of text say it, and why it is refused, in words.
//!
//! Each line is an event. Places count from 0.
//!
//! - `begin AMOUNT`: the acquirer begins a purchase of that amount, and sends its request
//! - `timeout TRACE`: no answer came in time to the purchase of that trace number
//! - `deliver PLACE`: the issuer gets the order that was sent at that place, and answers it
//! - `answer PLACE`: the acquirer gets the answer that was given at that place
//!
//! An empty line, and one that begins with `#`, is a remark.
#![tactic(auto)]

mod line;
mod words;

pub use line::{ScheduleLine, schedule_line};
pub use words::refusal_words;
