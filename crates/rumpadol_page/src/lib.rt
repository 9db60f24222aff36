//! A page of this machine's own, on 127.0.0.1 and [::1], on which messages are looked at, built and played with.
//!
//! - `perform_page`: what `PageWords` ask: the page is served until the program is ended.
#![tactic(auto)]

mod answering;
mod performing;
mod ports;
mod site;
mod text;
mod visitor;

pub use performing::{PageWords, perform_page};
