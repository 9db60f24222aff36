//! Which requests a page of this machine's own answers: those that name the address on which it listens, that no other page
//! makes, and that ask for the page or make one of its calls.
//!
//! - `Heads`: what the head of a request says, as far as it decides.
//! - `Asked`: what a request asks for, or why it is refused: `Asked::of_heads`.
//! - `Call`: the calls that the page makes. `Refusal`: why a request is refused, with its status and a sentence.
#![tactic(auto)]

mod asked;
mod call;
mod refusal;

pub use asked::{Asked, Heads};
pub use call::Call;
pub use refusal::Refusal;
