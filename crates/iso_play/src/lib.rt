//! What a page asks of an issuer and of an acquirer, and what it is told. Nothing is kept between questions: each brings all that
//! happened, and it is played from the beginning.
//!
//! - `play`: what an issuer answers to bodies, one after the other, and what its books hold then.
//! - `ends`: what an acquirer and an issuer hold after each of a list of events.
//! - `deliver_all`: bodies that a host answers. `bodies_in`: those that a question brings.
#![tactic(auto)]

mod accounts;
mod answers;
mod bodies;
mod books;
mod both_ends;
mod delivering;
mod playing;
mod refused;
mod states;
mod world;

pub use bodies::bodies_in;
pub use both_ends::ends;
pub use delivering::{Answered, deliver_all};
pub use playing::play;
