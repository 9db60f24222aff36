//! What is done with messages: they are told as lines or JSON, explained, written under another table, or made from a text.
//! Inputs are read block by block, and whatever is refused is told in a sentence.
#![tactic(auto)]

mod cutting;
mod encoding;
mod fault;
mod form;
mod form_writing;
mod frames;
mod job;
mod making;
mod opening;
mod pages;
mod place;
mod progress;
mod refusal;
mod sentences;
mod telling;
mod texts;
mod whole;
mod work;
mod working;

pub use encoding::make_messages;
pub use fault::Stop;
pub use form::Form;
pub use refusal::Trouble;
pub use work::Work;
pub use working::work_on;
