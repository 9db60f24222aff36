//! What a message asks of an issuer, the response that it gets, and the message by which an acquirer asks for an order.
#![tactic(auto)]

mod act;
mod answer;
pub mod codes;
mod fields;
mod key;
pub mod laws;
mod order;
mod original;
mod pan;
mod requests;
mod response;
mod told;
mod verdict;

pub use act::{Act, MOST_AMOUNT, Money, currency_of};
pub use answer::Answer;
pub use iso_table::NoMemory;
pub use key::{MOST_STAN, TxKey};
pub use order::Order;
pub use pan::Pan;
pub use requests::request;
pub use response::{respond, respond_into};
pub use told::{Told, answer_of};
pub use verdict::{Verdict, order_of};
