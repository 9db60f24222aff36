//! What the words of `drive` say of buying: fractions and ranges, the mix of transactions, the accounts that are bought with, and
//! why there is no diary to go on with.
//!
//! - `millionths_of` and `range_of`: fractions and ranges, as words write them.
//! - `mix_of`: a mix of transactions, as a word writes it.
//! - `Buyers` and `buyers_of`: the accounts of a document, and what is on each at first.
//! - `DiaryFault`: why there is no diary to go on with, and whether what was given is refused.
#![tactic(auto)]

mod buyers;
mod diary;
mod mixing;
mod numbers;

pub use buyers::{Buyers, buyers_of};
pub use diary::DiaryFault;
pub use mixing::mix_of;
pub use numbers::{millionths_of, range_of};
