//! What the values of elements mean, for display: codes, currencies, dates and times, the words for message types,
//! and the parts of values that are made of several, chip data among them.
#![tactic(auto)]

mod chip;
mod chip_value;
mod codes;
mod currency;
mod moments;
mod splits;
mod tags;
mod telling;
mod track;
mod words;

pub use chip::{ChipFault, Item, items};
pub use chip_value::push_chip_value;
pub use codes::{account_type, amount_type, response_code, transaction_type};
pub use currency::{Currency, currency_of};
pub use moments::{Date, Moment, Time, moment_of};
pub use splits::{Part, parts};
pub use tags::{is_card_data, tag_name};
pub use telling::push_moment;
pub use track::{Track, push_track2, track2};
pub use words::{class_word, function_word, origin_word, version_word};
