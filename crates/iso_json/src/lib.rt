//! Messages as lines of JSON and as field lines, both ways. Beside every refusal stands where it is and what would mend
//! it, and all of them are told at once.
#![tactic(auto)]

mod complaint;
mod encoding;
mod entries;
mod fields;
mod laws;
mod reading;
mod values;
mod writing;

pub use complaint::{Complaint, Place, Refusal, Trouble};
pub use encoding::{encode_fields, encode_json};
pub use fields::{append_fields, read_fields, split_fields};
pub use reading::read_json;
pub use writing::append_json;
