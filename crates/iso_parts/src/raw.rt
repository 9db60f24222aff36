//! What the crates that read and write messages need of this one, beside what most users call: digits and bytes, and fields that are
//! judged, read or written piece by piece.

pub use crate::bits::tells_another;
pub use crate::building::decode_judged;
pub use crate::digits::{
    bcd_characters, four_ascii_digits, four_bcd_digits, four_digits, four_digits_in,
};
pub use crate::encoding::hex_digit;
pub use crate::field::{decode_value, encode_length, judge_value};
pub use crate::judging::{judge_body, judge_length};
pub use crate::numbers::PLACES;
pub use crate::prefix::LONGEST_VALUE;
