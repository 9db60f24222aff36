//! The parts of a message: message types, bitmaps, and fields with their classes, encodings, lengths and padding.
#![tactic(auto)]

mod bitmap;
mod bitmap_reading;
mod bits;
mod building;
mod class;
mod digits;
mod encoding;
mod fault;
mod field;
mod iteration;
mod judging;
pub mod laws;
mod mti;
mod mti_text;
mod numbers;
mod packed;
mod padding;
mod prefix;
pub mod raw;
mod spec;

pub use bitmap::{Bitmap, BitmapCause, BitmapCoding, BitmapFault, BitmapStep};
pub use class::CharClass;
pub use digits::Digits;
pub use encoding::Coding;
pub use fault::FieldFault;
pub use field::{Step, decode_field, encode_field};
pub use iteration::BitmapIter;
pub use judging::{Judged, judge_field};
pub use mti::{Mti, MtiClass};
pub use mti_text::ParseMtiError;
pub use numbers::is_element;
pub use padding::Pad;
pub use prefix::Length;
pub use spec::{FieldSpec, SpecFault};
