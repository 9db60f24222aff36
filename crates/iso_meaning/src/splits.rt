//! Values that are made of parts.

ghost use Rattle.std.specs.Prelude.{◌≡◌, not, length, ◌==◌};
ghost use Rattle.iso_meaning.specs.Splits.{ArePartsOf, has_parts};

/// A part of a value.
#[derive(Clone, Copy, Debug, PartialEq, Eq)]
pub struct Part {
    /// Where it begins in the value.
    pub start: usize,
    /// Where it ends.
    pub end: usize,
    /// What it is.
    pub name: &'static str,
}

/// The part from a first place to a last one.
macro_rules! part {
    ($start:literal, $end:literal, $name:literal) => {
        Part {
            start: $start,
            end: $end,
            name: $name,
        }
    };
}

/// The processing code (3).
const PROCESSING: [Part; 3] = [
    part!(0, 2, "transaction type"),
    part!(2, 4, "from account"),
    part!(4, 6, "to account"),
];

/// The original data elements (90).
const ORIGINAL: [Part; 5] = [
    part!(0, 4, "original message type"),
    part!(4, 10, "original trace number"),
    part!(10, 20, "original transmission date and time"),
    part!(20, 31, "original acquiring institution"),
    part!(31, 42, "original forwarding institution"),
];

/// The replacement amounts (95).
const REPLACEMENT: [Part; 4] = [
    part!(0, 12, "actual transaction amount"),
    part!(12, 24, "actual settlement amount"),
    part!(24, 33, "actual transaction fee"),
    part!(33, 42, "actual settlement fee"),
];

/// Six additional amounts (54).
const AMOUNTS: [Part; 30] = [
    part!(0, 2, "account type"),
    part!(2, 4, "amount type"),
    part!(4, 7, "currency"),
    part!(7, 8, "sign"),
    part!(8, 20, "amount"),
    part!(20, 22, "account type"),
    part!(22, 24, "amount type"),
    part!(24, 27, "currency"),
    part!(27, 28, "sign"),
    part!(28, 40, "amount"),
    part!(40, 42, "account type"),
    part!(42, 44, "amount type"),
    part!(44, 47, "currency"),
    part!(47, 48, "sign"),
    part!(48, 60, "amount"),
    part!(60, 62, "account type"),
    part!(62, 64, "amount type"),
    part!(64, 67, "currency"),
    part!(67, 68, "sign"),
    part!(68, 80, "amount"),
    part!(80, 82, "account type"),
    part!(82, 84, "amount type"),
    part!(84, 87, "currency"),
    part!(87, 88, "sign"),
    part!(88, 100, "amount"),
    part!(100, 102, "account type"),
    part!(102, 104, "amount type"),
    part!(104, 107, "currency"),
    part!(107, 108, "sign"),
    part!(108, 120, "amount"),
];

/// The parts of as many additional amounts as the size has.
fn amounts(size: usize) -> &'static [Part]
    ensures parts { ArePartsOf size result.now }
    ensures split { (length result.now == 0) ≡ not (has_parts 54 size) }
{
    match size {
        20 => &AMOUNTS[..5],
        40 => &AMOUNTS[..10],
        60 => &AMOUNTS[..15],
        80 => &AMOUNTS[..20],
        100 => &AMOUNTS[..25],
        120 => &AMOUNTS,
        _ => &[],
    }
}

/// The parts of an element's value, from its first byte to its last one: of the processing code (3, six bytes),
/// additional amounts (54, from one to six of twenty bytes each), original data elements (90, 42 bytes) and
/// replacement amounts (95, 42 bytes). A value of another element or size isn't split.
pub fn parts(element: u8, value: &[u8]) -> &'static [Part]
    // There are no parts, or they lie side by side, none of them empty, and fill the whole value.
    ensures parts { ArePartsOf (length value.now) result.now }
    // Parts exactly for element 3 with 6 bytes, 54 with one to six times 20, and 90 and 95 with 42.
    ensures split { (length result.now == 0) ≡ not (has_parts element (length value.now)) }
{
    match (element, value.len()) {
        (3, 6) => &PROCESSING,
        (54, size) => amounts(size),
        (90, 42) => &ORIGINAL,
        (95, 42) => &REPLACEMENT,
        _ => &[],
    }
}
