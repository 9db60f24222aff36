//! How two messages differ.

ghost use Rattle.std.specs.Prelude.{◌≡◌, ◌↔◌, true, false, IsTrue, nat_eq};
ghost use Rattle.std.specs.Cmp.Lexicographic.{pointwise};
ghost use Rattle.iso_parts.specs.Bitmap.{contains};
ghost use Rattle.iso_parts.specs.Numbers.{is_element};
ghost use Rattle.iso_compare.specs.Differing.{AreDiffering, IsSameAt, Tells, TellsNone};

use iso_parts::{Bitmap, is_element};
use iso_wire::Message;
use iso_wire::laws::well_formed;

/// How two messages differ.
#[derive(Clone, Copy, Debug, PartialEq, Eq)]
pub struct Difference {
    /// Whether their types differ.
    pub is_other_type: bool,
    /// The elements that only one of them has, or that have another value in each.
    pub elements: Bitmap,
}

impl Difference {
    /// Whether nothing differs.
    pub fn is_none(&self) -> bool
        ensures { IsTrue result ↔ TellsNone self.now }
    {
        !self.is_other_type && self.elements.equals(&Bitmap::new())
    }
}

/// Whether these are the same bytes.
pub(crate) fn same_bytes(bytes: &[u8], others: &[u8]) -> bool
    ensures test { result ≡ pointwise nat_eq bytes.now others.now }
    ensures same { IsTrue result ↔ (bytes.now ≡ others.now) }
{
    bytes == others
}

/// Whether two messages have the same value at a number, or neither has one.
fn is_same_at(left: &Message, right: &Message, n: u8) -> bool
    ensures { IsTrue result ↔ IsSameAt left.now.elements right.now.elements n }
{
    match (left.get(n), right.get(n)) {
        (Some(value), Some(other)) => same_bytes(value, other),
        (None, None) => true,
        (Some(_), None) | (None, Some(_)) => false,
    }
}

/// Whether two messages differ at a number. At one that no element may have they don't.
#[tactic(auto, using(crate::proofs::Absent::alike))]
fn is_other_at(left: &Message, right: &Message, n: u8) -> bool
    ensures other { (result ≡ false) ↔ IsSameAt left.now.elements right.now.elements n }
    ensures element { result ≡ true → is_element n ≡ true }
{
    well_formed(left);
    well_formed(right);
    is_element(u16::from(n)) && !is_same_at(left, right, n)
}

/// The elements at which two messages differ. Takes no memory.
fn differing_elements(left: &Message, right: &Message) -> Bitmap
    ensures { AreDiffering left.now.elements right.now.elements (contains result) }
{
    well_formed(left);
    well_formed(right);
    let mut found = Bitmap::new();
    for n in 2..129u8 {
        if is_other_at(left, right, n) {
            found.set(n);
        }
    }
    found
}

/// How two messages differ: whether in their types, and at which elements. Takes no memory.
pub fn differing(left: &Message, right: &Message) -> Difference
    // An element is told exactly where one message has it and the other hasn't, or where its value is another.
    ensures { Tells left.now right.now result }
{
    Difference {
        is_other_type: left.mti() != right.mti(),
        elements: differing_elements(left, right),
    }
}
