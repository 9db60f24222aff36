//! The numbers of elements.

ghost use Rattle.std.specs.Prelude.{◌≡◌};
ghost use Rattle.iso_parts.specs.Numbers.{is_element};

/// One more than the highest number of an element.
pub const PLACES: usize = 129;

/// Whether an element may have the number: 2 to 128, but for 65. Bits 1 and 65 tell of more bitmaps.
pub fn is_element(n: u16) -> bool
    ensures { result ≡ is_element n }
{
    2 <= n && n <= 128 && n != 65
}
