//! The bits of a bitmap's word, the first of which is the most significant one.

ghost use Rattle.std.specs.Int.{bit_at};
ghost use Rattle.std.specs.Prelude.{◌≡◌, ◌≢◌, ◌/◌, ◌<◌, ◌≤◌, ◌^◌, ℕ, false, nat_le, count_ones};
ghost use Rattle.iso_parts.specs.BitmapReading.{top};
ghost use Rattle.iso_parts.specs.Bits.{TakesFirstBit};

/// The first bit of a word, which is none of an element.
pub(crate) const FIRST_BIT: u64 = 0x8000_0000_0000_0000;

/// Whether the first bit of a bitmap's word is set. Bit 1 tells of the secondary bitmap, and bit 65 of a third one.
#[inline(always)]
pub fn tells_another(word: u64) -> bool
    // True comes exactly where the first bit of the word, the most significant one, is set.
    ensures exact { result ≡ nat_le top word }
    // A word whose first bit isn't set is below 2 to the power of 63.
    ensures low { result ≡ false → word < 2 ^ 63 }
{
    FIRST_BIT <= word
}

/// Takes the first bit that is set out of a word: how many bits stand before it, and the word without it.
pub(crate) fn take_bit(word: u64) -> (u8, u64)
    requires { word ≢ 0 }
    ensures { TakesFirstBit word result.1 result.0 }
{
    let before = word.leading_zeros();
    (before as u8, word - (1 << (63 - before)))
}

/// How many bits are set in front of bit `k`.
pub(crate) fn bits_before(word: u64, k: u8) -> usize
    requires { k < 64 }
    ensures { result ≡ count_ones (word / 2 ^ k / 2) }
{
    (word >> k >> 1).count_ones() as usize
}

/// The word with bit `k` set.
pub(crate) fn with_bit(word: u64, k: u8) -> u64
    requires { k < 64 }
    ensures below { (j : ℕ) → k < j → word < 2 ^ j → result < 2 ^ j }
    ensures added { bit_at result k ≡ 1 }
    ensures others { (i : ℕ) → i ≢ k → bit_at result i ≡ bit_at word i }
{
    word | 1 << k
}

/// The word without bit `k`.
pub(crate) fn without_bit(word: u64, k: u8) -> u64
    requires { k < 64 }
    ensures below { result ≤ word }
    ensures removed { bit_at result k ≡ 0 }
    ensures others { (i : ℕ) → i ≢ k → bit_at result i ≡ bit_at word i }
{
    word & !(1 << k)
}
