//! Character classes.

ghost use Rattle.std.specs.Prelude.{◌≡◌, ◌≤◌, ◌*◌, length};
ghost use Rattle.std.specs.List.{list_all};
ghost use Rattle.iso_parts.specs.Class.{is_within, is_member, is_in_class};

/// The characters that a value may have.
#[derive(Clone, Copy, Debug, PartialEq, Eq)]
pub enum CharClass {
    /// Digits.
    N,
    /// Letters.
    A,
    /// Letters and digits.
    AN,
    /// Printable characters, the blank among them: 0x20 to 0x7E.
    ANS,
    /// Track characters: 0x30 to 0x3F.
    Z,
    /// Track characters and `D` in place of the separator.
    ZD,
    /// `C` or `D`, and then digits.
    XN,
    /// Any bytes.
    B,
}

/// Whether each byte lies from `low` up to `high`. The loop has no early end, so that many bytes are looked at at a
/// time.
#[inline(always)]
fn are_within(low: u8, high: u8, bytes: &[u8]) -> bool
    ensures { result ≡ list_all (is_within low high) bytes.now }
{
    let mut least = u8::MAX;
    let mut greatest = u8::MIN;
    for b in bytes {
        least = least.min(*b);
        greatest = greatest.max(*b);
    }
    low <= least && greatest <= high
}

/// How many bytes stand in a block: so many are looked at at once.
const BLOCK: usize = 32;

/// Whether each byte lies from `low` up to `high`, by whole blocks from the first byte on and by the last block, which meet
/// or overlap: so no byte is looked at alone.
#[inline(always)]
fn are_within_by_blocks(low: u8, high: u8, bytes: &[u8]) -> bool
    requires { 32 ≤ length bytes.now }
    ensures { result ≡ list_all (is_within low high) bytes.now }
{
    let (whole, _) = bytes.split_at(bytes.len() / BLOCK * BLOCK);
    let (_, last) = bytes.split_at(bytes.len() - BLOCK);
    are_within(low, high, whole) & are_within(low, high, last)
}

impl CharClass {
    #[inline(always)]
    fn has(self, b: u8) -> bool
        ensures { result ≡ is_member self b }
    {
        match self {
            CharClass::N | CharClass::XN => matches!(b, b'0'..=b'9'),
            CharClass::A => matches!(b, b'A'..=b'Z' | b'a'..=b'z'),
            CharClass::AN => matches!(b, b'A'..=b'Z' | b'a'..=b'z' | b'0'..=b'9'),
            CharClass::ANS => matches!(b, 0x20..=0x7E),
            CharClass::Z => matches!(b, 0x30..=0x3F),
            CharClass::ZD => matches!(b, 0x30..=0x3F | b'D'),
            CharClass::B => true,
        }
    }

    /// Whether each byte is of the class. The loop has no early end, so that many bytes are judged at a time.
    #[inline(always)]
    fn has_each(self, bytes: &[u8]) -> bool
        ensures { result ≡ list_all (is_member self) bytes.now }
    {
        let mut all = true;
        for b in bytes {
            all &= self.has(*b);
        }
        all
    }

    /// Whether each byte is of the class, by the first `count` bytes and the last ones, which meet or overlap: so many
    /// bytes are judged at once.
    #[inline(always)]
    fn has_ends(self, count: usize, bytes: &[u8]) -> bool
        requires within { count ≤ length bytes.now }
        requires meet { length bytes.now ≤ 2 * count }
        ensures { result ≡ list_all (is_member self) bytes.now }
    {
        let (first, _) = bytes.split_at(count);
        let (_, last) = bytes.split_at(bytes.len() - count);
        self.has_each(first) & self.has_each(last)
    }

    /// Whether each of a few bytes is of the class.
    #[inline(always)]
    fn has_few(self, bytes: &[u8]) -> bool
        requires { length bytes.now ≤ 3 }
        ensures { result ≡ list_all (is_member self) bytes.now }
    {
        match bytes {
            [] => true,
            [a] => self.has(*a),
            [a, b] => self.has(*a) & self.has(*b),
            [a, b, c] => self.has(*a) & self.has(*b) & self.has(*c),
            _ => unreachable!(),
        }
    }

    /// Whether each of many bytes is of the class: where the class is one range, the least and the greatest byte tell. Each
    /// other class has code of its own.
    #[inline(never)]
    fn has_many(self, bytes: &[u8]) -> bool
        requires { 32 ≤ length bytes.now }
        ensures { result ≡ list_all (is_member self) bytes.now }
    {
        match self {
            CharClass::N | CharClass::XN => are_within_by_blocks(0x30, 0x39, bytes),
            CharClass::ANS => are_within_by_blocks(0x20, 0x7E, bytes),
            CharClass::Z => are_within_by_blocks(0x30, 0x3F, bytes),
            CharClass::A => CharClass::A.has_each(bytes),
            CharClass::AN => CharClass::AN.has_each(bytes),
            CharClass::ZD => CharClass::ZD.has_each(bytes),
            CharClass::B => CharClass::B.has_each(bytes),
        }
    }

    /// Whether each byte is of the class, by the shortest way for so many.
    #[inline(always)]
    fn has_all(self, bytes: &[u8]) -> bool
        ensures { result ≡ list_all (is_member self) bytes.now }
    {
        match bytes.len() {
            0..=3 => self.has_few(bytes),
            4..=7 => self.has_ends(4, bytes),
            8..=15 => self.has_ends(8, bytes),
            16..=32 => self.has_ends(16, bytes),
            _ => self.has_many(bytes),
        }
    }

    /// Whether each byte is of a class of several ranges.
    #[inline(never)]
    fn has_all_by_ranges(self, bytes: &[u8]) -> bool
        ensures { result ≡ list_all (is_member self) bytes.now }
    {
        match self {
            CharClass::A => CharClass::A.has_all(bytes),
            CharClass::AN => CharClass::AN.has_all(bytes),
            CharClass::ZD => CharClass::ZD.has_all(bytes),
            _ => self.has_each(bytes),
        }
    }

    /// Whether the bytes are a value of the class. Each class has code of its own, in which nothing is left to choose for
    /// a byte.
    #[inline(never)]
    pub(crate) fn takes_apart(self, value: &[u8]) -> bool
        ensures { result ≡ is_in_class self value.now }
    {
        match self {
            CharClass::N => CharClass::N.has_all(value),
            CharClass::ANS => CharClass::ANS.has_all(value),
            CharClass::Z => CharClass::Z.has_all(value),
            CharClass::A | CharClass::AN | CharClass::ZD => self.has_all_by_ranges(value),
            CharClass::XN => match value {
                [first, rest @ ..] => matches!(*first, b'C' | b'D') && CharClass::N.has_all(rest),
                [] => true,
            },
            CharClass::B => true,
        }
    }

    /// What [`CharClass::takes_apart`] answers: for digits, which most values are of, in the code around it.
    #[inline(always)]
    pub(crate) fn takes(self, value: &[u8]) -> bool
        ensures { result ≡ is_in_class self value.now }
    {
        if self == CharClass::N {
            CharClass::N.has_all(value)
        } else {
            self.takes_apart(value)
        }
    }
}
