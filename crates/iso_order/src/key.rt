//! What names a transaction.

ghost use Rattle.std.specs.Prelude.{◌≡◌};
ghost use Rattle.iso_order.specs.Key.{class_digit, function_digit, is_valid_key, same_key};

/// The largest trace number: six nines (element 11, system trace audit number).
pub const MOST_STAN: u32 = 999_999;

/// Names a transaction. Each delivery of it has the same key, whatever the repeat digit of its message type. Keys are in the
/// order of their times first: orders come about in that order, so a new key is mostly behind all others.
#[derive(Clone, Copy, Debug, PartialEq, Eq, PartialOrd, Ord, Hash)]
pub struct TxKey {
    /// The transmission date and time (element 7), as a number of ten digits.
    pub sent: u64,
    /// The trace number (element 11).
    pub stan: u32,
    /// The number of the message type, without a repeat.
    pub base: u16,
    /// The acquirer (element 32), as a number: leading zeros don't count.
    pub acquirer: u64,
}

impl TxKey {
    /// The class digit of the message type. Takes no memory.
    pub fn class(&self) -> u16
        ensures { result ≡ class_digit self.now }
    {
        self.base / 100 % 10
    }

    /// The function digit of the message type. Takes no memory.
    pub fn function(&self) -> u16
        ensures { result ≡ function_digit self.now }
    {
        self.base / 10 % 10
    }

    /// Whether two keys are one: the same message type, trace number, time and acquirer. Takes no memory.
    pub fn is_same(&self, other: &TxKey) -> bool
        ensures { result ≡ same_key self.now other.now }
    {
        self.base == other.base
            && self.stan == other.stan
            && self.sent == other.sent
            && self.acquirer == other.acquirer
    }

    /// Whether a message of version 0 that asks for an answer can have the key. Takes no memory.
    pub fn is_valid(&self) -> bool
        ensures { result ≡ is_valid_key self.now }
    {
        self.base < 1000
            && matches!(self.function(), 0 | 2)
            && matches!(self.base % 10, 0 | 2 | 4)
            && self.stan <= MOST_STAN
            && self.sent <= 9_999_999_999
            && self.acquirer <= 99_999_999_999
    }
}
