//! What an order asks.

ghost use Rattle.std.specs.Prelude.{◌≡◌};
ghost use Rattle.std.specs.List.{list_all};
ghost use Rattle.iso_order.specs.Order.{is_letter_or_digit, is_currency, currency_of, is_account, has_amount, is_hold_for};
ghost use Rattle.iso_order.specs.Order.{is_valid_act, same_money, same_act, money_of};

use crate::key::TxKey;
use crate::pan::Pan;

/// The largest amount: twelve nines, in minor units (element 4, amount, transaction).
pub const MOST_AMOUNT: u64 = 999_999_999_999;

/// An amount of a currency, on an account.
#[derive(Clone, Copy, Debug, PartialEq, Eq)]
pub struct Money {
    /// The account (element 2).
    pub pan: Pan,
    /// The amount in minor units (element 4), 0 in an inquiry.
    pub amount: u64,
    /// The currency (element 49): three letters or digits.
    pub currency: [u8; 3],
}

/// What an order asks.
#[derive(Clone, Copy, Debug, PartialEq, Eq)]
pub enum Act {
    /// Take the amount from the account: hold it in class 1, post it in class 2.
    Debit(Money),
    /// Give the amount to the account.
    Credit(Money),
    /// Tell what is available.
    Inquiry(Money),
    /// Reverse the transaction of that key (0400, 0420), whenever it comes: take back what it moved or held, all but what is left.
    Undo {
        /// The key of the transaction that is reversed.
        original: TxKey,
        /// What is left of it, in minor units: 0 takes back the whole.
        left: u64,
    },
    /// Take the amount from the account, and end the hold of that key on it (0220).
    Complete {
        money: Money,
        /// The key of the authorization whose hold ends.
        hold: TxKey,
    },
}

fn is_letter_or_digit(byte: u8) -> bool
    ensures { result ≡ is_letter_or_digit byte }
{
    matches!(byte, b'0'..=b'9' | b'A'..=b'Z' | b'a'..=b'z')
}

fn are_letters_or_digits(text: &[u8]) -> bool
    ensures { result ≡ list_all is_letter_or_digit text.now }
{
    text.iter().all(|byte| is_letter_or_digit(*byte))
}

/// Whether the text is a currency: three letters or digits.
fn is_currency(text: &[u8]) -> bool
    ensures { result ≡ is_currency text.now }
{
    text.len() == 3 && are_letters_or_digits(text)
}

/// The currency that a text is: three letters or digits (element 49). `None` for any other text. Takes no memory.
pub fn currency_of(text: &[u8]) -> Option<[u8; 3]>
    ensures { result ≡ currency_of text.now }
{
    match text {
        [a, b, c] if are_letters_or_digits(text) => Some([*a, *b, *c]),
        _ => None,
    }
}

/// Whether a message with the key can complete the hold: it is of class 1, and of the same acquirer.
fn is_hold_for(key: &TxKey, hold: &TxKey) -> bool
    ensures { result ≡ is_hold_for key.now hold.now }
{
    hold.is_valid() && hold.class() == 1 && hold.acquirer == key.acquirer
}

impl Money {
    /// Whether it names an account and a currency.
    fn is_account(&self) -> bool
        ensures { result ≡ is_account self.now }
    {
        // any call on the PAN tells the proof what holds of every PAN
        let _digits = self.pan.len();
        is_currency(&self.currency)
    }

    /// Whether two are one.
    fn is_same(&self, other: &Money) -> bool
        ensures { result ≡ same_money self.now other.now }
    {
        self.pan == other.pan && self.amount == other.amount && self.currency == other.currency
    }

    /// Whether it is an amount that can be moved: 1 to `MOST_AMOUNT`.
    fn has_amount(&self) -> bool
        ensures { result ≡ has_amount self.now }
    {
        self.is_account() && 1 <= self.amount && self.amount <= MOST_AMOUNT
    }
}

impl Act {
    /// The account, the amount and the currency that it is about; `None` for a reversal, which names a transaction alone.
    /// Takes no memory.
    pub fn money(&self) -> Option<Money>
        ensures { result ≡ money_of self.now }
    {
        match self {
            Act::Debit(money) | Act::Credit(money) | Act::Inquiry(money) => Some(*money),
            Act::Complete { money, .. } => Some(*money),
            Act::Undo { .. } => None,
        }
    }

    /// Whether two orders ask the same.
    pub(crate) fn is_same(&self, other: &Act) -> bool
        ensures { result ≡ same_act self.now other.now }
    {
        match self {
            Act::Debit(a) => matches!(other, Act::Debit(b) if a.is_same(b)),
            Act::Credit(a) => matches!(other, Act::Credit(b) if a.is_same(b)),
            Act::Inquiry(a) => matches!(other, Act::Inquiry(b) if a.is_same(b)),
            Act::Undo { original, left } => {
                if let Act::Undo {
                    original: b,
                    left: n,
                } = other
                {
                    original.is_same(b) && *left == *n
                } else {
                    false
                }
            }
            Act::Complete { money: a, hold: h } => {
                if let Act::Complete { money: b, hold: k } = other {
                    a.is_same(b) && h.is_same(k)
                } else {
                    false
                }
            }
        }
    }

    /// Whether a message with that key can ask it.
    pub(crate) fn is_valid(&self, key: &TxKey) -> bool
        ensures { result ≡ is_valid_act key.now self.now }
    {
        match self {
            Act::Debit(money) => matches!(key.class(), 1 | 2) && money.has_amount(),
            Act::Credit(money) => key.class() == 2 && money.has_amount(),
            Act::Inquiry(money) => {
                matches!(key.class(), 1 | 2)
                    && key.function() == 0
                    && money.amount == 0
                    && money.is_account()
            }
            Act::Undo { original, left } => {
                key.class() == 4
                    && original.is_valid()
                    && matches!(original.class(), 1 | 2)
                    && original.acquirer == key.acquirer
                    && *left <= MOST_AMOUNT
            }
            Act::Complete { money, hold } => {
                key.class() == 2
                    && key.function() == 2
                    && money.has_amount()
                    && is_hold_for(key, hold)
            }
        }
    }
}
