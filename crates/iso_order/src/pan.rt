//! Account numbers.

ghost use Rattle.std.specs.Prelude.{◌≡◌, true, Some};
ghost use Rattle.iso_order.specs.Pan.{masked_digits, masked_number, pan_of};

use iso_wire::{masked, number_in, write_decimal};
use std::marker::Model;
use std::{fmt, str};

/// An account number: 1 to 19 digits (element 2). `01` and `1` are two account numbers.
#[derive(Clone, Copy, PartialEq, Eq, PartialOrd, Ord, Hash)]
pub struct Pan {
    digits: u64,
    len: u8,
}

impl Model for Pan {
    ghost use Rattle.std.specs.Prelude.{◌≡◌, true};
    ghost use Rattle.iso_order.specs.Pan.{AccountNumber, is_pan};

    ghost Value = { AccountNumber };

    ghost view = { λ p. record { digits = p.digits; len = p.len } };

    ghost invariant = { λ p. is_pan (record { digits = p.digits; len = p.len }) ≡ true };

    ghost inverse = { λ v. record { digits = v.digits; len = v.len } };
}

impl Pan {
    ghost use Rattle.iso_order.specs.Pan.{is_pan};

    /// The account number that a text of 1 to 19 digits is; `None` for every other text. Takes no memory.
    pub fn from_digits(text: &[u8]) -> Option<Pan>
        ensures { result ≡ pan_of text.now }
    {
        let digits = number_in(text, 1, 19)?;
        Some(Pan {
            digits,
            len: text.len() as u8,
        })
    }

    /// The digits, as a number. Takes no memory.
    pub fn digits(&self) -> u64
        // It is the number that the digits spell; zeros in front don't show in it.
        ensures value { result ≡ self.now.digits }
        // The account number is one of 1 to 19 digits.
        ensures valid { is_pan self.now ≡ true }
    {
        self.digits
    }

    /// How many digits there are. Takes no memory.
    pub fn len(&self) -> u8
        // It is the count of the digits, zeros in front included.
        ensures value { result ≡ self.now.len }
        // The account number is one of 1 to 19 digits.
        ensures valid { is_pan self.now ≡ true }
    {
        self.len
    }
}

/// Hides digits of an account number, as the lines of a message do.
fn hide(digits: &mut [u8])
    ensures { digits.new ≡ masked_digits digits.old }
{
    let shown = masked(2, digits);
    let (start, hidden) = (shown.front.len(), shown.hidden);
    digits[start..start + hidden].fill(b'*');
}

/// Shows no account number in clear: of 13 or more digits the first six and the last four, and `*` for each other
/// digit. Takes no memory.
impl fmt::Debug for Pan {
    ghost debug_output = { λ p. Some (masked_number p) };

    fn fmt<W: fmt::Write>(&self, f: &mut fmt::Formatter<W>) -> fmt::Result {
        let mut text = [0; 19];
        let digits = &mut text[..self.len() as usize];
        write_decimal(digits, self.digits());
        hide(digits);
        f.write_str(str::from_utf8(digits).map_err(|_| fmt::Error)?)
    }
}
