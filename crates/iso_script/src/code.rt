//! Response codes.

ghost use Rattle.std.specs.Prelude.{◌≡◌, ◌≤◌, option_map};
ghost use Rattle.iso_wire.specs.Decimal.{number_in};

use iso_wire::number_in;
use std::marker::Model;

/// A response code: two digits (element 39). A contract sees its number.
#[derive(Clone, Copy, Debug, PartialEq, Eq)]
pub struct Code {
    number: u8,
}

impl Model for Code {
    ghost use Rattle.std.specs.Prelude.{◌≤◌, ℕ};

    ghost Value = { ℕ };

    ghost view = { λ c. c.number };

    ghost invariant = { λ c. c.number ≤ 99 };

    ghost inverse = { λ v. record { number = v } };
}

impl Code {
    /// The response code that a text of two digits is; `None` for every other text. Takes no memory.
    pub fn from_digits(text: &[u8]) -> Option<Code>
        ensures { result ≡ number_in 2 2 text.now }
    {
        let number = number_in(text, 2, 2)?;
        Some(Code {
            number: number as u8,
        })
    }

    /// Its number.
    pub fn number(self) -> u8
        // It is the number that the code's two digits write.
        ensures value { result ≡ self }
        // It is at most 99.
        ensures two_digits { self ≤ 99 }
    {
        self.number
    }
}
