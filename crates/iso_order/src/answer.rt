//! What an issuer answers.

use std::marker::Model;

/// What an issuer answers to an order.
#[derive(Clone, Copy, Debug, PartialEq, Eq)]
pub struct Answer {
    /// The response code (element 39): two digits, 0 where the order is granted.
    pub code: u8,
    /// The place of the order in the journal, 0 where it has none: at most 999,999.
    pub seq: u32,
    /// The balance that an inquiry shows, in minor units.
    pub shown: Option<i64>,
}

impl Model for Answer {
    ghost use Rattle.std.specs.Prelude.{◌≤◌};
    ghost use Rattle.iso_order.specs.Outcome.{Outcome};

    ghost Value = { Outcome };

    ghost view = { λ a. record { code = a.code; seq = a.seq; shown = a.shown } };

    ghost invariant = { λ a. (a.code ≤ 99) × (a.seq ≤ 999999) };

    ghost inverse = { λ v. record { code = v.code; seq = v.seq; shown = v.shown } };
}

impl Answer {
    ghost use Rattle.std.specs.Prelude.{◌≡◌, ◌≤◌};
    ghost use Rattle.iso_order.specs.Outcome.{code_alone};

    /// A response code alone: the order has no place in the journal, and no balance is shown.
    pub fn only(code: u8) -> Answer
        // A response code has two digits.
        requires { code ≤ 99 }
        ensures { result ≡ code_alone code }
    {
        Answer {
            code,
            seq: 0,
            shown: None,
        }
    }
}
