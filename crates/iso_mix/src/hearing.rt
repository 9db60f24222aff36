//! What an answer came to.
ghost use Rattle.std.specs.Prelude.{◌≡◌};
ghost use Rattle.iso_mix.specs.Hearing.{hearing_of, hearing_by, is_no_answer};

use crate::asked::Asked;
use iso_order::TxKey;
use iso_order::codes::{DUPLICATE_TRANSMISSION, SYSTEM_MALFUNCTION};

/// What an answer came to.
#[derive(Clone, Copy, Debug, PartialEq, Eq)]
pub enum Hearing {
    /// It is the first answer to an order, and counts.
    First,
    /// It says nothing new: it came again, or says that nothing was done (94 and 96).
    Known,
    /// It says another code than the first answer. The first one counts.
    Differs,
    /// No order of that key was made here.
    Foreign,
}

/// Whether a code says that nothing was done: the order is asked again.
fn is_no_answer(code: u8) -> bool
    ensures { result ≡ is_no_answer code }
{
    matches!(code, DUPLICATE_TRANSMISSION | SYSTEM_MALFUNCTION)
}

/// What an answer of a code comes to, where the first one had that code.
fn hearing_by(first: Option<u8>, code: u8) -> Hearing
    ensures { result ≡ hearing_by first code }
{
    if is_no_answer(code) {
        return Hearing::Known;
    }
    match first {
        None => Hearing::First,
        Some(first) => {
            if first == code {
                Hearing::Known
            } else {
                Hearing::Differs
            }
        }
    }
}

/// What an answer to a key comes to, where that order lies under its trace number.
pub(crate) fn hearing_of(asked: &Option<Asked>, key: &TxKey, code: u8) -> Hearing
    ensures { result ≡ hearing_of asked.now key.now code }
{
    match asked {
        None => Hearing::Foreign,
        Some(asked) => {
            if asked.order.key().is_same(key) {
                hearing_by(asked.code, code)
            } else {
                Hearing::Foreign
            }
        }
    }
}
