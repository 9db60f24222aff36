//! What a response tells the acquirer.

ghost use Rattle.std.specs.Prelude.{◌≡◌, ◌≤◌, true, IfSome};
ghost use Rattle.iso_parts.specs.Mti.{mti_number};
ghost use Rattle.iso_order.specs.Fields.{has_key, text};
ghost use Rattle.iso_order.specs.Key.{is_valid_key};
ghost use Rattle.iso_order.specs.Told.{is_answer, answered_base, told_of};

use crate::fields::{base_of, key_under, text, type_of};
use crate::key::TxKey;
use iso_parts::Mti;
use iso_wire::{Message, number_in};

/// What a response tells of a transaction.
#[derive(Clone, Copy, Debug, PartialEq, Eq)]
pub struct Told {
    /// The key of the request or advice that is answered.
    pub key: TxKey,
    /// The response code (element 39): two digits.
    pub code: u8,
}

/// Whether it is a response of version 0, class 1, 2 or 4 and origin 0 to 5.
fn is_answer(message: &Message) -> bool
    ensures { result ≡ is_answer message.now }
{
    let mti = type_of(message);
    mti.version == 0
        && matches!(mti.class, 1 | 2 | 4)
        && matches!(mti.function, 1 | 3)
        && mti.origin <= 5
}

/// The type of the request or advice that a response answers, without a repeat.
fn answered_base(mti: Mti) -> u16
    requires { 10 ≤ mti_number mti }
    ensures { result ≡ answered_base (mti_number mti) }
{
    base_of(mti) - 10
}

/// What a response to a request or an advice of class 1, 2 or 4 tells: whose it is, and the response code. `None` for every
/// other message, and where element 7 isn't ten digits, 11 six, 32 one to eleven, or 39 two. Takes no memory.
pub fn answer_of(message: &Message) -> Option<Told>
    // A key and a code are told exactly of a response of version 0, class 1, 2 or 4 and origin 0 to
    // 5, whose elements 7, 11, 32 and 39 are digits of the right count.
    ensures told { result ≡ told_of message.now }
    // A message that asks can have the key.
    ensures valid { IfSome result (λ told. is_valid_key told.key ≡ true) }
    // A response code has two digits.
    ensures code { IfSome result (λ told. told.code ≤ 99) }
{
    if !is_answer(message) {
        return None;
    }
    let key = key_under(message, answered_base(message.mti()))?;
    let code = number_in(text(message, 39), 2, 2)?;
    Some(Told {
        key,
        code: code as u8,
    })
}
