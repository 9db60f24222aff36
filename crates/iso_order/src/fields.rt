//! What is read in a message.

ghost use Rattle.std.specs.Prelude.{◌≡◌, ◌≤◌, ◌<◌, ◌+◌, ◌^◌, true, length, Some, None, IfSome, if◌then◌else◌};
ghost use Rattle.std.specs.List.{list_all};
ghost use Rattle.iso_parts.specs.Class.{is_digit};
ghost use Rattle.iso_wire.specs.Elements.{has};
ghost use Rattle.iso_order.specs.Fields.{version, class, function, origin, text, number_from, base_of, has_key, key_of};
ghost use Rattle.iso_parts.specs.Mti.{is_answered, mti_number};
ghost use Rattle.iso_wire.specs.Decimal.{number};
ghost use Rattle.iso_order.specs.Key.{class_digit, function_digit, is_valid_key};

use crate::key::TxKey;
use iso_parts::Mti;
use iso_wire::{Message, number, number_in};

/// The digits of a message's type. A function of its own, for the prover, which knows of a message the number alone.
pub(crate) fn type_of(message: &Message) -> Mti
    ensures version { result.version ≡ version message.now }
    ensures class { result.class ≡ class message.now }
    ensures function { result.function ≡ function message.now }
    ensures origin { result.origin ≡ origin message.now }
{
    message.mti()
}

/// The value of an element, nothing where it is missing.
pub(crate) fn text(message: &Message, n: u8) -> &[u8]
    ensures { result.now ≡ text message.now n }
{
    match message.get(n) {
        Some(value) => value,
        None => &[],
    }
}

/// The number of some of the digits of a text.
pub(crate) fn number_from(text: &[u8], from: usize, count: usize) -> u64
    requires digits { list_all is_digit text.now ≡ true }
    requires within { from + count ≤ length text.now }
    requires few { count ≤ 19 }
    ensures value { result ≡ number_from from count text.now }
    ensures below { result < 10 ^ count }
{
    number(&text[from..from + count])
}

/// Whether the element is there.
pub(crate) fn has(message: &Message, n: u8) -> bool
    ensures { result ≡ has message.now.elements n }
{
    message.get(n).is_some()
}

/// The type that four digits write.
pub(crate) fn type_in(digits: &[u8]) -> Mti
    requires digits { list_all is_digit digits.now ≡ true }
    requires four { length digits.now ≡ 4 }
    ensures { mti_number result ≡ number digits.now }
{
    Mti::from_text(digits).unwrap()
}

/// The type that a number of four digits writes.
pub(crate) fn mti_of(number: u16) -> Mti
    requires { number ≤ 9999 }
    ensures { mti_number result ≡ number }
{
    Mti::from_digits(number).unwrap()
}

/// The number of the type without a repeat.
pub(crate) fn base_of(mti: Mti) -> u16
    ensures { result ≡ base_of (mti_number mti) }
{
    mti.base().number()
}

/// The key under that type of message, where the elements are there.
pub(crate) fn key_under(message: &Message, base: u16) -> Option<TxKey>
    ensures value { result ≡ (if has_key message.now
        then Some (record (key_of message.now) { base = base }) else None) }
    ensures stan { IfSome result (λ k. k.stan ≤ 999999) }
    ensures sent { IfSome result (λ k. k.sent ≤ 9999999999) }
    ensures acquirer { IfSome result (λ k. k.acquirer ≤ 99999999999) }
{
    let sent = number_in(text(message, 7), 10, 10)?;
    let stan = number_in(text(message, 11), 6, 6)?;
    let acquirer = number_in(text(message, 32), 1, 11)?;
    Some(TxKey {
        base,
        stan: stan as u32,
        sent,
        acquirer,
    })
}

/// The key of a message, where it has the elements.
pub(crate) fn key_of(message: &Message) -> Option<TxKey>
    requires version { version message.now ≡ 0 }
    requires asks { is_answered (function message.now) ≡ true }
    requires origin { origin message.now ≤ 5 }
    ensures value { result ≡ (if has_key message.now then Some (key_of message.now) else None) }
    ensures valid { IfSome result (λ k. is_valid_key k ≡ true) }
    ensures class { IfSome result (λ k. class_digit k ≡ class message.now) }
    ensures function { IfSome result (λ k. function_digit k ≡ function message.now) }
{
    key_under(message, base_of(message.mti()))
}
