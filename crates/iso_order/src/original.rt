//! The transaction that a message names (element 90, original data elements).

ghost use Rattle.std.specs.Prelude.{◌≡◌, ◌≤◌, ◌++◌, List, Bool, Some, true, is_some, IfSome, IfOk, IfErr, OnOk};
ghost use Rattle.iso_order.specs.Fields.{class, function, text, key_of, is_original, is_hold, is_completion, hold_of};
ghost use Rattle.iso_order.specs.Key.{class_digit, function_digit, is_valid_key};
ghost use Rattle.iso_order.specs.Order.{is_hold_for};
ghost use Rattle.iso_order.specs.Original.{IsNamedIn};
ghost use Rattle.iso_parts.specs.Mti.{mti_number};
ghost use Rattle.iso_wire.specs.Decimal.{are_digits};
ghost use Rattle.iso_order.specs.Verdict.{first_of, completion_lines};
ghost use Rattle.iso_order.specs.declared.verdict.Verdict.{Verdict};
ghost use Rattle.iso_order.specs.declared.verdict.Verdict.TheVariants.{Reply};

use crate::codes::{FORMAT_ERROR, INVALID_TRANSACTION};
use crate::fields::{base_of, has, number_from, text, type_in};
use crate::key::TxKey;
use iso_parts::Mti;
use iso_wire::{Message, are_digits};

/// What element 90 tells of the transaction.
#[derive(Clone, Copy)]
pub(crate) struct Original {
    /// Its message type.
    pub mti: Mti,
    /// Its key, under the acquirer of the message that names it.
    pub key: TxKey,
    /// Whether it names that acquirer, or none.
    pub is_own: bool,
}

/// The transaction that element 90 names, where it has its 42 digits.
pub(crate) fn original_of(message: &Message, key: &TxKey) -> Option<Original>
    requires { key.now ≡ key_of message.now }
    ensures some { is_some result ≡ are_digits 42 42 (text message.now 90) }
    ensures named { IfSome result (IsNamedIn message.now) }
    ensures stan { IfSome result (λ o. o.key.stan ≤ 999999) }
    ensures sent { IfSome result (λ o. o.key.sent ≤ 9999999999) }
{
    let data = text(message, 90);
    if !are_digits(data, 42, 42) {
        return None;
    }
    let mti = type_in(&data[..4]);
    let acquirer = number_from(data, 20, 11);
    let named = TxKey {
        base: base_of(mti),
        stan: number_from(data, 4, 6) as u32,
        sent: number_from(data, 10, 10),
        acquirer: key.acquirer,
    };
    Some(Original {
        mti,
        key: named,
        is_own: acquirer == 0 || acquirer == key.acquirer,
    })
}

/// Whether it is the type of a message that can be reversed.
pub(crate) fn is_original(mti: Mti) -> bool
    ensures { result ≡ is_original (mti_number mti) }
{
    mti.version == 0
        && matches!(mti.class, 1 | 2)
        && matches!(mti.function, 0 | 2)
        && mti.origin <= 5
}

/// Whether it is the type of a message that can be completed: it holds an amount.
fn is_hold(mti: Mti) -> bool
    ensures { result ≡ is_hold (mti_number mti) }
{
    is_original(mti) && mti.class == 1
}

/// Whether it is an advice of class 2 that names another transaction.
fn is_completion(message: &Message, key: &TxKey) -> bool
    requires class { class_digit key.now ≡ class message.now }
    requires function { function_digit key.now ≡ function message.now }
    ensures { result ≡ is_completion message.now }
{
    key.class() == 2 && key.function() == 2 && has(message, 90)
}

/// The hold that element 90 names, else the code that the message is answered with.
fn named_hold(message: &Message, key: &TxKey) -> Result<TxKey, u8>
    requires completion { is_completion message.now ≡ true }
    requires key { key.now ≡ key_of message.now }
    requires valid { is_valid_key key.now ≡ true }
    ensures refused { IfErr result (λ code. (lines : List (Bool × Verdict)) (last : Verdict)
        → first_of (completion_lines message.now ++ lines) last ≡ Reply code) }
    ensures lines { OnOk result ((lines : List (Bool × Verdict)) (last : Verdict)
        → first_of (completion_lines message.now ++ lines) last ≡ first_of lines last) }
    ensures hold { IfOk result (λ hold. Some hold ≡ hold_of message.now) }
    ensures valid { IfOk result (λ hold. is_hold_for key.now hold ≡ true) }
{
    let Some(original) = original_of(message, key) else {
        return Err(FORMAT_ERROR);
    };
    if !is_hold(original.mti) {
        return Err(INVALID_TRANSACTION);
    }
    if !original.is_own {
        return Err(INVALID_TRANSACTION);
    }
    Ok(original.key)
}

/// The hold that a message completes, where it is an advice of class 2 that names a transaction; else the code that it is
/// answered with.
pub(crate) fn hold_of(message: &Message, key: &TxKey) -> Result<Option<TxKey>, u8>
    requires key { key.now ≡ key_of message.now }
    requires valid { is_valid_key key.now ≡ true }
    requires class { class_digit key.now ≡ class message.now }
    requires function { function_digit key.now ≡ function message.now }
    ensures refused { IfErr result (λ code. (lines : List (Bool × Verdict)) (last : Verdict)
        → first_of (completion_lines message.now ++ lines) last ≡ Reply code) }
    ensures lines { OnOk result ((lines : List (Bool × Verdict)) (last : Verdict)
        → first_of (completion_lines message.now ++ lines) last ≡ first_of lines last) }
    ensures hold { IfOk result (λ hold. hold ≡ hold_of message.now) }
    ensures valid { IfOk result (λ hold. IfSome hold (λ h. is_hold_for key.now h ≡ true)) }
{
    if !is_completion(message, key) {
        return Ok(None);
    }
    match named_hold(message, key) {
        Ok(hold) => Ok(Some(hold)),
        Err(code) => Err(code),
    }
}
