//! What a message asks of an issuer.

ghost use Rattle.std.specs.Prelude.{◌≡◌, ◌==◌, ◌&&◌, ◌≤◌, ◌++◌, ◌⊎◌, if◌then◌else◌};
ghost use Rattle.std.specs.Prelude.{is_some, List, Bool, true, false, Some, None, IfSome, IsTrue};
ghost use Rattle.iso_wire.specs.Elements.{has};
ghost use Rattle.iso_order.specs.Fields.{version, class, function, origin, key_of, is_original, kind, is_debit, is_credit};
ghost use Rattle.iso_parts.specs.Mti.{is_answered};
ghost use Rattle.iso_order.specs.Fields.{is_inquiry, message_money, number_from, is_replacement, left_of, is_completion, hold_of};
ghost use Rattle.iso_order.specs.Key.{class_digit, function_digit, is_valid_key};
ghost use Rattle.iso_order.specs.Order.{most_amount, is_valid, is_hold_for, is_account, is_currency, is_payment};
ghost use Rattle.iso_wire.specs.Decimal.{are_digits};
ghost use Rattle.iso_order.specs.Codes.{invalid_transaction};
ghost use Rattle.iso_order.specs.Verdict.{first_of, network_lines, key_lines, original_lines, reversal_lines, completion_lines};
ghost use Rattle.iso_order.specs.Verdict.{account_lines, act_lines, amount_lines, debited_by, credit_verdict, verdict, IfReply, IfOrder};
ghost use Rattle.iso_order.specs.Verdict.{IfAnswered};

use crate::act::{Act, Money, currency_of};
use crate::codes::{APPROVED, FORMAT_ERROR, INVALID_AMOUNT, INVALID_TRANSACTION};
use crate::fields::{has, key_of, number_from, text, type_of};
use crate::key::TxKey;
use crate::order::Order;
use crate::original::{hold_of, is_original, original_of};
use crate::pan::Pan;
use iso_wire::{Message, are_digits, number_in};

/// What a message asks, and what it gets where it asks nothing of the issuer.
#[derive(Clone, Copy, Debug, PartialEq, Eq)]
pub enum Verdict {
    /// The issuer decides.
    Order(Order),
    /// It is answered at once, with this response code.
    Reply(u8),
    /// It is not answered.
    Silent,
}

/// Class 8: sign on, sign off and the echo test.
fn network_verdict(message: &Message) -> Verdict
    requires { class message.now ≡ 8 }
    ensures { result ≡ first_of (network_lines message.now) (Verdict.Reply invalid_transaction) }
{
    match number_in(text(message, 70), 3, 3) {
        None => Verdict::Reply(FORMAT_ERROR),
        Some(1 | 2 | 301) => Verdict::Reply(APPROVED),
        Some(_) => Verdict::Reply(INVALID_TRANSACTION),
    }
}

/// What a reversal leaves: nothing, or the first of the replacement amounts.
fn left_of(message: &Message) -> Option<u64>
    ensures value { result
        ≡ (if is_replacement message.now then Some (left_of message.now) else None) }
    ensures small { IfSome result (λ left. left ≤ most_amount) }
{
    if !has(message, 95) {
        return Some(0);
    }
    let amounts = text(message, 95);
    if amounts.len() != 42 {
        return None;
    }
    number_in(&amounts[..12], 12, 12)
}

/// Class 4: a reversal of the transaction that element 90 names, which leaves so much.
fn original_verdict(message: &Message, key: &TxKey, left: u64) -> Verdict
    requires left { left ≡ left_of message.now }
    requires small { left ≤ most_amount }
    requires class { class message.now ≡ 4 }
    requires key { key.now ≡ key_of message.now }
    requires valid { is_valid_key key.now ≡ true }
    requires key_class { class_digit key.now ≡ 4 }
    ensures verdict { (lines : List (Bool × Verdict)) (last : Verdict)
        → result ≡ first_of (original_lines message.now ++ lines) last }
    ensures valid { IfOrder result (λ o. IsTrue (is_valid o)) }
    ensures key { IfOrder result (λ o. o.key ≡ key_of message.now) }
{
    let Some(named) = original_of(message, key) else {
        return Verdict::Reply(FORMAT_ERROR);
    };
    if !is_original(named.mti) {
        return Verdict::Reply(INVALID_TRANSACTION);
    }
    if !named.is_own {
        return Verdict::Reply(INVALID_TRANSACTION);
    }
    let original = named.key;
    Verdict::Order(Order::valid(*key, Act::Undo { original, left }))
}

/// Class 4: a reversal, and what it leaves.
fn reversal_verdict(message: &Message, key: &TxKey) -> Verdict
    requires class { class message.now ≡ 4 }
    requires key { key.now ≡ key_of message.now }
    requires valid { is_valid_key key.now ≡ true }
    requires key_class { class_digit key.now ≡ 4 }
    ensures verdict { (lines : List (Bool × Verdict)) (last : Verdict)
        → result ≡ first_of (reversal_lines message.now ++ lines) last }
    ensures valid { IfOrder result (λ o. IsTrue (is_valid o)) }
    ensures key { IfOrder result (λ o. o.key ≡ key_of message.now) }
{
    match left_of(message) {
        Some(left) => original_verdict(message, key, left),
        None => Verdict::Reply(FORMAT_ERROR),
    }
}

/// The first two digits of the processing code, where it has six.
fn kind_of(code: &[u8]) -> Option<u64>
    ensures value { result
        ≡ (if are_digits 6 6 code.now then Some (number_from 0 2 code.now) else None) }
{
    if are_digits(code, 6, 6) {
        Some(number_from(code, 0, 2))
    } else {
        None
    }
}

/// Whether the processing code asks for a debit: goods and services, or cash.
fn is_debit(code: u64) -> bool
    ensures { result ≡ is_debit code }
{
    matches!(code, 0 | 1)
}

/// Whether the processing code asks for a credit: a return, or a deposit.
fn is_credit(code: u64) -> bool
    ensures { result ≡ is_credit code }
{
    matches!(code, 20 | 21)
}

/// Whether the processing code asks for what is available.
fn is_inquiry(code: u64) -> bool
    ensures { result ≡ is_inquiry code }
{
    code == 31
}

/// A debit, or the completion of a hold.
fn debited_by(money: Money, hold: Option<TxKey>) -> Act
    ensures { result ≡ debited_by money hold }
{
    match hold {
        Some(hold) => Act::Complete { money, hold },
        None => Act::Debit(money),
    }
}

/// A debit, a completion or a credit of the amount in element 4.
fn amount_verdict(
    message: &Message,
    key: &TxKey,
    hold: Option<TxKey>,
    code: u64,
    money: Money,
) -> Verdict
    requires key { key.now ≡ key_of message.now }
    requires code { code ≡ kind message.now }
    requires money { money ≡ message_money message.now 0 }
    requires hold { hold ≡ hold_of message.now }
    requires own { IfSome hold (λ h. is_hold_for key.now h ≡ true) }
    requires advice { is_some hold ≡ true
        → (class_digit key.now ≡ 2) × (function_digit key.now ≡ 2) }
    requires valid { is_valid_key key.now ≡ true }
    requires class { is_payment key.now ≡ true }
    requires credit { is_debit code ≡ false → class_digit key.now ≡ 2 }
    requires account { is_account money ≡ true }
    ensures verdict { result ≡ first_of (amount_lines message.now) (credit_verdict message.now) }
    ensures valid { IfOrder result (λ o. IsTrue (is_valid o)) }
    ensures key { IfOrder result (λ o. o.key ≡ key_of message.now) }
{
    let amount = match number_in(text(message, 4), 12, 12) {
        None => return Verdict::Reply(FORMAT_ERROR),
        Some(0) => return Verdict::Reply(INVALID_AMOUNT),
        Some(amount) => amount,
    };
    let currency = money.currency;
    let moved = Money {
        pan: money.pan,
        amount,
        currency,
    };
    if is_debit(code) {
        return Verdict::Order(Order::valid(*key, debited_by(moved, hold)));
    }
    Verdict::Order(Order::valid(*key, Act::Credit(moved)))
}

/// What the processing code asks of the account.
fn act_verdict(
    message: &Message,
    key: &TxKey,
    hold: Option<TxKey>,
    code: u64,
    money: Money,
) -> Verdict
    requires key { key.now ≡ key_of message.now }
    requires code { code ≡ kind message.now }
    requires money { money ≡ message_money message.now 0 }
    requires hold { hold ≡ hold_of message.now }
    requires own { IfSome hold (λ h. is_hold_for key.now h ≡ true) }
    requires advice { is_some hold ≡ true
        → (class_digit key.now ≡ 2) × (function_digit key.now ≡ 2) }
    requires valid { is_valid_key key.now ≡ true }
    requires payment { is_payment key.now ≡ true }
    requires class { class_digit key.now ≡ class message.now }
    requires function { function_digit key.now ≡ function message.now }
    requires account { is_account money ≡ true }
    ensures verdict { result
        ≡ first_of (act_lines message.now ++ amount_lines message.now)
        (credit_verdict message.now) }
    ensures valid { IfOrder result (λ o. IsTrue (is_valid o)) }
    ensures key { IfOrder result (λ o. o.key ≡ key_of message.now) }
{
    if !is_debit(code) && !is_credit(code) && !is_inquiry(code) {
        return Verdict::Reply(INVALID_TRANSACTION);
    }
    if is_credit(code) && (key.class() == 1 || hold.is_some()) {
        return Verdict::Reply(INVALID_TRANSACTION);
    }
    if is_inquiry(code) {
        if key.function() == 2 {
            return Verdict::Reply(INVALID_TRANSACTION);
        }
        return Verdict::Order(Order::valid(*key, Act::Inquiry(money)));
    }
    amount_verdict(message, key, hold, code, money)
}

/// The account and the currency that are there, with no amount.
fn account(pan: Pan, currency: [u8; 3]) -> Money
    requires { is_currency currency ≡ true }
    ensures money { result ≡ record { pan = pan; amount = 0; currency = currency } }
    ensures account { is_account result ≡ true }
{
    // any call on the PAN tells the proof what holds of every PAN
    let _digits = pan.len();
    Money {
        pan,
        amount: 0,
        currency,
    }
}

/// Classes 1 and 2: what is asked of which account, and the hold that it completes.
fn account_verdict(message: &Message, key: &TxKey, hold: Option<TxKey>) -> Verdict
    requires key { key.now ≡ key_of message.now }
    requires hold { hold ≡ hold_of message.now }
    requires own { IfSome hold (λ h. is_hold_for key.now h ≡ true) }
    requires valid { is_valid_key key.now ≡ true }
    requires payment { is_payment key.now ≡ true }
    requires class { class_digit key.now ≡ class message.now }
    requires function { function_digit key.now ≡ function message.now }
    ensures verdict { result ≡ first_of (account_lines message.now ++ act_lines message.now
        ++ amount_lines message.now) (credit_verdict message.now) }
    ensures valid { IfOrder result (λ o. IsTrue (is_valid o)) }
    ensures key { IfOrder result (λ o. o.key ≡ key_of message.now) }
{
    let Some(pan) = Pan::from_digits(text(message, 2)) else {
        return Verdict::Reply(FORMAT_ERROR);
    };
    let Some(code) = kind_of(text(message, 3)) else {
        return Verdict::Reply(FORMAT_ERROR);
    };
    let Some(currency) = currency_of(text(message, 49)) else {
        return Verdict::Reply(FORMAT_ERROR);
    };
    let money = account(pan, currency);
    act_verdict(message, key, hold, code, money)
}

/// Classes 1 and 2: a payment, an inquiry, or an advice that completes a hold.
fn payment_verdict(message: &Message, key: &TxKey) -> Verdict
    requires key { key.now ≡ key_of message.now }
    requires valid { is_valid_key key.now ≡ true }
    requires payment { is_payment key.now ≡ true }
    requires class { class_digit key.now ≡ class message.now }
    requires function { function_digit key.now ≡ function message.now }
    ensures verdict { result ≡ first_of (completion_lines message.now ++ account_lines message.now
        ++ act_lines message.now ++ amount_lines message.now) (credit_verdict message.now) }
    ensures valid { IfOrder result (λ o. IsTrue (is_valid o)) }
    ensures key { IfOrder result (λ o. o.key ≡ key_of message.now) }
{
    match hold_of(message, key) {
        Ok(hold) => account_verdict(message, key, hold),
        Err(code) => Verdict::Reply(code),
    }
}

/// Classes 1, 2 and 4: what is asked under the message's key.
fn key_verdict(message: &Message, digit: u8) -> Verdict
    requires version { version message.now ≡ 0 }
    requires asks { is_answered (function message.now) ≡ true }
    requires origin { origin message.now ≤ 5 }
    requires class { digit ≡ class message.now }
    requires served { (digit ≡ 1) ⊎ (digit ≡ 2) ⊎ (digit ≡ 4) }
    ensures verdict { result ≡ first_of (key_lines message.now ++ reversal_lines message.now
        ++ completion_lines message.now ++ account_lines message.now ++ act_lines message.now
        ++ amount_lines message.now) (credit_verdict message.now) }
    ensures valid { IfOrder result (λ o. IsTrue (is_valid o)) }
    ensures key { IfOrder result (λ o. o.key ≡ key_of message.now) }
{
    let Some(key) = key_of(message) else {
        return Verdict::Reply(FORMAT_ERROR);
    };
    if digit == 4 {
        reversal_verdict(message, &key)
    } else {
        payment_verdict(message, &key)
    }
}

/// The verdict on a message that is answered: that of the first line of the table that holds. For the prover it and
/// [`order_of`] alone look into the definition of the table.
#[tactic(auto, unfolding(crate::specs::Verdict::verdict))]
#[inline(never)]
fn verdict_of(message: &Message) -> Verdict
    requires version { version message.now ≡ 0 }
    requires asks { is_answered (function message.now) ≡ true }
    ensures verdict { result ≡ verdict message.now }
    ensures valid { IfOrder result (λ o. IsTrue (is_valid o)) }
    ensures key { IfOrder result (λ o. o.key ≡ key_of message.now) }
    ensures answered { IfAnswered result (is_answered (function message.now) ≡ true) }
{
    let mti = type_of(message);
    if mti.origin > 5 {
        return Verdict::Reply(INVALID_TRANSACTION);
    }
    match mti.class {
        8 => network_verdict(message),
        1 | 2 | 4 => key_verdict(message, mti.class),
        _ => Verdict::Reply(INVALID_TRANSACTION),
    }
}

/// What a message asks: the verdict of the first line of the table that holds. Takes no memory. Whether a message is
/// answered at all is told in the code around it.
#[tactic(auto, unfolding(crate::specs::Verdict::verdict))]
#[inline(always)]
pub fn order_of(message: &Message) -> Verdict
    // The verdict is that of the first line of the table in ORDERS.md that holds.
    ensures verdict { result ≡ verdict message.now }
    // An order that is told is one that a message can carry.
    ensures valid { IfOrder result (λ o. IsTrue (is_valid o)) }
    // Each delivery of a transaction has one key: its type has no repeat, its acquirer no leading zeros.
    ensures key { IfOrder result (λ o. o.key ≡ key_of message.now) }
    // A message that is answered has a response.
    ensures answered { IfAnswered result (is_answered (function message.now) ≡ true) }
    // A response code has two digits.
    ensures code { IfReply result (λ code. code ≤ 99) }
{
    let mti = type_of(message);
    if mti.version != 0 || !matches!(mti.function, 0 | 2) {
        return Verdict::Silent;
    }
    verdict_of(message)
}
