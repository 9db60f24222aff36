//! What messages ask and what responses tell, by examples whose values come from outside.

/// The key of a message of the acquirer, as tables have it: its type, its trace number, and its date and time.
macro_rules! other_key {
    ($base:expr, $stan:expr, $sent:expr) => {
        TxKey {
            base: $base,
            stan: $stan,
            sent: $sent,
            acquirer: 12_345,
        }
    };
}

/// The key of the payment of a type, as tables have it.
macro_rules! key {
    ($base:expr) => {
        other_key!($base, 7, 102_030_405)
    };
}

/// The key of a hold, as tables have it.
macro_rules! hold_key {
    ($base:expr) => {
        other_key!($base, 10, 102_030_405)
    };
}

/// The key of a completion, which names the hold.
macro_rules! completion_key {
    ($base:expr) => {
        other_key!($base, 11, 102_030_700)
    };
}

/// The key of a reversal, which names the payment.
macro_rules! reversal_key {
    () => {
        other_key!(420, 8, 102_030_500)
    };
}

/// An order, as tables have it.
macro_rules! plain {
    ($does:expr, $key:expr, $digits:expr, $amount:expr, $currency:expr, $of:expr) => {
        Plain {
            key: $key,
            does: $does,
            digits: $digits,
            amount: $amount,
            currency: $currency,
            of: $of,
        }
    };
}

/// The debit of a key, an account, an amount and a currency.
macro_rules! debit {
    ($key:expr, $digits:expr, $amount:expr, $currency:expr) => {
        plain!(Does::Debit, $key, $digits, $amount, $currency, key!(200))
    };
}

macro_rules! credit {
    ($key:expr, $digits:expr, $amount:expr, $currency:expr) => {
        plain!(Does::Credit, $key, $digits, $amount, $currency, key!(200))
    };
}

macro_rules! inquiry {
    ($key:expr, $digits:expr, $amount:expr, $currency:expr) => {
        plain!(Does::Inquiry, $key, $digits, $amount, $currency, key!(200))
    };
}

/// The completion of a key, an account, an amount, a currency and the key of its hold.
macro_rules! complete {
    ($key:expr, $digits:expr, $amount:expr, $currency:expr, $hold:expr) => {
        plain!(Does::Complete, $key, $digits, $amount, $currency, $hold)
    };
}

/// The reversal of a key, the key of its original, and how much it leaves.
macro_rules! undo {
    ($key:expr, $original:expr, $left:expr) => {
        plain!(Does::Undo, $key, ACCOUNT, $left, *b"840", $original)
    };
}

mod answers;
mod completions;
mod logs;
mod orders;
mod pieces;
mod requests;
mod responses;
mod verdicts;

use crate::plain::{ACCOUNT, Plain, order};
use iso_fakes::{check, check_of};
use iso_order::{Pan, Told, Verdict, answer_of, order_of};
use iso_parts::Mti;
use iso_wire::Message;
use std::alloc::Global;
use std::test::Fail;

/// Sets these elements of a message, and tells whether all are set.
fn set_all(message: &mut Message, elements: &[(u8, &[u8])]) -> bool {
    let mut is_set = true;
    for (n, value) in elements {
        is_set &= message.set(*n, value).is_ok();
    }
    is_set
}

/// How a message differs from the usual one of its kind.
#[derive(Clone, Copy)]
enum Change {
    Nothing,
    Set(u8, &'static [u8]),
    Without(u8),
}

/// Makes a change, and tells whether it is made.
fn change_by(message: &mut Message, change: Change) -> bool {
    match change {
        Change::Nothing => true,
        Change::Set(n, value) => message.set(n, value).is_ok(),
        Change::Without(n) => message.unset(n),
    }
}

/// What a message asks, or what a response tells, as tables have it.
#[derive(Clone, Copy)]
enum Wants {
    Silence,
    Reply(u8),
    Order(Plain),
    Told(Option<Told>),
}

/// Whether the verdict on a message is that order.
fn is_ordered(message: &Message, plain: &Plain) -> bool {
    match order(plain) {
        Some(wanted) => order_of(message) == Verdict::Order(wanted),
        None => false,
    }
}

/// Whether a message asks or tells that.
fn has(message: &Message, wants: &Wants) -> bool {
    match wants {
        Wants::Silence => order_of(message) == Verdict::Silent,
        Wants::Reply(code) => order_of(message) == Verdict::Reply(*code),
        Wants::Order(plain) => is_ordered(message, plain),
        Wants::Told(told) => answer_of(message) == *told,
    }
}

/// Whether a message that gets the elements, but for the change, asks or tells that.
fn is_so(message: &mut Message, elements: &[(u8, &[u8])], change: Change, wants: &Wants) -> bool {
    set_all(message, elements) && change_by(message, change) && has(message, wants)
}

/// A name, a type, how the message differs from the usual one of its kind, and what it asks or tells.
type Asking = (&'static str, u16, Change, Wants);

/// Whether the message of a row, which has these elements but for its change, asks or tells what it should.
fn is_asked(alloc: Global, elements: &[(u8, &[u8])], row: &Asking) -> bool {
    let (_, mti, change, wants) = row;
    match Mti::from_digits(*mti) {
        Some(mti) => is_so(&mut Message::new(alloc, mti), elements, *change, wants),
        None => false,
    }
}

/// Compares what messages of a kind ask or tell, which have these elements but for their changes.
fn check_kind(
    alloc: Global,
    kind: &str,
    elements: &[(u8, &[u8])],
    rows: &[Asking],
) -> Result<(), Fail> {
    for row in rows {
        let (name, _, _, _) = row;
        check_of(is_asked(alloc, elements, row), kind, *name)?;
    }
    Ok(())
}

/// The elements of a payment.
const PAYMENT: &[(u8, &'static [u8])] = &[
    (2, ACCOUNT),
    (3, b"000000"),
    (4, b"000000001000"),
    (7, b"0102030405"),
    (11, b"000007"),
    (32, b"12345"),
    (49, b"840"),
];

/// The elements of a network message.
const NETWORK: &[(u8, &'static [u8])] = &[(7, b"0102030405")];

#[test]
fn payments_ask(rt: HostRuntime) -> Result<(), Fail> {
    check_kind(rt.alloc(), "a payment", PAYMENT, verdicts::PAYMENTS)
}

#[test]
fn payments_are_refused(rt: HostRuntime) -> Result<(), Fail> {
    check_kind(
        rt.alloc(),
        "a refused payment",
        PAYMENT,
        verdicts::REFUSED_PAYMENTS,
    )
}

#[test]
fn reversals_and_network_messages_ask(rt: HostRuntime) -> Result<(), Fail> {
    let alloc = rt.alloc();
    check_kind(alloc, "a reversal", verdicts::REVERSAL, verdicts::REVERSALS)?;
    check_kind(
        alloc,
        "a network message",
        NETWORK,
        verdicts::NETWORK_MESSAGES,
    )
}

#[test]
fn completions_ask_and_responses_tell(rt: HostRuntime) -> Result<(), Fail> {
    let alloc = rt.alloc();
    check_kind(
        alloc,
        "a completion",
        completions::COMPLETION,
        completions::COMPLETIONS,
    )?;
    check_kind(alloc, "a response", answers::ANSWER, answers::MESSAGES)
}

/// Texts, and the number and the count of digits of those that are account numbers.
const ACCOUNT_TEXTS: &[(&'static str, &'static [u8], Option<(u64, u8)>)] = &[
    ("no digit", b"", None),
    ("one digit", b"0", Some((0, 1))),
    ("a zero before", b"01", Some((1, 2))),
    (
        "nineteen digits",
        b"9999999999999999999",
        Some((9_999_999_999_999_999_999, 19)),
    ),
    ("twenty digits", b"00000000000000000001", None),
    ("a letter", b"41111111A1111111", None),
];

/// Whether a text is an account number of that number and that count of digits, or none.
fn is_read(text: &[u8], want: Option<(u64, u8)>) -> bool {
    match Pan::from_digits(text) {
        Some(pan) => want == Some((pan.digits(), pan.len())),
        None => want.is_none(),
    }
}

#[test]
fn account_numbers() -> Result<(), Fail> {
    for (name, text, want) in ACCOUNT_TEXTS {
        check(is_read(*text, *want), *name)?;
    }
    Ok(())
}
