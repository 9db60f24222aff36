//! What logs show: no account number in clear.

use crate::plain::{ACCOUNT, Does, Plain, act, money, order};
use iso_fakes::check;
use iso_order::{Pan, TxKey, Verdict};
use std::alloc::Global;
use std::fmt::Debug;
use std::test::Fail;

/// What of an order a log shows.
#[derive(Clone, Copy)]
enum What {
    Number,
    Money,
    Act,
    Order,
    /// The order as a verdict.
    Verdict,
}

const PAYMENT: Plain = debit!(key!(200), ACCOUNT, 1000, *b"840");

const TEXTS: &[(&'static str, What, Plain, &'static str)] = &[
    (
        "sixteen digits",
        What::Number,
        debit!(key!(200), ACCOUNT, 1000, *b"840"),
        "411111******1111",
    ),
    (
        "nineteen digits",
        What::Number,
        debit!(key!(200), b"6304219447607087665", 1000, *b"840"),
        "630421*********7665",
    ),
    (
        "thirteen digits",
        What::Number,
        debit!(key!(200), b"4222222222222", 1000, *b"840"),
        "422222***2222",
    ),
    (
        "zeros before",
        What::Number,
        debit!(key!(200), b"0000001234567890", 1000, *b"840"),
        "000000******7890",
    ),
    (
        "twelve digits",
        What::Number,
        debit!(key!(200), b"501800000009", 1000, *b"840"),
        "************",
    ),
    (
        "one digit",
        What::Number,
        debit!(key!(200), b"7", 1000, *b"840"),
        "*",
    ),
    (
        "an order",
        What::Order,
        PAYMENT,
        "Order { key: TxKey { sent: 102030405, stan: 7, base: 200, acquirer: 12345 }, \
         act: Debit(Money { pan: 411111******1111, amount: 1000, currency: [56, 52, 48] }) }",
    ),
    (
        "a verdict",
        What::Verdict,
        PAYMENT,
        "Order(Order { key: TxKey { sent: 102030405, stan: 7, base: 200, acquirer: 12345 }, \
         act: Debit(Money { pan: 411111******1111, amount: 1000, currency: [56, 52, 48] }) })",
    ),
    (
        "money",
        What::Money,
        debit!(key!(200), b"501800000009", 0, *b"USD"),
        "Money { pan: ************, amount: 0, currency: [85, 83, 68] }",
    ),
    (
        "a credit",
        What::Act,
        credit!(key!(200), ACCOUNT, 5, *b"840"),
        "Credit(Money { pan: 411111******1111, amount: 5, currency: [56, 52, 48] })",
    ),
    (
        "an inquiry",
        What::Act,
        inquiry!(key!(200), ACCOUNT, 0, *b"840"),
        "Inquiry(Money { pan: 411111******1111, amount: 0, currency: [56, 52, 48] })",
    ),
    (
        "a reversal",
        What::Act,
        undo!(key!(420), key!(200), 400),
        "Undo { original: TxKey { sent: 102030405, stan: 7, base: 200, acquirer: 12345 }, left: 400 }",
    ),
];

/// Whether a log writes that of it, where it is there.
fn is_shown<T: Debug + Drop>(alloc: Global, shown: Option<T>, want: &str) -> bool {
    match shown {
        Some(shown) => match format!(in alloc; "{shown:?}") {
            Ok(text) => text.as_str() == want,
            Err(_) => false,
        },
        None => false,
    }
}

/// Whether a log writes that of an order.
fn shows(alloc: Global, what: What, plain: &Plain, want: &str) -> bool {
    match what {
        What::Number => is_shown(alloc, Pan::from_digits(plain.digits), want),
        What::Money => is_shown(alloc, money(plain), want),
        What::Act => is_shown(alloc, act(plain), want),
        What::Order => is_shown(alloc, order(plain), want),
        What::Verdict => match order(plain) {
            Some(order) => is_shown(alloc, Some(Verdict::Order(order)), want),
            None => false,
        },
    }
}

#[test]
fn account_numbers_are_masked(rt: HostRuntime) -> Result<(), Fail> {
    for (name, what, plain, want) in TEXTS {
        check(shows(rt.alloc(), *what, plain, *want), *name)?;
    }
    Ok(())
}
