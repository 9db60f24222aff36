//! Keys, and which orders are one.

use crate::plain::{ACCOUNT, Does, Plain, act, order};
use iso_fakes::check;
use iso_order::{Order, TxKey};
use std::test::Fail;

/// The key of a payment with a time of eleven digits.
const LATE: TxKey = TxKey {
    sent: 10_000_000_000,
    ..key!(200)
};

/// Keys, the class and the function of each, and whether an order can have it.
const ALL_KEYS: &[(&'static str, TxKey, u16, u16, bool)] = &[
    ("of an authorization", key!(100), 1, 0, true),
    ("of a financial advice", key!(220), 2, 2, true),
    ("of a reversal of another origin", key!(424), 4, 2, true),
    ("of a repeat", key!(201), 2, 0, false),
    ("of a response", key!(210), 2, 1, false),
    ("a time of eleven digits", LATE, 2, 0, false),
];

/// Whether a key has that class and that function, and an order can have it or can't.
fn is_key(key: TxKey, class: u16, function: u16, valid: bool) -> bool {
    (key.class(), key.function(), key.is_valid()) == (class, function, valid)
}

#[test]
fn keys() -> Result<(), Fail> {
    for (name, key, class, function, valid) in ALL_KEYS {
        check(is_key(*key, *class, *function, *valid), *name)?;
    }
    Ok(())
}

const PURCHASE: Plain = debit!(key!(200), ACCOUNT, 1000, *b"840");

/// The key of a payment for another acquirer.
const OTHER: TxKey = TxKey {
    acquirer: 54_321,
    ..key!(200)
};

/// A name, what an order would be, and whether that order is the purchase, where there is one.
type Likely = (&'static str, Plain, Option<bool>);

const ORDERS: &[Likely] = &[
    (
        "itself",
        debit!(key!(200), ACCOUNT, 1000, *b"840"),
        Some(true),
    ),
    (
        "under another key",
        debit!(key!(220), ACCOUNT, 1000, *b"840"),
        Some(false),
    ),
    (
        "of another amount",
        debit!(key!(200), ACCOUNT, 1001, *b"840"),
        Some(false),
    ),
    (
        "of another account",
        debit!(key!(200), b"04111111111111111", 1000, *b"840"),
        Some(false),
    ),
    (
        "in another currency",
        debit!(key!(200), ACCOUNT, 1000, *b"USD"),
        Some(false),
    ),
    (
        "a credit",
        credit!(key!(200), ACCOUNT, 1000, *b"840"),
        Some(false),
    ),
    (
        "a debit of nothing",
        debit!(key!(200), ACCOUNT, 0, *b"840"),
        None,
    ),
    (
        "an advice of an inquiry",
        inquiry!(key!(220), ACCOUNT, 0, *b"840"),
        None,
    ),
    (
        "a currency with a blank",
        inquiry!(key!(200), ACCOUNT, 0, *b"US "),
        None,
    ),
    (
        "an amount of thirteen digits",
        debit!(key!(200), ACCOUNT, 1_000_000_000_000, *b"840"),
        None,
    ),
    (
        "a credit of class 1",
        credit!(key!(100), ACCOUNT, 1000, *b"840"),
        None,
    ),
    (
        "a reversal in a payment",
        undo!(key!(200), key!(200), 0),
        None,
    ),
    (
        "a reversal for another acquirer",
        undo!(key!(420), OTHER, 0),
        None,
    ),
    (
        "a reversal of a reversal",
        undo!(key!(420), key!(400), 0),
        None,
    ),
    (
        "a reversal that leaves thirteen digits",
        undo!(key!(420), key!(200), 1_000_000_000_000),
        None,
    ),
    (
        "a completion by a request",
        complete!(key!(200), ACCOUNT, 1000, *b"840", key!(100)),
        None,
    ),
    (
        "a completion of a purchase",
        complete!(key!(220), ACCOUNT, 1000, *b"840", key!(200)),
        None,
    ),
    (
        "a completion for another acquirer",
        complete!(
            key!(220),
            ACCOUNT,
            1000,
            *b"840",
            TxKey { base: 100, ..OTHER }
        ),
        None,
    ),
    (
        "a completion of nothing",
        complete!(key!(220), ACCOUNT, 0, *b"840", key!(100)),
        None,
    ),
    (
        "under the key of a repeat",
        inquiry!(key!(201), ACCOUNT, 0, *b"840"),
        None,
    ),
];

/// Whether an order has the key and the act of its plain words, and is the purchase or isn't.
fn is_order(made: &Order, plain: &Plain, is_purchase: bool) -> bool {
    match order(&PURCHASE) {
        Some(purchase) => {
            (made.key(), Some(made.act()), made.is_same(&purchase))
                == (plain.key, act(plain), is_purchase)
        }
        None => false,
    }
}

/// Whether there is such an order, which is the purchase or isn't, or none.
fn is_made(plain: &Plain, want: Option<bool>) -> bool {
    match (order(plain), want) {
        (Some(made), Some(is_purchase)) => is_order(&made, plain, is_purchase),
        (made, want) => made.is_none() && want.is_none(),
    }
}

#[test]
fn orders() -> Result<(), Fail> {
    for (name, plain, want) in ORDERS {
        check(is_made(plain, *want), *name)?;
    }
    Ok(())
}
