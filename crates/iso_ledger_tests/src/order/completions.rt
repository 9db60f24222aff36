//! Advices that complete a hold.

use super::Change::{Nothing, Set, Without};
use super::{ACCOUNT, Asking, Wants};
use crate::plain::{Does, Plain};
use iso_order::TxKey;

/// The debit of the completion by a message of that type, as tables have it.
macro_rules! debit_of {
    ($base:expr) => {
        Wants::Order(debit!(completion_key!($base), ACCOUNT, 700, *b"840"))
    };
}

/// The completion of the hold of that type, as tables have it.
macro_rules! complete_of {
    ($base:expr) => {
        Wants::Order(complete!(
            completion_key!(220),
            ACCOUNT,
            700,
            *b"840",
            hold_key!($base)
        ))
    };
}

/// The elements of a completion of 7.00.
pub const COMPLETION: &[(u8, &'static [u8])] = &[
    (2, ACCOUNT),
    (3, b"000000"),
    (4, b"000000000700"),
    (7, b"0102030700"),
    (11, b"000011"),
    (32, b"12345"),
    (49, b"840"),
    (90, b"010000001001020304050000001234500000000000"),
];

/// Completions of a hold, and which order each asks for.
pub const COMPLETIONS: &[Asking] = &[
    ("as it stands", 220, Nothing, complete_of!(100)),
    ("a repeat", 221, Nothing, complete_of!(100)),
    (
        "the repeat of a hold",
        220,
        Set(90, b"010100001001020304050000001234500000000000"),
        complete_of!(100),
    ),
    (
        "an advice that holds",
        220,
        Set(90, b"012000001001020304050000001234500000000000"),
        complete_of!(120),
    ),
    (
        "no acquirer named",
        220,
        Set(90, b"010000001001020304050000000000000000000000"),
        complete_of!(100),
    ),
    ("without element 90", 220, Without(90), debit_of!(220)),
    ("a request names no hold", 200, Nothing, debit_of!(200)),
    (
        "41 digits",
        220,
        Set(90, b"01000000100102030405000000123450000000000"),
        Wants::Reply(30),
    ),
    (
        "a letter",
        220,
        Set(90, b"010000001001020304050000001234500000000A00"),
        Wants::Reply(30),
    ),
    (
        "a purchase is no hold",
        220,
        Set(90, b"020000001001020304050000001234500000000000"),
        Wants::Reply(12),
    ),
    (
        "a response is no hold",
        220,
        Set(90, b"011000001001020304050000001234500000000000"),
        Wants::Reply(12),
    ),
    (
        "an origin above 5",
        220,
        Set(90, b"010600001001020304050000001234500000000000"),
        Wants::Reply(12),
    ),
    (
        "another version",
        220,
        Set(90, b"110000001001020304050000001234500000000000"),
        Wants::Reply(12),
    ),
    (
        "another acquirer",
        220,
        Set(90, b"010000001001020304050000005432100000000000"),
        Wants::Reply(12),
    ),
    (
        "a return completes nothing",
        220,
        Set(3, b"200000"),
        Wants::Reply(12),
    ),
    (
        "a deposit completes nothing",
        220,
        Set(3, b"210000"),
        Wants::Reply(12),
    ),
    ("no amount", 220, Without(4), Wants::Reply(30)),
    (
        "an amount of zero",
        220,
        Set(4, b"000000000000"),
        Wants::Reply(13),
    ),
];
