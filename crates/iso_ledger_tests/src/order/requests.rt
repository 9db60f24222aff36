//! The messages that ask for orders.

use crate::plain::{ACCOUNT, Does, Plain, order};
use iso_fakes::check;
use iso_order::{Order, TxKey, request};
use iso_table::Table;
use iso_wire::{Message, pack};
use std::alloc::Global;
use std::test::Fail;

/// An order that a message asks for, and the bytes of the message.
type Request = (&'static str, Plain, &'static [u8]);

/// The key of a payment without an acquirer.
const NOBODY: TxKey = TxKey {
    acquirer: 0,
    ..key!(200)
};

const REQUESTS: &[Request] = &[
    (
        "a purchase",
        debit!(key!(200), ACCOUNT, 1000, *b"840"),
        b"0200722000010000800016411111111111111100000000000000100001020304050000070512345840",
    ),
    (
        "a return",
        credit!(key!(200), ACCOUNT, 1000, *b"840"),
        b"0200722000010000800016411111111111111120000000000000100001020304050000070512345840",
    ),
    (
        "a balance inquiry",
        inquiry!(other_key!(200, 9, 102_030_600), ACCOUNT, 0, *b"840"),
        b"0200622000010000800016411111111111111131000001020306000000090512345840",
    ),
    (
        "a hold",
        debit!(hold_key!(100), ACCOUNT, 1000, *b"840"),
        b"0100722000010000800016411111111111111100000000000000100001020304050000100512345840",
    ),
    (
        "an advice of another origin",
        debit!(key!(222), ACCOUNT, 1000, *b"840"),
        b"0222722000010000800016411111111111111100000000000000100001020304050000070512345840",
    ),
    (
        "no acquirer",
        debit!(NOBODY, ACCOUNT, 1000, *b"840"),
        b"020072200001000080001641111111111111110000000000000010000102030405000007010840",
    ),
    (
        "an account number with a zero before it, in letters",
        debit!(key!(200), b"01", 999_999_999_999, *b"USD"),
        b"02007220000100008000020100000099999999999901020304050000070512345USD",
    ),
    (
        "a reversal",
        undo!(reversal_key!(), key!(200), 0),
        b"04208220000100000000000000400000000001020305000000080512345020000000701020304050000001234500000000000",
    ),
    (
        "a reversal that leaves a part",
        undo!(reversal_key!(), key!(200), 400),
        b"04208220000100000000000000420000000001020305000000080512345020000000701020304050000001234500000000000000000000400000000000000D00000000D00000000",
    ),
    (
        "a completion",
        complete!(completion_key!(220), ACCOUNT, 700, *b"840", hold_key!(100)),
        b"0220F220000100008000000000400000000016411111111111111100000000000000070001020307000000110512345840010000001001020304050000001234500000000000",
    ),
];

/// Whether a message has these bytes.
fn has_bytes(alloc: Global, table: &Table, message: &Message, want: &[u8]) -> bool {
    match pack(alloc, table, message) {
        Ok(bytes) => bytes.as_slice() == want,
        Err(_) => false,
    }
}

/// Whether the message that asks for an order has these bytes.
fn is_asked_by(alloc: Global, table: &Table, order: &Order, want: &[u8]) -> bool {
    match request(alloc, order) {
        Ok(message) => has_bytes(alloc, table, &message, want),
        Err(_) => false,
    }
}

/// Whether the message that asks for an order in plain words has these bytes.
fn is_request(alloc: Global, table: &Table, plain: &Plain, want: &[u8]) -> bool {
    match order(plain) {
        Some(order) => is_asked_by(alloc, table, &order, want),
        None => false,
    }
}

/// The name of the first order whose message has other bytes.
fn wrong_request(alloc: Global, table: &Table) -> Option<&'static str> {
    for (name, plain, want) in REQUESTS {
        if !is_request(alloc, table, plain, *want) {
            return Some(*name);
        }
    }
    None
}

#[test]
fn orders_are_asked_for(rt: HostRuntime) -> Result<(), Fail> {
    let wrong = match Table::ascii87(rt.alloc()) {
        Ok(table) => wrong_request(rt.alloc(), &table),
        Err(_) => Some("the table"),
    };
    check(wrong.is_none(), wrong.unwrap_or(""))
}
