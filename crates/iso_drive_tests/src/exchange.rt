//! Requests and answers as bytes, beside the same by way of a message.

use iso_exchange::{answer_in, write_request};
use iso_fakes::check;
use iso_order::{Act, Money, Order, Pan, Told, TxKey, request};
use iso_parts::Mti;
use iso_table::Table;
use iso_wire::{Message, pack};
use std::alloc::Global;
use std::test::Fail;

const KEY: TxKey = TxKey {
    base: 200,
    stan: 1,
    sent: 1128055759,
    acquirer: 12_345,
};

/// Purchases: on an account of an even or an odd count of digits, by which acquirer, and for how much.
const PURCHASES: &[(&[u8], u64, u64)] = &[
    (b"4111111111111111", 12_345, 1),
    (b"378282246310005", 123_456, 999_999_999_999),
    (b"0", 0, 10),
    (b"9999999999999999999", 99_999_999_999, 123_456_789_012),
];

/// Such a purchase.
fn purchase(account: &[u8], acquirer: u64, amount: u64) -> Option<Order> {
    let money = Money {
        pan: Pan::from_digits(account)?,
        amount,
        currency: *b"840",
    };
    let key = TxKey { acquirer, ..KEY };
    Order::new(key, Act::Debit(money))
}

/// The reversal of a purchase.
fn reversal() -> Option<Order> {
    let key = TxKey {
        base: 420,
        stan: 2,
        ..KEY
    };
    let undo = Act::Undo {
        original: KEY,
        left: 0,
    };
    Order::new(key, undo)
}

/// Behind two zeros, the message that asks for the order, as it is packed.
fn packed(alloc: Global, table: &Table, order: &Order) -> Option<Vec<u8>> {
    let message = request(alloc, order).ok()?;
    let packed = pack(alloc, table, &message).ok()?;
    let mut out = Vec::from_slice(alloc, &[0, 0]).ok()?;
    out.extend_from_slice(packed.as_slice()).ok()?;
    Some(out)
}

/// The order as its bytes are written where others stood before.
fn written(alloc: Global, table: &Table, order: &Order) -> Option<Vec<u8>> {
    let mut out = Vec::from_slice(alloc, b"anything").ok()?;
    write_request(alloc, table, 2, order, &mut out).ok()?;
    Some(out)
}

/// Whether the order is written as its message is packed.
fn is_written(alloc: Global, table: &Table, order: Option<Order>) -> bool {
    let Some(order) = order else {
        return false;
    };
    match (packed(alloc, table, &order), written(alloc, table, &order)) {
        (Some(packed), Some(written)) => packed.as_slice() == written.as_slice(),
        _ => false,
    }
}

/// Ends the test unless each order is written as its message is packed.
fn check_requests(alloc: Global, table: &Table) -> Result<(), Fail> {
    for (account, acquirer, amount) in PURCHASES {
        let order = purchase(account, *acquirer, *amount);
        check(is_written(alloc, table, order), "a purchase")?;
    }
    check(is_written(alloc, table, reversal()), "a reversal")
}

#[test]
fn requests_as_messages_are_packed(rt: HostRuntime) -> Result<(), Fail> {
    check_requests(rt.alloc(), &Table::ascii87(rt.alloc())?)?;
    check_requests(rt.alloc(), &Table::bcd87(rt.alloc())?)
}

/// What stands in the response to an order, which tells what is available.
const ELEMENTS: &[(u8, &[u8])] = &[
    (7, b"1128055759"),
    (11, b"000001"),
    (32, b"12345"),
    (39, b"05"),
    (49, b"840"),
    (54, b"0002840C000000005000"),
];

/// Such a response, without the element of that number, and with these bytes behind it.
fn response(
    alloc: Global,
    table: &Table,
    mti: &[u8],
    without: u8,
    behind: &[u8],
) -> Option<Vec<u8>> {
    let mut message = Message::new(alloc, Mti::from_text(mti)?);
    for (n, value) in ELEMENTS {
        if *n != without {
            message.set(*n, value).ok()?;
        }
    }
    let mut body = pack(alloc, table, &message).ok()?;
    body.extend_from_slice(behind).ok()?;
    Some(body)
}

/// A body, and which transaction's answer it is: its type, the element that it lacks, the bytes behind it.
const ANSWERS: &[(&[u8], u8, &[u8], Option<u16>)] = &[
    (b"0110", 0, b"", Some(100)),
    (b"0210", 0, b"", Some(200)),
    (b"0430", 0, b"", Some(420)),
    (b"0210", 0, b"\0", None),
    (b"0210", 39, b"", None),
];

/// What the body tells is what is wanted.
fn is_told(alloc: Global, table: &Table, body: Option<Vec<u8>>, base: Option<u16>) -> bool {
    let Some(body) = body else {
        return false;
    };
    let wanted = match base {
        Some(base) => Some(Told {
            key: TxKey { base, ..KEY },
            code: 5,
        }),
        None => None,
    };
    answer_in(table, body.as_slice(), &mut Vec::new(alloc)) == Ok(wanted)
}

/// Ends the test unless each body tells what it is to tell.
fn check_answers(alloc: Global, table: &Table) -> Result<(), Fail> {
    for (mti, without, behind, base) in ANSWERS {
        let body = response(alloc, table, mti, *without, behind);
        check(is_told(alloc, table, body, *base), "an answer")?;
    }
    check(
        is_told(alloc, table, Some(Vec::new(alloc)), None),
        "no byte",
    )
}

#[test]
fn answers_where_they_lie(rt: HostRuntime) -> Result<(), Fail> {
    check_answers(rt.alloc(), &Table::ascii87(rt.alloc())?)?;
    check_answers(rt.alloc(), &Table::bcd87(rt.alloc())?)
}
