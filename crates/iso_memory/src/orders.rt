//! The calls that make a message from an order or an answer.

use crate::ended::Ended;
use crate::known::{FIRST, GRANTED, completion, debit, message, purchase, undo};
use iso_order::{Act, Answer, Order, Verdict, order_of, request, respond, respond_into};
use iso_table::Table;
use iso_wire::{Message, unpack};
use std::alloc::Global;

/// The response that grants the purchase.
fn granting_response(alloc: Global) -> Option<Message> {
    let table = Table::ascii87(alloc).ok()?;
    let (message, _) = unpack(alloc, &table, GRANTED).ok()?;
    Some(message)
}

fn responds(alloc: Global) -> Ended {
    let (Some(asked), Some(wanted)) = (purchase(alloc, 200), granting_response(alloc)) else {
        return Ended::Unready;
    };
    let Verdict::Order(_) = order_of(&asked) else {
        return Ended::Wrong;
    };
    let mut told = respond(alloc, &asked, &FIRST);
    let was_refused = told.is_err();
    if was_refused {
        told = respond(alloc, &asked, &FIRST);
    }
    let is_right = matches!(&told, Ok(made) if made.equals(&wanted));
    Ended::of(was_refused, is_right)
}

/// Makes another message the response, which takes more room than it has.
fn responds_in_place(alloc: Global) -> Ended {
    let (Some(asked), Some(wanted), Some(mut made)) = (
        purchase(alloc, 200),
        granting_response(alloc),
        message(alloc, 800, &[(11, b"000008")]),
    ) else {
        return Ended::Unready;
    };
    let Verdict::Order(_) = order_of(&asked) else {
        return Ended::Wrong;
    };
    let mut told = respond_into(&asked, &FIRST, &mut made);
    let was_refused = told.is_err();
    if was_refused {
        told = respond_into(&asked, &FIRST, &mut made);
    }
    Ended::of(was_refused, told.is_ok() && made.equals(&wanted))
}

/// The elements of a balance inquiry, and those of its response that shows 50.00.
const INQUIRY: [(u8, &[u8]); 6] = [
    (2, b"4111111111111111"),
    (3, b"310000"),
    (7, b"0102030405"),
    (11, b"000007"),
    (32, b"12345"),
    (49, b"840"),
];

const SHOWING: [(u8, &[u8]); 9] = [
    (2, b"4111111111111111"),
    (3, b"310000"),
    (7, b"0102030405"),
    (11, b"000007"),
    (32, b"12345"),
    (38, b"000001"),
    (39, b"00"),
    (49, b"840"),
    (54, b"0002840C000000005000"),
];

/// Responds to a balance inquiry that is granted as the first order, with 50.00 in element 54.
fn responds_to_an_inquiry(alloc: Global) -> Ended {
    let (Some(asked), Some(wanted)) = (message(alloc, 200, &INQUIRY), message(alloc, 210, &SHOWING))
    else {
        return Ended::Unready;
    };
    let Verdict::Order(order) = order_of(&asked) else {
        return Ended::Wrong;
    };
    let Act::Inquiry(_) = order.act() else {
        return Ended::Wrong;
    };
    let shows = Answer {
        code: 0,
        seq: 1,
        shown: Some(5000),
    };
    let mut told = respond(alloc, &asked, &shows);
    let was_refused = told.is_err();
    if was_refused {
        told = respond(alloc, &asked, &shows);
    }
    let is_right = matches!(&told, Ok(made) if made.equals(&wanted));
    Ended::of(was_refused, is_right)
}

/// The elements of the reversal of the purchase, and those of the completion of a hold.
pub const REVERSAL: [(u8, &[u8]); 4] = [
    (7, b"0102030405"),
    (11, b"000008"),
    (32, b"12345"),
    (90, b"020000000701020304050000001234500000000000"),
];

const COMPLETION: [(u8, &[u8]); 8] = [
    (2, b"4111111111111111"),
    (3, b"000000"),
    (4, b"000000000400"),
    (7, b"0102030405"),
    (11, b"000003"),
    (32, b"12345"),
    (49, b"840"),
    (90, b"010000000201020304050000001234500000000000"),
];

/// Makes the request for an order, which is that message.
fn requests(alloc: Global, order: Option<Order>, wanted: Option<Message>) -> Ended {
    let (Some(order), Some(wanted)) = (order, wanted) else {
        return Ended::Unready;
    };
    let mut told = request(alloc, &order);
    let was_refused = told.is_err();
    if was_refused {
        told = request(alloc, &order);
    }
    let is_right = matches!(&told, Ok(made) if made.equals(&wanted));
    Ended::of(was_refused, is_right)
}

/// These calls by name, and how each ended.
pub fn rows(alloc: Global) -> [(&'static str, Ended); 6] {
    [
        ("respond", responds(alloc)),
        ("respond", responds_to_an_inquiry(alloc)),
        ("respond_into", responds_in_place(alloc)),
        (
            "request",
            requests(alloc, debit(200, 7, 1000), purchase(alloc, 200)),
        ),
        (
            "request",
            requests(alloc, undo(8, 7), message(alloc, 420, &REVERSAL)),
        ),
        (
            "request",
            requests(
                alloc,
                completion(3, 2, 400),
                message(alloc, 220, &COMPLETION),
            ),
        ),
    ]
}
