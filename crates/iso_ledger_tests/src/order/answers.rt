//! What responses tell an acquirer.

use super::Change::{Nothing, Set, Without};
use super::{ACCOUNT, Asking, Wants};
use iso_order::{Told, TxKey};

/// What is told of the payment of a type, as tables have it.
macro_rules! told {
    ($base:expr, $code:expr) => {
        Wants::Told(Some(Told {
            key: key!($base),
            code: $code,
        }))
    };
}

/// The elements of a response to a payment.
pub const ANSWER: &[(u8, &'static [u8])] = &[
    (2, ACCOUNT),
    (3, b"000000"),
    (4, b"000000001000"),
    (7, b"0102030405"),
    (11, b"000007"),
    (32, b"12345"),
    (38, b"000001"),
    (39, b"00"),
    (49, b"840"),
];

/// A message that tells nothing.
const NOTHING_TOLD: Wants = Wants::Told(None);

/// Responses and other messages, and which answer each tells to which request.
pub const MESSAGES: &[Asking] = &[
    ("granted", 210, Nothing, told!(200, 0)),
    ("declined", 210, Set(39, b"51"), told!(200, 51)),
    ("of class 1", 110, Without(38), told!(100, 0)),
    ("of a reversal", 430, Without(49), told!(420, 0)),
    (
        "of an advice of another origin",
        234,
        Nothing,
        told!(224, 0),
    ),
    ("of a repeat", 215, Nothing, told!(204, 0)),
    (
        "zeros before the acquirer",
        210,
        Set(32, b"00000012345"),
        told!(200, 0),
    ),
    ("a request", 200, Without(39), NOTHING_TOLD),
    ("a request with a response code", 200, Nothing, NOTHING_TOLD),
    ("an advice", 220, Nothing, NOTHING_TOLD),
    ("a notification", 240, Nothing, NOTHING_TOLD),
    ("of another version", 1210, Nothing, NOTHING_TOLD),
    ("of a file action", 310, Nothing, NOTHING_TOLD),
    ("of network management", 810, Nothing, NOTHING_TOLD),
    ("of an origin above 5", 216, Nothing, NOTHING_TOLD),
    (
        "a time of nine digits",
        210,
        Set(7, b"102030405"),
        NOTHING_TOLD,
    ),
    ("without a trace number", 210, Without(11), NOTHING_TOLD),
    (
        "a letter in the trace number",
        210,
        Set(11, b"00000A"),
        NOTHING_TOLD,
    ),
    ("an empty acquirer", 210, Set(32, b""), NOTHING_TOLD),
    (
        "an acquirer of twelve digits",
        210,
        Set(32, b"000000012345"),
        NOTHING_TOLD,
    ),
    (
        "a response code of three digits",
        210,
        Set(39, b"000"),
        NOTHING_TOLD,
    ),
    (
        "a letter in the response code",
        210,
        Set(39, b"0A"),
        NOTHING_TOLD,
    ),
];
