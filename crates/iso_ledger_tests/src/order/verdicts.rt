//! What messages ask.

use super::Change::{Nothing, Set, Without};
use super::{ACCOUNT, Asking, Wants};
use crate::plain::{Does, Plain};
use iso_order::TxKey;

/// The debit of the payment by a message of that type, as tables have it.
macro_rules! debit_of {
    ($base:expr) => {
        Wants::Order(debit!(key!($base), ACCOUNT, 1000, *b"840"))
    };
}

/// The reversal of the payment of that type, which leaves so much, as tables have it.
macro_rules! undo_of {
    ($base:expr, $left:expr) => {
        Wants::Order(undo!(reversal_key!(), key!($base), $left))
    };
}

/// The elements of a reversal of that payment.
pub const REVERSAL: &[(u8, &'static [u8])] = &[
    (7, b"0102030500"),
    (11, b"000008"),
    (32, b"12345"),
    (90, b"020000000701020304050000001234500000000000"),
];

const CREDIT: Wants = Wants::Order(credit!(key!(200), ACCOUNT, 1000, *b"840"));

const INQUIRY: Wants = Wants::Order(inquiry!(key!(100), ACCOUNT, 0, *b"840"));

/// Requests of payments, and which order each asks for.
pub const PAYMENTS: &[Asking] = &[
    ("as it stands", 200, Nothing, debit_of!(200)),
    ("a repeat", 201, Nothing, debit_of!(200)),
    ("an advice", 220, Nothing, debit_of!(220)),
    ("an authorization", 100, Nothing, debit_of!(100)),
    ("of another origin", 205, Nothing, debit_of!(204)),
    (
        "zeros before the acquirer",
        200,
        Set(32, b"00012345"),
        debit_of!(200),
    ),
    ("cash", 200, Set(3, b"010000"), debit_of!(200)),
    (
        "another currency",
        200,
        Set(49, b"USD"),
        Wants::Order(debit!(key!(200), ACCOUNT, 1000, *b"USD")),
    ),
    (
        "another account",
        200,
        Set(2, b"4000000000000002"),
        Wants::Order(debit!(key!(200), b"4000000000000002", 1000, *b"840")),
    ),
    ("a return", 200, Set(3, b"200000"), CREDIT),
    ("a deposit", 200, Set(3, b"210099"), CREDIT),
    ("a balance inquiry", 100, Set(3, b"310000"), INQUIRY),
    (
        "an authorization that names another",
        120,
        Set(90, b""),
        debit_of!(120),
    ),
];

/// Requests of payments that ask for no order, and how each is answered.
pub const REFUSED_PAYMENTS: &[Asking] = &[
    ("of another version", 1200, Nothing, Wants::Silence),
    ("a response", 210, Nothing, Wants::Silence),
    ("a notification", 240, Nothing, Wants::Silence),
    ("a file action", 300, Nothing, Wants::Reply(12)),
    ("of an origin above 5", 206, Nothing, Wants::Reply(12)),
    ("without a time", 200, Without(7), Wants::Reply(30)),
    (
        "a time of nine digits",
        200,
        Set(7, b"102030405"),
        Wants::Reply(30),
    ),
    ("without a trace number", 200, Without(11), Wants::Reply(30)),
    (
        "a blank in the trace number",
        200,
        Set(11, b"00000 "),
        Wants::Reply(30),
    ),
    ("an empty acquirer", 200, Set(32, b""), Wants::Reply(30)),
    (
        "an acquirer of twelve digits",
        200,
        Set(32, b"000000012345"),
        Wants::Reply(30),
    ),
    (
        "an advice that names nothing",
        220,
        Set(90, b""),
        Wants::Reply(30),
    ),
    (
        "without an account number",
        200,
        Without(2),
        Wants::Reply(30),
    ),
    (
        "an account number of twenty digits",
        200,
        Set(2, b"41111111111111110000"),
        Wants::Reply(30),
    ),
    (
        "a processing code of five digits",
        200,
        Set(3, b"00000"),
        Wants::Reply(30),
    ),
    (
        "a currency of two letters",
        200,
        Set(49, b"US"),
        Wants::Reply(30),
    ),
    (
        "a currency with a blank",
        200,
        Set(49, b"US "),
        Wants::Reply(30),
    ),
    (
        "another processing code",
        200,
        Set(3, b"400000"),
        Wants::Reply(12),
    ),
    (
        "a return in class 1",
        100,
        Set(3, b"200000"),
        Wants::Reply(12),
    ),
    (
        "an advice of an inquiry",
        220,
        Set(3, b"310000"),
        Wants::Reply(12),
    ),
    ("without an amount", 200, Without(4), Wants::Reply(30)),
    (
        "an amount of eleven digits",
        200,
        Set(4, b"00000001000"),
        Wants::Reply(30),
    ),
    ("no amount", 200, Set(4, b"000000000000"), Wants::Reply(13)),
    ("a reversal of nothing", 420, Nothing, Wants::Reply(30)),
];

/// Reversals, and which order each asks for.
pub const REVERSALS: &[Asking] = &[
    ("as it stands", 420, Nothing, undo_of!(200, 0)),
    ("a repeat", 421, Nothing, undo_of!(200, 0)),
    (
        "no original acquirer",
        420,
        Set(90, b"020000000701020304050000000000000000000000"),
        undo_of!(200, 0),
    ),
    (
        "of a repeat",
        420,
        Set(90, b"020100000701020304050000001234500000000000"),
        undo_of!(200, 0),
    ),
    (
        "of an advice of class 1",
        420,
        Set(90, b"012500000701020304050000001234500000000099"),
        undo_of!(124, 0),
    ),
    (
        "another original acquirer",
        420,
        Set(90, b"020000000701020304050000005432100000000000"),
        Wants::Reply(12),
    ),
    (
        "of a message of class 8",
        420,
        Set(90, b"080000000701020304050000001234500000000000"),
        Wants::Reply(12),
    ),
    (
        "of a response",
        420,
        Set(90, b"021000000701020304050000001234500000000000"),
        Wants::Reply(12),
    ),
    (
        "of an origin above 5",
        420,
        Set(90, b"020600000701020304050000001234500000000000"),
        Wants::Reply(12),
    ),
    (
        "of another version",
        420,
        Set(90, b"120000000701020304050000001234500000000000"),
        Wants::Reply(12),
    ),
    (
        "no bytes of replacement amounts",
        420,
        Set(95, b""),
        Wants::Reply(30),
    ),
    (
        "a letter in the replacement amount",
        420,
        Set(95, b"00000000040A000000000000D00000000D00000000"),
        Wants::Reply(30),
    ),
    (
        "a replacement amount",
        420,
        Set(95, b"000000000400000000000000D00000000D00000000"),
        undo_of!(200, 400),
    ),
    (
        "an original of 41 digits",
        420,
        Set(90, b"02000000070102030405000000123450000000000"),
        Wants::Reply(30),
    ),
    (
        "a letter in the original",
        420,
        Set(90, b"02000000070102030405000000123450000000000A"),
        Wants::Reply(30),
    ),
    ("without its original", 420, Without(90), Wants::Reply(30)),
    ("without a time", 420, Without(7), Wants::Reply(30)),
];

/// Messages of network management, and how each is answered.
pub const NETWORK_MESSAGES: &[Asking] = &[
    ("sign on", 800, Set(70, b"001"), Wants::Reply(0)),
    ("sign off", 820, Set(70, b"002"), Wants::Reply(0)),
    ("the echo test", 801, Set(70, b"301"), Wants::Reply(0)),
    (
        "the echo test's response",
        810,
        Set(70, b"301"),
        Wants::Silence,
    ),
    ("another code", 800, Set(70, b"161"), Wants::Reply(12)),
    (
        "a code of two digits",
        800,
        Set(70, b"01"),
        Wants::Reply(30),
    ),
    (
        "a letter in the code",
        800,
        Set(70, b"30A"),
        Wants::Reply(30),
    ),
    ("without a code", 800, Nothing, Wants::Reply(30)),
];
