//! What messages hold, once something was done to them.

use super::cases::is_message;
use super::edits::{
    Copy, Edit, NUMBERED, PURCHASE, Refuse, Set, SetNumbers, StartOver, THREE, Unset, are_done,
};
use super::*;
use std::alloc::AllocError;

/// What holds of a message.
#[derive(Clone, Copy)]
enum Fact {
    Type(u16),
    /// The value of an element.
    Value(u8, Option<&'static [u8]>),
    /// The number that the value of an element writes.
    Number(u8, Option<u64>),
    /// Whether the number is among those of its elements.
    Has(u8, bool),
    /// The elements that it gives, in that order and no more.
    Gives(Elements),
    /// Whether it equals the first message, by each way.
    IsFirst(bool),
    /// Its type, and its elements, of which it has no more.
    Is(u16, Elements),
}

use Fact::{Gives, Has, Is, IsFirst, Number, Type, Value};

const COPIED: Elements = &[(2, b"4111111111111111"), (11, b"000007")];

/// What a copy leaves of them.
const COPIED_ANEW: Elements = &[(2, b"4111111111111111"), (11, b"000008")];

const SET: Elements = &[(70, b"301"), (7, b"0102030405"), (128, b"x")];

const FOUR: Elements = &[(70, b"301"), (7, b"0102030405"), (128, b"x"), (11, b"")];

const ASCENDING: Elements = &[(7, b"0102030405"), (11, b""), (70, b"301"), (128, b"x")];

/// A message whose elements are set in that order, what is done to it, and what holds of it then.
type Made = (&'static str, u16, Elements, &'static [Edit], Fact);

/// What an element has.
const VALUES: &[Made] = &[
    ("nothing set", 100, &[], &[], Value(3, None)),
    (
        "one value",
        100,
        &[(3, b"000000")],
        &[],
        Value(3, Some(b"000000")),
    ),
    (
        "ascending",
        100,
        &[(3, b"a"), (4, b"bc")],
        &[],
        Value(4, Some(b"bc")),
    ),
    (
        "in front of the others",
        100,
        &[(11, b"abc"), (70, b"d"), (2, b"ef")],
        &[],
        Value(2, Some(b"ef")),
    ),
    (
        "between the others",
        100,
        &[(2, b"ab"), (70, b"cde"), (11, b"f")],
        &[],
        Value(11, Some(b"f")),
    ),
    (
        "behind one set in between",
        100,
        &[(2, b"ab"), (70, b"cde"), (11, b"f")],
        &[],
        Value(70, Some(b"cde")),
    ),
    (
        "replaced by a longer one",
        100,
        &[(2, b"ab"), (3, b"c"), (2, b"defg")],
        &[],
        Value(2, Some(b"defg")),
    ),
    (
        "behind one replaced by a shorter one",
        100,
        &[(2, b"abcd"), (3, b"ef"), (2, b"g")],
        &[],
        Value(3, Some(b"ef")),
    ),
    (
        "an empty value",
        100,
        &[(2, b"ab"), (3, b"")],
        &[],
        Value(3, Some(b"")),
    ),
];

/// Which number a value writes.
const NUMBERS: &[Made] = &[
    (
        "another element",
        100,
        &[(12, b"000007")],
        &[],
        Number(11, None),
    ),
    (
        "zeros in front",
        100,
        &[(11, b"000007")],
        &[],
        Number(11, Some(7)),
    ),
    ("one digit", 100, &[(11, b"0")], &[], Number(11, Some(0))),
    (
        "nineteen digits",
        100,
        &[(11, b"9999999999999999999")],
        &[],
        Number(11, Some(9_999_999_999_999_999_999)),
    ),
    (
        "twenty digits",
        100,
        &[(11, b"00000000000000000007")],
        &[],
        Number(11, None),
    ),
    ("no digit", 100, &[(11, b"")], &[], Number(11, None)),
    (
        "a letter in place of a zero",
        100,
        &[(11, b"1O00")],
        &[],
        Number(11, None),
    ),
    ("a sign", 100, &[(11, b"-7")], &[], Number(11, None)),
];

/// Which elements there are.
const ELEMENTS: &[Made] = &[
    ("its type", 800, SET, &[], Type(800)),
    ("no number of an element", 800, SET, &[], Has(1, false)),
    (
        "the lowest, which was not set",
        800,
        SET,
        &[],
        Has(2, false),
    ),
    ("one of the primary bitmap", 800, SET, &[], Has(7, true)),
    (
        "the first bit of the secondary bitmap",
        800,
        SET,
        &[],
        Has(65, false),
    ),
    ("one of the secondary bitmap", 800, SET, &[], Has(70, true)),
    ("one before the last", 800, SET, &[], Has(127, false)),
    ("the last", 800, SET, &[], Has(128, true)),
    (
        "four elements in ascending order",
        800,
        FOUR,
        &[],
        Gives(ASCENDING),
    ),
];

/// Which messages equal the first one.
const EQUALS: &[Made] = &[
    (
        "set in another order",
        100,
        &[(3, b"c"), (2, b"ab")],
        &[],
        IsFirst(true),
    ),
    (
        "another type",
        110,
        &[(2, b"ab"), (3, b"c")],
        &[],
        IsFirst(false),
    ),
    (
        "another number",
        100,
        &[(2, b"ab"), (4, b"c")],
        &[],
        IsFirst(false),
    ),
    (
        "another value",
        100,
        &[(2, b"ab"), (3, b"d")],
        &[],
        IsFirst(false),
    ),
    (
        "the same bytes shared out otherwise",
        100,
        &[(2, b"a"), (3, b"bc")],
        &[],
        IsFirst(false),
    ),
    (
        "one more",
        100,
        &[(2, b"ab"), (3, b"c"), (4, b"")],
        &[],
        IsFirst(false),
    ),
];

/// What is left behind a change.
const CHANGED: &[Made] = &[
    (
        "the first",
        100,
        THREE,
        &[Unset(2, true), Unset(2, false)],
        Is(100, &[(11, b"cd"), (70, b"efg")]),
    ),
    (
        "the last",
        100,
        THREE,
        &[Unset(70, true), Unset(70, false)],
        Is(100, &[(2, b"ab"), (11, b"cd")]),
    ),
    (
        "the one between",
        100,
        THREE,
        &[Unset(11, true), Unset(11, false)],
        Is(100, &[(2, b"ab"), (70, b"efg")]),
    ),
    ("the message type", 100, &[], &[Refuse(0)], Is(100, &[])),
    (
        "the bit that tells of a secondary bitmap",
        100,
        &[],
        &[Refuse(1)],
        Is(100, &[]),
    ),
    (
        "the bit that tells of a third bitmap",
        100,
        &[],
        &[Refuse(65)],
        Is(100, &[]),
    ),
    ("one above the last", 100, &[], &[Refuse(129)], Is(100, &[])),
    ("the greatest byte", 100, &[], &[Refuse(255)], Is(100, &[])),
    ("three numbers", 100, &[], &[SetNumbers], Is(100, NUMBERED)),
    (
        "a message starts over",
        200,
        PURCHASE,
        &[StartOver(810)],
        Is(810, &[]),
    ),
    (
        "and has a code alone",
        200,
        PURCHASE,
        &[StartOver(810), Set(39, b"00")],
        Is(810, &[(39, b"00")]),
    ),
    (
        "a copy has memory of its own",
        201,
        COPIED,
        &[Copy],
        Is(201, COPIED_ANEW),
    ),
];

/// Whether the messages are equal by the operator.
fn are_equal(message: &Message, other: &Message) -> bool {
    message == other
}

/// Whether that holds of a message, which equals the first one or doesn't.
fn holds(message: &Message, first: &Message, what: Fact) -> bool {
    match what {
        Type(mti) => message.mti().number() == mti,
        Value(n, value) => message.get(n) == value,
        Number(n, number) => message.get_number(n) == number,
        Has(n, is_there) => message.elements().has(n) == is_there,
        Gives(elements) => gives(message, elements),
        IsFirst(is_so) => first.equals(message) == is_so && are_equal(first, message) == is_so,
        Is(mti, elements) => is_message(message, mti, elements),
    }
}

/// The first message, whose values are appended in their order.
fn first_message(alloc: Global, mti: Mti) -> Result<Message, AllocError> {
    let mut made = Message::with_room(alloc, mti, 2, 3)?;
    made.append(2, b"ab")?;
    made.append(3, b"c")?;
    Ok(made)
}

/// Whether all is done to a message, and holds of it then.
fn is_made(alloc: Global, (_, mti, elements, edits, what): &Made, first: &Message) -> bool {
    match message(alloc, *mti, *elements) {
        Some(mut made) => are_done(&mut made, *edits) && holds(&made, first, *what),
        None => false,
    }
}

/// That each message is so.
fn check_messages(alloc: Global, first: &Message, messages: &[Made]) -> Result<(), Fail> {
    for made in messages {
        check(is_made(alloc, made, first), made.0)?;
    }
    Ok(())
}

/// That values are read so, as bytes and as numbers.
fn check_values(alloc: Global, first: &Message) -> Result<(), Fail> {
    check_messages(alloc, first, VALUES)?;
    check_messages(alloc, first, NUMBERS)
}

/// That messages have these elements, and equal the first one where they should.
fn check_elements(alloc: Global, first: &Message) -> Result<(), Fail> {
    check_messages(alloc, first, ELEMENTS)?;
    check_messages(alloc, first, EQUALS)
}

/// That messages hold what is set, beside the first one.
fn check_all(alloc: Global, first: &Message) -> Result<(), Fail> {
    check_values(alloc, first)?;
    check_elements(alloc, first)?;
    check_messages(alloc, first, CHANGED)
}

/// That messages hold what is set, beside a first one of that type.
fn check_beside_first(alloc: Global, mti: Mti) -> Result<(), Fail> {
    let first = first_message(alloc, mti)?;
    check_all(alloc, &first)
}

#[test]
fn messages_hold_what_is_set(rt: HostRuntime) -> Result<(), Fail> {
    match Mti::from_digits(100) {
        Some(mti) => check_beside_first(rt.alloc(), mti),
        None => check(false, "not four digits"),
    }
}
