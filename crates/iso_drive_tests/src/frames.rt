use bytes::BytesMut;
use iso_fakes::check;
use iso_frames::{
    Read, Taken, add_digests, balance_told, read_body, take_frames, tells_balance, write_frame,
};
use iso_order::{Act, Money, Order, Pan, Told, TxKey, request};
use iso_parts::Mti;
use iso_table::Table;
use iso_wire::{Framed, Header, Message, pack, unframe};
use std::alloc::{AllocError, Global};
use std::test::Fail;

const KEY: TxKey = TxKey {
    base: 200,
    stan: 1,
    sent: 1128055759,
    acquirer: 7,
};

/// Ends the test unless those of the same bodies alone are the same.
fn check_digests(digests: &[u64]) -> Result<(), Fail> {
    let [first, second, third, fourth] = digests else {
        return Err(Fail::new("one for each whole frame"));
    };
    check(first == third, "the same body")?;
    check(first != second, "another body")?;
    check(first != fourth, "a body that is shorter")
}

#[test]
fn bodies_by_their_digests(rt: HostRuntime) -> Result<(), Fail> {
    let came = b"\0\x03abc\0\x03abd\0\x03abc\0\x02ab\0\x09ab";
    let mut digests = Vec::new(rt.alloc());
    add_digests(Header::Binary2, came, &mut digests)?;
    check_digests(digests.as_slice())
}

/// The frame of the response that grants a purchase, one that is no message, and half of a frame.
const CAME: &[u8] =
    b"0090021072200001060080001641111111111111110000000000000010000102030405000007051234500000100840\
0003abc00900210";

/// What is read of the frames that are whole.
const READ: &[Read] = &[
    Read::Answer(
        Told {
            key: TxKey {
                base: 200,
                stan: 7,
                sent: 102_030_405,
                acquirer: 12_345,
            },
            code: 0,
        },
        None,
    ),
    Read::Unreadable,
];

/// The half is followed by bytes that are no frame.
fn go_on(came: &mut BytesMut) -> Result<(), AllocError> {
    came.extend_from_slice(b"x")?;
    came.advance(came.len().min(8));
    came.extend_from_slice(b"yz0")
}

/// Ends the test unless the frames at the front are read, and then bytes that are no frame are bad.
fn check_front(
    alloc: Global,
    table: &Table,
    text: &mut Vec<u8>,
    came: &mut BytesMut,
    taken: &mut Taken,
) -> Result<(), Fail> {
    let is_bad = take_frames(alloc, table, Header::Ascii4, text, came, &mut taken.read);
    check(is_bad == Ok(false), "the frames are good")?;
    check(taken.read.as_slice() == READ, "what is read")?;
    check(
        came.as_slice() == b"00900210".as_slice(),
        "half of a frame is left",
    )?;
    go_on(came)?;
    let is_bad = take_frames(alloc, table, Header::Ascii4, text, came, &mut taken.read);
    check(is_bad == Ok(true), "what follows is bad")?;
    check(came.as_slice() == b"xyz0".as_slice(), "it is left")?;
    taken.clear();
    check(taken.read.is_empty(), "nothing is left of what was read")
}

#[test]
fn frames_at_the_front(rt: HostRuntime) -> Result<(), Fail> {
    let alloc = rt.alloc();
    let table = Table::ascii87(alloc)?;
    let mut came = BytesMut::copy_from_slice(alloc, CAME)?;
    check_front(
        alloc,
        &table,
        &mut Vec::new(alloc),
        &mut came,
        &mut Taken::new(alloc),
    )
}

/// An answer to an inquiry.
const TOLD: Told = Told {
    key: TxKey {
        base: 100,
        stan: 1,
        sent: 1128055759,
        acquirer: 7,
    },
    code: 0,
};

/// What a response has of amounts, and the balance that it tells.
const BALANCES: &[(&[u8], Option<i64>)] = &[
    (b"0002840C000000005000", Some(5_000)),
    (b"2002840D000000005000", Some(-5_000)),
    (b"0001840C0000000011110002840C000000005000", Some(5_000)),
    (b"0002978C000000005000", None),
    (b"0002840X000000005000", None),
    (b"0002840C00000000500", None),
];

/// A response that has no amounts yet.
fn without_amounts(alloc: Global) -> Option<Message> {
    let mut message = Message::new(alloc, Mti::from_text(b"0110")?);
    message.set(49, b"840").ok()?;
    Some(message)
}

/// Whether a response tells no balance without amounts, and that one with them.
fn is_balance(alloc: Global, amounts: &[u8], balance: Option<i64>) -> Option<bool> {
    let mut message = without_amounts(alloc)?;
    let is_none = balance_told(&message, &TOLD).is_none();
    message.set(54, amounts).ok()?;
    Some(is_none && balance_told(&message, &TOLD) == balance)
}

#[test]
fn balances_that_are_told(rt: HostRuntime) -> Result<(), Fail> {
    check(tells_balance(&TOLD), "an answer that tells one")?;
    for (amounts, balance) in BALANCES {
        let is_so = is_balance(rt.alloc(), amounts, *balance);
        check(is_so == Some(true), "a balance")?;
    }
    Ok(())
}

/// What stands in an answer, which tells what is available.
const ELEMENTS: &[(u8, &[u8])] = &[
    (7, b"1128055759"),
    (11, b"000001"),
    (32, b"7"),
    (39, b"00"),
    (49, b"840"),
    (54, b"0002840C000000005000"),
];

/// Such an answer of a type.
fn answer(alloc: Global, mti: &[u8]) -> Option<Message> {
    let mut message = Message::new(alloc, Mti::from_text(mti)?);
    for (n, value) in ELEMENTS {
        message.set(*n, value).ok()?;
    }
    Some(message)
}

/// The answer as it is packed.
fn body(alloc: Global, table: &Table, mti: &[u8]) -> Option<Vec<u8>> {
    let message = answer(alloc, mti)?;
    pack(alloc, table, &message).ok()
}

/// The types of answers, the transactions that they answer, and the balances that they tell.
const CLASSES: &[(&[u8], u16, Option<i64>)] = &[
    (b"0110", 100, Some(5_000)),
    (b"0210", 200, None),
    (b"0430", 420, None),
];

/// Whether the answer of a type is read so.
fn is_read(alloc: Global, table: &Table, mti: &[u8], wanted: Read) -> Option<bool> {
    let body = body(alloc, table, mti)?;
    Some(read_body(alloc, table, &mut Vec::new(alloc), &body) == Ok(wanted))
}

/// Ends the test unless the answer of each class is read.
fn check_classes(alloc: Global, table: &Table) -> Result<(), Fail> {
    for (mti, base, balance) in CLASSES {
        let key = TxKey { base: *base, ..KEY };
        let wanted = Read::Answer(Told { key, code: 0 }, *balance);
        let is_so = is_read(alloc, table, mti, wanted);
        check(is_so == Some(true), "an answer")?;
    }
    Ok(())
}

#[test]
fn answers_of_each_class(rt: HostRuntime) -> Result<(), Fail> {
    check_classes(rt.alloc(), &Table::ascii87(rt.alloc())?)?;
    check_classes(rt.alloc(), &Table::bcd87(rt.alloc())?)
}

/// Whether these bytes are the frame of a body.
fn is_frame_of(frame: &[u8], body: &[u8]) -> bool {
    match unframe(Header::Binary2, frame) {
        Ok(Framed::Got { body: framed, used }) => framed == body && used == frame.len(),
        Ok(Framed::More) | Err(_) => false,
    }
}

/// A purchase.
fn purchase() -> Option<Order> {
    let money = Money {
        pan: Pan::from_digits(b"4111111111111111")?,
        amount: 1_000,
        currency: *b"840",
    };
    Order::new(KEY, Act::Debit(money))
}

/// The order as its frame is written where other bytes stood before.
fn written(alloc: Global, table: &Table, order: &Order) -> Option<Vec<u8>> {
    let mut frame = Vec::from_slice(alloc, b"anything").ok()?;
    write_frame(alloc, table, Header::Binary2, order, &mut frame).ok()?;
    Some(frame)
}

/// The message that asks for the order, as it is packed.
fn packed(alloc: Global, table: &Table, order: &Order) -> Option<Vec<u8>> {
    let message = request(alloc, order).ok()?;
    pack(alloc, table, &message).ok()
}

/// Whether the frame of a purchase has its message as the body.
fn is_framed(alloc: Global, table: &Table) -> Option<bool> {
    let order = purchase()?;
    let body = packed(alloc, table, &order)?;
    let frame = written(alloc, table, &order)?;
    Some(is_frame_of(&frame, &body))
}

#[test]
fn an_order_as_a_frame(rt: HostRuntime) -> Result<(), Fail> {
    let table = Table::ascii87(rt.alloc())?;
    check(is_framed(rt.alloc(), &table) == Some(true), "a purchase")
}
