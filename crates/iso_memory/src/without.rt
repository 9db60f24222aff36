//! Calls that take no memory, some of them since what they write over has the room: none of them is ever refused.

use crate::ended::Ended;
use crate::known::{
    ACQUIRER, FIRST, GRANTED, PURCHASE, SENT, account, balances, debit, issuer, purchase,
};
use iso_acquirer::{Acquirer, State, World};
use iso_issuer::Issuer;
use iso_order::{Answer, Order, Verdict, answer_of, order_of, respond, respond_into};
use iso_parts::{Bitmap, BitmapStep, Judged, Mti, judge_field};
use iso_table::Table;
use iso_wire::{
    Framed, Header, Message, Unpacker, append_message, close_frame, pack, unframe, unpack, view,
};
use std::alloc::Global;

/// The bitmap of the purchase, read and written.
fn bitmaps() -> bool {
    let (_, bytes) = PURCHASE.split_at(4);
    match Bitmap::read_hex(bytes) {
        Ok(BitmapStep::Got { bits, used }) => {
            let mut raw = [0; 16];
            let size = bits.write_raw(&mut raw);
            let read =
                matches!(Bitmap::read_raw(&raw), Ok(BitmapStep::Got { bits, .. }) if bits.has(11));
            read && (used, size, bits.highest(), bits.count()) == (16, 8, 49, 7)
        }
        _ => false,
    }
}

/// A row of a table, and the account of the purchase as it judges it.
fn tables(alloc: Global) -> Ended {
    let Ok(table) = Table::ascii87(alloc) else {
        return Ended::Unready;
    };
    let (_, bytes) = PURCHASE.split_at(20);
    let is_judged = match table.row(2) {
        Some(spec) => judge_field(spec, bytes) == Ok(Judged::Got { body: 2, used: 18 }),
        None => false,
    };
    let told = (table.version(), table.rows(), table.host_ready());
    Ended::of(
        false,
        is_judged && table.max_bytes() > 0 && told == (0, 126, Ok(())),
    )
}

/// What a message has, and what it asks.
fn messages(alloc: Global) -> Ended {
    let Some(mut message) = purchase(alloc, 201) else {
        return Ended::Unready;
    };
    let has = message.elements().has(49) && message.get(11) == Some(b"000007".as_slice());
    let asks = match order_of(&message) {
        Verdict::Order(order) => order.key().base == 200,
        _ => false,
    };
    let is_same = message.equals(&message) && message == message && message.mti().is_repeat();
    let is_typed = Mti::from_text(b"0201") == Some(message.mti());
    let numbered = (message.get_number(4), message.get_number(5)) == (Some(1000), None);
    let first = message.iter().next() == Some((2, b"4111111111111111".as_slice()));
    let was_there = message.unset(11) && !message.unset(11);
    let is_told = is_typed && numbered && first;
    Ended::of(false, has && asks && is_same && is_told && was_there)
}

/// The key and the code of a response.
fn responses(alloc: Global) -> Ended {
    let Ok(table) = Table::ascii87(alloc) else {
        return Ended::Unready;
    };
    let Ok((response, _)) = unpack(alloc, &table, GRANTED) else {
        return Ended::Unready;
    };
    let told = matches!(answer_of(&response), Some(told) if (told.key.stan, told.code) == (7, 0));
    Ended::of(false, told)
}

/// Whether a view of the purchase shows its account number.
fn is_seen(table: &Table) -> bool {
    match view(table, PURCHASE) {
        Ok(seen) => {
            let account = seen.wire(2) == Some(b"4111111111111111".as_slice());
            account && seen.wire(5).is_none() && (seen.mti().number(), seen.used()) == (200, 82)
        }
        Err(_) => false,
    }
}

/// Whether a frame is read, and one is closed.
fn are_framed() -> bool {
    let framed = matches!(
        unframe(Header::Ascii4, b"0002ab"),
        Ok(Framed::Got { used: 6, .. })
    );
    let mut bytes = *b"..ab";
    framed && close_frame(Header::Bcd2, &mut bytes).is_ok() && bytes == *b"\x00\x02ab"
}

/// A view of the purchase, frames, and an unpacker before and after it is reset.
fn views(alloc: Global) -> Ended {
    let Ok(table) = Table::ascii87(alloc) else {
        return Ended::Unready;
    };
    let mut unpacker = Unpacker::new(alloc, &table);
    let was_empty = unpacker.held() == 0;
    unpacker.reset();
    let is_empty = unpacker.held() == 0;
    Ended::of(
        false,
        was_empty && is_empty && is_seen(&table) && are_framed(),
    )
}

/// Whether the purchase is written over bytes that have the room.
fn is_written(table: &Table, message: &Message, bytes: &mut Vec<u8>) -> bool {
    bytes.clear();
    append_message(table, message, bytes).is_ok() && bytes.as_slice() == PURCHASE
}

/// Whether the purchase is read into a message that has the room, and another is begun there.
fn is_read(alloc: Global, unpacker: &mut Unpacker<'_>, message: &Message) -> bool {
    match unpacker.unpack(alloc, PURCHASE) {
        Ok((mut again, 82)) => {
            let is_same = again.equals(message);
            let is_begun = again.start_over(message.mti(), 7, 58).is_ok();
            is_same && is_begun && again.get(11).is_none()
        }
        _ => false,
    }
}

/// A message that is read, and bytes that are written, in memory that has the room.
fn messages_in_place(alloc: Global) -> Ended {
    let (Ok(table), Some(message)) = (Table::ascii87(alloc), purchase(alloc, 200)) else {
        return Ended::Unready;
    };
    let mut unpacker = Unpacker::new(alloc, &table);
    let (Ok((read, _)), Ok(mut bytes)) = (
        unpacker.unpack(alloc, PURCHASE),
        pack(alloc, &table, &message),
    ) else {
        return Ended::Unready;
    };
    unpacker.reuse(read);
    let is_written = is_written(&table, &message, &mut bytes);
    Ended::of(false, is_written && is_read(alloc, &mut unpacker, &message))
}

/// The answer to the first order that is declined.
const DECLINED: Answer = Answer {
    code: 51,
    seq: 1,
    shown: None,
};

/// A response that declines, in the place of one that grants.
fn responses_in_place(alloc: Global) -> Ended {
    let Some(asked) = purchase(alloc, 200) else {
        return Ended::Unready;
    };
    let Verdict::Order(_) = order_of(&asked) else {
        return Ended::Wrong;
    };
    let Ok(mut made) = respond(alloc, &asked, &FIRST) else {
        return Ended::Unready;
    };
    let is_made = respond_into(&asked, &DECLINED, &mut made).is_ok();
    Ended::of(false, is_made && made.get(39) == Some(b"51".as_slice()))
}

/// Whether an order that is known is answered as before, and another of its key is refused.
fn is_repeated(issuer: &mut Issuer, first: Order, other: Order, answer: Answer) -> bool {
    let again = issuer.handle(first) == Ok(answer);
    let changed = matches!(issuer.handle(other), Ok(answer) if answer.code == 94);
    again && changed && balances(issuer) == Some((4000, 4000))
}

/// A known key.
fn repeats(alloc: Global) -> Ended {
    let (Some(mut issuer), Some(first), Some(other)) = (
        issuer(alloc),
        debit(200, 1, 1000),
        debit(200, 1, 2000),
    ) else {
        return Ended::Unready;
    };
    match issuer.handle(first) {
        Ok(answer) => Ended::of(false, is_repeated(&mut issuer, first, other, answer)),
        Err(_) => Ended::Unready,
    }
}

/// Whether a purchase that gets no answer is sent again, then reversed, and an answer comes too late.
fn is_reversed(acquirer: &mut Acquirer, order: &Order) -> bool {
    let again = matches!(acquirer.timeout(1), Ok(sent) if sent.is_same(order));
    let reverses = acquirer.timeout(1).is_ok() && acquirer.state(1) == Some(State::Reversing);
    acquirer.answer(order.key(), 0);
    again && reverses && acquirer.state(1) == Some(State::Reversing)
}

/// Whether nothing was sent or given yet.
fn is_new(world: &World) -> bool {
    world.sent().is_empty() && world.given().is_empty()
}

/// What is sent where no answer came, and an answer to it.
fn acquirers(alloc: Global) -> Ended {
    let (Some(issuer), Some(pan)) = (issuer(alloc), account()) else {
        return Ended::Unready;
    };
    let mut acquirer = Acquirer::new(alloc, ACQUIRER);
    let Ok(order) = acquirer.begin(pan, 1000, *b"840", SENT) else {
        return Ended::Unready;
    };
    let is_reversed = is_reversed(&mut acquirer, &order);
    let world = World::new(Acquirer::new(alloc, ACQUIRER), issuer);
    Ended::of(false, is_reversed && is_new(&world))
}

/// These calls by name, and how each ended.
pub fn rows(alloc: Global) -> [(&'static str, Ended); 9] {
    [
        ("without memory: bitmaps", Ended::of(false, bitmaps())),
        ("without memory: tables", tables(alloc)),
        ("without memory: messages", messages(alloc)),
        ("without memory: responses", responses(alloc)),
        ("without memory: views", views(alloc)),
        (
            "without memory: messages in place",
            messages_in_place(alloc),
        ),
        (
            "without memory: responses in place",
            responses_in_place(alloc),
        ),
        ("without memory: repeats", repeats(alloc)),
        ("without memory: acquirers", acquirers(alloc)),
    ]
}
