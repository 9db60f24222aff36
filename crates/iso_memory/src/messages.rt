//! The calls on messages and frames.

use crate::ended::Ended;
use crate::known::{PURCHASE, purchase};
use iso_parts::Mti;
use iso_table::Table;
use iso_wire::{
    Fed, FrameFault, Header, Message, PackFault, SetFault, UnpackCause, UnpackFault, Unpacker,
    append_frame, append_message, append_used, describe, describe_clear, frame, open_frame, pack,
    unpack,
};
use std::alloc::{AllocError, Global};

/// Puts a value that is longer than the one before it, or than all of them.
fn sets(alloc: Global, n: u8, value: &[u8]) -> Ended {
    let (Some(mut message), Some(before)) = (purchase(alloc, 200), purchase(alloc, 200)) else {
        return Ended::Unready;
    };
    let mut told = message.set(n, value);
    let was_refused = told == Err(SetFault::Memory);
    if was_refused {
        if !message.equals(&before) {
            return Ended::Wrong;
        }
        told = message.set(n, value);
    }
    let is_right = told.is_ok() && message.get(n) == Some(value);
    Ended::of(was_refused, is_right && message.get(11) == before.get(11))
}

fn sets_a_number(alloc: Global) -> Ended {
    let Some(mti) = Mti::from_digits(200) else {
        return Ended::Wrong;
    };
    let mut message = Message::new(alloc, mti);
    let mut told = message.set_number(11, 7, 6);
    let was_refused = told == Err(SetFault::Memory);
    if was_refused {
        if !message.equals(&Message::new(alloc, mti)) {
            return Ended::Wrong;
        }
        told = message.set_number(11, 7, 6);
    }
    let is_right = told.is_ok() && message.get(11) == Some(b"000007".as_slice());
    Ended::of(was_refused, is_right)
}

fn makes_room(alloc: Global) -> Ended {
    let Some(mti) = Mti::from_digits(800) else {
        return Ended::Wrong;
    };
    let empty = Message::new(alloc, mti);
    let mut told = Message::with_room(alloc, mti, 2, 20);
    let was_refused = told.is_err();
    if was_refused {
        told = Message::with_room(alloc, mti, 2, 20);
    }
    let is_right = matches!(&told, Ok(made) if made.equals(&empty));
    Ended::of(was_refused, is_right)
}

/// Makes a purchase a message of another type, whose room is more than it has.
fn starts_over(alloc: Global) -> Ended {
    let (Some(mut message), Some(mti)) = (purchase(alloc, 200), Mti::from_digits(810)) else {
        return Ended::Unready;
    };
    let empty = Message::new(alloc, mti);
    let mut told = message.start_over(mti, 100, 1000);
    let was_refused = told.is_err();
    if was_refused {
        if !message.equals(&empty) {
            return Ended::Wrong;
        }
        told = message.start_over(mti, 100, 1000);
    }
    Ended::of(was_refused, told.is_ok() && message.equals(&empty))
}

fn appends(alloc: Global) -> Ended {
    let Some(mti) = Mti::from_digits(800) else {
        return Ended::Wrong;
    };
    let mut message = Message::new(alloc, mti);
    let mut told = message.append(11, b"000007");
    let was_refused = told.is_err();
    if was_refused {
        if message.get(11).is_some() {
            return Ended::Wrong;
        }
        told = message.append(11, b"000007");
    }
    let is_right = told.is_ok() && message.get(11) == Some(b"000007".as_slice());
    Ended::of(was_refused, is_right)
}

/// The lines of the purchase, with stars in its account number.
const MASKED: &[u8] =
    b"MTI=0200 1987 Financial Request Acquirer\nDE002=411111******1111\nDE003=000000\n\
DE004=000000001000\nDE007=0102030405\nDE011=000007\nDE032=12345\nDE049=840\n";

/// The same lines with the whole account number.
const CLEAR: &[u8] =
    b"MTI=0200 1987 Financial Request Acquirer\nDE002=4111111111111111\nDE003=000000\n\
DE004=000000001000\nDE007=0102030405\nDE011=000007\nDE032=12345\nDE049=840\n";

fn lines_of(
    alloc: Global,
    table: &Table,
    is_clear: bool,
    message: &Message,
) -> Result<Vec<u8>, AllocError> {
    if is_clear {
        return describe_clear(alloc, table, message);
    }
    describe(alloc, table, message)
}

/// The line of the bytes that a message took. Where memory is refused, nothing of it is left.
fn appends_a_used_line(alloc: Global) -> Ended {
    let mut out = Vec::new(alloc);
    let mut told = append_used(74, 120, &mut out);
    let was_refused = told.is_err();
    if was_refused {
        if !out.is_empty() {
            return Ended::Wrong;
        }
        told = append_used(74, 120, &mut out);
    }
    let is_right = told.is_ok() && out.as_slice() == b"USED=74/120\n".as_slice();
    Ended::of(was_refused, is_right)
}

fn copies(alloc: Global) -> Ended {
    let Some(message) = purchase(alloc, 200) else {
        return Ended::Unready;
    };
    let first: Result<Message, AllocError> = message.clone();
    let was_refused = first.is_err();
    let told: Result<Message, AllocError> = if was_refused { message.clone() } else { first };
    Ended::of(was_refused, matches!(&told, Ok(copy) if *copy == message))
}

/// The lines of the purchase, in full or with stars.
fn describes(alloc: Global, is_clear: bool) -> Ended {
    let (Ok(table), Some(message)) = (Table::ascii87(alloc), purchase(alloc, 200)) else {
        return Ended::Unready;
    };
    let mut told = lines_of(alloc, &table, is_clear, &message);
    let was_refused = told.is_err();
    if was_refused {
        told = lines_of(alloc, &table, is_clear, &message);
    }
    let want = if is_clear { CLEAR } else { MASKED };
    Ended::of(
        was_refused,
        matches!(&told, Ok(lines) if lines.as_slice() == want),
    )
}

fn packs(alloc: Global) -> Ended {
    let (Ok(table), Some(message)) = (Table::ascii87(alloc), purchase(alloc, 200)) else {
        return Ended::Unready;
    };
    let mut told = pack(alloc, &table, &message);
    let was_refused = matches!(&told, Err(PackFault::Memory));
    if was_refused {
        told = pack(alloc, &table, &message);
    }
    let is_right = matches!(&told, Ok(bytes) if bytes.as_slice() == PURCHASE);
    Ended::of(was_refused, is_right)
}

/// Appends the purchase behind a byte.
fn appends_a_message(alloc: Global) -> Ended {
    let (Ok(table), Some(message), Ok(mut out)) = (
        Table::ascii87(alloc),
        purchase(alloc, 200),
        Vec::from_array(alloc, [7u8]),
    ) else {
        return Ended::Unready;
    };
    let mut told = append_message(&table, &message, &mut out);
    let was_refused = matches!(&told, Err(PackFault::Memory));
    if was_refused {
        if out.as_slice() != b"\x07".as_slice() {
            return Ended::Wrong;
        }
        told = append_message(&table, &message, &mut out);
    }
    let (front, behind) = out.split_at(1.min(out.len()));
    Ended::of(
        was_refused,
        told.is_ok() && front == b"\x07".as_slice() && behind == PURCHASE,
    )
}

/// Whether a fault is want of memory, which tells no place.
fn is_memory(fault: &UnpackFault) -> bool {
    (fault.at, fault.element, fault.cause) == (0, 0, UnpackCause::Memory)
}

fn unpacks(alloc: Global) -> Ended {
    let (Ok(table), Some(message)) = (Table::ascii87(alloc), purchase(alloc, 200)) else {
        return Ended::Unready;
    };
    let mut told = unpack(alloc, &table, PURCHASE);
    let was_refused = matches!(&told, Err(fault) if is_memory(fault));
    if was_refused {
        told = unpack(alloc, &table, PURCHASE);
    }
    let is_right = matches!(&told, Ok((read, used)) if read.equals(&message) && *used == 82);
    Ended::of(was_refused, is_right)
}

/// Feeds a piece, and feeds it again where memory ran out and nothing of it was taken.
fn feeds(alloc: Global, unpacker: &mut Unpacker<'_>, piece: &[u8]) -> (bool, Option<Fed>) {
    let held = unpacker.held();
    match unpacker.feed(alloc, piece) {
        Ok(fed) => (false, Some(fed)),
        Err(fault) if is_memory(&fault) && unpacker.held() == held => {
            (true, unpacker.feed(alloc, piece).ok())
        }
        Err(_) => (true, None),
    }
}

/// The purchase, and behind it the front of another message.
const PURCHASE_AND_MORE: &[u8] =
    b"0200722000010000800016411111111111111100000000000000100001020304050000070512345840\
020072200001000080001641111111111111110000000000000010000102030405000008";

/// Feeds the purchase in two pieces, whatever follows it in the second one.
fn feeds_two_pieces(alloc: Global, bytes: &[u8]) -> Ended {
    let (Ok(table), Some(message)) = (Table::ascii87(alloc), purchase(alloc, 200)) else {
        return Ended::Unready;
    };
    let (front, rest) = bytes.split_at(30.min(bytes.len()));
    let mut unpacker = Unpacker::new(alloc, &table);
    let (at_first, more) = feeds(alloc, &mut unpacker, front);
    let is_kept = matches!(more, Some(Fed::More)) && unpacker.held() == 30;
    let (at_last, done) = feeds(alloc, &mut unpacker, rest);
    let is_right = match &done {
        Some(
            Fed::Done {
                message: read,
                used,
            },
        ) => read.equals(&message) && *used == 52,
        _ => false,
    };
    Ended::of(
        at_first || at_last,
        is_kept && is_right && unpacker.held() == 0,
    )
}

/// Reads the purchase, and reads it again where memory ran out: whether it did, and whether it was read.
fn unpacks_beside(alloc: Global, unpacker: &mut Unpacker<'_>, message: &Message) -> (bool, bool) {
    let mut told = unpacker.unpack(alloc, PURCHASE);
    let was_refused = matches!(&told, Err(fault) if is_memory(fault));
    if was_refused {
        told = unpacker.unpack(alloc, PURCHASE);
    }
    let is_read = matches!(&told, Ok((read, used)) if read.equals(message) && *used == 82);
    (was_refused, is_read)
}

/// Whether the rest ends the message, where memory doesn't run out.
fn ends(
    alloc: Global,
    unpacker: &mut Unpacker<'_>,
    rest: &[u8],
    message: &Message,
) -> Option<bool> {
    match unpacker.feed(alloc, rest) {
        Ok(
            Fed::Done {
                message: fed,
                used: 52,
            },
        ) => Some(fed.equals(message)),
        Err(fault) if is_memory(&fault) => None,
        _ => Some(false),
    }
}

/// Reads a message between two pieces that are fed: the first piece stays.
fn unpacks_between(alloc: Global) -> Ended {
    let (Ok(table), Some(message)) = (Table::ascii87(alloc), purchase(alloc, 200)) else {
        return Ended::Unready;
    };
    let (front, rest) = PURCHASE.split_at(30);
    let mut unpacker = Unpacker::new(alloc, &table);
    let Ok(Fed::More) = unpacker.feed(alloc, front) else {
        return Ended::Unready;
    };
    let (was_refused, is_read) = unpacks_beside(alloc, &mut unpacker, &message);
    match ends(alloc, &mut unpacker, rest, &message) {
        Some(is_ended) => Ended::of(was_refused, is_read && is_ended),
        None if is_read && !was_refused => Ended::Unready,
        None => Ended::Wrong,
    }
}

fn frames(alloc: Global) -> Ended {
    let mut told = frame(alloc, Header::Ascii4, b"0800");
    let was_refused = matches!(&told, Err(FrameFault::Memory));
    if was_refused {
        told = frame(alloc, Header::Ascii4, b"0800");
    }
    let is_right = matches!(&told, Ok(bytes) if bytes.as_slice() == b"00040800".as_slice());
    Ended::of(was_refused, is_right)
}

/// A second frame behind the first one.
fn appends_a_frame(alloc: Global) -> Ended {
    let Ok(mut out) = frame(alloc, Header::Binary2, b"0800") else {
        return Ended::Unready;
    };
    let mut told = append_frame(Header::Bcd2, b"0810", &mut out);
    let was_refused = told == Err(FrameFault::Memory);
    if was_refused {
        if out.as_slice() != b"\x00\x040800".as_slice() {
            return Ended::Wrong;
        }
        told = append_frame(Header::Bcd2, b"0810", &mut out);
    }
    let is_right = told.is_ok() && out.as_slice() == b"\x00\x040800\x00\x040810".as_slice();
    Ended::of(was_refused, is_right)
}

/// Room for a header behind a frame.
fn opens_a_frame(alloc: Global) -> Ended {
    let Ok(mut out) = frame(alloc, Header::Binary2, b"0800") else {
        return Ended::Unready;
    };
    let mut told = open_frame(Header::Ascii4, &mut out);
    let was_refused = told.is_err();
    if was_refused {
        if out.as_slice() != b"\x00\x040800".as_slice() {
            return Ended::Wrong;
        }
        told = open_frame(Header::Ascii4, &mut out);
    }
    let is_right = told.is_ok() && out.as_slice() == b"\x00\x040800\x00\x00\x00\x00".as_slice();
    Ended::of(was_refused, is_right)
}

/// These calls by name, and how each ended.
pub fn rows(alloc: Global) -> [(&'static str, Ended); 19] {
    let long = [b'7'; 300];
    [
        ("Message::set", sets(alloc, 2, &long)),
        ("Message::set", sets(alloc, 60, &long)),
        ("Message::set_number", sets_a_number(alloc)),
        ("Message::with_room", makes_room(alloc)),
        ("Message::start_over", starts_over(alloc)),
        ("Message::append", appends(alloc)),
        ("Message::clone", copies(alloc)),
        ("describe", describes(alloc, false)),
        ("describe_clear", describes(alloc, true)),
        ("append_used", appends_a_used_line(alloc)),
        ("pack", packs(alloc)),
        ("append_message", appends_a_message(alloc)),
        ("unpack", unpacks(alloc)),
        ("Unpacker::feed", feeds_two_pieces(alloc, PURCHASE)),
        ("Unpacker::feed", feeds_two_pieces(alloc, PURCHASE_AND_MORE)),
        ("Unpacker::unpack", unpacks_between(alloc)),
        ("frame", frames(alloc)),
        ("append_frame", appends_a_frame(alloc)),
        ("open_frame", opens_a_frame(alloc)),
    ]
}
