//! Messages in pieces, and what an unpacker answers to them.

use super::cases::Known::{self, Echo, EmptySecondary, LowerCase, NoElement, Payment};
use super::cases::{Case, case_of, is_message};
use super::*;
use iso_parts::FieldFault;
use iso_wire::UnpackCause::{BadHex, BadMti, Field, Short};

/// What is done to an unpacker, and what comes of it.
#[derive(Clone, Copy)]
enum Event {
    /// A piece is fed that ends no message: how many bytes are held then.
    Feed(&'static [u8], usize),
    /// A piece is fed in which bytes stop being a message: none is held then.
    Refused(&'static [u8], UnpackFault),
    /// A piece is fed that ends the message of the case: how many of its bytes are used.
    End(&'static [u8], usize, Known),
    /// The whole message of the case is read, and its memory given back: how many bytes of another are held then.
    Whole(Known, usize),
    /// Bytes that are no message: where they stop being one, in the piece of which element, and why.
    Stopped(&'static [u8], usize, u8, UnpackCause),
    Reset,
}

use Event::{End, Feed, Refused, Reset, Stopped, Whole};

/// A table, and what is done to an unpacker of it, one after the other.
type Events = (&'static str, Under, &'static [(&'static str, Event)]);

/// Whether a piece ends the message of the case, and so many of its bytes are used.
fn is_ended(unpacker: &mut Unpacker, alloc: Global, piece: &[u8], size: usize, case: Case) -> bool {
    match unpacker.feed(alloc, piece) {
        Ok(Fed::Done { message, used }) => {
            used == size && is_message(&message, case.mti, case.elements)
        }
        _ => false,
    }
}

/// Whether the message of the case is read, and gives its memory back.
fn is_reread(unpacker: &mut Unpacker, alloc: Global, case: Case) -> bool {
    match unpacker.unpack(alloc, case.bytes) {
        Ok((message, used)) => {
            let is_read = used == case.used && is_message(&message, case.mti, case.elements);
            unpacker.reuse(message);
            is_read
        }
        Err(_) => false,
    }
}

/// Whether a piece ends no message.
fn is_unfinished(unpacker: &mut Unpacker, alloc: Global, piece: &[u8]) -> bool {
    match unpacker.feed(alloc, piece) {
        Ok(Fed::More) => true,
        _ => false,
    }
}

/// Whether that comes of it, and so many bytes are held then.
fn comes(unpacker: &mut Unpacker, alloc: Global, event: Event) -> bool {
    match event {
        Feed(piece, held) => is_unfinished(unpacker, alloc, piece) && unpacker.held() == held,
        Refused(piece, fault) => {
            unpacker.feed(alloc, piece).err() == Some(fault) && unpacker.held() == 0
        }
        End(piece, used, known) => {
            is_ended(unpacker, alloc, piece, used, case_of(known)) && unpacker.held() == 0
        }
        Whole(known, held) => is_reread(unpacker, alloc, case_of(known)) && unpacker.held() == held,
        Stopped(bytes, at, element, cause) => {
            unpacker.unpack(alloc, bytes).err() == Some(stop(at, element, cause))
        }
        Reset => {
            unpacker.reset();
            unpacker.held() == 0
        }
    }
}

/// The name of the first event of which something else comes; empty if there is none.
fn first_failed_in(
    unpacker: &mut Unpacker,
    alloc: Global,
    events: &[(&'static str, Event)],
) -> &'static str {
    for (name, event) in events {
        if !comes(unpacker, alloc, *event) {
            return *name;
        }
    }
    ""
}

/// The name of the first one in an unpacker of the table; empty if there is none.
fn first_failed(alloc: Global, table: &Table, events: &[(&'static str, Event)]) -> &'static str {
    let mut unpacker = Unpacker::new(alloc, table);
    first_failed_in(&mut unpacker, alloc, events)
}

/// Whether the message of the case is read where it is fed in two pieces, cut at `size`.
pub(super) fn is_read_in_two(alloc: Global, table: &Table, known: Known, size: usize) -> bool {
    let case = case_of(known);
    let mut unpacker = Unpacker::new(alloc, table);
    let (front, back) = case.bytes.split_at(size.min(case.bytes.len()));
    let used = case.used.saturating_sub(size);
    comes(&mut unpacker, alloc, Feed(front, size))
        && comes(&mut unpacker, alloc, End(back, used, known))
}

/// Whether the message of the case ends behind so many pieces of one size that end none, and so many bytes of the last piece are
/// used.
fn is_fed(
    unpacker: &mut Unpacker,
    alloc: Global,
    case: Case,
    size: usize,
    wanted: usize,
    used: usize,
) -> bool {
    let mut left = wanted;
    for piece in case.bytes.chunks(size.max(1)) {
        if left == 0 {
            return is_ended(unpacker, alloc, piece, used, case);
        }
        if !is_unfinished(unpacker, alloc, piece) {
            return false;
        }
        left -= 1;
    }
    false
}

/// Whether the message of the case is read in pieces of one size: how often more is wanted before, and how many bytes of the last
/// piece are used.
pub(super) fn is_read_in(
    alloc: Global,
    table: &Table,
    known: Known,
    size: usize,
    wanted: usize,
    used: usize,
) -> bool {
    let mut unpacker = Unpacker::new(alloc, table);
    is_fed(&mut unpacker, alloc, case_of(known), size, wanted, used)
}

const BAD_CLASS: UnpackFault = UnpackFault {
    at: 38,
    element: 3,
    cause: Field(FieldFault::NotInClass),
};

const BAD_TYPE: UnpackFault = UnpackFault {
    at: 0,
    element: 0,
    cause: BadMti,
};

const EVENTS: &[Events] = &[
    (
        "a message in pieces",
        Ascii87,
        &[
            ("the first piece", Feed(b"08008220000000", 14)),
            // it ends inside an element
            ("the second piece", Feed(b"00000004000000000000000102", 40)),
            ("the last piece", End(b"0304050000013010800", 15, Echo)),
            // what was left of it
            ("the beginning of the next message", Feed(b"0800", 4)),
        ],
    ),
    (
        "pieces are judged when they are whole",
        Ascii,
        &[
            ("no bytes", Feed(b"", 0)),
            ("three digits of a type", Feed(b"08A", 3)),
            ("the fourth", Refused(b"0", BAD_TYPE)),
            ("behind a fault", Refused(ECHO, BAD_TYPE)),
            ("no bytes behind a fault", Refused(b"", BAD_TYPE)),
            ("it starts anew", Reset),
            ("the echo test", End(ECHO, 55, Echo)),
        ],
    ),
    (
        "a fault is told from the start of the message",
        Ascii,
        &[
            (
                "a whole message and more",
                End(b"08000000000000000000020", 20, NoElement),
            ),
            ("a type and a bitmap", Feed(b"02007220000100008000", 20)),
            ("half a length", Feed(b"1", 21)),
            ("its end, and a body without its end", Feed(b"6411111", 28)),
            ("its end", Feed(b"1111111111", 38)),
            ("five digits of six", Feed(b"00000", 43)),
            (
                "a letter among digits",
                Refused(b"x000000001000", BAD_CLASS),
            ),
            ("it starts anew", Reset),
            ("a bad type", Refused(b"08A0", BAD_TYPE)),
        ],
    ),
    // messages that are read one after another, each into the memory of those before it
    (
        "a message is read into memory that was given back",
        Ascii,
        &[
            ("the echo test", Whole(Echo, 0)),
            ("the payment", Whole(Payment, 0)),
            ("no element", Whole(NoElement, 0)),
            ("an empty secondary bitmap", Whole(EmptySecondary, 0)),
            ("a bitmap in lower case", Whole(LowerCase, 0)),
            // in the second round the first message is read into the memory of the last one
            ("the echo test again", Whole(Echo, 0)),
            ("the payment again", Whole(Payment, 0)),
            ("no element again", Whole(NoElement, 0)),
            ("an empty secondary bitmap again", Whole(EmptySecondary, 0)),
            ("a bitmap in lower case again", Whole(LowerCase, 0)),
        ],
    ),
    (
        "a message behind a fault has its own elements",
        Ascii,
        &[
            ("a letter in a type", Stopped(b"08A0", 0, 0, BadMti)),
            ("an echo behind it", Whole(Echo, 0)),
            (
                "a letter in a bitmap",
                Stopped(b"0800G220000000000000", 4, 0, BadHex),
            ),
            ("an echo behind that", Whole(Echo, 0)),
            (
                "a letter in the fifth of seven values",
                Stopped(
                    b"0200722000010000800016411111111111111100000000000000100001020304050000x70512345840",
                    66,
                    11,
                    Field(FieldFault::NotInClass),
                ),
            ),
            ("an echo behind the letter", Whole(Echo, 0)),
            (
                "the last of seven values cut short",
                Stopped(
                    b"020072200001000080001641111111111111110000000000000010000102030405000007051234584",
                    79,
                    49,
                    Short,
                ),
            ),
            ("an echo behind the cut", Whole(Echo, 0)),
        ],
    ),
    (
        "reading a whole message leaves the pieces of another",
        Ascii,
        &[
            (
                "the first piece",
                Feed(b"080082200000000000000400000000", 30),
            ),
            ("the payment", Whole(Payment, 30)),
            (
                "the last piece",
                End(b"0000000102030405000001301", 25, Echo),
            ),
        ],
    ),
];

#[test]
fn a_message_comes_in_pieces(rt: HostRuntime) -> Result<(), Fail> {
    for (name, under, events) in EVENTS {
        let table = table_of(rt.alloc(), *under)?;
        let failed = first_failed(rt.alloc(), &table, *events);
        check_of(failed.is_empty(), *name, failed)?;
    }
    Ok(())
}
