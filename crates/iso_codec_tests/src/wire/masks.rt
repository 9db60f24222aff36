//! What is printed of values and messages.

use super::super::faults::{is_debugged, is_shown};
use super::super::parts::ACCOUNT_ROW;
use super::*;
use iso_parts::decode_field;
use iso_wire::{Framed, append_used, describe, describe_clear, masked};
use std::alloc::AllocError;

/// What is printed of other things.
#[derive(Clone, Copy)]
enum Print {
    /// How many bytes of how many are used, and the line that tells so.
    Used(usize, usize, &'static [u8]),
    /// What is shown of a view of the payment for debugging.
    Seen(&'static str),
    /// So many bytes of the payment, and what is shown of an unpacker that has taken them.
    Taken(usize, &'static str),
    /// What is shown of a frame for debugging.
    Frame(Framed<'static>, &'static str),
    /// The bytes of an account number, and what is shown of the step that reads them.
    Step(&'static [u8], &'static str),
}

use Print::{Frame, Seen, Step, Taken, Used};

/// The value of an element, and what is shown of it, for debugging too.
const SHOWN: &[(&str, u8, &[u8], &str)] = &[
    (
        "an account number",
        2,
        b"4111111111111111",
        "411111******1111",
    ),
    ("one of 13 digits", 2, b"4111111111111", "411111***1111"),
    ("one of 12 digits", 2, b"411111111111", "************"),
    ("no account number", 2, b"", ""),
    ("an extended account number", 34, b"12-3", "****"),
    ("track 2", 35, b"4111=2512", "*********"),
    ("track 3", 36, b"014111", "******"),
    ("track 1", 45, b"B4111^A", "*******"),
    (
        "PIN data",
        52,
        b"\x01\x23\x45\x67\x89\xAB\xCD\xEF",
        "********",
    ),
    ("chip data", 55, b"\x9F\x02", "**"),
    ("an amount", 4, b"000000001000", "000000001000"),
    ("a terminal", 41, b"TERM 1", "TERM 1"),
    ("a MAC", 64, b"\x00A\xFE\n", "\\x00A\\xFE\\x0A"),
];

/// A message, and what is shown of it for debugging.
const MASKED: &[(&str, u16, Elements, &str)] = &[
    ("no element", 800, &[], "Message { mti: 0800 }"),
    (
        "an account number and an amount",
        200,
        &[(2, b"4111111111111111"), (4, b"000000001000")],
        "Message { mti: 0200, 2: 411111******1111, 4: 000000001000 }",
    ),
    (
        "tracks, PIN data and chip data",
        200,
        &[
            (34, b"34"),
            (35, b"4111=2512"),
            (36, b"36"),
            (45, b"B4111"),
            (52, b"\x01\x23\x45\x67"),
            (55, b"\x9F\x02\x06"),
        ],
        "Message { mti: 0200, 34: **, 35: *********, 36: **, 45: *****, 52: ****, 55: *** }",
    ),
    (
        "the last element",
        9999,
        &[(128, b"\xFF")],
        "Message { mti: 9999, 128: \\xFF }",
    ),
];

/// A message, its lines, and those in full.
const LINES: &[(&str, u16, Elements, &[u8], &[u8])] = &[
    (
        "an echo test",
        800,
        ECHO_ELEMENTS,
        b"MTI=0800 1987 NetworkManagement Request Acquirer\n\
        DE007=0102030405\nDE011=000001\nDE070=301\n",
        b"MTI=0800 1987 NetworkManagement Request Acquirer\n\
        DE007=0102030405\nDE011=000001\nDE070=301\n",
    ),
    (
        "an account number, PIN data and a MAC",
        421,
        &[
            (2, b"4111111111111111"),
            (52, b"\x01\x23\x45\x67\x89\xAB\xCD\xEF"),
            (64, b"\x00\x01\x0A\x0F\xF0\xFE\xFF\x10"),
        ],
        b"MTI=0421 1987 Reversal Advice AcquirerRepeat\n\
        DE002=411111******1111\nDE052=********\nDE064=00010A0FF0FEFF10\n",
        b"MTI=0421 1987 Reversal Advice AcquirerRepeat\n\
        DE002=4111111111111111\nDE052=0123456789ABCDEF\nDE064=00010A0FF0FEFF10\n",
    ),
    (
        "digits without a meaning",
        9956,
        &[],
        b"MTI=9956 Private Reserved(9) Reserved(5) Reserved(6)\n",
        b"MTI=9956 Private Reserved(9) Reserved(5) Reserved(6)\n",
    ),
];

const PRINTS: &[(&str, Print)] = &[
    ("some bytes are used", Used(74, 120, b"USED=74/120\n")),
    ("no bytes are used", Used(0, 0, b"USED=0/0\n")),
    ("a view", Seen("View { mti: 0200, used: 82 }")),
    (
        "an unpacker",
        Taken(40, "Unpacker { held: 40, stopped: None }"),
    ),
    ("no whole frame", Frame(Framed::More, "More")),
    (
        "a payment",
        Frame(
            Framed::Got {
                body: PAYMENT,
                used: 84,
            },
            "Got { body: 82 bytes, used: 84 }",
        ),
    ),
    (
        "a card's number",
        Step(b"15400012341234123", "Got { value_len: 15, used: 17 }"),
    ),
    ("bytes are missing", Step(b"1540001234123412", "More")),
];

/// Whether these are the lines.
fn are_lines(lines: Result<Vec<u8>, AllocError>, want: &[u8]) -> bool {
    match lines {
        Ok(lines) => lines.as_slice() == want,
        Err(_) => false,
    }
}

/// Whether that is shown of a message.
fn is_masked(alloc: Global, mti: u16, elements: &[(u8, &[u8])], want: &str) -> bool {
    match message(alloc, mti, elements) {
        Some(message) => is_debugged(alloc, &message, want),
        None => false,
    }
}

/// Whether these are the lines of a message, masked and in full.
fn is_described(
    alloc: Global,
    table: &Table,
    message: &Message,
    want: &[u8],
    clear: &[u8],
) -> bool {
    are_lines(describe(alloc, table, message), want)
        && are_lines(describe_clear(alloc, table, message), clear)
}

/// Whether that line tells how many bytes are used.
fn is_told(alloc: Global, used: usize, total: usize, want: &[u8]) -> bool {
    let mut line = Vec::new(alloc);
    append_used(used, total, &mut line).is_ok() && line.as_slice() == want
}

/// Whether that is shown of a view of the payment.
fn is_view_shown(alloc: Global, table: &Table, want: &str) -> bool {
    match view(table, PAYMENT) {
        Ok(seen) => is_debugged(alloc, &seen, want),
        Err(_) => false,
    }
}

/// Whether that is shown of an unpacker that has taken these bytes.
fn is_unpacker_shown(alloc: Global, table: &Table, front: &[u8], want: &str) -> bool {
    let mut unpacker = Unpacker::new(alloc, table);
    unpacker.feed(alloc, front).is_ok() && is_debugged(alloc, &unpacker, want)
}

/// Whether that is shown of the step that reads an account number.
fn is_step_shown(alloc: Global, part: &[u8], text: &str) -> bool {
    ACCOUNT_ROW.good().is_ok()
        && match decode_field(alloc, &ACCOUNT_ROW, part) {
            Ok(step) => is_debugged(alloc, &step, text),
            Err(_) => false,
        }
}

/// Whether that is shown of a value, for debugging too.
fn is_value_shown(alloc: Global, n: u8, value: &[u8], want: &str) -> bool {
    let shown = masked(n, value);
    is_shown(alloc, &shown, want) && is_debugged(alloc, &shown, want)
}

/// Whether these are the lines of a message of that type and these elements.
fn has_lines(
    alloc: Global,
    table: &Table,
    mti: u16,
    elements: Elements,
    want: (&[u8], &[u8]),
) -> bool {
    let (hidden, clear) = want;
    match message(alloc, mti, elements) {
        Some(message) => is_described(alloc, table, &message, hidden, clear),
        None => false,
    }
}

/// Whether that is printed.
fn is_printed(alloc: Global, table: &Table, print: &Print) -> bool {
    match print {
        Used(used, total, want) => is_told(alloc, *used, *total, *want),
        Seen(want) => is_view_shown(alloc, table, *want),
        Taken(size, want) => {
            let size = (*size).min(PAYMENT.len());
            is_unpacker_shown(alloc, table, &PAYMENT[..size], *want)
        }
        Frame(framed, want) => is_debugged(alloc, framed, *want),
        Step(part, want) => is_step_shown(alloc, *part, *want),
    }
}

/// That each value is shown so.
fn check_shown(alloc: Global) -> Result<(), Fail> {
    for (name, n, value, want) in SHOWN {
        check(is_value_shown(alloc, *n, *value, *want), *name)?;
    }
    Ok(())
}

/// That each message is shown so.
fn check_masked(alloc: Global) -> Result<(), Fail> {
    for (name, mti, elements, want) in MASKED {
        check(is_masked(alloc, *mti, *elements, *want), *name)?;
    }
    Ok(())
}

/// That each message has its lines.
fn check_lines(alloc: Global, table: &Table) -> Result<(), Fail> {
    for (name, mti, elements, want, clear) in LINES {
        let is_so = has_lines(alloc, table, *mti, *elements, (*want, *clear));
        check(is_so, *name)?;
    }
    Ok(())
}

/// That all else is printed so.
fn check_prints(alloc: Global, table: &Table) -> Result<(), Fail> {
    for (name, print) in PRINTS {
        check(is_printed(alloc, table, print), *name)?;
    }
    Ok(())
}

/// That all is printed so.
fn check_all(alloc: Global, table: &Table) -> Result<(), Fail> {
    check_shown(alloc)?;
    check_masked(alloc)?;
    check_lines(alloc, table)?;
    check_prints(alloc, table)
}

#[test]
fn values_and_messages_are_printed(rt: HostRuntime) -> Result<(), Fail> {
    let table = table_of(rt.alloc(), Ascii87)?;
    check_all(rt.alloc(), &table)
}
