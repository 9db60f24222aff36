//! Messages that are read and written.

use super::*;

/// The bytes of a message, what they say, and how that is written.
#[derive(Clone, Copy)]
pub(super) struct Case {
    pub(super) name: &'static str,
    pub(super) bytes: &'static [u8],
    pub(super) mti: u16,
    pub(super) used: usize,
    pub(super) elements: Elements,
    pub(super) plain: &'static [u8],
    /// Where the bodies lie in the bytes.
    places: &'static [(u8, usize, usize)],
}

const ECHO_CASE: Case = Case {
    name: "echo",
    bytes: ECHO,
    mti: 800,
    used: 55,
    elements: ECHO_ELEMENTS,
    plain: ECHO,
    places: &[(7, 36, 46), (11, 46, 52), (70, 52, 55)],
};

const PAYMENT_CASE: Case = Case {
    name: "payment",
    bytes: PAYMENT,
    mti: 200,
    used: 82,
    elements: &[
        (2, b"4111111111111111"),
        (3, b"000000"),
        (4, b"000000001000"),
        (7, b"0102030405"),
        (11, b"000007"),
        (32, b"12345"),
        (49, b"840"),
    ],
    plain: PAYMENT,
    places: &[
        (2, 22, 38),
        (3, 38, 44),
        (4, 44, 56),
        (7, 56, 66),
        (11, 66, 72),
        (32, 74, 79),
        (49, 79, 82),
    ],
};

const REVERSAL_CASE: Case = Case {
    name: "reversal",
    bytes: REVERSAL,
    mti: 420,
    used: 101,
    elements: &[
        (7, b"0102030500"),
        (11, b"000008"),
        (32, b"12345"),
        (90, b"020000000701020304050000001234500000000000"),
    ],
    plain: REVERSAL,
    places: &[(7, 36, 46), (11, 46, 52), (32, 54, 59), (90, 59, 101)],
};

const NO_ELEMENT: Case = Case {
    name: "no element",
    bytes: b"08000000000000000000",
    mti: 800,
    used: 20,
    elements: &[],
    plain: b"08000000000000000000",
    places: &[],
};

const EMPTY_SECONDARY: Case = Case {
    name: "an empty secondary bitmap",
    bytes: b"080080000000000000000000000000000000",
    mti: 800,
    used: 36,
    elements: &[],
    plain: b"08000000000000000000",
    places: &[],
};

const LOWER_CASE: Case = Case {
    name: "a bitmap in lower case, and bytes behind",
    bytes: b"0800022a000000000000010203040500000101020103XYZ",
    mti: 800,
    used: 44,
    elements: &[
        (7, b"0102030405"),
        (11, b"000001"),
        (13, b"0102"),
        (15, b"0103"),
    ],
    plain: b"0800022A000000000000010203040500000101020103",
    places: &[(7, 20, 30), (11, 30, 36), (13, 36, 40), (15, 40, 44)],
};

const PACKED_ECHO_CASE: Case = Case {
    name: "echo under BCD",
    bytes: PACKED_ECHO,
    mti: 800,
    used: 28,
    elements: ECHO_ELEMENTS,
    plain: PACKED_ECHO,
    places: &[(7, 18, 23), (11, 23, 26), (70, 26, 28)],
};

const FILLED_CASE: Case = Case {
    name: "filler F",
    bytes: FILLED_ECHO,
    mti: 800,
    used: 28,
    elements: ECHO_ELEMENTS,
    plain: PACKED_ECHO,
    places: &[(7, 18, 23), (11, 23, 26), (70, 26, 28)],
};

const PADDED_CASE: Case = Case {
    name: "a padded value, and bytes behind",
    bytes: b"08000000000000800000TERM1   08",
    mti: 800,
    used: 28,
    elements: &[(41, b"TERM1")],
    plain: b"08000000000000800000TERM1   ",
    places: &[(41, 20, 28)],
};

const BLANKS_ALONE: Case = Case {
    name: "eight blanks",
    bytes: b"08000000000000800000        ",
    mti: 800,
    used: 28,
    elements: &[(41, b"")],
    plain: b"08000000000000800000        ",
    places: &[(41, 20, 28)],
};

const CHIP_CASE: Case = Case {
    name: "three bytes behind four digits of a length",
    bytes: CHIP,
    mti: 800,
    used: 30,
    elements: &[(48, b"\x01\x02\x0A")],
    plain: CHIP,
    places: &[(48, 24, 30)],
};

const BLANK_CASE: Case = Case {
    name: "a blank at the end of a value",
    bytes: BLANK,
    mti: 800,
    used: 28,
    elements: BLANK_ELEMENTS,
    plain: BLANK,
    places: &[(41, 20, 26), (42, 26, 28)],
};

/// The cases by name.
#[derive(Clone, Copy)]
pub(super) enum Known {
    Echo,
    Payment,
    Reversal,
    NoElement,
    EmptySecondary,
    LowerCase,
    PackedEcho,
    Filled,
    Padded,
    BlanksAlone,
    Chip,
    Blank,
}

use Known::{
    Blank, BlanksAlone, Chip, Echo, EmptySecondary, Filled, LowerCase, NoElement, PackedEcho,
    Padded, Payment, Reversal,
};

/// The case of that name.
pub(super) fn case_of(known: Known) -> Case {
    match known {
        Echo => ECHO_CASE,
        Payment => PAYMENT_CASE,
        Reversal => REVERSAL_CASE,
        NoElement => NO_ELEMENT,
        EmptySecondary => EMPTY_SECONDARY,
        LowerCase => LOWER_CASE,
        PackedEcho => PACKED_ECHO_CASE,
        Filled => FILLED_CASE,
        Padded => PADDED_CASE,
        BlanksAlone => BLANKS_ALONE,
        Chip => CHIP_CASE,
        Blank => BLANK_CASE,
    }
}

/// Cases, each under a table.
const CASES: &[(Under, Known)] = &[
    (Ascii, Echo),
    (Ascii, Payment),
    (Ascii, NoElement),
    (Ascii, EmptySecondary),
    (Ascii, LowerCase),
    (Ascii87, Payment),
    (Ascii87, Reversal),
    (Ascii87, Padded),
    (Ascii87, BlanksAlone),
    (Packed, PackedEcho),
    (Packed, Filled),
    (Bcd87, PackedEcho),
    (Bcd87, Filled),
    (Chips(9_999), Chip),
    (Blanks, Blank),
];

/// Whether the message has that type, and these elements alone.
pub(super) fn is_message(message: &Message, mti: u16, elements: &[(u8, &[u8])]) -> bool {
    message.mti().number() == mti && gives(message, elements)
}

/// Whether the message is written as the bytes alone.
fn is_packed(alloc: Global, table: &Table, message: &Message, bytes: &[u8]) -> bool {
    match pack(alloc, table, message) {
        Ok(packed) => packed.as_slice() == bytes,
        Err(_) => false,
    }
}

/// Whether the message is written as the bytes, alone and behind `ab`.
fn is_written(
    alloc: Global,
    table: &Table,
    message: &Message,
    bytes: &[u8],
    out: &mut Vec<u8>,
) -> bool {
    out.truncate(2);
    append_message(table, message, out).is_ok()
        && out.strip_prefix(b"ab") == Some(bytes)
        && is_packed(alloc, table, message, bytes)
}

/// Whether a case is read, and what is read is written.
fn is_read(alloc: Global, table: &Table, case: &Case, out: &mut Vec<u8>) -> bool {
    match unpack(alloc, table, case.bytes) {
        Ok((read, used)) => {
            used == case.used
                && is_message(&read, case.mti, case.elements)
                && is_written(alloc, table, &read, case.plain, out)
        }
        Err(_) => false,
    }
}

/// Whether a case is read in place of the message that was there.
fn is_read_into(table: &Table, case: &Case, into: &mut Message) -> bool {
    unpack_into(table, case.bytes, into).ok() == Some(case.used)
        && is_message(into, case.mti, case.elements)
}

/// Whether a message whose elements were set is written.
fn is_made(alloc: Global, table: &Table, case: &Case, out: &mut Vec<u8>) -> bool {
    match message(alloc, case.mti, case.elements) {
        Some(made) => is_written(alloc, table, &made, case.plain, out),
        None => false,
    }
}

/// Where the body of an element lies, if there is one.
fn place_in(places: &[(u8, usize, usize)], n: u8) -> Option<(usize, usize)> {
    for (number, start, end) in places {
        if *number == n {
            return Some((*start, *end));
        }
    }
    None
}

/// Whether the body of an element lies there, and is what stands there; or there is none.
fn lies(seen: &View, bytes: &[u8], n: u8, place: Option<(usize, usize)>) -> bool {
    match place {
        Some((start, end)) => {
            seen.place(n) == Some(start..end) && seen.wire(n) == bytes.get(start..end)
        }
        None => seen.place(n) == None && seen.wire(n) == None,
    }
}

/// Whether the view finds the bodies of a case and no other.
fn finds_only(seen: &View, case: &Case) -> bool {
    for n in 0..=255 {
        if !lies(seen, case.bytes, n, place_in(case.places, n)) {
            return false;
        }
    }
    true
}

/// Whether a case is left where it lies.
fn is_viewed(table: &Table, case: &Case) -> bool {
    match view(table, case.bytes) {
        Ok(seen) => {
            seen.mti().number() == case.mti && seen.used() == case.used && finds_only(&seen, case)
        }
        Err(_) => false,
    }
}

/// Whether a case is read, written and viewed.
fn is_case(alloc: Global, table: &Table, case: &Case, out: &mut Vec<u8>) -> bool {
    is_read(alloc, table, case, out) && is_made(alloc, table, case, out) && is_viewed(table, case)
}

/// That each case is so.
fn check_cases(alloc: Global, out: &mut Vec<u8>) -> Result<(), Fail> {
    let Some(mut into) = message(alloc, 1, &[(128, b"another")]) else {
        return Err(Fail::new(format_args!("a message")));
    };
    for (under, known) in CASES {
        let table = table_of(alloc, *under)?;
        let case = case_of(*known);
        let is_read = is_read_into(&table, &case, &mut into);
        check(is_read && is_case(alloc, &table, &case, out), case.name)?;
    }
    Ok(())
}

#[test]
fn messages_are_read_and_written(rt: HostRuntime) -> Result<(), Fail> {
    let mut out = vec![in rt.alloc(); b'a', b'b']?;
    check_cases(rt.alloc(), &mut out)
}
