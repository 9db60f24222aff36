//! Worked rows: two messages beside each other, and what is told of lists of answers.

use iso_compare::{
    Comparison, Difference, NoMessage, Side, Telling, append_differences, append_differences_json,
    compare_frames, count_frames, differing, split_frames,
};
use iso_names::Names;
use iso_parts::Bitmap;
use iso_table::Table;
use iso_wire::{UnpackCause, UnpackFault, unpack};
use std::alloc::Global;
use std::process::Abort;
use std::test::Fail;

/// A purchase of 10.00.
const PURCHASE: &[u8] =
    b"0200722000010000800016411111111111111100000000000000100001020304050000070512345840";

/// The response that grants it, with elements 38 and 39.
const GRANTED: &[u8] =
    b"021072200001060080001641111111111111110000000000000010000102030405000007051234500000100840";

/// The response that declines it, with element 39 alone.
const DECLINED: &[u8] =
    b"021072200001020080001641111111111111110000000000000010000102030405000007051234551840";

/// The one that grants it, to another account.
const OTHER: &[u8] =
    b"021072200001060080001655555555555544440000000000000010000102030405000007051234500000100840";

/// One message, with the digits of its bitmap in both cases.
const UPPER: &[u8] = b"0810000000000E000000ABCDEFGHIJKL00000100";

const LOWER: &[u8] = b"0810000000000e000000ABCDEFGHIJKL00000100";

/// The one that grants it, and a byte more.
const TRAILING: &[u8] =
    b"0210722000010600800016411111111111111100000000000000100001020304050000070512345000001008400";

/// Two bodies, and what becomes of the second beside the first: whether the types differ, and which elements.
const DIFFERENT: &[(&str, &[u8], &[u8], bool, &[u8])] = &[
    ("granted and declined", GRANTED, DECLINED, false, &[38, 39]),
    ("another account", GRANTED, OTHER, false, &[2]),
    ("its request", GRANTED, PURCHASE, true, &[38, 39]),
    ("the same in other digits", UPPER, LOWER, false, &[]),
    (
        "nothing but the field of the account",
        OTHER,
        DECLINED,
        false,
        &[2, 38, 39],
    ),
];

/// Two bodies that aren't both messages, and which of them is none and why; none where they are the same.
const OTHERS: &[(&str, &[u8], &[u8], Option<(Side, NoMessage)>)] = &[
    ("the same message", GRANTED, GRANTED, None),
    ("the same bytes that are none", b"abc", b"abc", None),
    (
        "a byte more came",
        GRANTED,
        TRAILING,
        Some((
            Side::Came,
            NoMessage::Trailing {
                used: 90,
                total: 91,
            },
        )),
    ),
    (
        "neither is one",
        b"02",
        b"abc",
        Some((
            Side::Expected,
            NoMessage::Stopped(UnpackFault {
                at: 0,
                element: 0,
                cause: UnpackCause::Short,
            }),
        )),
    ),
    (
        "a type of no digits came",
        GRANTED,
        b"02A0",
        Some((
            Side::Came,
            NoMessage::Stopped(UnpackFault {
                at: 0,
                element: 0,
                cause: UnpackCause::BadMti,
            }),
        )),
    ),
];

/// The set of some numbers.
fn set_of(numbers: &[u8]) -> Bitmap {
    let mut set = Bitmap::new();
    for n in numbers {
        if iso_parts::is_element(u16::from(*n)) {
            set.set(*n);
        }
    }
    set
}

#[test]
fn messages_beside_each_other(rt: HostRuntime) -> Result<(), Fail> {
    let alloc = rt.alloc();
    let table = Table::ascii87(alloc)?;
    for (name, expected, came, is_other_type, elements) in DIFFERENT {
        let difference = Difference {
            is_other_type: *is_other_type,
            elements: set_of(elements),
        };
        let (left, _) = unpack(alloc, &table, expected)?;
        let (right, _) = unpack(alloc, &table, came)?;
        assert_eq!(rt; differing(&left, &right), difference, "{name}");
        assert_eq!(rt;
            difference.is_none(),
            elements.is_empty() && !is_other_type,
            "{name}"
        );
        let compared = compare_frames(alloc, &table, expected, came)?;
        assert_eq!(rt; compared, Comparison::Differ(difference), "{name}");
    }
    Ok(())
}

#[test]
fn bodies_beside_each_other(rt: HostRuntime) -> Result<(), Fail> {
    let alloc = rt.alloc();
    let table = Table::ascii87(alloc)?;
    for (name, expected, came, wanted) in OTHERS {
        let wanted = match wanted {
            Some((side, why)) => Comparison::Unreadable(*side, *why),
            None => Comparison::Same,
        };
        let compared = compare_frames(alloc, &table, expected, came)?;
        assert_eq!(rt; compared, wanted, "{name}");
    }
    Ok(())
}

/// Answers that are expected, those that come, and what is told of them as lines and as JSON, in clear or not.
struct Row {
    name: &'static str,
    expected: &'static [&'static [u8]],
    came: &'static [&'static [u8]],
    is_clear: bool,
    lines: &'static str,
    json: &'static str,
}

const ROWS: &[Row] = &[
    Row {
        name: "all is the same",
        expected: &[GRANTED, DECLINED],
        came: &[GRANTED, DECLINED],
        is_clear: false,
        lines: "2 answers compared, 2 the same, 0 differ\n",
        json: "{\"compared\":2,\"same\":2,\"differ\":0,\"missing\":0,\"beyond\":0}\n",
    },
    Row {
        name: "each way to differ, and one that is missing",
        expected: &[GRANTED, GRANTED, UPPER, GRANTED, GRANTED, GRANTED],
        came: &[GRANTED, DECLINED, LOWER, PURCHASE, TRAILING],
        is_clear: false,
        lines: "\
frame 2: element 38 (Authorization identification response): expected 000001, came nothing
frame 2: element 39 (Response code): expected 00, came 51
frame 3: the same message in other bytes
frame 4: the type: expected 0210, came 0200
frame 4: element 38 (Authorization identification response): expected 000001, came nothing
frame 4: element 39 (Response code): expected 00, came nothing
frame 5: what came is no message: the message ends at byte 90, and the frame at 91
frame 6: expected, and didn't come
5 answers compared, 1 the same, 4 differ, 1 didn't come
",
        json: "\
{\"frame\":2,\"type_differs\":false,\"elements\":[38,39],\"expected\":{\"mti\":\"0210\",\"elements\":{\"38\":\"000001\",\"39\":\"00\"}},\"came\":{\"mti\":\"0210\",\"elements\":{\"39\":\"51\"}}}
{\"frame\":3,\"type_differs\":false,\"elements\":[],\"expected\":{\"mti\":\"0810\",\"elements\":{}},\"came\":{\"mti\":\"0810\",\"elements\":{}}}
{\"frame\":4,\"type_differs\":true,\"elements\":[38,39],\"expected\":{\"mti\":\"0210\",\"elements\":{\"38\":\"000001\",\"39\":\"00\"}},\"came\":{\"mti\":\"0200\",\"elements\":{}}}
{\"frame\":5,\"unreadable\":\"came\",\"fault\":\"the message ends at byte 90, and the frame at 91\"}
{\"compared\":5,\"same\":1,\"differ\":4,\"missing\":1,\"beyond\":0}
",
    },
    Row {
        name: "an account number has stars",
        expected: &[GRANTED],
        came: &[OTHER, GRANTED, GRANTED],
        is_clear: false,
        lines: "\
frame 1: element 2 (Primary account number (PAN)): expected 411111******1111, came 555555******4444
frames 2 to 3: came, and none was expected
1 answer compared, 0 the same, 1 differs, 2 came beyond them
",
        json: "\
{\"frame\":1,\"type_differs\":false,\"elements\":[2],\"expected\":{\"mti\":\"0210\",\"elements\":{\"2\":\"411111******1111\"}},\"came\":{\"mti\":\"0210\",\"elements\":{\"2\":\"555555******4444\"}}}
{\"compared\":1,\"same\":0,\"differ\":1,\"missing\":0,\"beyond\":2}
",
    },
    Row {
        name: "unless all is to be clear",
        expected: &[GRANTED],
        came: &[OTHER],
        is_clear: true,
        lines: "\
frame 1: element 2 (Primary account number (PAN)): expected 4111111111111111, came 5555555555554444
1 answer compared, 0 the same, 1 differs
",
        json: "\
{\"frame\":1,\"type_differs\":false,\"elements\":[2],\"expected\":{\"mti\":\"0210\",\"elements\":{\"2\":\"4111111111111111\"}},\"came\":{\"mti\":\"0210\",\"elements\":{\"2\":\"5555555555554444\"}}}
{\"compared\":1,\"same\":0,\"differ\":1,\"missing\":0,\"beyond\":0}
",
    },
];

/// Checks a row of lists.
fn check_row(rt: &impl Abort, alloc: Global, row: &Row) -> Result<(), Fail> {
    let (table, names) = (Table::ascii87(alloc)?, Names::new(alloc, 0));
    let telling = Telling {
        table: &table,
        names: &names,
        is_clear: row.is_clear,
    };
    let (mut lines, mut json) = (Vec::new(alloc), Vec::new(alloc));
    let tally = append_differences(alloc, telling, row.expected, row.came, &mut lines)?;
    let again = append_differences_json(alloc, telling, row.expected, row.came, &mut json)?;
    let (name, is_same) = (row.name, row.expected == row.came);
    assert_eq!(rt; lines.as_slice(), row.lines.as_bytes(), "{name}");
    assert_eq!(rt; json.as_slice(), row.json.as_bytes(), "{name}");
    assert_eq!(rt; tally.is_all_same(), is_same, "{name}");
    assert_eq!(rt; tally, again, "{name}");
    Ok(())
}

#[test]
fn lists_beside_each_other(rt: HostRuntime) -> Result<(), Fail> {
    for row in ROWS {
        check_row(&rt, rt.alloc(), row)?;
    }
    Ok(())
}

/// A stream, the bodies of its whole frames, and how many bytes are behind them.
const STREAMS: &[(&[u8], &[&[u8]], usize)] = &[
    (b"", &[], 0),
    (b"0003abc0000", &[b"abc", b""], 0),
    (b"0003abc0004abc", &[b"abc"], 7),
    (b"0003abc000x", &[b"abc"], 4),
];

#[test]
fn frames_of_streams(rt: HostRuntime) -> Result<(), Fail> {
    for (stream, bodies, left) in STREAMS {
        let split = split_frames(rt.alloc(), iso_wire::Header::Ascii4, stream)?;
        assert_eq!(rt; split.bodies.as_slice(), *bodies);
        assert_eq!(rt; split.rest.len(), *left);
        let front = count_frames(iso_wire::Header::Ascii4, stream);
        assert_eq!(rt; front.frames, bodies.len());
        assert_eq!(rt; front.size, stream.len() - left);
    }
    Ok(())
}
