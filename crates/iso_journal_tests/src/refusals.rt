//! Files that are no journal, and journals that no host can have written.

use crate::day::{Keeper, RULES, day, left_of, new_keeper, open_with};
use iso_fakes::check;
use iso_journal::OpenError;
use iso_log::RECORD;
use iso_log_tests::{Tear, TornDisk};
use iso_record::HeadingFault;
use std::alloc::Global;
use std::test::Fail;

/// What is done to the file of a whole journal.
#[derive(Clone, Copy)]
enum Change {
    Nothing,
    /// All of its bytes go.
    Emptied,
    /// It keeps so many bytes.
    Cut(usize),
    /// Each byte becomes zero.
    Zeroed,
    /// The byte at this place becomes another one.
    Byte(usize, u8),
    /// The record at a place becomes that at another one.
    Copied(usize, usize),
}

/// What is done to a journal of four orders, how it is opened, and what comes of it.
#[derive(Clone, Copy)]
struct Case {
    name: &'static str,
    change: Change,
    is_other: bool,
    rules: u16,
    /// How many orders the issuer has then, or why there is none.
    opened: Result<u32, OpenError>,
}

const FORMAT: Result<u32, OpenError> = Err(OpenError::Other(HeadingFault::Format));

/// A whole journal, opened with its own accounts and under its own rules.
const WHOLE: Case = Case {
    name: "a whole journal",
    change: Change::Nothing,
    is_other: false,
    rules: RULES,
    opened: Ok(4),
};

const CASES: &[Case] = &[
    WHOLE,
    Case {
        name: "an empty file",
        change: Change::Emptied,
        opened: FORMAT,
        ..WHOLE
    },
    Case {
        name: "a file that is cut in its heading",
        change: Change::Cut(127),
        opened: FORMAT,
        ..WHOLE
    },
    Case {
        name: "a file that is cut behind its heading",
        change: Change::Cut(RECORD),
        opened: Ok(0),
        ..WHOLE
    },
    Case {
        name: "a file that is cut in an order",
        change: Change::Cut(3 * RECORD + 9),
        opened: Ok(2),
        ..WHOLE
    },
    Case {
        name: "zeros",
        change: Change::Zeroed,
        opened: FORMAT,
        ..WHOLE
    },
    Case {
        name: "a foreign file",
        change: Change::Byte(0, b'J'),
        opened: FORMAT,
        ..WHOLE
    },
    Case {
        name: "another format",
        change: Change::Byte(27, b'2'),
        opened: FORMAT,
        ..WHOLE
    },
    Case {
        name: "another code",
        change: Change::Byte(2 * RECORD + 100, b'5'),
        opened: Err(OpenError::Damaged(2)),
        ..WHOLE
    },
    Case {
        name: "another place",
        change: Change::Byte(RECORD + 106, b'2'),
        opened: Err(OpenError::Damaged(1)),
        ..WHOLE
    },
    Case {
        name: "another balance",
        change: Change::Byte(4 * RECORD + 110, b'7'),
        opened: Err(OpenError::Damaged(4)),
        ..WHOLE
    },
    Case {
        name: "an order twice",
        change: Change::Copied(2, 1),
        opened: Err(OpenError::Damaged(2)),
        ..WHOLE
    },
    Case {
        name: "orders that changed places",
        change: Change::Copied(1, 2),
        opened: Err(OpenError::Damaged(1)),
        ..WHOLE
    },
    Case {
        name: "another version of the rules",
        rules: 4,
        opened: Err(OpenError::Other(HeadingFault::Rules)),
        ..WHOLE
    },
    Case {
        name: "other accounts",
        is_other: true,
        opened: Err(OpenError::Other(HeadingFault::Accounts)),
        ..WHOLE
    },
];

/// The file of a journal that has the orders of the day.
fn file(alloc: Global) -> Option<TornDisk> {
    let orders = day()?;
    let mut keeper: Keeper = new_keeper(alloc)?;
    match keeper.answer_all(alloc, &orders) {
        Ok(_) => left_of(alloc, &keeper, Tear::Front(0)),
        Err(_) => None,
    }
}

/// Changes one byte.
fn set(bytes: &mut Vec<u8>, place: usize, byte: u8) {
    if let Some(old) = bytes.get_mut(place) {
        *old = byte;
    }
}

/// Makes the record at a place that at another one.
fn copy(bytes: &mut Vec<u8>, to: usize, from: usize) {
    for i in 0..RECORD {
        let source = RECORD.saturating_mul(from).saturating_add(i);
        let byte = bytes.get(source).copied().unwrap_or(0);
        set(bytes, RECORD.saturating_mul(to).saturating_add(i), byte);
    }
}

/// Makes all bytes zeros.
fn clear(bytes: &mut Vec<u8>) {
    for byte in bytes.as_mut_slice() {
        *byte = 0;
    }
}

/// Changes a file.
fn make_change(bytes: &mut Vec<u8>, what: Change) {
    match what {
        Change::Nothing => (),
        Change::Emptied => bytes.clear(),
        Change::Cut(len) => bytes.truncate(len),
        Change::Zeroed => clear(bytes),
        Change::Byte(place, byte) => set(bytes, place, byte),
        Change::Copied(to, from) => copy(bytes, to, from),
    }
}

/// What comes of a case.
fn outcome(alloc: Global, case: &Case) -> Option<Result<u32, OpenError>> {
    let mut disk = file(alloc)?;
    make_change(&mut disk.bytes, case.change);
    match open_with(alloc, disk, case.is_other, case.rules) {
        Ok(keeper) => Some(Ok(keeper.issuer.len())),
        Err(error) => Some(Err(error)),
    }
}

#[test]
fn each_file_opens_as_its_row_says(rt: HostRuntime) -> Result<(), Fail> {
    for case in CASES {
        check(outcome(rt.alloc(), case) == Some(case.opened), case.name)?;
    }
    Ok(())
}
