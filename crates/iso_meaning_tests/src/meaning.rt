//! Worked rows: what values mean, by the standards' own lists.

use super::checks::{check_bytes, check_element};
use iso_fakes::check;
use iso_meaning::{
    ChipFault, Item, Part, account_type, amount_type, class_word, currency_of, items, parts,
    push_chip_value, push_moment, push_track2, response_code, tag_name, track2, transaction_type,
    version_word,
};
use std::alloc::Global;
use std::test::Fail;

/// A response code and its meaning.
const RESPONSES: &[(&[u8], Option<&str>)] = &[
    (b"00", Some("Approved")),
    (b"05", Some("Do not honour")),
    (b"14", Some("Invalid card number")),
    (b"51", Some("Not sufficient funds")),
    (b"91", Some("Issuer or switch is inoperative")),
    (b"96", Some("System malfunction")),
    (b"45", None),
    (b"97", None),
    (b"N0", None),
    (b"000", None),
    (b"", None),
];

/// A processing code's transaction type and its meaning.
const TRANSACTIONS: &[(&[u8], Option<&str>)] = &[
    (b"00", Some("Goods and services")),
    (b"09", Some("Goods and services with cash back")),
    (b"31", Some("Balance inquiry")),
    (b"40", Some("Account transfer")),
    (b"10", None),
];

#[test]
fn response_codes() -> Result<(), Fail> {
    for (code, wanted) in RESPONSES {
        check_bytes(response_code(*code) == *wanted, *code)?;
    }
    Ok(())
}

#[test]
fn transaction_types() -> Result<(), Fail> {
    for (code, wanted) in TRANSACTIONS {
        check_bytes(transaction_type(*code) == *wanted, *code)?;
    }
    Ok(())
}

/// Whether account types have their meaning.
fn are_account_types() -> bool {
    account_type(b"20") == Some("Cheque") && account_type(b"21") == None
}

#[test]
fn other_codes() -> Result<(), Fail> {
    check(are_account_types(), "account types")?;
    check(amount_type(b"02") == Some("Available balance"), "an amount")?;
    check(class_word(2) == Some("Financial"), "a class")?;
    check(version_word(3) == None, "a version")
}

/// A currency's code, its letters and its digits behind the point.
const CURRENCIES: &[(&[u8], &str, Option<u8>)] = &[
    (b"840", "USD", Some(2)),
    (b"978", "EUR", Some(2)),
    (b"392", "JPY", Some(0)),
    (b"048", "BHD", Some(3)),
    (b"990", "CLF", Some(4)),
    (b"959", "XAU", None),
    (b"008", "ALL", Some(2)),
];

/// Whether that is the currency of the code.
fn is_currency(code: &[u8], letters: &str, minor_digits: Option<u8>) -> bool {
    match currency_of(code) {
        Some(found) => found.letters == letters && found.minor_digits == minor_digits,
        None => false,
    }
}

/// Whether the code is no currency's.
fn is_no_currency(code: &[u8]) -> bool {
    currency_of(code).is_none()
}

#[test]
fn currencies() -> Result<(), Fail> {
    for (code, letters, minor_digits) in CURRENCIES {
        check(is_currency(*code, *letters, *minor_digits), *letters)?;
    }
    let are_none = is_no_currency(b"000") && is_no_currency(b"USD") && is_no_currency(b"84");
    check(are_none, "codes of no currency")
}

/// A value and the moment that it tells.
const MOMENTS: &[(&[u8], &str)] = &[
    (b"0102030405", "02 January, 03:04:05"),
    (b"235959", "23:59:59"),
    (b"1231", "31 December"),
    (b"0229", "29 February"),
    (b"260102030405", "02 January of year 26, 03:04:05"),
    (b"240229000000", "29 February of year 24, 00:00:00"),
    (b"250229000000", ""),
    (b"0230", ""),
    (b"1301", ""),
    (b"0100", ""),
    (b"240000", ""),
    (b"01020304", ""),
    (b"01x2", ""),
];

/// Whether that is the moment of the value; empty if it has none.
fn is_moment(alloc: Global, value: &[u8], wanted: &str) -> bool {
    let mut out = Vec::new(alloc);
    push_moment(value, &mut out) == Ok(!wanted.is_empty()) && out.as_slice() == wanted.as_bytes()
}

#[test]
fn moments(rt: HostRuntime) -> Result<(), Fail> {
    for (value, wanted) in MOMENTS {
        check_bytes(is_moment(rt.alloc(), *value, *wanted), *value)?;
    }
    Ok(())
}

/// A value that is made of parts: element, size, how many parts, which of them, and where that one stands.
const PARTS: &[(u8, usize, usize, Part)] = &[
    (
        3,
        6,
        3,
        Part {
            start: 2,
            end: 4,
            name: "from account",
        },
    ),
    (
        54,
        20,
        5,
        Part {
            start: 2,
            end: 4,
            name: "amount type",
        },
    ),
    (
        54,
        120,
        30,
        Part {
            start: 2,
            end: 4,
            name: "amount type",
        },
    ),
    (
        90,
        42,
        5,
        Part {
            start: 4,
            end: 10,
            name: "original trace number",
        },
    ),
    (
        95,
        42,
        4,
        Part {
            start: 12,
            end: 24,
            name: "actual settlement amount",
        },
    ),
];

/// A value of the greatest size.
const DIGITS: &[u8] = &[b'0'; 120];

/// Whether a value of that size has so many parts, and that one among them.
fn has_part(element: u8, size: usize, count: usize, part: &Part) -> bool {
    let split = parts(element, DIGITS.get(..size).unwrap_or(&[]));
    split.len() == count && split.contains(part)
}

#[test]
fn made_of_parts() -> Result<(), Fail> {
    for (element, size, count, part) in PARTS {
        let is_so = has_part(*element, *size, *count, part);
        check_element(is_so, *element, *size)?;
    }
    let are_none = parts(90, b"0200").is_empty() && parts(2, b"411111").is_empty();
    check(are_none, "values without parts")
}

/// Track 2 data and what a bystander reads of them.
const TRACKS: &[(&[u8], &str)] = &[
    (
        b"4111111111111111=25121010000012345678",
        "411111******1111=********************",
    ),
    (b"4111111111111111D2512", "411111******1111D****"),
    (b"411111111111=2512", "************=****"),
    (b"4111111111111111", "****************"),
    (b"", ""),
];

/// Whether that is read of a track, in clear or not.
fn is_track(alloc: Global, value: &[u8], is_clear: bool, wanted: &[u8]) -> bool {
    let mut out = Vec::new(alloc);
    push_track2(value, is_clear, &mut out).is_ok() && out.as_slice() == wanted
}

/// Whether the parts of a track end there.
fn ends_at(value: &[u8], account: usize, expiry: usize, service: usize) -> bool {
    match track2(value) {
        Some(track) => {
            track.account.end == account
                && track.expiry.end == expiry
                && track.service.end == service
        }
        None => false,
    }
}

#[test]
fn tracks(rt: HostRuntime) -> Result<(), Fail> {
    for (value, wanted) in TRACKS {
        let is_masked = is_track(rt.alloc(), *value, false, wanted.as_bytes());
        check_bytes(
            is_masked && is_track(rt.alloc(), *value, true, *value),
            *value,
        )?;
    }
    let has_parts = ends_at(b"4111111111111111=25121010000012345678", 16, 21, 24);
    check(has_parts, "the parts of a track")?;
    check(track2(b"4111111111111111").is_none(), "no separator")
}

/// An amount, a template with an account number and its sequence number, and a tag without a name.
const CHIP: &[u8] =
    b"\x9F\x02\x06\x00\x00\x00\x00\x10\x00\x70\x0E\x5A\x08\x41\x11\x11\x11\x11\x11\x11\x11\x5F\x34\x01\x01\xDF\x01\x81\x01\x07";

/// The tag, the depth and the end of each object, and its value as a bystander reads it.
const OBJECTS: &[(u32, usize, usize, &str)] = &[
    (0x9F02, 0, 9, "000000001000"),
    (0x70, 0, 25, "****************************"),
    (0x5A, 1, 21, "****************"),
    (0x5F34, 1, 25, "**"),
    (0xDF01, 0, 30, "**"),
];

/// Whether that is what a bystander reads of an object.
fn is_read(alloc: Global, item: &Item, wanted: &str) -> bool {
    let value = CHIP.get(item.value..item.end).unwrap_or(&[]);
    let mut out = Vec::new(alloc);
    push_chip_value(item.tag, value, false, &mut out).is_ok() && out.as_slice() == wanted.as_bytes()
}

/// Whether an object has that tag, that depth and that end.
fn is_object(item: &Item, tag: u32, depth: usize, end: usize) -> bool {
    item.tag == tag && item.depth == depth && item.end == end
}

/// That the objects are so.
fn check_objects(alloc: Global, found: &[Item]) -> Result<(), Fail> {
    for (item, (tag, depth, end, wanted)) in found.iter().zip(OBJECTS) {
        let is_so = is_object(item, *tag, *depth, *end) && is_read(alloc, item, *wanted);
        check(is_so, tag_name(*tag).unwrap_or("a tag without a name"))?;
    }
    check(found.len() == OBJECTS.len(), "how many objects")
}

/// Whether a tag has its name, and another has none.
fn are_named() -> bool {
    tag_name(0x9F02) == Some("Amount, authorised (numeric)") && tag_name(0xDF01) == None
}

#[test]
fn chip_data(rt: HostRuntime) -> Result<(), Fail> {
    check(are_named(), "names of tags")?;
    let found = items(rt.alloc(), CHIP)?;
    check_objects(rt.alloc(), &found)
}

/// Bad chip data and what is told of them.
const BAD_CHIP: &[(&[u8], ChipFault)] = &[
    (b"\x9F", ChipFault::Tag(0)),
    (b"\x9F\x81\x81\x01\x00", ChipFault::Tag(0)),
    (b"\x82\x01\x00\x95", ChipFault::Length(4)),
    (b"\x82\x80", ChipFault::Length(1)),
    (b"\x82\x83\x00\x00\x00", ChipFault::Length(1)),
    (b"\x82\x02\x00", ChipFault::Value(2)),
    (b"\x70\x02\x82\x01\x00", ChipFault::Value(4)),
];

/// Whether the chip data are refused for that.
fn is_bad(alloc: Global, bytes: &[u8], wanted: ChipFault) -> bool {
    match items(alloc, bytes) {
        Ok(_) => false,
        Err(fault) => fault == wanted,
    }
}

#[test]
fn bad_chip_data(rt: HostRuntime) -> Result<(), Fail> {
    for (bytes, wanted) in BAD_CHIP {
        check_bytes(is_bad(rt.alloc(), *bytes, *wanted), *bytes)?;
    }
    Ok(())
}
