//! Message types as texts, and the numbers of a set one after another.

use iso_fakes::check;
use iso_parts::{Bitmap, Mti, ParseMtiError};
use std::alloc::Global;
use std::test::*;

/// Texts, and the number of the type that each writes, if it writes one.
const TEXTS: &[(&str, Result<u16, ParseMtiError>)] = &[
    ("0200", Ok(200)),
    ("0421", Ok(421)),
    ("0800", Ok(800)),
    ("9999", Ok(9999)),
    ("0000", Ok(0)),
    ("", Err(ParseMtiError)),
    ("200", Err(ParseMtiError)),
    ("00200", Err(ParseMtiError)),
    ("02O0", Err(ParseMtiError)),
    ("+200", Err(ParseMtiError)),
    (" 200", Err(ParseMtiError)),
    ("٠٢", Err(ParseMtiError)),
];

/// Whether the type is written so.
fn is_written(alloc: Global, mti: Mti, text: &str) -> bool {
    match format!(in alloc; "{mti}") {
        Ok(written) => written.as_str() == text,
        Err(_) => false,
    }
}

/// Whether the text writes the type of that number and is written of it, or writes none.
fn is_text(alloc: Global, text: &str, number: Result<u16, ParseMtiError>) -> bool {
    match text.parse::<Mti>() {
        Ok(mti) => number == Ok(mti.number()) && is_written(alloc, mti, text),
        Err(fault) => number == Err(fault),
    }
}

#[test]
fn types_are_written_and_read(rt: HostRuntime) -> Result<(), Fail> {
    for (text, number) in TEXTS {
        check(is_text(rt.alloc(), text, *number), text)?;
    }
    Ok(())
}

/// Whether the type is filled up on either side.
fn is_filled_up(alloc: Global, mti: Mti) -> bool {
    match format!(in alloc; "[{mti:>6}|{mti:<6}]") {
        Ok(written) => written.as_str() == "[  0200|0200  ]",
        Err(_) => false,
    }
}

#[test]
fn a_type_is_filled_up(rt: HostRuntime) -> Result<(), Fail> {
    match Mti::from_digits(200) {
        Some(mti) => check(is_filled_up(rt.alloc(), mti), "filled up"),
        None => check(false, "no message type"),
    }
}

/// Whether these are the numbers, and all of them, in whichever way they are asked for.
fn are_numbers(set: Bitmap, numbers: &[u8]) -> bool {
    let mut left = set.iter();
    for (at, number) in numbers.iter().enumerate() {
        if left.len() != numbers.len() - at || left.next() != Some(*number) {
            return false;
        }
    }
    left.next().is_none() && left.next().is_none()
}

/// A set of five numbers.
fn five_numbers() -> Bitmap {
    let mut set = Bitmap::new();
    for number in [128, 2, 64, 66, 11] {
        set.set(number);
    }
    set
}

/// The sum of the numbers of a set, one after another.
fn sum_of(set: Bitmap) -> u32 {
    let mut sum = 0u32;
    for number in set {
        sum = sum.saturating_add(u32::from(number));
    }
    sum
}

/// The same where the set is lent.
fn sum_of_lent(set: &Bitmap) -> u32 {
    let mut sum = 0u32;
    for number in set {
        sum = sum.saturating_add(u32::from(number));
    }
    sum
}

#[test]
fn numbers_come_in_order() -> Result<(), Fail> {
    let set = five_numbers();
    check(are_numbers(Bitmap::new(), &[]), "no number")?;
    check(are_numbers(set, &[2, 11, 64, 66, 128]), "five numbers")?;
    check(sum_of(set) == 271 && sum_of_lent(&set) == 271, "both loops")
}
