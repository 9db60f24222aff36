//! What is done to messages.

use super::*;

/// What is done to a message.
#[derive(Clone, Copy)]
pub(super) enum Edit {
    Set(u8, &'static [u8]),
    /// Sets three numbers in decimal digits.
    SetNumbers,
    /// Takes an element out, and tells whether it was there.
    Unset(u8, bool),
    /// Tries to set a number that no element has.
    Refuse(u8),
    /// Makes it a message of that type without elements.
    StartOver(u16),
    /// Copies it, and gives it another trace number, which the copy doesn't get.
    Copy,
}

pub(super) use Edit::{Copy, Refuse, Set, SetNumbers, StartOver, Unset};

/// Sets three numbers of six, one and nineteen digits, and says whether each is set.
fn sets_numbers(message: &mut Message) -> bool {
    message.set_number(11, 7, 6).is_ok()
        && message.set_number(12, 0, 1).is_ok()
        && message
            .set_number(13, 1_234_567_890_123_456_789, 19)
            .is_ok()
}

/// Whether no value and no number is set at that number of an element.
fn is_refused(message: &mut Message, n: u8) -> bool {
    let fault = Err(SetFault::BadNumber(n));
    message.set(n, b"1") == fault && message.set_number(n, 1, 1) == fault
}

/// Makes it a message of that type, and says whether it is one.
fn starts_over(message: &mut Message, mti: u16) -> bool {
    match Mti::from_digits(mti) {
        Some(mti) => message.start_over(mti, 1, 2).is_ok(),
        None => false,
    }
}

/// Whether a copy is equal, and stays what it is where the message gets another number.
fn is_copied(message: &mut Message) -> bool {
    match message.clone() {
        Ok(copy) => {
            copy == *message
                && message.set(11, b"000008").is_ok()
                && copy != *message
                && copy.get(11) == Some(b"000007")
        }
        Err(_) => false,
    }
}

/// Whether that can be done to the message.
fn is_done(message: &mut Message, edit: Edit) -> bool {
    match edit {
        Set(n, value) => message.set(n, value).is_ok(),
        SetNumbers => sets_numbers(message),
        Unset(n, was_there) => message.unset(n) == was_there,
        Refuse(n) => is_refused(message, n),
        StartOver(mti) => starts_over(message, mti),
        Copy => is_copied(message),
    }
}

/// Whether all of it can be done to the message, one after the other.
pub(super) fn are_done(message: &mut Message, edits: &[Edit]) -> bool {
    for edit in edits {
        if !is_done(message, *edit) {
            return false;
        }
    }
    true
}

pub(super) const THREE: Elements = &[(2, b"ab"), (11, b"cd"), (70, b"efg")];

pub(super) const NUMBERED: Elements = &[(11, b"000007"), (12, b"0"), (13, b"1234567890123456789")];

pub(super) const PURCHASE: Elements = &[(2, b"4111111111111111"), (3, b"000000")];
