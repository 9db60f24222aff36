//! What the value of an element means, where the field's own code says.

use iso_meaning::{
    account_type, amount_type, class_word, currency_of, function_word, origin_word, push_moment,
    response_code, transaction_type, version_word,
};
use iso_parts::Mti;
use std::alloc::AllocError;

/// Appends the word for a digit of a message type, or that the digit is reserved.
fn push_word(digit: u8, word: Option<&'static str>, out: &mut Vec<u8>) -> Result<(), AllocError> {
    match word {
        Some(word) => out.extend_from_slice(word.as_bytes()),
        None => {
            out.extend_from_slice(b"Reserved(")?;
            out.extend_from_slice(&[b'0' + digit % 10, b')'])
        }
    }
}

/// Appends the words for the digits of a message type.
pub(crate) fn push_type_words(mti: Mti, out: &mut Vec<u8>) -> Result<(), AllocError> {
    push_word(mti.version, version_word(mti.version), out)?;
    out.extend_from_slice(b" ")?;
    push_word(mti.class, class_word(mti.class), out)?;
    out.extend_from_slice(b" ")?;
    push_word(mti.function, function_word(mti.function), out)?;
    out.extend_from_slice(b" ")?;
    push_word(mti.origin, origin_word(mti.origin), out)
}

/// Appends a word that is known.
fn push_known(word: Option<&'static str>, out: &mut Vec<u8>) -> Result<(), AllocError> {
    match word {
        Some(word) => out.extend_from_slice(word.as_bytes()),
        None => Ok(()),
    }
}

/// Appends the letters of a currency, and how many minor digits its amounts have.
fn push_currency(code: &[u8], out: &mut Vec<u8>) -> Result<(), AllocError> {
    let Some(currency) = currency_of(code) else {
        return Ok(());
    };
    out.extend_from_slice(currency.letters.as_bytes())?;
    match currency.minor_digits {
        Some(minor) => {
            out.extend_from_slice(b", ")?;
            out.extend_from_slice(&[b'0' + minor % 10])?;
            out.extend_from_slice(b" decimals")
        }
        None => Ok(()),
    }
}

/// Appends the moment that a value tells.
fn push_when(value: &[u8], out: &mut Vec<u8>) -> Result<(), AllocError> {
    match push_moment(value, out) {
        Ok(_) => Ok(()),
        Err(refused) => Err(refused),
    }
}

/// Appends what the value of an element means under a version, if its code is known: dates and times (7, 12, 13),
/// the response code (39) and currencies (49 to 51). Of card data it tells nothing.
pub(crate) fn push_meaning_of(
    version: u8,
    n: u8,
    value: &[u8],
    out: &mut Vec<u8>,
) -> Result<(), AllocError> {
    match (version, n) {
        (0..=2, 7) | (0 | 1, 12) | (0, 13) => push_when(value, out),
        (0, 39) => push_known(response_code(value), out),
        (0 | 1, 49..=51) => push_currency(value, out),
        _ => Ok(()),
    }
}

/// What the code of a part of a value tells.
#[derive(Clone, Copy)]
enum Code {
    Transaction,
    Account,
    Amount,
    Currency,
    Moment,
    Sign,
    None,
}

/// What the code of a part tells, by the part's name.
fn code_of(name: &str) -> Code {
    match name {
        "transaction type" => Code::Transaction,
        "from account" | "to account" | "account type" => Code::Account,
        "amount type" => Code::Amount,
        "currency" => Code::Currency,
        "original transmission date and time" => Code::Moment,
        "sign" => Code::Sign,
        _ => Code::None,
    }
}

/// The word for a sign.
fn sign_word(sign: &[u8]) -> Option<&'static str> {
    match sign {
        b"C" => Some("Credit"),
        b"D" => Some("Debit"),
        _ => None,
    }
}

/// Appends what a part of a value means, if its code is known.
pub(crate) fn push_part_meaning(
    name: &str,
    text: &[u8],
    out: &mut Vec<u8>,
) -> Result<(), AllocError> {
    match code_of(name) {
        Code::Transaction => push_known(transaction_type(text), out),
        Code::Account => push_known(account_type(text), out),
        Code::Amount => push_known(amount_type(text), out),
        Code::Currency => push_currency(text, out),
        Code::Moment => push_when(text, out),
        Code::Sign => push_known(sign_word(text), out),
        Code::None => Ok(()),
    }
}
