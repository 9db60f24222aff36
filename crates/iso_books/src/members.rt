//! Members of objects of JSON. No text of a journal has a character that must be escaped.

use crate::shown::{push_digits, push_number, push_signed};
use std::alloc::AllocError;

/// Appends a member's name, behind a comma unless it is the first one.
pub(crate) fn push_name(name: &[u8], out: &mut Vec<u8>) -> Result<(), AllocError> {
    if !matches!(out.last(), Some(b'{')) {
        out.push(b',')?;
    }
    out.push(b'"')?;
    out.extend_from_slice(name)?;
    out.extend_from_slice(b"\":")
}

/// Appends a member that is a number.
pub(crate) fn push_number_member(name: &[u8], n: u64, out: &mut Vec<u8>) -> Result<(), AllocError> {
    push_name(name, out)?;
    push_number(n, out)
}

/// Appends a member that is a number with a sign.
pub(crate) fn push_signed_member(name: &[u8], n: i64, out: &mut Vec<u8>) -> Result<(), AllocError> {
    push_name(name, out)?;
    push_signed(n, out)
}

/// Appends a member that is a text of so many digits.
pub(crate) fn push_digits_member(
    name: &[u8],
    n: u64,
    count: usize,
    out: &mut Vec<u8>,
) -> Result<(), AllocError> {
    push_name(name, out)?;
    out.push(b'"')?;
    push_digits(n, count, out)?;
    out.extend_from_slice(b"\"")
}

/// Appends a member that is a text.
pub(crate) fn push_text_member(
    name: &[u8],
    text: &[u8],
    out: &mut Vec<u8>,
) -> Result<(), AllocError> {
    push_name(name, out)?;
    out.push(b'"')?;
    out.extend_from_slice(text)?;
    out.extend_from_slice(b"\"")
}
