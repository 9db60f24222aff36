//! Texts in columns.

use crate::shown::push_each;
use std::alloc::AllocError;

/// Fills the text behind a place up to a width, with blanks behind it.
pub(crate) fn pad_right(start: usize, width: usize, out: &mut Vec<u8>) -> Result<(), AllocError> {
    let size = out.len().saturating_sub(start);
    push_each(b' ', width.saturating_sub(size), out)
}

/// Appends a text in a column, at its right end.
pub(crate) fn push_right(text: &[u8], width: usize, out: &mut Vec<u8>) -> Result<(), AllocError> {
    push_each(b' ', width.saturating_sub(text.len()), out)?;
    out.extend_from_slice(text)
}

/// Appends a text in a column, at its left end.
pub(crate) fn push_left(text: &[u8], width: usize, out: &mut Vec<u8>) -> Result<(), AllocError> {
    let start = out.len();
    out.extend_from_slice(text)?;
    pad_right(start, width, out)
}
