//! Pieces of an answer.

use serde_json::Value;
use std::alloc::{AllocError, Global};

/// What a complaint's line begins with, up to what it says.
const MARK: &[u8] = b"rumpadol: the input: ";

/// Appends a text as JSON.
pub fn push_text(alloc: Global, text: &[u8], out: &mut Vec<u8>) -> Result<(), AllocError> {
    let text = String::from_utf8_lossy(alloc, text)?;
    let quoted = Value::String(text).to_string(alloc)?;
    out.extend_from_slice(quoted.as_bytes())
}

/// Appends a comma, unless the list begins here.
fn push_comma(out: &mut Vec<u8>) -> Result<(), AllocError> {
    if matches!(out.last(), Some(b'[')) {
        return Ok(());
    }
    out.extend_from_slice(b",")
}

/// Appends a list whose items are these lines, each of which is JSON.
pub fn push_items(lines: &[u8], out: &mut Vec<u8>) -> Result<(), AllocError> {
    out.push(b'[')?;
    for line in lines.split(|byte| *byte == b'\n') {
        if !line.is_empty() {
            push_comma(out)?;
            out.extend_from_slice(line)?;
        }
    }
    out.extend_from_slice(b"]")
}

/// Appends a list of texts: what these lines say, behind the words with which each complaint begins.
pub fn push_lines(alloc: Global, lines: &[u8], out: &mut Vec<u8>) -> Result<(), AllocError> {
    out.push(b'[')?;
    for line in lines.split(|byte| *byte == b'\n') {
        if !line.is_empty() {
            push_comma(out)?;
            push_text(alloc, line.strip_prefix(MARK).unwrap_or(line), out)?;
        }
    }
    out.extend_from_slice(b"]")
}
