//! The words and the digits of an entry.

use iso_order::{Act, Order, Pan, TxKey};
use iso_wire::{masked, write_decimal};
use itoa::Buffer;
use std::alloc::AllocError;

/// Appends a number.
pub(crate) fn push_number(n: u64, out: &mut Vec<u8>) -> Result<(), AllocError> {
    let mut buffer = Buffer::new();
    out.extend_from_slice(buffer.format(n).as_bytes())
}

/// Appends a number with its sign, if it is below 0.
pub(crate) fn push_signed(n: i64, out: &mut Vec<u8>) -> Result<(), AllocError> {
    let mut buffer = Buffer::new();
    out.extend_from_slice(buffer.format(n).as_bytes())
}

/// Appends a number in so many digits, at most 19.
pub(crate) fn push_digits(n: u64, count: usize, out: &mut Vec<u8>) -> Result<(), AllocError> {
    let mut digits = [0; 19];
    let shown = &mut digits[..count.min(19)];
    write_decimal(shown, n);
    out.extend_from_slice(shown)
}

/// Appends so many of a byte.
pub(crate) fn push_each(byte: u8, count: usize, out: &mut Vec<u8>) -> Result<(), AllocError> {
    for _ in 0..count {
        out.push(byte)?;
    }
    Ok(())
}

/// Appends an account number: in full, or of 13 or more digits the first six and the last four alone, and of a shorter one
/// none.
pub(crate) fn push_account(is_clear: bool, pan: Pan, out: &mut Vec<u8>) -> Result<(), AllocError> {
    let mut digits = [0; 19];
    let number = &mut digits[..pan.len() as usize];
    write_decimal(number, pan.digits());
    if is_clear {
        return out.extend_from_slice(number);
    }
    let shown = masked(2, number);
    out.extend_from_slice(shown.front)?;
    push_each(b'*', shown.hidden, out)?;
    out.extend_from_slice(shown.end)
}

/// What an order is called. A debit of class 1 is a hold.
pub(crate) fn word_of(order: &Order) -> &'static str {
    match order.act() {
        Act::Debit(_) if order.key().class() == 1 => "hold",
        Act::Debit(_) => "debit",
        Act::Credit(_) => "credit",
        Act::Inquiry(_) => "inquiry",
        Act::Undo { .. } => "reversal",
        Act::Complete { .. } => "completion",
    }
}

/// The key of the transaction that an order reverses or completes.
pub(crate) fn other_key(act: &Act) -> Option<TxKey> {
    match act {
        Act::Debit(_) | Act::Credit(_) | Act::Inquiry(_) => None,
        Act::Undo { original, .. } => Some(*original),
        Act::Complete { hold, .. } => Some(*hold),
    }
}

/// What a reversal leaves.
pub(crate) fn left_of(act: &Act) -> Option<u64> {
    match act {
        Act::Undo { left, .. } => Some(*left),
        Act::Debit(_) | Act::Credit(_) | Act::Inquiry(_) | Act::Complete { .. } => None,
    }
}
