//! Entries and balances in columns.

use crate::balances::AccountRow;
use crate::columns::{pad_right, push_left, push_right};
use crate::shown::{
    left_of, other_key, push_account, push_digits, push_number, push_signed, word_of,
};
use iso_order::{Act, Money, TxKey};
use iso_record::Row;
use itoa::Buffer;
use std::alloc::AllocError;

/// The names of an entry's columns.
pub(crate) const ENTRY_NAMES: &str =
    " Place  Time        Type  Trace      Acquirer  What        Account                    Amount  Cur  Code        Balance  Of\n";

/// The names of a balance's columns.
pub(crate) const BALANCE_NAMES: &str =
    "Account              Cur             Opening               Ledger            Available  Holds                 Held\n";

/// Appends blanks between two columns.
fn push_gap(out: &mut Vec<u8>) -> Result<(), AllocError> {
    out.extend_from_slice(b"  ")
}

/// Appends a number at the right end of a column.
fn push_number_in(n: u64, width: usize, out: &mut Vec<u8>) -> Result<(), AllocError> {
    let mut buffer = Buffer::new();
    push_right(buffer.format(n).as_bytes(), width, out)
}

/// Appends a number with its sign at the right end of a column.
fn push_signed_in(n: i64, width: usize, out: &mut Vec<u8>) -> Result<(), AllocError> {
    let mut buffer = Buffer::new();
    push_right(buffer.format(n).as_bytes(), width, out)
}

/// Appends the columns of a key.
fn push_key(key: &TxKey, out: &mut Vec<u8>) -> Result<(), AllocError> {
    push_digits(key.sent, 10, out)?;
    push_gap(out)?;
    push_digits(u64::from(key.base), 4, out)?;
    push_gap(out)?;
    push_digits(u64::from(key.stan), 6, out)?;
    push_gap(out)?;
    push_number_in(key.acquirer, 11, out)
}

/// Appends the columns of an account and an amount.
fn push_money(is_clear: bool, money: &Money, out: &mut Vec<u8>) -> Result<(), AllocError> {
    let start = out.len();
    push_account(is_clear, money.pan, out)?;
    pad_right(start, 19, out)?;
    push_gap(out)?;
    push_number_in(money.amount, 14, out)?;
    push_gap(out)?;
    out.extend_from_slice(&money.currency)
}

/// Appends the columns of what is asked.
fn push_act(is_clear: bool, act: &Act, out: &mut Vec<u8>) -> Result<(), AllocError> {
    if let Some(money) = act.money() {
        return push_money(is_clear, &money, out);
    }
    push_left(b"", 21, out)?;
    push_number_in(left_of(act).unwrap_or(0), 14, out)?;
    push_left(b"", 5, out)
}

/// Appends the column of the balance that is shown, if one is.
fn push_shown(shown: Option<i64>, out: &mut Vec<u8>) -> Result<(), AllocError> {
    match shown {
        Some(balance) => push_signed_in(balance, 17, out),
        None => Ok(()),
    }
}

/// Appends the key of the transaction that is reversed or completed, if one is: no balance is shown before it.
fn push_other(act: &Act, out: &mut Vec<u8>) -> Result<(), AllocError> {
    let Some(key) = other_key(act) else {
        return Ok(());
    };
    push_left(b"", 19, out)?;
    push_digits(u64::from(key.base), 4, out)?;
    out.extend_from_slice(b" ")?;
    push_digits(u64::from(key.stan), 6, out)?;
    out.extend_from_slice(b" ")?;
    push_digits(key.sent, 10, out)?;
    out.extend_from_slice(b" ")?;
    push_number(key.acquirer, out)
}

/// Appends the line of an entry.
pub(crate) fn push_entry_line(
    is_clear: bool,
    row: &Row,
    out: &mut Vec<u8>,
) -> Result<(), AllocError> {
    let act = row.order.act();
    push_number_in(u64::from(row.answer.seq), 6, out)?;
    push_gap(out)?;
    push_key(&row.order.key(), out)?;
    push_gap(out)?;
    push_left(word_of(&row.order).as_bytes(), 12, out)?;
    push_act(is_clear, &act, out)?;
    push_gap(out)?;
    push_digits(u64::from(row.answer.code), 2, out)?;
    push_shown(row.answer.shown, out)?;
    push_other(&act, out)?;
    out.extend_from_slice(b"\n")
}

/// Appends the line of an account.
pub(crate) fn push_balance_line(
    is_clear: bool,
    row: &AccountRow,
    out: &mut Vec<u8>,
) -> Result<(), AllocError> {
    let account = &row.balance.account;
    let start = out.len();
    push_account(is_clear, account.pan, out)?;
    pad_right(start, 19, out)?;
    push_gap(out)?;
    out.extend_from_slice(&account.currency)?;
    push_signed_in(account.opening, 20, out)?;
    push_signed_in(row.balance.ledger, 21, out)?;
    push_signed_in(row.balance.available, 21, out)?;
    push_number_in(row.holds as u64, 7, out)?;
    push_number_in(row.held, 21, out)?;
    out.extend_from_slice(b"\n")
}
