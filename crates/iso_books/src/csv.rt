//! Entries and balances as comma-separated values (RFC 4180). No value holds a comma, a quote or an end of line, so none is
//! quoted.

use crate::balances::AccountRow;
use crate::shown::{
    left_of, other_key, push_account, push_digits, push_number, push_signed, word_of,
};
use iso_order::{Money, TxKey};
use iso_record::Row;
use std::alloc::AllocError;

/// The names of an entry's columns.
pub(crate) const ENTRY_NAMES: &str =
    "place,time,type,trace,acquirer,what,account,amount,currency,left,code,balance,of_type,of_trace,of_time,of_acquirer\n";

/// The names of a balance's columns.
pub(crate) const BALANCE_NAMES: &str = "account,currency,opening,ledger,available,holds,held\n";

/// Appends a comma.
fn push_comma(out: &mut Vec<u8>) -> Result<(), AllocError> {
    out.extend_from_slice(b",")
}

/// Appends the values of a key.
fn push_key(key: &TxKey, out: &mut Vec<u8>) -> Result<(), AllocError> {
    push_digits(key.sent, 10, out)?;
    push_comma(out)?;
    push_digits(u64::from(key.base), 4, out)?;
    push_comma(out)?;
    push_digits(u64::from(key.stan), 6, out)?;
    push_comma(out)?;
    push_number(key.acquirer, out)
}

/// Appends the values of an account and an amount.
fn push_money(is_clear: bool, money: &Option<Money>, out: &mut Vec<u8>) -> Result<(), AllocError> {
    let Some(money) = money else {
        return out.extend_from_slice(b",,");
    };
    push_account(is_clear, money.pan, out)?;
    push_comma(out)?;
    push_number(money.amount, out)?;
    push_comma(out)?;
    out.extend_from_slice(&money.currency)
}

/// Appends what a reversal leaves.
fn push_left(left: Option<u64>, out: &mut Vec<u8>) -> Result<(), AllocError> {
    match left {
        Some(left) => push_number(left, out),
        None => Ok(()),
    }
}

/// Appends the balance that is shown.
fn push_shown(shown: Option<i64>, out: &mut Vec<u8>) -> Result<(), AllocError> {
    match shown {
        Some(balance) => push_signed(balance, out),
        None => Ok(()),
    }
}

/// Appends the values of the transaction that is reversed or completed.
fn push_other(key: &Option<TxKey>, out: &mut Vec<u8>) -> Result<(), AllocError> {
    let Some(key) = key else {
        return out.extend_from_slice(b",,,");
    };
    push_digits(u64::from(key.base), 4, out)?;
    push_comma(out)?;
    push_digits(u64::from(key.stan), 6, out)?;
    push_comma(out)?;
    push_digits(key.sent, 10, out)?;
    push_comma(out)?;
    push_number(key.acquirer, out)
}

/// Appends the line of an entry.
pub(crate) fn push_entry_values(
    is_clear: bool,
    row: &Row,
    out: &mut Vec<u8>,
) -> Result<(), AllocError> {
    let act = row.order.act();
    push_number(u64::from(row.answer.seq), out)?;
    push_comma(out)?;
    push_key(&row.order.key(), out)?;
    push_comma(out)?;
    out.extend_from_slice(word_of(&row.order).as_bytes())?;
    push_comma(out)?;
    push_money(is_clear, &act.money(), out)?;
    push_comma(out)?;
    push_left(left_of(&act), out)?;
    push_comma(out)?;
    push_digits(u64::from(row.answer.code), 2, out)?;
    push_comma(out)?;
    push_shown(row.answer.shown, out)?;
    push_comma(out)?;
    push_other(&other_key(&act), out)?;
    out.extend_from_slice(b"\n")
}

/// Appends the line of an account.
pub(crate) fn push_balance_values(
    is_clear: bool,
    row: &AccountRow,
    out: &mut Vec<u8>,
) -> Result<(), AllocError> {
    let account = &row.balance.account;
    push_account(is_clear, account.pan, out)?;
    push_comma(out)?;
    out.extend_from_slice(&account.currency)?;
    push_comma(out)?;
    push_signed(account.opening, out)?;
    push_comma(out)?;
    push_signed(row.balance.ledger, out)?;
    push_comma(out)?;
    push_signed(row.balance.available, out)?;
    push_comma(out)?;
    push_number(row.holds as u64, out)?;
    push_comma(out)?;
    push_number(row.held, out)?;
    out.extend_from_slice(b"\n")
}
