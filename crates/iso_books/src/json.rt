//! Entries and balances as objects of JSON.

use crate::balances::AccountRow;
use crate::members::{
    push_digits_member, push_name, push_number_member, push_signed_member, push_text_member,
};
use crate::shown::{left_of, other_key, push_account, push_number, word_of};
use iso_order::{Act, Money, Pan, TxKey};
use iso_record::Row;
use std::alloc::AllocError;

/// Appends the member of an account number.
fn push_account_member(is_clear: bool, pan: Pan, out: &mut Vec<u8>) -> Result<(), AllocError> {
    push_name(b"account", out)?;
    out.push(b'"')?;
    push_account(is_clear, pan, out)?;
    out.extend_from_slice(b"\"")
}

/// Appends the members of a key.
fn push_key(key: &TxKey, out: &mut Vec<u8>) -> Result<(), AllocError> {
    push_digits_member(b"time", key.sent, 10, out)?;
    push_digits_member(b"type", u64::from(key.base), 4, out)?;
    push_digits_member(b"trace", u64::from(key.stan), 6, out)?;
    push_name(b"acquirer", out)?;
    out.push(b'"')?;
    push_number(key.acquirer, out)?;
    out.extend_from_slice(b"\"")
}

/// Appends the members of an account and an amount.
fn push_money(is_clear: bool, money: &Money, out: &mut Vec<u8>) -> Result<(), AllocError> {
    push_account_member(is_clear, money.pan, out)?;
    push_number_member(b"amount", money.amount, out)?;
    push_text_member(b"currency", &money.currency, out)
}

/// Appends the members of what is asked.
fn push_act(is_clear: bool, act: &Act, out: &mut Vec<u8>) -> Result<(), AllocError> {
    if let Some(money) = act.money() {
        push_money(is_clear, &money, out)?;
    }
    match left_of(act) {
        Some(left) => push_number_member(b"left", left, out),
        None => Ok(()),
    }
}

/// Appends the member of the balance that is shown.
fn push_shown(shown: Option<i64>, out: &mut Vec<u8>) -> Result<(), AllocError> {
    match shown {
        Some(balance) => push_signed_member(b"balance", balance, out),
        None => Ok(()),
    }
}

/// Appends the member of the transaction that is reversed or completed.
fn push_other(act: &Act, out: &mut Vec<u8>) -> Result<(), AllocError> {
    let Some(key) = other_key(act) else {
        return Ok(());
    };
    push_name(b"of", out)?;
    out.push(b'{')?;
    push_key(&key, out)?;
    out.extend_from_slice(b"}")
}

/// Appends the object of an entry, and an end of line.
pub(crate) fn push_entry_object(
    is_clear: bool,
    row: &Row,
    out: &mut Vec<u8>,
) -> Result<(), AllocError> {
    let act = row.order.act();
    out.push(b'{')?;
    push_number_member(b"place", u64::from(row.answer.seq), out)?;
    push_key(&row.order.key(), out)?;
    push_text_member(b"what", word_of(&row.order).as_bytes(), out)?;
    push_act(is_clear, &act, out)?;
    push_digits_member(b"code", u64::from(row.answer.code), 2, out)?;
    push_shown(row.answer.shown, out)?;
    push_other(&act, out)?;
    out.extend_from_slice(b"}\n")
}

/// Appends the object of an account, and an end of line.
pub(crate) fn push_balance_object(
    is_clear: bool,
    row: &AccountRow,
    out: &mut Vec<u8>,
) -> Result<(), AllocError> {
    let account = &row.balance.account;
    out.push(b'{')?;
    push_account_member(is_clear, account.pan, out)?;
    push_text_member(b"currency", &account.currency, out)?;
    push_signed_member(b"opening", account.opening, out)?;
    push_signed_member(b"ledger", row.balance.ledger, out)?;
    push_signed_member(b"available", row.balance.available, out)?;
    push_number_member(b"holds", row.holds as u64, out)?;
    push_number_member(b"held", row.held, out)?;
    out.extend_from_slice(b"}\n")
}
