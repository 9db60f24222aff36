//! Writing a record.
ghost use Rattle.std.specs.Prelude.{◌≡◌, ◌≤◌, ◌+◌, ◌<◌, ◌++◌, ◌∷◌, [], length, take, true, Some, unsigned_abs, option_map};
ghost use Rattle.iso_wire.specs.Decimal.{decimal};
ghost use Rattle.iso_order.specs.Order.{is_valid, money_of, amount_of};
ghost use Rattle.iso_log.specs.Slots.{is_whole};
ghost use Rattle.iso_record.specs.Key.{key_bytes};
ghost use Rattle.iso_record.specs.Row.{blanks, letter, other_key, pan_len, pan_text, pan, currency, order_bytes, sign, size, answer_bytes, row_bytes, is_shown, is_answer, is_row};

use crate::laws::rows_are_whole;
use crate::row::Row;
use iso_log::RECORD;
use iso_order::{Act, Answer, Money, Order, Pan, TxKey};
use iso_wire::write_decimal;

/// Puts a part there: what is in front of it stays.
pub(crate) fn put(bytes: &mut [u8; RECORD], at: usize, part: &[u8])
    requires { at + length part.now ≤ 128 }
    ensures { take (at + length part.now) bytes.new ≡ take at bytes.old ++ part.now }
{
    bytes[at..at + part.len()].copy_from_slice(part);
}

/// Puts a number in so many digits.
pub(crate) fn put_number(bytes: &mut [u8; RECORD], at: usize, len: usize, v: u64)
    requires few { len ≤ 20 }
    requires within { at + len ≤ 128 }
    ensures { take (at + len) bytes.new ≡ take at bytes.old ++ decimal len v }
{
    write_decimal(&mut bytes[at..at + len], v);
}

/// Puts so many blanks.
pub(crate) fn put_blanks(bytes: &mut [u8; RECORD], at: usize, len: usize)
    requires few { len ≤ 31 }
    requires within { at + len ≤ 128 }
    ensures { take (at + len) bytes.new ≡ take at bytes.old ++ blanks len }
{
    put(bytes, at, &[b' '; 31][..len]);
}

/// Puts the 31 digits of a key.
fn put_key(bytes: &mut [u8; RECORD], at: usize, key: &TxKey)
    requires { at + 31 ≤ 128 }
    ensures { take (at + 31) bytes.new ≡ take at bytes.old ++ key_bytes key.now }
{
    put_number(bytes, at, 4, key.base as u64);
    put_number(bytes, at + 4, 6, key.stan as u64);
    put_number(bytes, at + 10, 10, key.sent);
    put_number(bytes, at + 20, 11, key.acquirer);
}

/// The letter of what is asked.
fn letter(act: &Act) -> u8
    ensures { result ≡ letter act.now }
{
    match act {
        Act::Debit(_) => b'D',
        Act::Credit(_) => b'C',
        Act::Inquiry(_) => b'I',
        Act::Undo { .. } => b'U',
        Act::Complete { .. } => b'F',
    }
}

/// Puts the key of the transaction that is taken back or completed.
fn put_other_key(bytes: &mut [u8; RECORD], act: &Act)
    ensures { take 63 bytes.new ≡ take 32 bytes.old ++ other_key act.now }
{
    match act {
        Act::Debit(_) | Act::Credit(_) | Act::Inquiry(_) => put_blanks(bytes, 32, 31),
        Act::Undo { original, .. } => put_key(bytes, 32, original),
        Act::Complete { hold, .. } => put_key(bytes, 32, hold),
    }
}

/// Puts an account number, and blanks behind it.
fn put_pan(bytes: &mut [u8; RECORD], pan: &Pan)
    ensures { take 84 bytes.new ≡ take 65 bytes.old ++ pan_text pan.now }
{
    let len = pan.len() as usize;
    put_number(bytes, 65, len, pan.digits());
    put_blanks(bytes, 65 + len, 19 - len);
}

/// Puts how long the account number is, and the number.
fn put_account(bytes: &mut [u8; RECORD], money: &Option<Money>)
    ensures { take 84 bytes.new ≡ take 63 bytes.old ++ (pan_len money.now ++ pan money.now) }
{
    match money {
        Some(money) => {
            put_number(bytes, 63, 2, money.pan.len() as u64);
            put_pan(bytes, &money.pan);
        }
        None => put_blanks(bytes, 63, 21),
    }
}

/// Puts the currency.
fn put_currency(bytes: &mut [u8; RECORD], money: &Option<Money>)
    ensures { take 99 bytes.new ≡ take 96 bytes.old ++ currency money.now }
{
    match money {
        Some(money) => put(bytes, 96, &money.currency),
        None => put_blanks(bytes, 96, 3),
    }
}

/// The amount, or what is left of one.
fn amount_of(act: &Act) -> u64
    ensures { result ≡ amount_of act.now }
{
    match act {
        Act::Debit(money) | Act::Credit(money) | Act::Inquiry(money) => money.amount,
        Act::Undo { left, .. } => *left,
        Act::Complete { money, .. } => money.amount,
    }
}

/// Puts an order in front.
fn put_order(bytes: &mut [u8; RECORD], order: &Order)
    ensures bytes { take 99 bytes.new ≡ order_bytes order.now }
    ensures valid { is_valid order.now ≡ true }
{
    let act = order.act();
    let money = act.money();
    put_key(bytes, 0, &order.key());
    put(bytes, 31, &[letter(&act)]);
    put_other_key(bytes, &act);
    put_account(bytes, &money);
    put_number(bytes, 84, 12, amount_of(&act));
    put_currency(bytes, &money);
}

/// The sign of a balance, a blank where none is shown.
fn sign(shown: &Option<i64>) -> u8
    ensures { result ≡ sign shown.now }
{
    match shown {
        Some(balance) if *balance < 0 => b'-',
        Some(_) => b'+',
        None => b' ',
    }
}

/// A balance without its sign.
fn magnitude(balance: i64) -> u64
    ensures value { result ≡ unsigned_abs balance }
    ensures fits { is_shown (Some balance) ≡ true }
{
    balance.unsigned_abs()
}

/// The balance that is shown without its sign.
fn magnitude_of(shown: Option<i64>) -> Option<u64>
    ensures value { result ≡ option_map unsigned_abs shown }
    ensures fits { is_shown shown ≡ true }
{
    match shown {
        Some(balance) => Some(magnitude(balance)),
        None => None,
    }
}

/// Puts the balance that is shown.
fn put_shown(bytes: &mut [u8; RECORD], shown: Option<i64>)
    ensures bytes { take 127 bytes.new ≡ take 107 bytes.old ++ (sign shown ∷ [] ++ size shown) }
    ensures fits { is_shown shown ≡ true }
{
    put(bytes, 107, &[sign(&shown)]);
    match magnitude_of(shown) {
        Some(size) => put_number(bytes, 108, 19, size),
        None => put_blanks(bytes, 108, 19),
    }
}

/// Puts an answer behind the order.
fn put_answer(bytes: &mut [u8; RECORD], answer: &Answer)
    ensures bytes { take 128 bytes.new ≡ take 99 bytes.old ++ answer_bytes answer.now }
    ensures valid { is_answer answer.now ≡ true }
{
    put_number(bytes, 99, 2, answer.code as u64);
    put_number(bytes, 101, 6, answer.seq as u64);
    put_shown(bytes, answer.shown);
    put(bytes, 127, b"\n");
}

/// The record of an order and its answer. Takes no memory.
pub fn row_bytes(row: &Row) -> [u8; RECORD]
    // It has the order in 99 bytes, and the answer in the 29 behind them, in a journal's columns.
    ensures bytes { result ≡ row_bytes row.now }
    // Each order and answer can be written: a message can ask the order, the code is at most 99,
    // and the place at most 999,999.
    ensures row { is_row row.now ≡ true }
    // It has 128 bytes, and none of them is zero.
    ensures whole { is_whole result ≡ true }
{
    rows_are_whole();
    let mut bytes = [b' '; RECORD];
    put_order(&mut bytes, &row.order);
    put_answer(&mut bytes, &row.answer);
    bytes
}
