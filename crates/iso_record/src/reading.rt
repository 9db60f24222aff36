//! Reading a record.
ghost use Rattle.std.specs.Prelude.{◌≡◌, ◌≤◌, ◌+◌, ◌^◌, ◌<◌, ◌==◌, length, true, Some, IfSome};
ghost use Rattle.iso_record.specs.Key.{key_of, number_at};
ghost use Rattle.std.specs.Prelude.{slice_index};
ghost use Rattle.iso_record.specs.Row.{part, pan_at, money_in, act_by, order_in, signed, shown_in, answer_in, row_in, row_bytes, is_row};

use crate::laws::{nothing_else, rows_come_back};
use crate::row::Row;
use crate::writing::row_bytes;
use iso_log::RECORD;
use iso_order::{Act, Answer, Money, Order, Pan, TxKey, currency_of};
use iso_wire::number_in;

/// The number in so many digits from a place on.
fn number_at(text: &[u8], at: usize, len: usize) -> Option<u64>
    requires few { len ≤ 19 }
    requires within { at + len ≤ length text.now }
    ensures value { result ≡ number_at text.now at len }
    ensures below { IfSome result (λ n. n < 10 ^ len) }
{
    number_in(&text[at..at + len], len, len)
}

/// The key that 31 digits are.
fn key_of(text: &[u8]) -> Option<TxKey>
    requires { 31 ≤ length text.now }
    ensures { result ≡ key_of text.now }
{
    let base = number_at(text, 0, 4)?;
    let stan = number_at(text, 4, 6)?;
    let sent = number_at(text, 10, 10)?;
    let acquirer = number_at(text, 20, 11)?;
    let key = TxKey {
        base: base as u16,
        stan: stan as u32,
        sent,
        acquirer,
    };
    if key.is_valid() { Some(key) } else { None }
}

/// The account number of so many digits.
fn pan_at(text: &[u8; RECORD], len: u64) -> Option<Pan>
    ensures { result ≡ pan_at text.now len }
{
    if len <= 19 {
        Pan::from_digits(&text[65..65 + len as usize])
    } else {
        None
    }
}

/// The money that is told.
fn money_in(text: &[u8; RECORD]) -> Option<Money>
    ensures { result ≡ money_in text.now }
{
    let len = number_at(text, 63, 2)?;
    let pan = pan_at(text, len)?;
    let amount = number_at(text, 84, 12)?;
    let currency = currency_of(&text[96..99])?;
    Some(Money {
        pan,
        amount,
        currency,
    })
}

/// What is asked.
fn act_in(text: &[u8; RECORD]) -> Option<Act>
    ensures { result ≡ act_by (slice_index text.now 31) text.now }
{
    match text[31] {
        b'D' => Some(Act::Debit(money_in(text)?)),
        b'C' => Some(Act::Credit(money_in(text)?)),
        b'I' => Some(Act::Inquiry(money_in(text)?)),
        b'U' => {
            let original = key_of(&text[32..63])?;
            let left = number_at(text, 84, 12)?;
            Some(Act::Undo { original, left })
        }
        b'F' => {
            let money = money_in(text)?;
            let hold = key_of(&text[32..63])?;
            Some(Act::Complete { money, hold })
        }
        _ => None,
    }
}

/// The order that is told, if it is one.
fn order_in(text: &[u8; RECORD]) -> Option<Order>
    ensures { result ≡ order_in text.now }
{
    let key = key_of(&text[..31])?;
    let act = act_in(text)?;
    Order::new(key, act)
}

/// A sign and a number, if an `i64` can be that.
fn signed(sign: u8, size: u64) -> Option<i64>
    ensures { result ≡ signed sign size }
{
    match sign {
        b'+' if size < 1 << 63 => Some(size as i64),
        b'-' if 1 <= size && size <= 1 << 63 => Some(-1 - (size - 1) as i64),
        _ => None,
    }
}

/// The balance that is shown, if one is.
fn shown_in(text: &[u8; RECORD]) -> Option<i64>
    ensures { result ≡ shown_in text.now }
{
    let size = number_at(text, 108, 19)?;
    signed(text[107], size)
}

/// The answer that is told.
fn answer_in(text: &[u8; RECORD]) -> Option<Answer>
    ensures { result ≡ answer_in text.now }
{
    let code = number_at(text, 99, 2)?;
    let seq = number_at(text, 101, 6)?;
    Some(Answer {
        code: code as u8,
        seq: seq as u32,
        shown: shown_in(text),
    })
}

/// As `read_row`, by the parts.
#[tactic(auto, unfolding(crate::specs::Row::row_in))]
fn row_in(text: &[u8; RECORD]) -> Option<Row>
    ensures value { result ≡ row_in text.now }
    ensures row { IfSome result (λ r. is_row r ≡ true) }
{
    let order = order_in(text)?;
    let answer = answer_in(text)?;
    let row = Row { order, answer };
    if row_bytes(&row) == *text {
        Some(row)
    } else {
        None
    }
}

/// The order and the answer that a record is, `None` for any other bytes. Takes no memory.
pub fn read_row(text: &[u8; RECORD]) -> Option<Row>
    // It is the order and the answer that the bytes tell, and `None` where they are no such record.
    ensures value { result ≡ row_in text.now }
    // The record of an order and an answer that can be written is read as that order and answer.
    ensures back { (r : Row) → is_row r ≡ true → row_bytes r ≡ text.now → result ≡ Some r }
    // Bytes that are read as an order and its answer are the very bytes of their record.
    ensures only { IfSome result (λ r. row_bytes r ≡ text.now) }
    // What is read can be written: an order that a message can ask, a code of at most 99, a
    // place of at most 999,999.
    ensures row { IfSome result (λ r. is_row r ≡ true) }
{
    rows_come_back();
    nothing_else();
    row_in(text)
}
