//! What a message tells that is left where it lies.
ghost use Rattle.std.specs.Prelude.{◌≡◌, ◌≤◌, ◌*◌, ℕ, List, true, length, nat_le, Ok, Some, None, IfOk, IfSome, OnOk, if◌then◌else◌};
ghost use Rattle.iso_parts.specs.Mti.{mti_number};
ghost use Rattle.iso_parts.specs.Reading.{got, part_at};
ghost use Rattle.iso_parts.specs.Spec.{IsGood};
ghost use Rattle.iso_wire.specs.Contents.{Contents};
ghost use Rattle.iso_wire.specs.Decimal.{number_in};
ghost use Rattle.iso_wire.specs.Reading.{message_at, whole};
ghost use Rattle.iso_wire.specs.Viewing.{Views};
ghost use Rattle.iso_order.specs.Fields.{text};
ghost use Rattle.iso_order.specs.Told.{is_answer, answered_base, told_of};
ghost use Rattle.iso_exchange.specs.Plain.{IsPlain};

use crate::packed::{is_packed, packed_number};
use iso_order::{MOST_STAN, Told, TxKey};
use iso_parts::raw::decode_value;
use iso_parts::{Coding, FieldSpec, Mti, Pad};
use iso_table::Table;
use iso_wire::{View, number_in};
use std::alloc::AllocError;

/// The largest number of two digits.
const MOST_CODE: u64 = 99;

/// Reads the value whose part the bytes begin with, in place of what was there.
fn decode_front(row: &FieldSpec, bytes: &[u8], value: &mut Vec<u8>) -> Result<(), AllocError>
    requires good { IsGood row.now }
    ensures value { OnOk result
        ((v : List ℕ) (used : ℕ) → part_at row.now bytes.now ≡ got v used → value.new.items ≡ v) }
{
    value.clear();
    match decode_value(row, bytes, value) {
        Ok(Some(_)) => Ok(()),
        Ok(None) => Ok(()),
        Err(_) => Err(AllocError),
    }
}

/// Reads the value of an element of the message that the whole body is, in place of what was there: nothing, where it is
/// missing.
fn read_text(
    table: &Table,
    message: &View<'_>,
    body: &[u8],
    n: u8,
    value: &mut Vec<u8>,
) -> Result<(), AllocError>
    requires viewed { Views table.now body.now (Ok message.now) (message_at table.now body.now) }
    requires all { message.now.used ≡ length body.now }
    ensures text { OnOk result
        ((m : Contents) (size : ℕ) → message_at table.now body.now ≡ whole m size
        → value.new.items ≡ text m n) }
{
    // the laws of parts and of views, for the prover
    iso_parts::laws::parts();
    iso_wire::laws::views();
    value.clear();
    let Some(place) = message.place(n) else {
        return Ok(());
    };
    let Some(row) = table.row(n) else {
        return Ok(());
    };
    let at = place.start.saturating_sub(row.length.prefix_size());
    let (_, part) = body.split_at(at);
    decode_front(row, part, value)
}

/// The number of an element of twice as many digits as bytes, of the message that the whole body is, where the table packs
/// them: it is read where it lies. `None` where it doesn't, and where the element is missing.
fn packed_at(table: &Table, message: &View<'_>, body: &[u8], n: u8, bytes: u16) -> Option<u64>
    requires viewed { Views table.now body.now (Ok message.now) (message_at table.now body.now) }
    requires all { message.now.used ≡ length body.now }
    requires few { bytes ≤ 9 }
    ensures { IfSome result
        (λ v. (m : Contents) (size : ℕ) → message_at table.now body.now ≡ whole m size
        → Some v ≡ number_in (2 * bytes) (2 * bytes) (text m n)) }
{
    let row = table.row(n)?;
    if !is_packed(row, bytes) {
        return None;
    }
    let wire = message.wire(n)?;
    packed_number(wire)
}

/// Whether the characters of each value of the row are the bytes themselves, with no padding.
fn is_plain(row: &FieldSpec) -> bool
    ensures { result ≡ true → IsPlain row.now }
{
    row.coding == Coding::Ascii && row.pad == Pad::None
}

/// The value of an element of the message that the whole body is, where its characters are the bytes themselves, with no
/// padding: it is read where it lies. `None` where they aren't, and where the element is missing.
fn plain_text<'a>(table: &Table, message: &View<'a>, body: &[u8], n: u8) -> Option<&'a [u8]>
    requires viewed { Views table.now body.now (Ok message.now) (message_at table.now body.now) }
    requires all { message.now.used ≡ length body.now }
    ensures { IfSome result
        (λ v. (m : Contents) (size : ℕ) → message_at table.now body.now ≡ whole m size
        → v.now ≡ text m n) }
{
    let row = table.row(n)?;
    if !is_plain(row) {
        return None;
    }
    message.wire(n)
}

/// The number that the value of an element writes in `least` to `most` digits, of the message that the whole body is.
fn number_of(
    table: &Table,
    message: &View<'_>,
    body: &[u8],
    n: u8,
    least: usize,
    most: usize,
    value: &mut Vec<u8>,
) -> Result<Option<u64>, AllocError>
    requires viewed { Views table.now body.now (Ok message.now) (message_at table.now body.now) }
    requires all { message.now.used ≡ length body.now }
    requires few { most ≤ 19 }
    ensures number { IfOk result
        (λ got. (m : Contents) (size : ℕ) → message_at table.now body.now ≡ whole m size
        → got ≡ number_in least most (text m n)) }
{
    if let Some(text) = plain_text(table, message, body, n) {
        return Ok(number_in(text, least, most));
    }
    read_text(table, message, body, n, value)?;
    Ok(number_in(value, least, most))
}

/// The number of an element of twice as many digits as bytes, of the message that the whole body is.
fn digits_at(
    table: &Table,
    message: &View<'_>,
    body: &[u8],
    n: u8,
    bytes: u16,
    value: &mut Vec<u8>,
) -> Result<Option<u64>, AllocError>
    requires viewed { Views table.now body.now (Ok message.now) (message_at table.now body.now) }
    requires all { message.now.used ≡ length body.now }
    requires few { bytes ≤ 9 }
    ensures { IfOk result
        (λ got. (m : Contents) (size : ℕ) → message_at table.now body.now ≡ whole m size
        → got ≡ number_in (2 * bytes) (2 * bytes) (text m n)) }
{
    if let Some(number) = packed_at(table, message, body, n, bytes) {
        return Ok(Some(number));
    }
    let digits = 2 * bytes as usize;
    number_of(table, message, body, n, digits, digits, value)
}

/// Whether it is the type of a response of version 0, class 1, 2 or 4 and origin 0 to 5.
fn is_answer(mti: Mti) -> bool
    ensures { (m : Contents) → m.mti ≡ mti_number mti → result ≡ is_answer m }
{
    mti.version == 0
        && matches!(mti.class, 1 | 2 | 4)
        && matches!(mti.function, 1 | 3)
        && mti.origin <= 5
}

/// The type of the request or advice that a response answers, without a repeat.
fn answered_base(mti: Mti) -> u16
    ensures { result ≡ answered_base (mti_number mti) }
{
    mti.base().number().saturating_sub(10)
}

/// A trace number of six digits at most.
fn trace_of(number: u64) -> Option<u32>
    ensures { result ≡ (if nat_le number 999999 then Some number else None) }
{
    if number <= MOST_STAN as u64 {
        Some(number as u32)
    } else {
        None
    }
}

/// A response code of two digits at most.
fn code_of(number: u64) -> Option<u8>
    ensures { result ≡ (if nat_le number 99 then Some number else None) }
{
    if number <= MOST_CODE {
        Some(number as u8)
    } else {
        None
    }
}

/// What an answer of that type tells, by its time, its trace number, its acquirer and its code, where it has them.
fn told_by(
    mti: Mti,
    sent: Option<u64>,
    stan: Option<u64>,
    acquirer: Option<u64>,
    code: Option<u64>,
) -> Option<Told>
    ensures { (m : Contents) → m.mti ≡ mti_number mti → sent ≡ number_in 10 10 (text m 7)
        → stan ≡ number_in 6 6 (text m 11)
        → acquirer ≡ number_in 1 11 (text m 32) → code ≡ number_in 2 2 (text m 39)
        → result ≡ told_of m }
{
    // the laws of decimals, for the prover
    iso_wire::laws::decimals();
    if !is_answer(mti) {
        return None;
    }
    let time = sent?;
    let number = stan?;
    let trace = trace_of(number)?;
    let institution = acquirer?;
    let response = code?;
    let decided = code_of(response)?;
    let key = TxKey {
        base: answered_base(mti),
        stan: trace,
        sent: time,
        acquirer: institution,
    };
    Some(Told { key, code: decided })
}

/// What the message that the whole body is tells of a transaction, as [`iso_order::answer_of`] reads it. Texts are read in
/// the room that is lent.
pub(crate) fn told_of(
    table: &Table,
    message: &View<'_>,
    body: &[u8],
    value: &mut Vec<u8>,
) -> Result<Option<Told>, AllocError>
    requires viewed { Views table.now body.now (Ok message.now) (message_at table.now body.now) }
    requires all { message.now.used ≡ length body.now }
    ensures told { IfOk result
        (λ told. (m : Contents) (size : ℕ) → message_at table.now body.now ≡ whole m size
        → m.mti ≡ message.now.mti → told ≡ told_of m) }
{
    let sent = digits_at(table, message, body, 7, 5, value)?;
    let stan = digits_at(table, message, body, 11, 3, value)?;
    let acquirer = number_of(table, message, body, 32, 1, 11, value)?;
    let code = number_of(table, message, body, 39, 2, 2, value)?;
    Ok(told_by(message.mti(), sent, stan, acquirer, code))
}
