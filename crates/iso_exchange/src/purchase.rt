//! The request for a purchase, written part by part.
ghost use Rattle.std.specs.Prelude.{◌≡◌, ◌≢◌, ◌≤◌, ◌<◌, ◌^◌, ◌||◌, ◌==◌, ◌++◌, true, ℕ, List, OnOk};
ghost use Rattle.std.specs.List.{flat_map};
ghost use Rattle.iso_parts.specs.Bitmap.{contains};
ghost use Rattle.iso_parts.specs.Digits.{four_digits_of};
ghost use Rattle.iso_parts.specs.Mti.{mti_number};
ghost use Rattle.iso_table.specs.Layout.{AreGood};
ghost use Rattle.iso_wire.specs.Decimal.{decimal};
ghost use Rattle.iso_wire.specs.Elements.{has};
ghost use Rattle.iso_wire.specs.Spelling.{Parts, PlainSpelling, plain_of};
ghost use Rattle.iso_order.specs.Order.{Instruction};
ghost use Rattle.iso_order.specs.Requests.{request};
ghost use Rattle.iso_order.specs.declared.act.Act.TheVariants.{Debit};
ghost use Rattle.iso_exchange.specs.Packed.{counted, ArePacked, IsPackedAt};
ghost use Rattle.iso_exchange.specs.Purchase.{purchase_elements, four_elements, four_packed, AddsPart, AddsParts};

use crate::packed::{is_counted, is_packed, packed_five, packed_six, packed_three, write_packed};
use iso_order::{Money, Order, TxKey};
use iso_parts::raw::{four_ascii_digits, four_bcd_digits};
use iso_parts::{Bitmap, Digits, FieldFault, Mti, encode_field};
use iso_table::Table;
use iso_wire::{PackFault, digits_of, write_decimal};
use std::alloc::AllocError;

/// The most bytes that the request for a purchase takes: its type, its bitmap, and the values of its elements, each character
/// in two bytes, with their lengths.
const LONGEST_PURCHASE: usize = 192;

/// The largest number of an acquirer: eleven nines.
const MOST_ACQUIRER: u64 = 99_999_999_999;

/// The fault of element `n` whose value is refused.
fn pack_fault(n: u8, fault: FieldFault) -> PackFault {
    match fault {
        FieldFault::WrongLength => PackFault::WrongLength(n),
        FieldFault::NotInClass => PackFault::NotInClass(n),
        FieldFault::PadEnd => PackFault::PadEnd(n),
        _ => PackFault::Memory,
    }
}

/// Appends the plain part of a value as element `n`.
fn append_part(table: &Table, n: u8, value: &[u8], out: &mut Vec<u8>) -> Result<(), PackFault>
    ensures { OnOk result (AddsPart table.now.rows n value.now out.old.items out.new.items) }
{
    let Some(row) = table.row(n) else {
        return Err(PackFault::NoRow(n));
    };
    match encode_field(row, value, out) {
        Ok(()) => Ok(()),
        Err(fault) => Err(pack_fault(n, fault)),
    }
}

/// Appends the plain part of a number in so many digits as element `n`.
fn append_number(
    table: &Table,
    n: u8,
    number: u64,
    digits: usize,
    out: &mut Vec<u8>,
) -> Result<(), PackFault>
    requires few { digits ≤ 19 }
    ensures { OnOk result
        (AddsPart table.now.rows n (decimal digits number) out.old.items out.new.items) }
{
    let mut room = [0; 19];
    let text = &mut room[..digits];
    write_decimal(text, number);
    append_part(table, n, text, out)
}

/// Appends so many digits of a number, packed behind their count.
fn append_counted(digits: usize, number: u64, out: &mut Vec<u8>) -> Result<(), AllocError>
    requires few { digits ≤ 19 }
    ensures { OnOk result (out.new.items ≡ out.old.items ++ counted digits number) }
{
    let mut room = [0; 10];
    let bytes = &mut room[..(digits + 1) / 2];
    write_packed(bytes, number);
    out.push(16 * (digits / 10) as u8 + (digits % 10) as u8)?;
    out.extend_from_slice(bytes)
}

/// Appends the plain part of a number of so many digits as element `n`. Where the table packs them behind their count, they
/// are written so at once.
fn append_digits(
    table: &Table,
    n: u8,
    number: u64,
    digits: usize,
    out: &mut Vec<u8>,
) -> Result<(), PackFault>
    requires few { digits ≤ 19 }
    requires fits { number < 10 ^ digits }
    ensures { OnOk result
        (AddsPart table.now.rows n (decimal digits number) out.old.items out.new.items) }
{
    // the laws of parts and of decimals, for the prover
    iso_parts::laws::parts();
    iso_wire::laws::decimals();
    let Some(row) = table.row(n) else {
        return Err(PackFault::NoRow(n));
    };
    if is_counted(row, digits as u16) {
        append_counted(digits, number, out)?;
        return Ok(());
    }
    append_number(table, n, number, digits, out)
}

/// Whether the table packs an element, in so many bytes.
fn is_packed_at(table: &Table, n: u8, bytes: u16) -> bool
    requires few { bytes ≤ 9 }
    ensures packed { result ≡ true → IsPackedAt table.now.rows n bytes }
    ensures good { AreGood table.now.rows }
{
    match table.row(n) {
        Some(row) => is_packed(row, bytes),
        None => false,
    }
}

/// Whether the table packs the elements 3, 4, 7 and 11, which stand one behind the other in a purchase.
fn are_packed(table: &Table) -> bool
    ensures packed { result ≡ true → ArePacked table.now.rows }
    ensures good { AreGood table.now.rows }
{
    is_packed_at(table, 3, 3)
        && is_packed_at(table, 4, 6)
        && is_packed_at(table, 7, 5)
        && is_packed_at(table, 11, 3)
}

/// Appends goods and services, the amount, the time and the trace number in packed digits, all at once.
fn append_at_once(amount: u64, key: &TxKey, out: &mut Vec<u8>) -> Result<(), AllocError>
    ensures { OnOk result (out.new.items ≡ out.old.items ++ four_packed amount key.now) }
{
    let [a, b, c, d, e, f] = packed_six(amount);
    let [g, h, i, j, k] = packed_five(key.sent);
    let [l, m, n] = packed_three(key.stan as u64);
    out.extend_from_slice(&[0, 0, 0, a, b, c, d, e, f, g, h, i, j, k, l, m, n])
}

/// Appends the plain parts of the elements 3, 4, 7 and 11 of a purchase.
fn append_numbers(
    table: &Table,
    key: &TxKey,
    amount: u64,
    out: &mut Vec<u8>,
) -> Result<(), PackFault>
    ensures { OnOk result
        (AddsParts table.now.rows (four_elements amount key.now) out.old.items out.new.items) }
{
    // the laws of parts and of decimals, for the prover
    iso_parts::laws::parts();
    iso_wire::laws::decimals();
    if are_packed(table) {
        append_at_once(amount, key, out)?;
        return Ok(());
    }
    append_number(table, 3, 0, 6, out)?;
    append_number(table, 4, amount, 12, out)?;
    append_number(table, 7, key.sent, 10, out)?;
    append_number(table, 11, key.stan as u64, 6, out)
}

/// Appends the plain parts of the elements of a purchase.
fn append_parts(
    table: &Table,
    key: &TxKey,
    money: &Money,
    out: &mut Vec<u8>,
) -> Result<(), PackFault>
    requires few { key.now.acquirer ≤ 99999999999 }
    ensures written { OnOk result (out.new.items ≡ out.old.items
        ++ flat_map (plain_of table.now.rows) (purchase_elements key.now money.now)) }
    ensures spelled { OnOk result (Parts table.now.rows (purchase_elements key.now money.now)
        (flat_map (plain_of table.now.rows) (purchase_elements key.now money.now))) }
{
    // the law that an acquirer's own digits are its code, for the prover
    iso_order::laws::acquirers_in_own_digits();
    let (account, len) = (money.pan.digits(), money.pan.len());
    append_digits(table, 2, account, len as usize, out)?;
    append_numbers(table, key, money.amount, out)?;
    let digits = digits_of(key.acquirer);
    append_digits(table, 32, key.acquirer, digits as usize, out)?;
    append_part(table, 49, &money.currency, out)
}

/// A set with one number more.
#[inline(always)]
fn put(numbers: Bitmap, n: u8) -> Bitmap
    requires low { 2 ≤ n }
    requires high { n ≤ 128 }
    requires not_65 { n ≢ 65 }
    ensures { (k : ℕ) → contains result k ≡ (n == k || contains numbers k) }
{
    let mut more = numbers;
    more.set(n);
    more
}

/// The numbers of the elements of a purchase.
fn numbers() -> Bitmap
    ensures { (key : TxKey) (money : Money) (k : ℕ)
        → contains result k ≡ has (purchase_elements key money) k }
{
    let last = put(put(put(Bitmap::new(), 49), 32), 11);
    put(put(put(put(last, 7), 4), 3), 2)
}

/// Appends the four digits of a message type.
fn append_type(digits: Digits, mti: Mti, out: &mut Vec<u8>) -> Result<(), AllocError>
    ensures { OnOk result
        (out.new.items ≡ out.old.items ++ four_digits_of digits (mti_number mti)) }
{
    let number = usize::from(mti.number());
    match digits {
        Digits::Ascii => out.extend_from_slice(&four_ascii_digits(number)),
        Digits::Bcd => out.extend_from_slice(&four_bcd_digits(number)),
    }
}

/// The type that a number of four digits writes.
fn type_of(number: u16) -> Mti
    requires { number ≤ 9999 }
    ensures { mti_number result ≡ number }
{
    Mti::from_digits(number).unwrap()
}

/// Appends the request for a purchase, whose key the order has. After an `Err` a part of it may be there.
pub(crate) fn append_purchase(
    table: &Table,
    order: &Order,
    money: &Money,
    out: &mut Vec<u8>,
) -> Result<(), PackFault>
    requires { order.now.act ≡ Debit money.now }
    ensures { OnOk result ((b : List ℕ) × PlainSpelling table.now (request order.now) b
        × (out.new.items ≡ out.old.items ++ b)) }
{
    // the law that a request is well formed, for the prover
    iso_order::laws::requests_are_well_formed();
    let key = order.key();
    let mti = type_of(key.base);
    if mti.version != table.version() {
        return Err(PackFault::WrongVersion);
    }
    if key.acquirer > MOST_ACQUIRER {
        return Err(PackFault::WrongLength(32));
    }
    out.reserve(LONGEST_PURCHASE)?;
    append_type(table.mti(), mti, out)?;
    numbers().append(table.bitmap(), out)?;
    append_parts(table, &key, money, out)
}
