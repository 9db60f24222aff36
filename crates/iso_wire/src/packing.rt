//! Writing a message.

ghost use Rattle.std.specs.Prelude.{◌≡◌, ◌≢◌, ℕ, ◌+◌, ◌≤◌, ◌/◌, ◌++◌, ◌<◌, List, length, OnOk, OnErr, IfOk, IfErr, None, Some};
ghost use Rattle.std.specs.List.{flat_map};
ghost use Rattle.iso_parts.specs.Digits.{four_digits_of};
ghost use Rattle.iso_parts.specs.Mti.{mti_number};
ghost use Rattle.iso_parts.specs.Part.{prefix, plain_part, Part};
ghost use Rattle.iso_parts.specs.Spec.{refusal, Fits, IsGood};
ghost use Rattle.iso_wire.specs.Packing.{between, Continues};
ghost use Rattle.iso_wire.specs.declared.fault.PackFault.TheVariants as pack;
ghost use Rattle.iso_wire.specs.Ends.{views, elements_of, Ascend, IsWhole};
ghost use Rattle.iso_parts.specs.Numbers.{members};
ghost use Rattle.iso_parts.specs.Buffers.{Keeps};
ghost use Rattle.iso_table.specs.Layout.{row_at, AreGood};
ghost use Rattle.iso_wire.specs.Reading.{message_at, whole};
ghost use Rattle.iso_wire.specs.Refusal.{IsFirstRefusal, as_pack, refused_field, refused_by, first_refusal, message_refusal};
ghost use Rattle.iso_wire.specs.Spelling.{PartAs, Parts, plain_of, Spelling, PlainSpelling, AreBytes};

use crate::elements::Elements;
use crate::fault::PackFault;
use crate::laws::reads_spellings;
use crate::message::Message;
use iso_parts::raw::{encode_length, judge_value};
use iso_parts::{Bitmap, Digits, FieldFault, FieldSpec, Length, Mti, encode_field};
use iso_table::Table;
use std::alloc::{AllocError, Global};

/// The most bytes that a message type and two bitmaps take.
const LONGEST_HEAD: usize = 36;

/// The most bytes that a length takes.
const LONGEST_PREFIX: usize = 4;

/// The fault of element `n` whose value is refused.
fn pack_fault(n: u8, fault: FieldFault) -> PackFault
    ensures { result ≡ as_pack n fault }
{
    match fault {
        FieldFault::WrongLength => PackFault::WrongLength(n),
        FieldFault::NotInClass => PackFault::NotInClass(n),
        FieldFault::PadEnd => PackFault::PadEnd(n),
        _ => PackFault::Memory,
    }
}

/// Appends the plain part of a value as element `n`.
fn append_apart(spec: &FieldSpec, n: u8, value: &[u8], out: &mut Vec<u8>) -> Result<(), PackFault>
    requires { IsGood spec.now }
    ensures written { OnOk result (out.new.items ≡ out.old.items ++ plain_part spec.now value.now) }
    ensures spelled { OnOk result (Part spec.now value.now (plain_part spec.now value.now)) }
    ensures fits { OnOk result (refusal spec.now value.now ≡ None) }
    ensures fault { IfErr result (λ e. e ≢ pack.Memory
        → refused_field n (refusal spec.now value.now) ≡ Some e) }
    ensures unchanged { OnErr result (out.new.items ≡ out.old.items) }
{
    match encode_field(spec, value, out) {
        Ok(()) => Ok(()),
        Err(fault) => Err(pack_fault(n, fault)),
    }
}

/// Appends the bytes of the values from one place to another.
#[inline(always)]
fn append_run(values: &[u8], from: usize, to: usize, out: &mut Vec<u8>) -> Result<(), AllocError>
    requires order { from ≤ to }
    requires within { to ≤ length values.now }
    ensures ok { OnOk result (out.new.items ≡ out.old.items ++ between values.now from to) }
    ensures unchanged { OnErr result (out.new.items ≡ out.old.items) }
{
    if from == to {
        return Ok(());
    }
    out.extend_from_slice(&values[from..to])
}

/// Appends what stands before a value that is put on the wire as it is: the values that are still to be copied, and its
/// length. Gives from where on values are to be copied then.
#[inline(always)]
fn append_before(
    spec: &FieldSpec,
    values: &[u8],
    from: usize,
    at: usize,
    value: &[u8],
    out: &mut Vec<u8>,
) -> Result<usize, AllocError>
    requires good { IsGood spec.now }
    requires order { from ≤ at }
    requires within { at + length value.now ≤ length values.now }
    requires value { value.now ≡ between values.now at (at + length value.now) }
    requires fits { Fits spec.now value.now }
    ensures ok { IfOk result (λ next. (next ≤ at + length value.now)
        × Continues out.old.items out.new.items (between values.now from at)
        (prefix spec.now.length (length value.now) ++ value.now)
        (between values.now next (at + length value.now))) }
    ensures kept { Keeps out.old.items out.new.items }
{
    if spec.length == Length::Fixed {
        return Ok(from);
    }
    append_run(values, from, at, out)?;
    encode_length(spec, value, out)?;
    Ok(at)
}

/// Appends what stands before the next value, or its whole part where it isn't put on the wire as it is. Gives from where on
/// values are still to be copied.
#[inline(always)]
fn append_by(
    spec: &FieldSpec,
    n: u8,
    values: &[u8],
    from: usize,
    at: usize,
    end: usize,
    out: &mut Vec<u8>,
) -> Result<usize, PackFault>
    requires good { IsGood spec.now }
    requires order { from ≤ at }
    requires ascends { at ≤ end }
    requires within { end ≤ length values.now }
    ensures written { IfOk result (λ next. (next ≤ end)
        × Continues out.old.items out.new.items (between values.now from at)
        (plain_part spec.now (between values.now at end)) (between values.now next end)) }
    ensures spelled { OnOk result (Part spec.now (between values.now at end)
        (plain_part spec.now (between values.now at end))) }
    ensures fits { OnOk result (refusal spec.now (between values.now at end) ≡ None) }
    ensures fault { IfErr result (λ e. e ≢ pack.Memory
        → refused_field n (refusal spec.now (between values.now at end)) ≡ Some e) }
    ensures kept { Keeps out.old.items out.new.items }
{
    let value = &values[at..end];
    if !spec.is_plain() {
        append_run(values, from, at, out)?;
        append_apart(spec, n, value, out)?;
        return Ok(end);
    }
    if let Some(fault) = judge_value(spec, value) {
        return Err(pack_fault(n, fault));
    }
    match append_before(spec, values, from, at, value, out) {
        Ok(next) => Ok(next),
        Err(_) => Err(PackFault::Memory),
    }
}

/// The same of element `n`, under the row that the table has for it.
#[inline(always)]
fn append_part(
    table: &Table,
    n: u8,
    values: &[u8],
    from: usize,
    at: usize,
    end: usize,
    out: &mut Vec<u8>,
) -> Result<usize, PackFault>
    requires order { from ≤ at }
    requires ascends { at ≤ end }
    requires within { end ≤ length values.now }
    ensures written { IfOk result (λ next. (next ≤ end)
        × Continues out.old.items out.new.items (between values.now from at)
        (plain_of table.now.rows (n, between values.now at end)) (between values.now next end)) }
    ensures spelled { OnOk result (PartAs table.now.rows n (between values.now at end)
        (plain_of table.now.rows (n, between values.now at end))) }
    ensures fits { OnOk result
        (refused_by (row_at table.now.rows n) n (between values.now at end) ≡ None) }
    ensures fault { IfErr result (λ e. e ≢ pack.Memory
        → refused_by (row_at table.now.rows n) n (between values.now at end) ≡ Some e) }
    ensures kept { Keeps out.old.items out.new.items }
{
    let Some(row) = table.row(n) else {
        return Err(PackFault::NoRow(n));
    };
    match append_by(row, n, values, from, at, end, out) {
        Ok(next) => Ok(next),
        Err(fault) => Err(fault),
    }
}

/// Appends the plain parts of the elements but for the values at the end that are still to be copied, and gives where these
/// begin. Values that stand side by side are copied at once.
#[inline(always)]
fn append_fronts(
    table: &Table,
    numbers: Bitmap,
    ends: &[usize],
    values: &[u8],
    out: &mut Vec<u8>,
) -> Result<usize, PackFault>
    requires ends { Ascend 0 ends.now (length values.now) }
    requires count { length ends.now ≡ length (members numbers) }
    ensures written { IfOk result (λ from. (from ≤ length values.now)
        × (out.new.items ++ between values.now from (length values.now)
        ≡ out.old.items ++ flat_map (plain_of table.now.rows)
        (elements_of (members numbers) 0 ends.now values.now))) }
    ensures spelled { OnOk result (Parts table.now.rows
        (elements_of (members numbers) 0 ends.now values.now)
        (flat_map (plain_of table.now.rows)
        (elements_of (members numbers) 0 ends.now values.now))) }
    ensures fits { OnOk result
        (first_refusal table.now.rows (elements_of (members numbers) 0 ends.now values.now)
        ≡ None) }
    ensures fault { IfErr result (λ e. e ≢ pack.Memory
        → first_refusal table.now.rows (elements_of (members numbers) 0 ends.now values.now)
        ≡ Some e) }
    ensures kept { Keeps out.old.items out.new.items }
{
    let mut left = numbers;
    let mut rest = ends;
    let mut from = 0;
    let mut at = 0;
    while let Some((end, later)) = rest.split_first() {
        let Some(n) = left.take_first() else {
            unreachable!();
        };
        match append_part(table, n, values, from, at, *end, out) {
            Ok(next) => from = next,
            Err(fault) => return Err(fault),
        }
        at = *end;
        rest = later;
    }
    Ok(from)
}

/// Appends the plain parts of the elements.
fn append_parts(table: &Table, elements: &Elements, out: &mut Vec<u8>) -> Result<(), PackFault>
    requires { IsWhole elements.now }
    ensures written { OnOk result
        (out.new.items ≡ out.old.items ++ flat_map (plain_of table.now.rows) (views elements.now)) }
    ensures spelled { OnOk result (Parts table.now.rows (views elements.now)
        (flat_map (plain_of table.now.rows) (views elements.now))) }
    ensures fits { OnOk result (first_refusal table.now.rows (views elements.now) ≡ None) }
    ensures fault { IfErr result
        (λ e. e ≢ pack.Memory → first_refusal table.now.rows (views elements.now) ≡ Some e) }
    ensures kept { OnErr result (Keeps out.old.items out.new.items) }
    // Each item is a byte.
    ensures bytes { AreBytes out.new.items }
{
    let values = &elements.values;
    match append_fronts(table, elements.numbers, &elements.ends, values, out) {
        Ok(from) => match append_run(values, from, values.len(), out) {
            Ok(()) => Ok(()),
            Err(_) => Err(PackFault::Memory),
        },
        Err(fault) => Err(fault),
    }
}

/// Appends the four digits of a message type.
fn append_mti(digits: Digits, mti: Mti, out: &mut Vec<u8>) -> Result<(), AllocError>
    ensures ok { OnOk result
        (out.new.items ≡ out.old.items ++ four_digits_of digits (mti_number mti)) }
    ensures unchanged { OnErr result (out.new.items ≡ out.old.items) }
{
    match digits {
        Digits::Ascii => out.extend_from_slice(&[
            b'0' + mti.version,
            b'0' + mti.class,
            b'0' + mti.function,
            b'0' + mti.origin,
        ]),
        Digits::Bcd => out.extend_from_slice(&[
            16 * mti.version + mti.class,
            16 * mti.function + mti.origin,
        ]),
    }
}

/// Makes room for the plain spelling of the elements, behind the bytes that are there.
fn make_room(elements: &Elements, out: &mut Vec<u8>) -> Result<(), AllocError>
    ensures { out.new.items ≡ out.old.items }
{
    let prefixes = elements.ends.len().saturating_mul(LONGEST_PREFIX);
    let bodies = elements.values.len().saturating_mul(2);
    out.reserve(LONGEST_HEAD.saturating_add(prefixes).saturating_add(bodies))
}

/// Appends the plain spelling of a message. After a fault a part of it may be there.
fn append_spelling(table: &Table, message: &Message, out: &mut Vec<u8>) -> Result<(), PackFault>
    ensures packed { OnOk result ((b : List ℕ) × PlainSpelling table.now message.now b
        × (out.new.items ≡ out.old.items ++ b)) }
    ensures accepted { OnOk result (message_refusal table.now message.now ≡ None) }
    ensures fault { IfErr result
        (λ e. e ≢ pack.Memory → message_refusal table.now message.now ≡ Some e) }
    ensures kept { OnErr result (Keeps out.old.items out.new.items) }
    // Each item is a byte.
    ensures bytes { OnOk result (AreBytes out.new.items) }
    ensures good { AreGood table.now.rows }
{
    let mti = message.mti();
    if mti.version != table.version() {
        return Err(PackFault::WrongVersion);
    }
    let elements = message.parts();
    make_room(elements, out)?;
    append_mti(table.mti(), mti, out)?;
    let numbers = message.elements();
    numbers.append(table.bitmap(), out)?;
    append_parts(table, elements, out)?;
    Ok(())
}

/// Appends a message as [`pack`] writes it, behind the bytes that are there. Its room is made at once, by the bytes of its
/// values; padding alone may want more. After a fault the buffer holds the bytes that it held before.
pub fn append_message(table: &Table, message: &Message, out: &mut Vec<u8>) -> Result<(), PackFault>
    // What is appended is the plain spelling of the message.
    ensures packed { OnOk result ((b : List ℕ) × PlainSpelling table.now message.now b
        × (out.new.items ≡ out.old.items ++ b)) }
    // What is appended has the table's version, and each of its values fits its element's row.
    ensures accepted { OnOk result (message_refusal table.now message.now ≡ None) }
    // A message that has a spelling is appended, unless memory runs out.
    ensures only { (b : List ℕ) → Spelling table.now message.now b
        → IfErr result (λ e. e ≡ pack.Memory) }
    // Memory aside, the fault is the first reason to refuse the message: its version, or an
    // element, by ascending number.
    ensures fault { IfErr result
        (λ e. e ≢ pack.Memory → message_refusal table.now message.now ≡ Some e) }
    // Where the version is the table's, and memory aside, the fault is that of one element, and no
    // element before it is refused.
    ensures first { IfErr result
        (λ e. e ≢ pack.Memory → message.now.mti / 1000 ≡ table.now.version
        → IsFirstRefusal table.now.rows message.now.elements e) }
    // After a fault nothing is appended.
    ensures unchanged { OnErr result (out.new.items ≡ out.old.items) }
    // Whatever bytes follow it, what is appended reads as the message, and no byte more.
    ensures again { OnOk result
        ((b rest : List ℕ) → out.new.items ≡ out.old.items ++ b → AreBytes rest
        → message_at table.now (b ++ rest) ≡ whole message.now (length b)) }
{
    reads_spellings();
    let start = out.len();
    match append_spelling(table, message, out) {
        Ok(()) => Ok(()),
        Err(fault) => {
            out.truncate(start);
            Err(fault)
        }
    }
}

/// Writes a message: its type, its bitmaps, and its elements in ascending number. A secondary bitmap is written
/// only where the message has an element above 64, filler nibbles are 0, and hexadecimal digits are in upper case.
///
/// The version is looked at first, then the elements in ascending number.
pub fn pack(alloc: Global, table: &Table, message: &Message) -> Result<Vec<u8>, PackFault>
    // What is written is the plain spelling of the message.
    ensures packed { IfOk result (λ out. PlainSpelling table.now message.now out.items) }
    // What is written has the table's version, and each of its values fits its element's row.
    ensures accepted { OnOk result (message_refusal table.now message.now ≡ None) }
    // A message that has a spelling is written, unless memory runs out.
    ensures only { (b : List ℕ) → Spelling table.now message.now b
        → IfErr result (λ e. e ≡ pack.Memory) }
    // Memory aside, the fault is the first reason to refuse the message: its version, or an
    // element, by ascending number.
    ensures fault { IfErr result
        (λ e. e ≢ pack.Memory → message_refusal table.now message.now ≡ Some e) }
    // Where the version is the table's, and memory aside, the fault is that of one element, and no
    // element before it is refused.
    ensures first { IfErr result
        (λ e. e ≢ pack.Memory → message.now.mti / 1000 ≡ table.now.version
        → IsFirstRefusal table.now.rows message.now.elements e) }
    // Whatever bytes follow it, what is written reads as the message, and no byte more.
    ensures again { IfOk result (λ out. (rest : List ℕ) → AreBytes rest →
        message_at table.now (out.items ++ rest) ≡ whole message.now (length out.items)) }
{
    let mut out = Vec::new(alloc);
    match append_message(table, message, &mut out) {
        Ok(()) => Ok(out),
        Err(fault) => Err(fault),
    }
}
