//! What a message begins with: its type, and its bitmaps, which tell the elements that follow.

ghost use Rattle.std.specs.Prelude.{◌≡◌, ◌≢◌, ◌≤◌, ◌<◌, ◌^◌, length, option_map, IfOk, IfErr, OnOk};
ghost use Rattle.iso_parts.specs.Digits.{four_digits_in};
ghost use Rattle.iso_parts.specs.Bitmap.{contains, map_size, AreElements};
ghost use Rattle.iso_parts.specs.Mti.{mti_number, mti_size};
ghost use Rattle.iso_parts.specs.Numbers.{numbers_in};
ghost use Rattle.iso_table.specs.Layout.{AreGood};
ghost use Rattle.iso_wire.specs.Beginning.{begun, beginning_at};
ghost use Rattle.iso_wire.specs.Numbers.{unknown};
ghost use Rattle.iso_wire.specs.declared.fault.UnpackCause.TheVariants.{Memory};
ghost use Rattle.iso_wire.specs.Reading.{Gives, type_at, word_at, known_by, primary_at, secondary_at, words_at};

use crate::fault::{UnpackCause, UnpackFault};
use iso_parts::raw::{bcd_characters, tells_another};
use iso_parts::{Bitmap, BitmapCoding, Digits, Mti};
use iso_table::Table;

/// What a message begins with: its type, the numbers of its elements, and where the first of them begins.
#[derive(Clone, Copy)]
pub(crate) struct Beginning {
    pub(crate) mti: Mti,
    pub(crate) numbers: Bitmap,
    pub(crate) end: usize,
}

/// The type that the bytes of one tell.
fn mti_of(digits: Digits, bytes: &[u8]) -> Option<Mti>
    requires { length bytes.now ≡ mti_size digits }
    ensures { option_map mti_number result ≡ four_digits_in digits bytes.now }
{
    match (digits, bytes) {
        (Digits::Ascii, _) => Mti::from_text(bytes),
        (Digits::Bcd, [x, y]) => Mti::from_text(&bcd_characters(*x, *y)),
        _ => unreachable!(),
    }
}

/// The message type that the bytes begin with.
pub(crate) fn type_of(table: &Table, bytes: &[u8]) -> Result<Mti, UnpackFault>
    ensures exact { Gives mti_number result (type_at table.now bytes.now) }
    ensures room { OnOk result (mti_size table.now.mti ≤ length bytes.now) }
    ensures no_memory { IfErr result (λ e. e.cause ≢ Memory) }
    ensures good { AreGood table.now.rows }
{
    let version = table.version();
    let size = table.mti().mti_size();
    if bytes.len() < size {
        return Err(UnpackFault::stop(0, 0, UnpackCause::Short));
    }
    let (front, _) = bytes.split_at(size);
    match mti_of(table.mti(), front) {
        None => Err(UnpackFault::stop(0, 0, UnpackCause::BadMti)),
        Some(mti) => {
            if mti.version == version {
                Ok(mti)
            } else {
                Err(UnpackFault::stop(0, 0, UnpackCause::WrongVersion))
            }
        }
    }
}

/// The word of the bitmap that the bytes begin with.
fn word_of(coding: BitmapCoding, element: u8, at: usize, bytes: &[u8]) -> Result<u64, UnpackFault>
    ensures exact { result ≡ word_at coding element at bytes.now }
    ensures room { IfOk result (λ word. map_size coding ≤ length bytes.now) }
    ensures no_memory { IfErr result (λ e. e.cause ≢ Memory) }
{
    let size = coding.size();
    if bytes.len() < size {
        return Err(UnpackFault::stop(element, at, UnpackCause::Short));
    }
    let (front, _) = bytes.split_at(size);
    match coding.word(front) {
        Some(word) => Ok(word),
        None => Err(UnpackFault::stop(element, at, UnpackCause::BadHex)),
    }
}

/// The first of the numbers that the words tell and that has no row.
fn unknown_of(table: &Table, primary: u64, secondary: u64) -> Option<u8>
    requires { secondary < 2 ^ 63 }
    ensures { result ≡ unknown table.now.rows (numbers_in primary secondary) }
{
    Bitmap::from_words(primary, secondary).missing_from(&table.known())
}

/// The word, unless a number has no row.
fn known_word(element: u8, at: usize, word: u64, unknown: Option<u8>) -> Result<u64, UnpackFault>
    ensures exact { result ≡ known_by element at word unknown }
    ensures no_memory { IfErr result (λ e. e.cause ≢ Memory) }
{
    match unknown {
        None => Ok(word),
        Some(n) => Err(UnpackFault::stop(element, at, UnpackCause::UnknownElement(n))),
    }
}

/// The word of the primary bitmap.
pub fn primary_of(table: &Table, at: usize, bytes: &[u8]) -> Result<u64, UnpackFault>
    // The answer is the bitmap's word, or the first fault: bytes are missing, a byte is no
    // hexadecimal digit, or the lowest element without a row.
    ensures exact { result ≡ primary_at table.now at bytes.now }
    // A word comes only where the bytes have a whole bitmap.
    ensures room { IfOk result (λ word. map_size table.now.bitmap ≤ length bytes.now) }
    // Want of memory is never the fault.
    ensures no_memory { IfErr result (λ e. e.cause ≢ Memory) }
{
    let word = word_of(table.bitmap(), 0, at, bytes)?;
    known_word(0, at, word, unknown_of(table, word, 0))
}

/// The word of the secondary bitmap.
pub fn secondary_of(table: &Table, at: usize, bytes: &[u8]) -> Result<u64, UnpackFault>
    // The answer is the bitmap's word, or the first fault: bytes are missing, a byte is no
    // hexadecimal digit, a third bitmap is told of, or the lowest element without a row.
    ensures exact { result ≡ secondary_at table.now at bytes.now }
    // A word comes only where the bytes have a whole bitmap.
    ensures room { IfOk result (λ word. map_size table.now.bitmap ≤ length bytes.now) }
    // Want of memory is never the fault.
    ensures no_memory { IfErr result (λ e. e.cause ≢ Memory) }
    // The first bit of a word that is given isn't set: it tells of no third bitmap.
    ensures low { IfOk result (λ word. word < 2 ^ 63) }
{
    let word = word_of(table.bitmap(), 1, at, bytes)?;
    if tells_another(word) {
        return Err(UnpackFault::stop(1, at, UnpackCause::ThirdBitmap));
    }
    known_word(1, at, word, unknown_of(table, 0, word))
}

/// The words of the bitmaps that the bytes begin with, and how many bytes they take.
#[inline(always)]
pub fn words_of(table: &Table, at: usize, bytes: &[u8]) -> Result<(u64, u64, usize), UnpackFault>
    // The bitmaps begin at offset 4 at most, behind the message type.
    requires { at ≤ 4 }
    // The answer is both bitmaps' words, 0 for a secondary one that isn't there, and how many bytes
    // they take; or the fault of the first that is bad or not whole.
    ensures exact { result ≡ words_at table.now at bytes.now }
    // Want of memory is never the fault.
    ensures no_memory { IfErr result (λ e. e.cause ≢ Memory) }
    // The bitmaps that are read lie within the bytes.
    ensures used { IfOk result (λ x. x.2 ≤ length bytes.now) }
    // The bitmaps take at most 32 bytes, as two of 16 hexadecimal digits do.
    ensures short { IfOk result (λ x. x.2 ≤ 32) }
    // The first bit of the secondary word isn't set: it tells of no third bitmap.
    ensures low { IfOk result (λ x. x.1 < 2 ^ 63) }
{
    let size = table.bitmap().size();
    let primary = primary_of(table, at, bytes)?;
    if !tells_another(primary) {
        return Ok((primary, 0, size));
    }
    let (_, rest) = bytes.split_at(size);
    let secondary = secondary_of(table, at + size, rest)?;
    Ok((primary, secondary, size + size))
}

/// The beginning of the message that stands at the front of the bytes. Takes no memory.
#[inline(always)]
pub(crate) fn beginning_of(table: &Table, bytes: &[u8]) -> Result<Beginning, UnpackFault>
    ensures exact { Gives begun result (beginning_at table.now bytes.now) }
    ensures no_memory { IfErr result (λ e. e.cause ≢ Memory) }
    ensures early { IfOk result (λ x. x.end ≤ 36) }
    ensures within { IfOk result (λ x. x.end ≤ length bytes.now) }
    ensures elements { IfOk result (λ x. AreElements (contains x.numbers)) }
    ensures good { AreGood table.now.rows }
{
    let mti = type_of(table, bytes)?;
    let size = table.mti().mti_size();
    let (_, rest) = bytes.split_at(size);
    let (primary, secondary, used) = words_of(table, size, rest)?;
    let numbers = Bitmap::from_words(primary, secondary);
    let end = size + used;
    Ok(Beginning { mti, numbers, end })
}
