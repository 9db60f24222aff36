//! Bitmaps: which elements a message has.

ghost use Rattle.std.specs.Int.{bit_at};
ghost use Rattle.std.specs.Prelude.{◌≡◌, ◌≢◌, ◌+◌, ◌-◌, ◌<◌, ◌≤◌, ◌^◌, ◌++◌, ◌==◌, ◌⊎◌};
ghost use Rattle.std.specs.Prelude.{◌↔◌, ℕ, Bool, true, false, IsTrue, List, length, take, drop, OnOk, OnErr};

use crate::bitmap_reading::{hex_word, raw_word, read};
use crate::bits::{FIRST_BIT, bits_before, take_bit, with_bit, without_bit};
use crate::encoding::encode_map_digits;
use std::alloc::AllocError;
use thiserror::Error;

/// A set of element numbers: 2 to 64 and 66 to 128.
#[derive(Clone, Copy, Debug, PartialEq, Eq)]
pub struct Bitmap {
    primary: u64,
    secondary: u64,
    ghost not_1: { primary < 2 ^ 63 },
    ghost not_65: { secondary < 2 ^ 63 },
}

/// How a bitmap is written.
#[derive(Clone, Copy, Debug, PartialEq, Eq)]
pub enum BitmapCoding {
    /// Eight bytes.
    Raw,
    /// Sixteen hexadecimal digits: written in upper case, read in both.
    Hex,
}

/// What stands at the front of some bytes.
#[derive(Clone, Copy, Debug, PartialEq, Eq)]
pub enum BitmapStep {
    /// The elements, and how many bytes the bitmaps take.
    Got { bits: Bitmap, used: usize },
    /// Less than a whole bitmap.
    More,
}

/// Why bytes are no bitmaps: the offset of the faulty bitmap, and what is wrong with it.
#[derive(Clone, Copy, Debug, PartialEq, Eq, Error)]
#[error("bitmap at {at}: {cause}")]
pub struct BitmapFault {
    pub at: usize,
    pub cause: BitmapCause,
}

/// What is wrong with a bitmap.
#[derive(Clone, Copy, Debug, PartialEq, Eq, Error)]
pub enum BitmapCause {
    /// A byte is no hexadecimal digit.
    #[error("a byte is no hexadecimal digit")]
    BadHex,
    /// Bit 65 tells of a third bitmap.
    #[error("a third bitmap")]
    ThirdBitmap,
}

impl BitmapCause {
    ghost use Rattle.iso_parts.specs.FaultNumbers.{bitmap_cause_number};

    /// The fault's number, as logs and monitors show it: 1 or 2, in the order of the variants.
    pub fn number(&self) -> u8
        ensures { result ≡ bitmap_cause_number self.now }
    {
        match self {
            BitmapCause::BadHex => 1,
            BitmapCause::ThirdBitmap => 2,
        }
    }
}

impl BitmapCoding {
    ghost use Rattle.hex.specs.Hex.{IsBytes};
    ghost use Rattle.iso_parts.specs.Bitmap.{map_size, in_coding};
    ghost use Rattle.iso_parts.specs.BitmapReading.{word_in};

    /// How many bytes a bitmap takes.
    pub fn size(self) -> usize
        ensures { result ≡ map_size self }
    {
        match self {
            BitmapCoding::Raw => 8,
            BitmapCoding::Hex => 16,
        }
    }

    /// Appends raw bitmaps under the coding.
    fn append(self, maps: &[u8], out: &mut Vec<u8>) -> Result<(), AllocError>
        requires { length maps.now ≤ 16 }
        ensures ok { OnOk result (out.new.items ≡ out.old.items ++ in_coding self maps.now) }
        ensures err { OnErr result (out.new.items ≡ out.old.items) }
        // Each item is a byte.
        ensures bytes { IsBytes maps.now }
    {
        match self {
            BitmapCoding::Raw => out.extend_from_slice(maps),
            BitmapCoding::Hex => encode_map_digits(maps, out),
        }
    }

    /// The word of a whole bitmap, its first bit the most significant; `None` where the digits are none.
    pub fn word(self, bytes: &[u8]) -> Option<u64>
        // The bytes are those of one bitmap: `size` tells how many.
        requires { length bytes.now ≡ map_size self }
        ensures { result ≡ word_in self bytes.now }
    {
        match self {
            BitmapCoding::Raw => Some(raw_word(bytes)),
            BitmapCoding::Hex => hex_word(bytes),
        }
    }
}

impl Bitmap {
    ghost use Rattle.iso_parts.specs.declared.bitmap.BitmapFault.{BitmapFault};
    ghost use Rattle.iso_parts.specs.Bitmap.{contains, in_words, AreElements, Bitmaps, PlainBitmaps, HasAbove, IsHighest};
    ghost use Rattle.iso_parts.specs.BitmapReading.{ReadsMaps, FoundMaps, IfRead, IsSetRead, maps_at};
    ghost use Rattle.iso_parts.specs.MapStops.{EndsInMaps, AreBadMaps};
    ghost use Rattle.iso_parts.specs.Numbers.{numbers_in, members, members_below, TakesFirst, first_missing};

    /// No number.
    pub fn new() -> Bitmap
        ensures { (n : ℕ) → contains result n ≡ false }
    {
        Bitmap {
            primary: 0,
            secondary: 0,
        }
    }

    /// The set of a primary and a secondary bitmap's words, without the primary one's first bit.
    pub fn from_words(primary: u64, secondary: u64) -> Bitmap
        // The first bit of the secondary word isn't set: it tells of no third bitmap.
        requires { secondary < 2 ^ 63 }
        // The set has exactly the numbers from 2 to 128 whose bits the two words have.
        ensures members { members result ≡ numbers_in primary secondary }
        // Each number of the set is one that an element may have: 2 to 64 or 66 to 128.
        ensures numbers { AreElements (contains result) }
        // Where the first bit of the primary word isn't set, the set has exactly the numbers whose
        // bits the two words have.
        ensures set { primary < 2 ^ 63 → (n : ℕ)
            → contains result n ≡ in_words primary secondary n }
    {
        if primary < FIRST_BIT {
            return Bitmap { primary, secondary };
        }
        Bitmap {
            primary: primary - FIRST_BIT,
            secondary,
        }
    }

    /// Whether the number is in the set.
    #[tactic(auto, using(crate::proofs::BitmapLaws::set_numbers))]
    pub fn has(&self, n: u8) -> bool
        // True comes exactly for the numbers of the set.
        ensures has { result ≡ contains self.now n }
        // No set has a number that is none of an element.
        ensures numbers { AreElements (contains self.now) }
    {
        match n {
            1..=64 => self.primary >> (64 - n) & 1 == 1,
            65..=128 => self.secondary >> (128 - n) & 1 == 1,
            _ => false,
        }
    }

    /// Whether the set has each number of another.
    fn has_all(&self, other: &Bitmap) -> bool
        ensures { IsTrue result
            ↔ ((n : ℕ) → contains other.now n ≡ true → contains self.now n ≡ true) }
    {
        other.primary & self.primary == other.primary
            && other.secondary & self.secondary == other.secondary
    }

    /// Whether the sets have the same numbers.
    pub fn equals(&self, other: &Bitmap) -> bool
        ensures { IsTrue result ↔ ((n : ℕ) → contains self.now n ≡ contains other.now n) }
    {
        self.has_all(other) && other.has_all(self)
    }

    /// The least number that isn't in another set.
    pub fn missing_from(self, other: &Bitmap) -> Option<u8>
        // It is the least number of this set that the other one lacks; `None` where it lacks none.
        ensures { result ≡ first_missing (contains other.now) (members self) }
    {
        if other.has_all(&self) {
            return None;
        }
        let mut rest = self;
        while let Some(n) = rest.take_first() {
            if !other.has(n) {
                return Some(n);
            }
        }
        None
    }

    /// Takes the least number out of the set, if it has one.
    pub fn take_first(&mut self) -> Option<u8>
        ensures { TakesFirst (members self.old) (members self.new) result }
    {
        if self.primary != 0 {
            let (before, rest) = take_bit(self.primary);
            self.primary = rest;
            Some(before + 1)
        } else if self.secondary != 0 {
            let (before, rest) = take_bit(self.secondary);
            self.secondary = rest;
            Some(before + 65)
        } else {
            None
        }
    }

    /// How many numbers the set has.
    pub fn count(&self) -> usize
        ensures { result ≡ length (members self.now) }
    {
        self.primary.count_ones() as usize + self.secondary.count_ones() as usize
    }

    /// How many numbers of the set are below a number of 2 to 128.
    pub fn count_below(&self, n: u8) -> usize
        // The number is at least 2.
        requires low { 2 ≤ n }
        // The number is at most 128.
        requires high { n ≤ 128 }
        ensures { result ≡ length (members_below self.now n) }
    {
        if n <= 64 {
            return bits_before(self.primary, 64 - n);
        }
        self.primary.count_ones() as usize + bits_before(self.secondary, 128 - n)
    }

    /// Puts a number into the set.
    pub fn set(&mut self, n: u8)
        // The number is at least 2.
        requires low { 2 ≤ n }
        // The number is at most 128.
        requires high { n ≤ 128 }
        // The number isn't 65, whose bit tells of a third bitmap.
        requires not_65 { n ≢ 65 }
        // The number is in the set then.
        ensures added { contains self.new n ≡ true }
        // Every other number is in the set exactly where it was in it before.
        ensures others { (k : ℕ) → k ≢ n → contains self.new k ≡ contains self.old k }
    {
        if n <= 64 {
            self.primary = with_bit(self.primary, 64 - n);
        } else {
            self.secondary = with_bit(self.secondary, 128 - n);
        }
    }

    /// Takes a number out of the set.
    pub fn unset(&mut self, n: u8)
        // The number is at least 2.
        requires low { 2 ≤ n }
        // The number is at most 128.
        requires high { n ≤ 128 }
        // The number isn't 65, whose bit tells of a third bitmap.
        requires not_65 { n ≢ 65 }
        // The number isn't in the set then.
        ensures removed { contains self.new n ≡ false }
        // Every other number is in the set exactly where it was in it before.
        ensures others { (k : ℕ) → k ≢ n → contains self.new k ≡ contains self.old k }
    {
        if n <= 64 {
            self.primary = without_bit(self.primary, 64 - n);
        } else {
            self.secondary = without_bit(self.secondary, 128 - n);
        }
    }

    /// The greatest number of the set, 0 for none.
    pub fn highest(&self) -> u8
        ensures { IsHighest (contains self.now) result }
    {
        if self.secondary != 0 {
            128 - self.secondary.trailing_zeros() as u8
        } else if self.primary != 0 {
            64 - self.primary.trailing_zeros() as u8
        } else {
            0
        }
    }

    /// Writes the bitmaps as raw bytes, 8 of them or, where a number above 64 is in the set, 16. Says how many;
    /// the later bytes stay.
    pub fn write_raw(&self, out: &mut [u8; 16]) -> usize
        // 8 bytes are written, or 16, and 16 only where the set has a number above 64.
        ensures used { (result ≡ 8) ⊎ ((result ≡ 16) × HasAbove (contains self.now)) }
        // What is written is the raw bitmaps of the set: the primary one, and in 16 bytes both.
        ensures bytes { Bitmaps BitmapCoding.Raw (result == 16) (contains self.now)
            (take result out.new) }
        // The bytes behind those that are written stay.
        ensures rest { drop result out.new ≡ drop result out.old }
    {
        if self.secondary == 0 {
            out[..8].copy_from_slice(&self.primary.to_be_bytes());
            return 8;
        }
        out[..8].copy_from_slice(&with_bit(self.primary, 63).to_be_bytes());
        out[8..].copy_from_slice(&self.secondary.to_be_bytes());
        16
    }

    /// Appends the bitmaps under a coding, hexadecimal digits in upper case. Where memory runs out, the vector stays
    /// as it was.
    pub fn append(&self, coding: BitmapCoding, out: &mut Vec<u8>) -> Result<(), AllocError>
        // Memory aside, the bitmaps of the set are appended as they are written: a secondary one
        // only where the set has a number above 64.
        ensures ok { OnOk result ((b : List ℕ) × PlainBitmaps coding (contains self.now) b
            × (out.new.items ≡ out.old.items ++ b)) }
        // Without memory nothing is appended.
        ensures unchanged { OnErr result (out.new.items ≡ out.old.items) }
    {
        let mut maps = [0; 16];
        let used = self.write_raw(&mut maps);
        let (front, _) = maps.as_slice().split_at(used);
        coding.append(front, out)
    }

    /// Reads the raw bitmaps that the bytes begin with: `More` where one isn't whole, `ThirdBitmap` where the
    /// secondary one has its first bit set.
    pub fn read_raw(bytes: &[u8]) -> Result<BitmapStep, BitmapFault>
        // A set that is got is the one that the first bytes spell.
        ensures found { FoundMaps BitmapCoding.Raw bytes.now result }
        // Where the first bytes spell a set without 65, its numbers from 2 to 128 are got, and how
        // many bytes spell it.
        ensures only { (two : Bool) (set : ℕ → Bool) (front rest : List ℕ) → set 65 ≡ false
            → Bitmaps BitmapCoding.Raw two set front
            → bytes.now ≡ front ++ rest → IsSetRead set (length front) result }
        // A set that is got has only numbers that elements may have: 2 to 64 and 66 to 128.
        ensures numbers { IfRead result AreElements }
        // The answer is what reading gives, bitmap by bitmap: a set and its bytes, `More`, or the
        // first fault and its offset.
        ensures exact { ReadsMaps result (maps_at BitmapCoding.Raw bytes.now) }
        // `More` comes exactly where the bytes end inside the bitmaps.
        ensures more { (result ≡ Ok BitmapStep.More) ↔ EndsInMaps BitmapCoding.Raw bytes.now }
        // A fault comes exactly where a whole bitmap behind good ones is bad: it tells its offset,
        // and what is wrong with it.
        ensures stops { (e : BitmapFault) → (result ≡ Err e)
            ↔ AreBadMaps BitmapCoding.Raw bytes.now e.at e.cause }
    {
        read(BitmapCoding::Raw, bytes)
    }

    /// Reads the hexadecimal bitmaps that the bytes begin with: `More` where one isn't whole, `BadHex` where it
    /// isn't of digits, `ThirdBitmap` where the secondary one has its first bit set.
    pub fn read_hex(bytes: &[u8]) -> Result<BitmapStep, BitmapFault>
        // A set that is got is the one that the first bytes spell.
        ensures found { FoundMaps BitmapCoding.Hex bytes.now result }
        // Where the first bytes spell a set without 65, its numbers from 2 to 128 are got, and how
        // many bytes spell it.
        ensures only { (two : Bool) (set : ℕ → Bool) (front rest : List ℕ) → set 65 ≡ false
            → Bitmaps BitmapCoding.Hex two set front
            → bytes.now ≡ front ++ rest → IsSetRead set (length front) result }
        // A set that is got has only numbers that elements may have: 2 to 64 and 66 to 128.
        ensures numbers { IfRead result AreElements }
        // The answer is what reading gives, bitmap by bitmap: a set and its bytes, `More`, or the
        // first fault and its offset.
        ensures exact { ReadsMaps result (maps_at BitmapCoding.Hex bytes.now) }
        // `More` comes exactly where the bytes end inside the bitmaps.
        ensures more { (result ≡ Ok BitmapStep.More) ↔ EndsInMaps BitmapCoding.Hex bytes.now }
        // A fault comes exactly where a whole bitmap behind good ones is bad: it tells its offset,
        // and what is wrong with it.
        ensures stops { (e : BitmapFault) → (result ≡ Err e)
            ↔ AreBadMaps BitmapCoding.Hex bytes.now e.at e.cause }
    {
        read(BitmapCoding::Hex, bytes)
    }
}
