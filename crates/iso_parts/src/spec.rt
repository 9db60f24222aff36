//! The row of an element: how its values are laid out, which rows are good, and which values fit one.

ghost use Rattle.std.specs.Prelude.{◌≡◌, ◌↔◌, ◌++◌, ℕ, List, length, IsOk, IfErr, IsTrue};
ghost use Rattle.iso_parts.specs.Spec.{is_padded, is_good_pad, spec_fault, is_exact, is_length, refusal, IsGood};
ghost use Rattle.iso_parts.specs.Part.{prefix, plain_part};

use crate::class::CharClass;
use crate::encoding::Coding;
use crate::fault::FieldFault;
use crate::padding::Pad;
use crate::prefix::Length;
use thiserror::Error;

/// How the values of an element are laid out.
#[derive(Clone, Copy, Debug, PartialEq, Eq)]
pub struct FieldSpec {
    /// The characters of a value.
    pub class: CharClass,
    /// How they are written.
    pub coding: Coding,
    /// Whether a length stands before them.
    pub length: Length,
    /// The most characters of a value; under `Raw` and `HexText` the most bytes.
    pub max: u16,
    /// What fills a value up to `max`.
    pub pad: Pad,
}

/// What is wrong with a row.
#[derive(Clone, Copy, Debug, PartialEq, Eq, Error)]
pub enum SpecFault {
    /// The maximum is 0, or more than the length can tell: 99 for LL, 9,999 for LLLL, else 999.
    #[error("the maximum is out of range")]
    BadMax,
    /// The coding doesn't write the class.
    #[error("the coding doesn't go with the class")]
    CodingClass,
    /// The row can't be padded, or not with that byte.
    #[error("padding isn't allowed here")]
    PadNotAllowed,
}

impl SpecFault {
    ghost use Rattle.iso_parts.specs.FaultNumbers.{spec_fault_number};

    /// The fault's number, as logs and monitors show it: from 1 to 3, in the order of the variants.
    pub fn number(&self) -> u8
        ensures { result ≡ spec_fault_number self.now }
    {
        match self {
            SpecFault::BadMax => 1,
            SpecFault::CodingClass => 2,
            SpecFault::PadNotAllowed => 3,
        }
    }
}

impl FieldSpec {
    fn may_be_padded(&self) -> bool
        ensures { result ≡ is_padded self.now.class self.now.length }
    {
        match self.class {
            CharClass::XN | CharClass::B => false,
            _ => self.length == Length::Fixed,
        }
    }

    fn has_good_pad(&self) -> bool
        ensures { result ≡ is_good_pad self.now self.now.pad }
    {
        match self.pad {
            Pad::None => true,
            Pad::Left(pad) | Pad::Right(pad) => self.may_be_padded() && self.coding.takes_pad(pad),
        }
    }

    /// Whether the row is one that a table may have; else the first thing that is wrong with it.
    pub fn good(&self) -> Result<(), SpecFault>
        // `Ok` comes exactly for a row whose maximum, coding and padding are all allowed.
        ensures good { IsOk result ↔ IsGood self.now }
        // A fault tells the first that isn't allowed: the maximum, the coding or the padding.
        ensures fault { IfErr result (λ e. spec_fault self.now ≡ Some e) }
    {
        if self.max < 1 || self.max > self.length.limit() {
            return Err(SpecFault::BadMax);
        }
        if !self.coding.takes(self.class) {
            return Err(SpecFault::CodingClass);
        }
        if !self.has_good_pad() {
            return Err(SpecFault::PadNotAllowed);
        }
        Ok(())
    }

    /// Whether a value stands on the wire as it is, behind its length: it isn't padded, and a character is a byte.
    #[inline(always)]
    pub fn is_plain(&self) -> bool
        // Where it is so, what is written for a value is the digits of its length and then the value.
        ensures { IsTrue result → (v : List ℕ)
            → plain_part self.now v ≡ prefix self.now.length (length v) ++ v }
    {
        self.pad == Pad::None && self.coding.is_plain()
    }

    fn is_exact(&self) -> bool
        ensures { result ≡ is_exact self.now.length self.now.pad }
    {
        self.length == Length::Fixed && self.pad == Pad::None
    }

    fn takes_length(&self, n: usize) -> bool
        ensures { result ≡ is_length self.now n }
    {
        if self.is_exact() {
            n == self.max as usize
        } else {
            n <= self.max as usize
        }
    }

    /// The first reason why a value doesn't fit the row: its length, a character, a pad at its padded end.
    pub(crate) fn refusal(&self, value: &[u8]) -> Option<FieldFault>
        ensures { result ≡ refusal self.now value.now }
    {
        if !self.takes_length(value.len()) {
            return Some(FieldFault::WrongLength);
        }
        if !self.class.takes_apart(value) {
            return Some(FieldFault::NotInClass);
        }
        if self.pad.stands_at_end(value) {
            return Some(FieldFault::PadEnd);
        }
        None
    }
}
