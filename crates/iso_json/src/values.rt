//! The value of an element, from the text that stands for it.

ghost use Rattle.std.specs.Prelude.{◌≡◌, IfOk, IfErr, Ok, Err};
ghost use Rattle.iso_parts.specs.Numbers.{is_element};
ghost use Rattle.iso_parts.specs.Spec.{IsGood};
ghost use Rattle.iso_table.specs.Layout.{row_at};
ghost use Rattle.iso_json.specs.declared.values.Stop.TheVariants.{Memory};
ghost use Rattle.iso_json.specs.Texts.{element_number, number_of, is_hidden, is_masked, bytes_of, unless_refused, fitting, value_of, IsStop};

use crate::complaint::Trouble;
use hex::FromHexError;
use iso_parts::{CharClass, FieldFault, FieldSpec, encode_field, is_element};
use iso_table::Table;
use iso_wire::number_in;
use std::alloc::{AllocError, Global};

/// Why there is no value.
#[derive(Clone, Copy, Debug, PartialEq, Eq)]
pub enum Stop {
    /// The text is refused.
    Refused(Trouble),
    /// Memory ran out.
    Memory,
}

impl From<AllocError> for Stop {
    ghost from_gives = { λ _ e. e ≡ Memory };

    fn from(_e: AllocError) -> Stop {
        Stop::Memory
    }
}

/// The number, if an element may have it.
fn element_number(number: u64) -> Option<u8>
    ensures { result ≡ element_number number }
{
    match u8::try_from(number) {
        Ok(n) if is_element(u16::from(n)) => Some(n),
        _ => None,
    }
}

/// The number of an element that one to three digits write; leading zeros don't count.
pub fn number_of(key: &[u8]) -> Option<u8>
    // A number exactly for one to three digits that write one of 2 to 128 but 65.
    ensures { result ≡ number_of key.now }
{
    element_number(number_in(key, 1, 3)?)
}

/// Whether descriptions hide some of the element's value by stars.
fn is_hidden(n: u8) -> bool
    ensures { result ≡ is_hidden n }
{
    matches!(n, 2 | 34 | 35 | 36 | 45 | 52 | 55)
}

/// Whether the text has a star where a description puts them.
fn is_masked(n: u8, text: &[u8]) -> bool
    ensures { result ≡ is_masked n text.now }
{
    is_hidden(n) && text.contains(&b'*')
}

/// The bytes of hexadecimal digits.
fn hex_bytes(alloc: Global, text: &[u8]) -> Result<Vec<u8>, Stop>
    ensures ok { IfOk result (λ v. bytes_of CharClass.B text.now ≡ Ok v.items) }
    ensures stop { IfErr result (λ e. IsStop e (bytes_of CharClass.B text.now)) }
{
    match hex::decode(alloc, text) {
        Ok(bytes) => Ok(bytes),
        Err(FromHexError::OutOfMemory) => Err(Stop::Memory),
        Err(FromHexError::OddLength) => Err(Stop::Refused(Trouble::OddHex)),
        Err(FromHexError::InvalidHexCharacter { .. } | FromHexError::InvalidStringLength) => {
            Err(Stop::Refused(Trouble::BadHex))
        }
    }
}

/// The bytes that a text of the class stands for.
fn bytes_of(alloc: Global, class: CharClass, text: &[u8]) -> Result<Vec<u8>, Stop>
    ensures ok { IfOk result (λ v. bytes_of class text.now ≡ Ok v.items) }
    ensures stop { IfErr result (λ e. IsStop e (bytes_of class text.now)) }
{
    match class {
        CharClass::B => hex_bytes(alloc, text),
        CharClass::N
        | CharClass::A
        | CharClass::AN
        | CharClass::ANS
        | CharClass::Z
        | CharClass::ZD
        | CharClass::XN => match Vec::from_slice(alloc, text) {
            Ok(bytes) => Ok(bytes),
            Err(_) => Err(Stop::Memory),
        },
    }
}

/// Whether the row takes the value, else why not.
fn fit(alloc: Global, row: &FieldSpec, value: &[u8]) -> Result<(), Stop>
    requires { IsGood row.now }
    ensures ok { IfOk result (λ _. fitting row.now (Ok value.now) ≡ Ok value.now) }
    ensures stop { IfErr result (λ e. IsStop e (fitting row.now (Ok value.now))) }
{
    let mut part = Vec::new(alloc);
    match encode_field(row, value, &mut part) {
        Ok(()) => Ok(()),
        Err(FieldFault::WrongLength) => Err(Stop::Refused(Trouble::WrongLength)),
        Err(FieldFault::NotInClass) => Err(Stop::Refused(Trouble::NotInClass)),
        Err(FieldFault::PadEnd) => Err(Stop::Refused(Trouble::PadEnd)),
        Err(_) => Err(Stop::Memory),
    }
}

/// The value that a text stands for under a row.
fn value_under(alloc: Global, row: &FieldSpec, text: &[u8]) -> Result<Vec<u8>, Stop>
    requires { IsGood row.now }
    ensures ok { IfOk result (λ v. fitting row.now (bytes_of row.now.class text.now) ≡ Ok v.items) }
    ensures stop { IfErr result
        (λ e. IsStop e (fitting row.now (bytes_of row.now.class text.now))) }
{
    let value = match bytes_of(alloc, row.class, text) {
        Ok(value) => value,
        Err(stop) => return Err(stop),
    };
    match fit(alloc, row, &value) {
        Ok(()) => Ok(value),
        Err(stop) => Err(stop),
    }
}

/// The value that a text stands for as element `n`.
pub fn value_of(alloc: Global, table: &Table, n: u8, text: &[u8]) -> Result<Vec<u8>, Stop>
    // At `Ok` it is the value that the text stands for, and the element's row takes it.
    ensures ok { IfOk result (λ v. value_of (row_at table.now.rows n) n text.now ≡ Ok v.items) }
    // Memory aside, a stop tells the first thing that is wrong: no row, a mask's stars, no pairs of
    // hexadecimal digits for class `B`, or what the row refuses.
    ensures stop { IfErr result (λ e. IsStop e (value_of (row_at table.now.rows n) n text.now)) }
{
    let Some(row) = table.row(n) else {
        return Err(Stop::Refused(Trouble::NoRow));
    };
    if is_masked(n, text) {
        return Err(Stop::Refused(Trouble::Masked));
    }
    value_under(alloc, row, text)
}
