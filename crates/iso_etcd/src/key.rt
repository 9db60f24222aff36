//! The keys of a journal.
ghost use Rattle.std.specs.Prelude.{◌≡◌, ◌++◌, IfOk, OnOk};
ghost use Rattle.iso_etcd.specs.Keys.{name_text, digits, batch_key, end_key, heading_key, active_key};

use crate::name::Name;
use std::alloc::{AllocError, Global};

/// The first place of a batch.
pub const FIRST_PLACE: u32 = 1;

/// How many digits a place has in a key.
const PLACE_DIGITS: u8 = 10;

/// A key that begins with the name.
fn key_of(alloc: Global, name: &Name, tail: &[u8]) -> Result<Vec<u8>, AllocError>
    ensures { IfOk result (λ key. key.items ≡ name_text name.now ++ tail.now) }
{
    let mut key = Vec::from_slice(alloc, name.as_str().as_bytes())?;
    key.extend_from_slice(tail)?;
    Ok(key)
}

/// Adds the last digits of a number.
fn push_digits(key: &mut Vec<u8>, count: u8, number: u64) -> Result<(), AllocError>
    ensures { OnOk result (key.new.items ≡ key.old.items ++ digits count number) }
{
    if count == 0 {
        return Ok(());
    }
    push_digits(key, count - 1, number / 10)?;
    key.push(b'0' + (number % 10) as u8)?;
    Ok(())
}

/// The key of the batch at a place, which may be above all places that there are.
pub(crate) fn key_at(alloc: Global, name: &Name, place: u64) -> Result<Vec<u8>, AllocError>
    ensures { IfOk result (λ key. key.items ≡ batch_key (name_text name.now) place) }
{
    let mut key = key_of(alloc, name, b"/batch/")?;
    push_digits(&mut key, PLACE_DIGITS, place)?;
    Ok(key)
}

/// The key of the batch at a place.
pub fn batch_key(alloc: Global, name: &Name, place: u32) -> Result<Vec<u8>, AllocError>
    // The key is the name, `/batch/`, and the place in ten digits, memory aside.
    ensures { IfOk result (λ key. key.items ≡ batch_key (name_text name.now) place) }
{
    key_at(alloc, name, place as u64)
}

/// The first key behind those of all batches.
pub fn end_key(alloc: Global, name: &Name) -> Result<Vec<u8>, AllocError>
    // The key is the name and `/batch0`, memory aside.
    ensures { IfOk result (λ key. key.items ≡ end_key (name_text name.now)) }
{
    key_of(alloc, name, b"/batch0")
}

/// The key of what the journal is.
pub fn heading_key(alloc: Global, name: &Name) -> Result<Vec<u8>, AllocError>
    // The key is the name and `/heading`, memory aside.
    ensures { IfOk result (λ key. key.items ≡ heading_key (name_text name.now)) }
{
    key_of(alloc, name, b"/heading")
}

/// The key of who is active.
pub fn active_key(alloc: Global, name: &Name) -> Result<Vec<u8>, AllocError>
    // The key is the name and `/active`, memory aside.
    ensures { IfOk result (λ key. key.items ≡ active_key (name_text name.now)) }
{
    key_of(alloc, name, b"/active")
}
