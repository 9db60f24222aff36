//! The elements of a message, from the members of a JSON object.

ghost use Rattle.std.specs.Prelude.{◌≡◌, ◌+◌, ◌∷◌, ◌++◌, ◌<◌, ◌^◌, [], true, IfOk, IfErr, OnOk, OnErr, Ok};
ghost use Rattle.iso_parts.specs.Numbers.{is_element};
ghost use Rattle.iso_parts.specs.Bitmap.{contains};
ghost use Rattle.iso_wire.specs.Elements.{put};
ghost use Rattle.json.specs.Value.{value_view, members_view};
ghost use Rattle.iso_json.specs.declared.complaint.Place.{Place};
ghost use Rattle.iso_json.specs.Texts.{number_of, IsStop};
ghost use Rattle.iso_json.specs.Heard.{complaint, complaint_of, entry_value, heard, with_value, with_entry};
ghost use Rattle.iso_json.specs.Heard.{with_entries, seen_with, none_seen};

use crate::complaint::{Complaint, Place, Trouble};
use crate::values::{Stop, number_of, value_of};
use iso_parts::Bitmap;
use iso_table::Table;
use iso_wire::Message;
use json::Value;
use std::alloc::{AllocError, Global};

/// The value that a member says of element `n`.
fn entry_value(
    alloc: Global,
    table: &Table,
    seen: &Bitmap,
    n: u8,
    value: &Value<'_>,
) -> Result<Vec<u8>, Stop>
    ensures ok { IfOk result
        (λ v. entry_value table.now.rows (contains seen.now) n (value_view value.now)
        ≡ Ok v.items) }
    ensures stop { IfErr result
        (λ e. IsStop e (entry_value table.now.rows (contains seen.now) n (value_view value.now))) }
{
    if seen.has(n) {
        return Err(Stop::Refused(Trouble::Twice));
    }
    match value.as_str() {
        Some(text) => value_of(alloc, table, n, text.as_bytes()),
        None => Err(Stop::Refused(Trouble::NotText)),
    }
}

/// Complains of element `n`.
pub fn complain_of(
    place: Place,
    n: u8,
    trouble: Trouble,
    complaints: &mut Vec<Complaint>,
) -> Result<(), AllocError>
    // Memory aside, a complaint of this element, place and trouble comes behind the others.
    ensures { OnOk result
        (complaints.new.items ≡ complaints.old.items ++ complaint_of place n trouble ∷ []) }
{
    complaints.push(Complaint {
        place,
        element: Some(n),
        trouble,
    })?;
    Ok(())
}

/// Complains of what is no element's.
pub fn complain(
    place: Place,
    trouble: Trouble,
    complaints: &mut Vec<Complaint>,
) -> Result<(), AllocError>
    // Memory aside, a complaint of this place and trouble, of no element, comes behind the others.
    ensures { OnOk result
        (complaints.new.items ≡ complaints.old.items ++ complaint place trouble ∷ []) }
{
    complaints.push(Complaint {
        place,
        element: None,
        trouble,
    })?;
    Ok(())
}

/// Puts a value into the message as element `n`.
pub fn put_value(n: u8, value: &[u8], message: &mut Message) -> Result<(), AllocError>
    // The number is one that an element may have: 2 to 128 but for 65.
    requires { is_element n ≡ true }
    // Memory aside, the message has this value as element `n`, and is else as it was.
    ensures put { OnOk result
        (message.new ≡ record message.old { elements = put n value.now message.old.elements }) }
    // Without memory the message stays as it was.
    ensures unchanged { OnErr result (message.new ≡ message.old) }
{
    match message.set(n, value) {
        Ok(()) => Ok(()),
        Err(_) => Err(AllocError),
    }
}

/// Reads the value that a member says of element `n` into the message, or complains of it.
fn read_value(
    alloc: Global,
    table: &Table,
    seen: &Bitmap,
    at: usize,
    n: u8,
    value: &Value<'_>,
    message: &mut Message,
    complaints: &mut Vec<Complaint>,
) -> Result<(), AllocError>
    requires number { is_element n ≡ true }
    requires fits { at < 2 ^ 63 }
    ensures mti { message.new.mti ≡ message.old.mti }
    ensures heard { OnOk result (heard message.new complaints.new
        ≡ with_value (Place.Entry (at + 1)) n (entry_value table.now.rows (contains seen.now) n
        (value_view value.now)) (heard message.old complaints.old)) }
{
    match entry_value(alloc, table, seen, n, value) {
        Ok(value) => put_value(n, &value, message),
        Err(Stop::Refused(trouble)) => complain_of(Place::Entry(at + 1), n, trouble, complaints),
        Err(Stop::Memory) => Err(AllocError),
    }
}

/// Reads the member behind `at` others into a message, or complains of it.
fn read_entry(
    alloc: Global,
    table: &Table,
    seen: &mut Bitmap,
    at: usize,
    key: &str,
    value: &Value<'_>,
    message: &mut Message,
    complaints: &mut Vec<Complaint>,
) -> Result<(), AllocError>
    requires { at < 2 ^ 63 }
    ensures mti { message.new.mti ≡ message.old.mti }
    ensures seen { contains seen.new ≡ seen_with (number_of key.now) (contains seen.old) }
    ensures heard { OnOk result
        (heard message.new complaints.new ≡ with_entry table.now.rows (contains seen.old)
        (record { at = at; number = number_of key.now; value = value_view value.now })
        (heard message.old complaints.old)) }
{
    let Some(n) = number_of(key.as_bytes()) else {
        return complain(Place::Entry(at + 1), Trouble::BadNumber, complaints);
    };
    let read = read_value(alloc, table, seen, at, n, value, message, complaints);
    seen.set(n);
    read
}

/// Reads the members of the object `elements` into a message, and complains of those that are refused.
pub fn read_entries(
    alloc: Global,
    table: &Table,
    members: &[(&str, Value<'_>)],
    message: &mut Message,
    complaints: &mut Vec<Complaint>,
) -> Result<(), AllocError>
    // The message keeps its type.
    ensures mti { message.new.mti ≡ message.old.mti }
    // Memory aside, each member in its order puts its value into the message, or brings one
    // complaint behind the others: of its number, a second value, or what is refused.
    ensures heard { OnOk result (heard message.new complaints.new ≡ with_entries table.now.rows
        none_seen 0 (members_view members.now) (heard message.old complaints.old)) }
{
    let mut seen = Bitmap::new();
    let mut at = 0;
    for member in members {
        read_entry(
            alloc, table, &mut seen, at, member.0, &member.1, message, complaints,
        )?;
        at += 1;
    }
    Ok(())
}
