//! A message from a line of JSON.

ghost use Rattle.std.specs.Str.{bytes_eq};
ghost use Rattle.std.specs.Prelude.{◌||◌, ◌≡◌, ◌≢◌, ◌∷◌, ◌++◌, [], false, true, IfOk, IfErr, OnOk, Ok, Err, option_map};
ghost use Rattle.json.specs.Find.{get_member};
ghost use Rattle.json.specs.Json.{object};
ghost use Rattle.json.specs.Value.{value_view, members_view};
ghost use Rattle.iso_parts.specs.Mti.{mti_number};
ghost use Rattle.iso_json.specs.declared.complaint.Refusal.TheVariants as refusals;
ghost use Rattle.iso_json.specs.Said.{name_trouble, names_from, mti_key, elements_key, heard_in, contents_of, complaints_in, Reads};
ghost use Rattle.iso_json.specs.Said.{IsSpotted, IsNotObject, IsNotJsonAt, IsMessage, AreOf};
ghost use Rattle.iso_json.specs.Heard.{complaint, complained, type_number, type_in, type_at, or_zero, trouble_in, heard, with_elements};
ghost use Rattle.iso_json.specs.RoundTrip.{ComesBack};

use crate::complaint::{Complaint, Place, Refusal, Trouble};
use crate::entries::{complain, read_entries};
use crate::laws::clear_json_says;
use iso_parts::Mti;
use iso_table::Table;
use iso_wire::Message;
use json::{Error, MAX_DEPTH, Reader, Scratch, Value};
use std::alloc::{AllocError, Global};

/// How many bytes of the text are read before something is no JSON.
fn good_bytes(alloc: Global, text: &[u8]) -> Result<usize, AllocError> {
    let good = match std::str::from_utf8(text) {
        Ok(good) => good,
        Err(error) => return Ok(error.valid_up_to()),
    };
    let mut scratch = Scratch::new(alloc);
    let mut reader = Reader::new(good, &mut scratch)?;
    let _ = reader.skip_value(MAX_DEPTH);
    Ok(reader.offset())
}

/// The line and the column of a byte.
fn spot(text: &[u8], at: usize) -> (usize, usize) {
    let mut line = 1usize;
    let mut column = 1usize;
    for byte in text.iter().take(at) {
        if *byte == b'\n' {
            line = line.saturating_add(1);
            column = 1;
        } else {
            column = column.saturating_add(1);
        }
    }
    (line, column)
}

/// Where the text stops being JSON.
fn no_json(alloc: Global, text: &[u8]) -> Result<Vec<Complaint>, AllocError>
    ensures { IfOk result (λ cs. IsSpotted cs.items) }
{
    let (line, column) = spot(text, good_bytes(alloc, text)?);
    let mut complaints = Vec::new(alloc);
    complain(
        Place::Spot { line, column },
        Trouble::NotJson,
        &mut complaints,
    )?;
    Ok(complaints)
}

/// What is wrong with a member's name, where the type or the elements stood before it or not.
fn name_trouble(has_mti: bool, has_elements: bool, key: &str) -> Option<Trouble>
    ensures { result ≡ name_trouble has_mti has_elements key.now }
{
    match key {
        "mti" if has_mti => Some(Trouble::Twice),
        "elements" if has_elements => Some(Trouble::Twice),
        "mti" | "elements" => None,
        _ => Some(Trouble::UnknownMember),
    }
}

/// Whether a name stood among the members before, or is that of this one.
fn is_seen(before: bool, key: &str, name: &str) -> bool
    ensures { result ≡ (before || bytes_eq key.now name.now) }
{
    before || key == name
}

/// Complains of the trouble, if there is some.
fn complain_if(
    place: Place,
    trouble: Option<Trouble>,
    complaints: &mut Vec<Complaint>,
) -> Result<(), AllocError>
    ensures { OnOk result
        (complaints.new.items ≡ complaints.old.items ++ complained place trouble) }
{
    match trouble {
        Some(trouble) => complain(place, trouble, complaints),
        None => Ok(()),
    }
}

/// Complains of members with another name than `mti` and `elements`, and of those that come again.
fn check_names(
    members: &[(&str, Value<'_>)],
    complaints: &mut Vec<Complaint>,
) -> Result<(), AllocError>
    ensures { OnOk result (complaints.new.items
        ≡ complaints.old.items ++ names_from false false 0 (members_view members.now)) }
{
    let mut has_mti = false;
    let mut has_elements = false;
    let mut at = 0;
    for member in members {
        let key = member.0;
        complain_if(
            Place::Member(at + 1),
            name_trouble(has_mti, has_elements, key),
            complaints,
        )?;
        has_mti = is_seen(has_mti, key, "mti");
        has_elements = is_seen(has_elements, key, "elements");
        at += 1;
    }
    Ok(())
}

/// The type that a text writes, of the table's version.
pub fn type_in(table: &Table, text: &[u8]) -> Result<Mti, Trouble>
    // It is the type of four digits of the table's version; four digits of another version are
    // `WrongVersion`, and any other text is `BadMti`.
    ensures { type_number result ≡ type_in table.now.version text.now }
{
    let Some(mti) = Mti::from_text(text) else {
        return Err(Trouble::BadMti);
    };
    if mti.version == table.version() {
        Ok(mti)
    } else {
        Err(Trouble::WrongVersion)
    }
}

/// The type that a message's object says.
fn type_of(table: &Table, value: Option<&Value<'_>>) -> Result<Mti, Trouble>
    ensures { type_number result
        ≡ type_at table.now.version (option_map (λ v. value_view v.now) value.entry) }
{
    let Some(value) = value else {
        return Err(Trouble::NoMti);
    };
    match value.as_str() {
        Some(text) => type_in(table, text.as_bytes()),
        None => Err(Trouble::BadMti),
    }
}

/// The type that stands in for one that is refused.
pub const NO_TYPE: Mti = Mti {
    version: 0,
    class: 0,
    function: 0,
    origin: 0,
};

/// The type, or the one that stands in for it.
pub fn or_no_type(read: Result<Mti, Trouble>) -> Mti
    // Its number is that of the type that was read, or 0 in place of one that is refused.
    ensures { mti_number result ≡ or_zero (type_number read) }
{
    match read {
        Ok(mti) => mti,
        Err(_) => NO_TYPE,
    }
}

/// Why there is no type, if there is none.
fn trouble_in(read: Result<Mti, Trouble>) -> Option<Trouble>
    ensures { result ≡ trouble_in (type_number read) }
{
    read.err()
}

/// Reads the object `elements` into the message, and complains of what is refused.
fn read_elements(
    alloc: Global,
    table: &Table,
    value: Option<&Value<'_>>,
    message: &mut Message,
    complaints: &mut Vec<Complaint>,
) -> Result<(), AllocError>
    ensures mti { message.new.mti ≡ message.old.mti }
    ensures heard { OnOk result (heard message.new complaints.new ≡ with_elements table.now.rows
        (option_map (λ v. value_view v.now) value.entry) (heard message.old complaints.old)) }
{
    match value {
        Some(Value::Object(members)) => {
            read_entries(alloc, table, members.as_slice(), message, complaints)
        }
        Some(
            Value::Null | Value::Bool(_) | Value::Number(_) | Value::String(_) | Value::Array(_),
        ) => complain(Place::Whole, Trouble::BadElements, complaints),
        None => complain(Place::Whole, Trouble::NoElements, complaints),
    }
}

/// The message of an object's members, and what is wrong with them.
fn read_object(
    alloc: Global,
    table: &Table,
    members: &[(&str, Value<'_>)],
    value: &Value<'_>,
    complaints: &mut Vec<Complaint>,
) -> Result<Message, AllocError>
    requires none { complaints.old.items ≡ [] }
    requires same { value_view value.now ≡ object (members_view members.now) }
    ensures message { IfOk result (λ m. m ≡ contents_of table.now (members_view members.now)) }
    ensures complaints { OnOk result
        (complaints.new.items ≡ (heard_in table.now (members_view members.now)).complaints) }
{
    check_names(members, complaints)?;
    let read = type_of(table, value.get("mti"));
    complain_if(Place::Whole, trouble_in(read), complaints)?;
    let mut message = Message::new(alloc, or_no_type(read));
    read_elements(
        alloc,
        table,
        value.get("elements"),
        &mut message,
        complaints,
    )?;
    Ok(message)
}

/// The message, if there is nothing wrong with it.
pub fn unless_wrong(message: Message, complaints: Vec<Complaint>) -> Result<Message, Refusal>
    // At `Ok` it is the very message, and there was no complaint.
    ensures ok { IfOk result (λ m. (m ≡ message) × (complaints.items ≡ [])) }
    // An `Err` has the very complaints, and there was at least one.
    ensures refused { IfErr result
        (λ e. (e ≡ refusals.Complaints complaints) × (complaints.items ≢ [])) }
{
    if complaints.is_empty() {
        Ok(message)
    } else {
        Err(Refusal::Complaints(complaints))
    }
}

/// The message of an object's members, or all that is wrong with them.
fn read_members(
    alloc: Global,
    table: &Table,
    members: &[(&str, Value<'_>)],
    value: &Value<'_>,
) -> Result<Message, Refusal>
    requires { value_view value.now ≡ object (members_view members.now) }
    ensures { Reads table.now (object (members_view members.now)) result }
{
    let mut complaints = Vec::new(alloc);
    match read_object(alloc, table, members, value, &mut complaints) {
        Ok(message) => unless_wrong(message, complaints),
        Err(_) => Err(Refusal::Memory),
    }
}

/// The refusal of a JSON value that is no object.
fn not_object(alloc: Global) -> Refusal
    ensures { IsNotObject result }
{
    let mut complaints = Vec::new(alloc);
    match complain(Place::Whole, Trouble::NotObject, &mut complaints) {
        Ok(()) => Refusal::Complaints(complaints),
        Err(_) => Refusal::Memory,
    }
}

/// The message that a JSON value is.
fn read_value(alloc: Global, table: &Table, value: &Value<'_>) -> Result<Message, Refusal>
    ensures { Reads table.now (value_view value.now) result }
{
    match value {
        Value::Object(members) => read_members(alloc, table, members.as_slice(), value),
        Value::Null | Value::Bool(_) | Value::Number(_) | Value::String(_) | Value::Array(_) => Err(
            not_object(alloc),
        ),
    }
}

/// The refusal of a text that is no JSON.
fn not_json(alloc: Global, text: &[u8]) -> Refusal
    ensures { IsNotJsonAt result }
{
    match no_json(alloc, text) {
        Ok(complaints) => Refusal::Complaints(complaints),
        Err(_) => Refusal::Memory,
    }
}

/// What [`read_json`] does.
fn read_text(alloc: Global, table: &Table, text: &[u8]) -> Result<Message, Refusal>
    ensures ok { IfOk result (λ m. IsMessage table.now text.now m) }
    ensures refused { IfErr result (λ e. AreOf table.now text.now e) }
{
    let mut scratch = Scratch::new(alloc);
    match Value::from_slice(alloc, text, &mut scratch) {
        Ok(value) => read_value(alloc, table, &value),
        Err(Error::Invalid) => Err(not_json(alloc, text)),
        Err(Error::OutOfMemory | Error::TooLong | Error::DuplicateKey) => Err(Refusal::Memory),
    }
}

/// The message of a JSON text: an object of the members `mti`, a text of four digits, and `elements`, an object that has
/// each element's value at its number. A value of class `B` is text of hexadecimal digits, any other its characters. What
/// [`append_json`](crate::append_json) wrote in clear comes back.
///
/// Else all that is wrong: the text is no JSON; it is no object; members with other names, and those that come again; the
/// type is missing, no text of four digits or of another version than the table; the elements are missing or no object; and
/// each element whose number is none, that comes again, has no row, no text, a masked value, no whole bytes, or a value that
/// its row refuses. Nothing is dropped silently.
pub fn read_json(alloc: Global, table: &Table, text: &[u8]) -> Result<Message, Refusal>
    // At `Ok` the text is JSON, nothing of it is refused, and the message is the one that it says.
    ensures ok { IfOk result (λ m. IsMessage table.now text.now m) }
    // Memory aside, a refusal tells all that is wrong: that the text is no JSON, with a line and a
    // column, or each thing in it that is refused.
    ensures refused { IfErr result (λ e. AreOf table.now text.now e) }
    // A message that the table takes comes back from its JSON in clear, unless memory runs out.
    ensures comes_back { ComesBack table.now text.now result }
{
    clear_json_says();
    read_text(alloc, table, text)
}
