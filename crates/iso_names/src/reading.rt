//! Own names from JSON.

ghost use Rattle.std.specs.Prelude.{◌≡◌, IfOk, IfErr, IfSome, Ok, Err, None, map, true, false};
ghost use Rattle.serde_json.specs.View.{view, members_view};
ghost use Rattle.iso_names.specs.Own.{own_view};
ghost use Rattle.iso_names.specs.Document.{StandsFor, IsNotJson, wrong_of, is_of_text, number_of, element_of, has_control, named, own_in, owns_in, own_names};

use crate::fault::NamesFault;
use crate::own::OwnName;
use iso_parts::is_element;
use serde_json::{Category, Map, Value};
use std::alloc::Global;

/// The number that one to three digits write, the first of them no zero.
fn number_of(key: &[u8]) -> Option<u16>
    ensures { result ≡ number_of key.now }
{
    match *key {
        [a @ b'1'..=b'9'] => Some(u16::from(a - b'0')),
        [a @ b'1'..=b'9', b @ b'0'..=b'9'] => Some(10 * u16::from(a - b'0') + u16::from(b - b'0')),
        [b'1', a @ b'0'..=b'9', b @ b'0'..=b'9'] => Some(
            100 + 10 * u16::from(a - b'0') + u16::from(b - b'0'),
        ),
        _ => None,
    }
}

/// The element that a key names.
fn element_of(key: &[u8]) -> Option<u8>
    ensures { result ≡ element_of key.now }
{
    let number = number_of(key)?;
    if !is_element(number) {
        return None;
    }
    u8::try_from(number).ok()
}

/// Whether a text holds a control character.
fn has_control(text: &str) -> bool
    ensures { result ≡ has_control text.now }
{
    for c in text.chars() {
        if c.is_control() {
            return true;
        }
    }
    false
}

/// The own name of an element that a JSON value is.
fn named(alloc: Global, element: u8, value: &Value) -> Result<OwnName, NamesFault>
    ensures ok { IfOk result (λ own. named element (view value.now) ≡ Ok (own_view own)) }
    ensures wrong { IfErr result
        (λ e. IfSome (wrong_of e) (λ wrong. named element (view value.now) ≡ Err wrong)) }
    ensures json { IfErr result (λ e. is_of_text e ≡ false) }
{
    let Some(text) = value.as_str() else {
        return Err(NamesFault::NoText(element));
    };
    if has_control(text) {
        return Err(NamesFault::ControlCharacter(element));
    }
    Ok(OwnName {
        element,
        name: String::from_str(alloc, text)?,
    })
}

/// The own name that a member is.
fn own_in(alloc: Global, key: &str, value: &Value) -> Result<OwnName, NamesFault>
    ensures ok { IfOk result (λ own. own_in key.now (view value.now) ≡ Ok (own_view own)) }
    ensures wrong { IfErr result
        (λ e. IfSome (wrong_of e) (λ wrong. own_in key.now (view value.now) ≡ Err wrong)) }
    ensures json { IfErr result (λ e. is_of_text e ≡ false) }
{
    match element_of(key.as_bytes()) {
        Some(element) => named(alloc, element, value),
        None => Err(NamesFault::BadKey(String::from_str(alloc, key)?)),
    }
}

/// The own names that members are.
fn owns_in(alloc: Global, members: &Map<String, Value>) -> Result<Vec<OwnName>, NamesFault>
    ensures ok { IfOk result
        (λ own. owns_in (members_view members.now.entries) ≡ Ok (map own_view own.items)) }
    ensures wrong { IfErr result (λ e.
        IfSome (wrong_of e) (λ wrong. owns_in (members_view members.now.entries) ≡ Err wrong)) }
    ensures json { IfErr result (λ e. is_of_text e ≡ false) }
{
    let mut own = Vec::new(alloc);
    for (key, value) in members.iter() {
        own.push(own_in(alloc, key.as_str(), value)?)?;
    }
    Ok(own)
}

/// The own names that a JSON value is.
pub fn own_names(alloc: Global, value: &Value) -> Result<Vec<OwnName>, NamesFault>
    // At `Ok` the names are those that the value says, each of an element by its number.
    ensures ok { IfOk result (λ own. own_names (view value.now) ≡ Ok (map own_view own.items)) }
    // Memory aside, a fault is the first thing that is wrong with the value.
    ensures wrong { IfErr result
        (λ e. IfSome (wrong_of e) (λ wrong. own_names (view value.now) ≡ Err wrong)) }
    // No fault says that a text is no JSON.
    ensures json { IfErr result (λ e. is_of_text e ≡ false) }
{
    match value.as_object() {
        Some(members) => owns_in(alloc, members),
        None => Err(NamesFault::NoObject),
    }
}

/// The JSON value of a text.
pub fn value_of(alloc: Global, text: &[u8]) -> Result<Value, NamesFault>
    // At `Ok` the text is JSON, and stands for this value.
    ensures ok { IfOk result (λ value. StandsFor text.now (view value)) }
    // A fault says that the text is no JSON, or that memory ran out, and nothing of a value.
    ensures wrong { IfErr result (λ e. wrong_of e ≡ None) }
    // `NotJson` comes only of a text that is no JSON.
    ensures json { IfErr result (λ e. is_of_text e ≡ true → IsNotJson text.now) }
{
    match Value::from_slice(alloc, text) {
        Ok(value) => Ok(value),
        Err(error) if error.classify() == Category::Memory => Err(NamesFault::Memory),
        Err(error) => Err(NamesFault::NotJson {
            line: error.line(),
            column: error.column(),
        }),
    }
}
