//! JSON, and the members of its objects.
ghost use Rattle.std.specs.Prelude.{◌≡◌, IfOk, IfSome, IsNone, codes, option_map, option_and_then};
ghost use Rattle.serde_json.specs.Data.{Data};
ghost use Rattle.serde_json.specs.View.{view};
ghost use Rattle.serde_json.specs.Find.{at, get};
ghost use Rattle.iso_etcd.specs.Answers.{IsJson, is_true, decoded, bytes_in, first_in};

use base64::DecodeAllocError;
use base64::engine::general_purpose::STANDARD;
use serde_json::Value;
use std::alloc::{AllocError, Global};
use std::str;

/// The JSON that bytes are, if they are JSON.
pub fn parse(alloc: Global, body: &[u8]) -> Result<Option<Value>, AllocError>
    // The JSON that is found is what the bytes are, as text in UTF-8.
    ensures found { IfOk result (λ o. IfSome o (λ v. IsJson body.now (view v))) }
    // `None` comes only where the bytes are no JSON in UTF-8.
    ensures none { IfOk result (λ o. IsNone o → (d : Data) → IsJson body.now d → ⊥) }
{
    let Ok(text) = str::from_utf8(body) else {
        return Ok(None);
    };
    match Value::from_str(alloc, text) {
        Ok(value) => Ok(Some(value)),
        Err(error) if error.is_memory() => Err(AllocError),
        Err(_) => Ok(None),
    }
}

/// Whether a member is true.
pub fn is_true(answer: &Value, name: &str) -> bool
    // A member that is left out, or is no truth value, counts as false.
    ensures { result ≡ is_true name.now (view answer.now) }
{
    answer.get(name).and_then(Value::as_bool).unwrap_or(false)
}

/// The bytes that a base64 text writes.
fn decoded(alloc: Global, text: &str) -> Result<Option<Vec<u8>>, AllocError>
    ensures { IfOk result (λ o. option_map (λ v. v.items) o ≡ decoded text.now) }
{
    match STANDARD.decode(alloc, text.as_bytes()) {
        Ok(bytes) => Ok(Some(bytes)),
        Err(DecodeAllocError::OutOfMemory) => Err(AllocError),
        Err(DecodeAllocError::DecodeError(_)) => Ok(None),
    }
}

/// The bytes of a member, written as base64.
pub fn bytes_in(alloc: Global, answer: &Value, name: &str) -> Result<Option<Vec<u8>>, AllocError>
    // Memory aside, a member that is left out is read as empty, and `None` stands for one that is
    // no text in base64.
    ensures { IfOk result (λ o. option_map (λ v. v.items) o ≡ bytes_in name.now (view answer.now)) }
{
    let Some(member) = answer.get(name) else {
        return Ok(Some(Vec::new(alloc)));
    };
    match member.as_str() {
        Some(text) => decoded(alloc, text),
        None => Ok(None),
    }
}

/// The first item of a member that is a list.
pub fn first_in<'a>(answer: &'a Value, name: &str) -> Option<&'a Value>
    ensures { option_map (λ v. view v.now) result ≡ first_in name.now (view answer.now) }
{
    answer.get(name)?.get(0)
}
