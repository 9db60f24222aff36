//! Tokens and leases, as etcd tells them.
ghost use Rattle.std.specs.Prelude.{◌≡◌, ℕ, List, IfOk, IfSome, IsNone, codes, option_map, string_bytes};
ghost use Rattle.serde_json.specs.Find.{get};
ghost use Rattle.serde_json.specs.View.{view};
ghost use Rattle.iso_etcd.specs.Leases.{text_in, Writes, IsNumber, IsToken, IsLease, KeepsFor, IsKept};

use crate::json::parse;
use serde_json::Value;
use std::alloc::{AllocError, Global};

/// The text of a member.
fn text_in<'a>(answer: &'a Value, name: &str) -> Option<&'a str>
    ensures { option_map (λ text. text.now) result ≡ text_in name.now (view answer.now) }
{
    answer.get(name)?.as_str()
}

/// The number that decimal digits write.
fn number_of(text: &str) -> Option<u64>
    ensures found { IfSome result (Writes text.now) }
    ensures none { IsNone result → (number : ℕ) → Writes text.now number → ⊥ }
{
    match text.parse::<u64>() {
        Ok(number) => Some(number),
        Err(_) => None,
    }
}

/// The number of a member, which is written as a text.
fn number_in(answer: &Value, name: &str) -> Option<u64>
    ensures found { IfSome result (IsNumber name.now (view answer.now)) }
    ensures none { IsNone result → (number : ℕ) → IsNumber name.now (view answer.now) number → ⊥ }
{
    match text_in(answer, name) {
        Some(text) => number_of(text),
        None => None,
    }
}

/// A text of its own.
fn token_of(alloc: Global, answer: &Value) -> Result<Option<String>, AllocError>
    ensures { IfOk result
        (λ token. option_map (λ t. string_bytes t) token
        ≡ text_in (codes "token") (view answer.now)) }
{
    match text_in(answer, "token") {
        Some(text) => Ok(Some(String::from_str(alloc, text)?)),
        None => Ok(None),
    }
}

/// The token that the body of a response tells.
pub fn read_token(alloc: Global, body: &[u8]) -> Result<Option<String>, AllocError>
    // The token that is found is the text that the body tells as `token`.
    ensures found { IfOk result (λ o. IfSome o (λ token. IsToken body.now (string_bytes token))) }
    // `None` comes only where the body tells no token.
    ensures none { IfOk result
        (λ o. IsNone o → (token : List ℕ) → IsToken body.now token → ⊥) }
{
    match parse(alloc, body)? {
        Some(answer) => token_of(alloc, &answer),
        None => Ok(None),
    }
}

/// The lease that the body of a response tells.
pub fn read_lease(alloc: Global, body: &[u8]) -> Result<Option<u64>, AllocError>
    // The lease that is found is the number that the body tells as `ID`.
    ensures found { IfOk result (λ o. IfSome o (IsLease body.now)) }
    // `None` comes only where the body tells no lease.
    ensures none { IfOk result (λ o. IsNone o → (lease : ℕ) → IsLease body.now lease → ⊥) }
{
    match parse(alloc, body)? {
        Some(answer) => Ok(number_in(&answer, "ID")),
        None => Ok(None),
    }
}

/// For how many seconds more a lease is kept, if it is.
fn seconds_of(answer: &Value) -> Option<u64>
    ensures found { IfSome result (KeepsFor (get (codes "result") (view answer.now))) }
    ensures none { IsNone result → (seconds : ℕ)
        → KeepsFor (get (codes "result") (view answer.now)) seconds → ⊥ }
{
    match answer.get("result") {
        Some(kept) => number_in(kept, "TTL"),
        None => None,
    }
}

/// For how many seconds more a lease is kept, by the body of a response. `None` where it isn't.
pub fn read_kept(alloc: Global, body: &[u8]) -> Result<Option<u64>, AllocError>
    // The seconds that are found are those that the body tells as `TTL` in its `result`.
    ensures found { IfOk result (λ o. IfSome o (IsKept body.now)) }
    // `None` comes only where the body tells no seconds, as where the lease is gone.
    ensures none { IfOk result (λ o. IsNone o → (seconds : ℕ) → IsKept body.now seconds → ⊥) }
{
    match parse(alloc, body)? {
        Some(answer) => Ok(seconds_of(&answer)),
        None => Ok(None),
    }
}
