//! What etcd's answers tell.
ghost use Rattle.std.specs.Prelude.{◌≡◌, ◌↔◌, IsTrue, IfOk, IfSome, IsNone, codes, option_map};
ghost use Rattle.std.specs.Str.{bytes_eq};
ghost use Rattle.serde_json.specs.View.{view};
ghost use Rattle.iso_etcd.specs.Answers.{bytes_in, is_key, value_at, standing, Outcome, outcome_of, Tells, IsTold};

use crate::json::{bytes_in, first_in, is_true, parse};
use serde_json::Value;
use std::alloc::{AllocError, Global};

/// What became of a value that was to be put at a key.
#[derive(Debug, Drop)]
pub enum PutAnswer {
    /// It was put.
    Put,
    /// Nothing was put, as this stands there.
    Stands(Vec<u8>),
}

/// Whether bytes are the same.
pub fn is_same(one: &[u8], other: &[u8]) -> bool
    // The answer is true exactly where both are the same bytes.
    ensures same { IsTrue result ↔ (one.now ≡ other.now) }
    // The answer is that of a comparison byte by byte.
    ensures tested { result ≡ bytes_eq one.now other.now }
{
    one == other
}

/// Whether a pair is the one at a key.
fn has_key(alloc: Global, key: &[u8], pair: &Value) -> Result<bool, AllocError>
    ensures { IfOk result (λ has. has ≡ is_key key.now (bytes_in (codes "key") (view pair.now))) }
{
    match bytes_in(alloc, pair, "key")? {
        Some(found) => Ok(is_same(found.as_slice(), key)),
        None => Ok(false),
    }
}

/// The value of a pair, if it is the pair at a key.
pub fn value_at(alloc: Global, key: &[u8], pair: &Value) -> Result<Option<Vec<u8>>, AllocError>
    ensures { IfOk result
        (λ value. option_map (λ v. v.items) value ≡ value_at key.now (view pair.now)) }
{
    if !has_key(alloc, key, pair)? {
        return Ok(None);
    }
    bytes_in(alloc, pair, "value")
}

/// What stands at the key, of the answer to a transaction that put nothing.
fn standing(answer: &Value) -> Option<&Value>
    ensures { option_map (λ v. view v.now) result ≡ standing (view answer.now) }
{
    let range = first_in(answer, "responses")?.get("response_range")?;
    first_in(range, "kvs")
}

/// What the answer to a transaction tells.
fn put_answer(alloc: Global, key: &[u8], answer: &Value) -> Result<Option<PutAnswer>, AllocError>
    ensures found { IfOk result
        (λ o. IfSome o (λ t. Tells key.now (view answer.now) (outcome_of t))) }
    ensures none { IfOk result
        (λ o. IsNone o → (outcome : Outcome) → Tells key.now (view answer.now) outcome → ⊥) }
{
    if is_true(answer, "succeeded") {
        return Ok(Some(PutAnswer::Put));
    }
    let Some(pair) = standing(answer) else {
        return Ok(None);
    };
    match value_at(alloc, key, pair)? {
        Some(value) => Ok(Some(PutAnswer::Stands(value))),
        None => Ok(None),
    }
}

/// What the body of the response to a transaction tells. `None` where it tells nothing of it.
pub fn read_put(alloc: Global, key: &[u8], body: &[u8]) -> Result<Option<PutAnswer>, AllocError>
    // What is told is what the body says of the key: that the value was put, or, where it wasn't,
    // what stands there.
    ensures found { IfOk result (λ o. IfSome o (λ t. IsTold key.now body.now (outcome_of t))) }
    // `None` comes only where the body tells neither that it was put nor what stands at the key.
    ensures none { IfOk result
        (λ o. IsNone o → (outcome : Outcome) → IsTold key.now body.now outcome → ⊥) }
{
    match parse(alloc, body)? {
        Some(answer) => put_answer(alloc, key, &answer),
        None => Ok(None),
    }
}
