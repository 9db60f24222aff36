//! What an append came to, by what came of its request.
ghost use Rattle.std.specs.Prelude.{◌≡◌, ◌↔◌, Some, IsTrue, IfOk, codes, option_and_then};
ghost use Rattle.serde_json.specs.Find.{get, as_str};
ghost use Rattle.serde_json.specs.View.{view};
ghost use Rattle.iso_etcd.specs.Appends.{HasMessage, IsDoubt, IsAnswered, IsHeard, IsAppend, then_of, is_settled};

use crate::answer::{PutAnswer, is_same, read_put};
use crate::append::{Append, Doubt};
use crate::json::parse;
use crate::response::{Loss, Response};
use serde_json::Value;
use std::alloc::{AllocError, Global};

/// What etcd says where it has no space left.
const NO_SPACE: &str = "etcdserver: mvcc: database space exceeded";

/// Whether an error has these words.
fn has_words(error: &Value, words: &str) -> bool
    ensures { IsTrue result ↔
        (option_and_then as_str (get (codes "message") (view error.now)) ≡ Some words.now) }
{
    match error.get("message").and_then(Value::as_str) {
        Some(message) => is_same(message.as_bytes(), words.as_bytes()),
        None => false,
    }
}

/// Whether a body is an error with these words.
fn has_message(alloc: Global, words: &str, body: &[u8]) -> Result<bool, AllocError>
    ensures { IfOk result (λ has. IsTrue has ↔ HasMessage words.now body.now) }
{
    match parse(alloc, body)? {
        Some(error) => Ok(has_words(&error, words)),
        None => Ok(false),
    }
}

/// Why an error doesn't tell whether the batch stands.
fn doubt_of(alloc: Global, status: u16, body: &[u8]) -> Doubt
    ensures { IsDoubt status body.now result }
{
    if status == 401 || status == 403 {
        return Doubt::Denied;
    }
    match has_message(alloc, NO_SPACE, body) {
        Ok(true) => Doubt::NoSpace,
        Ok(false) => Doubt::Status(status),
        Err(AllocError) => Doubt::Memory,
    }
}

/// What an answer tells of the batch.
fn append_by(alloc: Global, key: &[u8], batch: &[u8], body: &[u8]) -> Append
    ensures { IsAnswered key.now batch.now body.now result }
{
    match read_put(alloc, key, body) {
        Ok(Some(PutAnswer::Put)) => Append::Appended,
        Ok(Some(PutAnswer::Stands(stands))) if is_same(stands.as_slice(), batch) =>
            Append::Appended,
        Ok(Some(PutAnswer::Stands(stands))) => Append::Taken(stands),
        Ok(None) => Append::Unknown(Doubt::Unreadable),
        Err(AllocError) => Append::Unknown(Doubt::Memory),
    }
}

/// What a response tells of the batch.
fn heard(alloc: Global, key: &[u8], batch: &[u8], response: &Response) -> Append
    ensures { IsHeard key.now batch.now response.now result }
{
    if response.status == 200 {
        append_by(alloc, key, batch, response.body.as_slice())
    } else {
        Append::Unknown(doubt_of(alloc, response.status, response.body.as_slice()))
    }
}

/// What is known of a batch that was to be put at a key.
pub fn append_of(alloc: Global, key: &[u8], batch: &[u8], outcome: Result<Response, Loss>) -> Append
    // `Appended` comes of an answer of 200 that it was put or stands, `Taken` of one that other
    // bytes do, `Unsent` of a request that wasn't sent, `Unknown` of all else.
    ensures { IsAppend key.now batch.now outcome result }
{
    match outcome {
        Ok(response) => heard(alloc, key, batch, &response),
        Err(Loss::Unsent(cause)) => Append::Unsent(cause),
        Err(Loss::Lost) => Append::Unknown(Doubt::Lost),
        Err(Loss::Memory) => Append::Unknown(Doubt::Memory),
    }
}

impl Append {
    /// What is known after one more request for the same batch at the same place.
    pub fn then(self, now: Append) -> Append
        // The later outcome counts, but where an earlier request is in doubt, that nothing was sent
        // now settles nothing.
        ensures { result ≡ then_of self now }
    {
        match (self, now) {
            (Append::Unknown(doubt), Append::Unsent(_)) => Append::Unknown(doubt),
            (_, now) => now,
        }
    }

    /// Whether it is known what stands at the place.
    pub fn is_settled(&self) -> bool
        // It is settled exactly where the batch stands at the place, or another one does.
        ensures { result ≡ is_settled self.now }
    {
        matches!(self, Append::Appended | Append::Taken(_))
    }
}
