//! Pages of a journal.
ghost use Rattle.std.specs.Prelude.{◌≡◌, List, ℕ, Option, Some, None, IfOk, IfSome, IsNone, codes, map, option_map};
ghost use Rattle.serde_json.specs.Data.{Data};
ghost use Rattle.serde_json.specs.View.{view, items_view};
ghost use Rattle.iso_etcd.specs.Keys.{name_text, batch_key};
ghost use Rattle.iso_etcd.specs.Answers.{IsJson, is_true, value_at, value_of, value_in, pairs_in, batches_from, batches_in};
ghost use Rattle.iso_etcd.specs.Pages.{IsPage, IsValue};

use crate::answer::value_at;
use crate::json::{is_true, parse};
use crate::key::key_at;
use crate::name::Name;
use serde_json::Value;
use std::alloc::{AllocError, Global};

/// The batches at places that follow one another.
#[derive(Debug, Drop)]
pub struct Page {
    /// The batches.
    pub batches: Vec<Vec<u8>>,
    /// Whether there are more behind them.
    pub more: bool,
}

/// The batch of a pair, if it is the pair of a place.
fn batch_at(
    alloc: Global,
    name: &Name,
    place: u64,
    pair: &Value,
) -> Result<Option<Vec<u8>>, AllocError>
    ensures { IfOk result (λ batch. option_map (λ b. b.items) batch
        ≡ value_at (batch_key (name_text name.now) place) (view pair.now)) }
{
    let key = key_at(alloc, name, place)?;
    value_at(alloc, key.as_slice(), pair)
}

/// The batches of pairs, if they are those of the places from one on.
fn batches_from(
    alloc: Global,
    name: &Name,
    first: u32,
    pairs: &[Value],
) -> Result<Option<Vec<Vec<u8>>>, AllocError>
    ensures { IfOk result (λ batches. option_map (λ bs. map (λ b. b.items) bs.items) batches
        ≡ batches_from (name_text name.now) first (items_view pairs.now)) }
{
    let mut batches = Vec::new(alloc);
    let mut place = first as u64;
    let mut rest = pairs;
    while let [pair, after @ ..] = rest {
        match batch_at(alloc, name, place, pair)? {
            Some(batch) => batches.push(batch)?,
            None => return Ok(None),
        }
        place += 1;
        rest = after;
    }
    Ok(Some(batches))
}

/// The pairs of an answer; where none were found, they are left out.
fn pairs_in(answer: &Value) -> Option<&[Value]>
    ensures { option_map (λ pairs. items_view pairs.now) result ≡ pairs_in (view answer.now) }
{
    match answer.get("kvs") {
        Some(pairs) => Some(pairs.as_array()?.as_slice()),
        None => Some(&[]),
    }
}

/// The batches of an answer, from a place on.
fn batches_in(
    alloc: Global,
    name: &Name,
    first: u32,
    answer: &Value,
) -> Result<Option<Vec<Vec<u8>>>, AllocError>
    ensures { IfOk result (λ batches. option_map (λ bs. map (λ b. b.items) bs.items) batches
        ≡ batches_in (name_text name.now) first (view answer.now)) }
{
    match pairs_in(answer) {
        Some(pairs) => batches_from(alloc, name, first, pairs),
        None => Ok(None),
    }
}

/// The page that an answer is.
fn page_of(
    alloc: Global,
    name: &Name,
    first: u32,
    answer: &Value,
) -> Result<Option<Page>, AllocError>
    ensures found { IfOk result
        (λ o. IfSome o (IsPage (name_text name.now) first (view answer.now))) }
    ensures none { IfOk result
        (λ o. IsNone o → batches_in (name_text name.now) first (view answer.now) ≡ None) }
{
    match batches_in(alloc, name, first, answer)? {
        Some(batches) => Ok(Some(Page {
            batches,
            more: is_true(answer, "more"),
        })),
        None => Ok(None),
    }
}

/// The page that the body of a response is: the batches at the places from one on, with none left out. `None` where it
/// is anything else.
pub fn read_page(
    alloc: Global,
    name: &Name,
    first: u32,
    body: &[u8],
) -> Result<Option<Page>, AllocError>
    // A page that is found has the batches that the body tells, at the places from `first` on with
    // none left out, and says whether there are more.
    ensures found { IfOk result
        (λ o. IfSome o (λ page. (answer : Data) × IsJson body.now answer
        × IsPage (name_text name.now) first answer page)) }
    // `None` comes only where the body is no JSON, or doesn't tell the batches from `first` on with
    // none left out.
    ensures none { IfOk result (λ o. IsNone o → (answer : Data) → IsJson body.now answer
        → batches_in (name_text name.now) first answer ≡ None) }
{
    match parse(alloc, body)? {
        Some(answer) => page_of(alloc, name, first, &answer),
        None => Ok(None),
    }
}

/// What stands at a key, of the pairs that were found: at most one.
fn value_of(
    alloc: Global,
    key: &[u8],
    pairs: &[Value],
) -> Result<Option<Option<Vec<u8>>>, AllocError>
    ensures { IfOk result (λ value. option_map (option_map (λ v. v.items)) value
        ≡ value_of key.now (items_view pairs.now)) }
{
    match pairs.first() {
        Some(pair) => Ok(value_at(alloc, key, pair)?.map(Some)),
        None => Ok(Some(None)),
    }
}

/// What stands at a key, of an answer.
fn value_in(
    alloc: Global,
    key: &[u8],
    answer: &Value,
) -> Result<Option<Option<Vec<u8>>>, AllocError>
    ensures { IfOk result (λ value. option_map (option_map (λ v. v.items)) value
        ≡ value_in key.now (view answer.now)) }
{
    match pairs_in(answer) {
        Some(pairs) => value_of(alloc, key, pairs),
        None => Ok(None),
    }
}

/// What stands at a key, of the body of a response: a value, or nothing. `None` where it tells neither.
pub fn read_value(
    alloc: Global,
    key: &[u8],
    body: &[u8],
) -> Result<Option<Option<Vec<u8>>>, AllocError>
    // What is found is what the body tells of the key: the value that stands there, or that nothing
    // does.
    ensures found { IfOk result
        (λ o. IfSome o (λ value. IsValue key.now body.now (option_map (λ v. v.items) value))) }
    // `None` comes only where the body tells neither a value at the key nor that nothing stands
    // there.
    ensures none { IfOk result
        (λ o. IsNone o → (value : Option (List ℕ)) → IsValue key.now body.now value → ⊥) }
{
    match parse(alloc, body)? {
        Some(answer) => value_in(alloc, key, &answer),
        None => Ok(None),
    }
}
