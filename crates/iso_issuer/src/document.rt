//! Accounts as a JSON document lists them.

ghost use Rattle.std.specs.Prelude.{◌≡◌, ◌≢◌, ℕ, List, IfOk, IfErr, IsErrOf, None, Some, option_map};
ghost use Rattle.std.specs.Str.{IsUtf8};
ghost use Rattle.serde_json.specs.Read.{read};
ghost use Rattle.serde_json.specs.View.{view, items_view};
ghost use Rattle.iso_order.specs.Pan.{AccountNumber};
ghost use Rattle.iso_order.specs.Pan.{pan_of};
ghost use Rattle.iso_issuer.specs.declared.fault.AccountsFault.TheVariants.{NotJson, Shape, Memory};
ghost use Rattle.iso_issuer.specs.Document.{i64_at, listed_in, listed_rows, document_in};
ghost use Rattle.iso_table.specs.Document.{IsNotJson};

use crate::fault::AccountsFault;
use iso_order::{Pan, currency_of};
use iso_table::members::{has_members, text_at};
use serde_json::{Category, Value};
use std::alloc::Global;

/// An account that a document lists.
#[derive(Clone, Copy)]
pub struct Listed {
    pub pan: Pan,
    pub currency: [u8; 3],
    pub opening: i64,
}

/// The whole number at a member.
fn i64_at(value: &Value, key: &str) -> Option<i64>
    ensures { result ≡ i64_at key.now (view value.now) }
{
    value.get(key)?.as_i64()
}

/// Two texts are one account number only where they are one text: `01` and `1` are two.
pub fn texts_apart()
    ensures { (a b : List ℕ) (pan : AccountNumber) → pan_of a ≡ Some pan → pan_of b ≡ Some pan
        → a ≡ b }
{}

/// The account that a JSON value is.
fn listed_in(value: &Value) -> Option<Listed>
    ensures { result ≡ listed_in (view value.now) }
{
    if !has_members(value, 3) {
        return None;
    }
    let pan = Pan::from_digits(text_at(value, "pan")?.as_bytes())?;
    let currency = currency_of(text_at(value, "currency")?.as_bytes())?;
    let opening = i64_at(value, "opening")?;
    Some(Listed {
        pan,
        currency,
        opening,
    })
}

/// The accounts that these JSON values are.
fn listed_rows(alloc: Global, values: &[Value]) -> Result<Vec<Listed>, AccountsFault>
    ensures ok { IfOk result (λ rows. listed_rows (items_view values.now) ≡ Some rows.items) }
    ensures fault { IfErr result (λ e. e ≢ Memory → e ≡ Shape) }
    ensures shape { IfErr result (λ e. e ≢ Memory → listed_rows (items_view values.now) ≡ None) }
{
    let mut rows = Vec::new(alloc);
    for value in values {
        let Some(row) = listed_in(value) else {
            return Err(AccountsFault::Shape);
        };
        rows.push(row)?;
    }
    Ok(rows)
}

/// The accounts that a JSON value lists.
pub fn document_in(alloc: Global, value: &Value) -> Result<Vec<Listed>, AccountsFault>
    // The accounts that are got are those that the JSON value lists, in its order.
    ensures ok { IfOk result (λ rows. document_in (view value.now) ≡ Some rows.items) }
    // The only fault, memory aside, is `Shape`.
    ensures fault { IfErr result (λ e. e ≢ Memory → e ≡ Shape) }
    // A fault, memory aside, comes only where the JSON value isn't a document
    // of accounts by its shape.
    ensures shape { IfErr result (λ e. e ≢ Memory → document_in (view value.now) ≡ None) }
{
    if !has_members(value, 1) {
        return Err(AccountsFault::Shape);
    }
    let Some(list) = value.get("accounts") else {
        return Err(AccountsFault::Shape);
    };
    let Some(values) = list.as_array() else {
        return Err(AccountsFault::Shape);
    };
    listed_rows(alloc, values.as_slice())
}

/// The JSON value of a text.
pub fn value_of(alloc: Global, text: &[u8]) -> Result<Value, AccountsFault>
    // A text that has a value is UTF-8.
    ensures utf8 { IfOk result (λ _. IsUtf8 text.now) }
    // The value that is got is the one that the JSON text spells.
    ensures read { IfOk result (λ value. read text.now ≡ Some (view value)) }
    // The only fault, memory aside, is `NotJson`.
    ensures fault { IfErr result (λ e. e ≢ Memory → e ≡ NotJson) }
    // `NotJson` is told only of a text that is no JSON.
    ensures not_json { IsErrOf result AccountsFault.NotJson → IsNotJson text.now }
{
    match Value::from_slice(alloc, text) {
        Ok(value) => Ok(value),
        Err(error) if error.classify() == Category::Memory => Err(AccountsFault::Memory),
        Err(_) => Err(AccountsFault::NotJson),
    }
}
