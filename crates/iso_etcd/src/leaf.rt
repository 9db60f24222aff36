//! Objects of texts, bytes and numbers.
ghost use Rattle.std.specs.Prelude.{◌≡◌, IfOk, OnOk};
ghost use Rattle.serde_json.specs.Data.{object, member, no_members, put as with_member};
ghost use Rattle.serde_json.specs.View.{view, members_view};
ghost use Rattle.iso_etcd.specs.Leaves.{leaf_data, with_leaves};
ghost use Rattle.iso_etcd.specs.Questions.{base64, one};

use base64::engine::general_purpose::STANDARD;
use serde_json::{Map, Value, push, put};
use std::alloc::{AllocError, Global};

/// A value without members.
#[derive(Clone, Copy)]
pub enum Leaf<'l> {
    /// A text.
    Text(&'l str),
    /// Bytes, which are written as base64.
    Bytes(&'l [u8]),
    /// A number.
    Number(u64),
}

/// The JSON of bytes.
fn bytes_value(alloc: Global, bytes: &[u8]) -> Result<Value, AllocError>
    ensures { IfOk result (λ v. view v ≡ base64 bytes.now) }
{
    Ok(Value::String(STANDARD.encode(alloc, bytes)?))
}

/// The JSON of a leaf.
fn leaf_value(alloc: Global, leaf: &Leaf<'_>) -> Result<Value, AllocError>
    ensures { IfOk result (λ v. view v ≡ leaf_data leaf.now) }
{
    match leaf {
        Leaf::Text(text) => Value::try_from_str(alloc, *text),
        Leaf::Bytes(bytes) => bytes_value(alloc, *bytes),
        Leaf::Number(number) => Ok(Value::from(*number)),
    }
}

/// Adds leaves to the members of an object.
fn add_leaves(
    members: &mut Map<String, Value>,
    alloc: Global,
    leaves: &[(&str, Leaf<'_>)],
) -> Result<(), AllocError>
    ensures { OnOk result (members_view members.new.entries
        ≡ with_leaves leaves.now (members_view members.old.entries)) }
{
    match leaves {
        [(name, leaf), others @ ..] => {
            put(members, alloc, *name, leaf_value(alloc, leaf)?)?;
            add_leaves(members, alloc, others)
        }
        [] => Ok(()),
    }
}

/// The object of leaves.
pub fn object_of(alloc: Global, leaves: &[(&str, Leaf<'_>)]) -> Result<Value, AllocError>
    // Memory aside, the members are these leaves under their names, bytes as base64; of two with
    // one name the last one counts.
    ensures { IfOk result (λ v. view v ≡ object (with_leaves leaves.now no_members)) }
{
    let mut members = Map::new(alloc);
    add_leaves(&mut members, alloc, leaves)?;
    Ok(Value::Object(members))
}

/// The object with one member: an object of leaves.
pub fn nested(alloc: Global, name: &str, leaves: &[(&str, Leaf<'_>)]) -> Result<Value, AllocError>
    ensures { IfOk result (λ v. view v
        ≡ object (member name.now (object (with_leaves leaves.now no_members)) no_members)) }
{
    let value = object_of(alloc, leaves)?;
    let mut members = Map::new(alloc);
    put(&mut members, alloc, name, value)?;
    Ok(Value::Object(members))
}

/// Adds a list of one to the members of an object.
pub fn add_one(
    members: &mut Map<String, Value>,
    alloc: Global,
    name: &str,
    value: Value,
) -> Result<(), AllocError>
    ensures { OnOk result (members_view members.new.entries
        ≡ with_member name.now (one (view value)) (members_view members.old.entries)) }
{
    let mut list = Vec::new(alloc);
    push(&mut list, value)?;
    put(members, alloc, name, Value::Array(list))
}
