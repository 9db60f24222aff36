//! What is asked of etcd, as JSON.
ghost use Rattle.std.specs.Prelude.{◌≡◌, ◌≤◌, OnOk, Some, IfOk, codes, string_bytes};
ghost use Rattle.serde_json.specs.Data.{Data, object, depth, member, no_members, put as with_member};
ghost use Rattle.serde_json.specs.Read.{read, max_depth};
ghost use Rattle.serde_json.specs.View.{view, members_view};
ghost use Rattle.iso_etcd.specs.Leaves.{with_leaves};
ghost use Rattle.iso_etcd.specs.Questions.{base64, one, is_free, told_of, transaction, put_of, put_data, put_leased_data, range_data, look_data, login_data, grant_data, lease_data};

use crate::leaf::Leaf::{Bytes, Number, Text};
use crate::leaf::{Leaf, add_one, nested, object_of};
use serde_json::{Map, Value};
use std::alloc::{AllocError, Global};

/// That nothing stands at a key.
fn free_value(alloc: Global, key: &[u8]) -> Result<Value, AllocError>
    ensures { IfOk result (λ v. view v ≡ is_free (base64 key.now)) }
{
    object_of(
        alloc,
        &[
            ("create_revision", Text("0")),
            ("key", Bytes(key)),
            ("result", Text("EQUAL")),
            ("target", Text("CREATE")),
        ],
    )
}

/// What is to be told of a key.
fn told_value(alloc: Global, key: &[u8]) -> Result<Value, AllocError>
    ensures { IfOk result (λ v. view v ≡ told_of (base64 key.now)) }
{
    nested(alloc, "request_range", &[("key", Bytes(key))])
}

/// What is put, by its members.
fn put_value(alloc: Global, leaves: &[(&str, Leaf<'_>)]) -> Result<Value, AllocError>
    ensures { IfOk result (λ v. view v ≡ put_of (with_leaves leaves.now no_members)) }
{
    nested(alloc, "request_put", leaves)
}

/// Adds what is asked of a key, and what is to be told of it else, to the members of a transaction.
fn add_condition(
    members: &mut Map<String, Value>,
    alloc: Global,
    key: &[u8],
) -> Result<(), AllocError>
    ensures { OnOk result (members_view members.new.entries
        ≡ with_member (codes "failure") (one (told_of (base64 key.now)))
        (with_member (codes "compare") (one (is_free (base64 key.now)))
        (members_view members.old.entries))) }
{
    add_one(members, alloc, "compare", free_value(alloc, key)?)?;
    add_one(members, alloc, "failure", told_value(alloc, key)?)
}

/// The transaction that puts that at a key.
fn transaction_value(alloc: Global, key: &[u8], put: Value) -> Result<Value, AllocError>
    ensures { IfOk result (λ v. view v ≡ transaction (base64 key.now) (view put)) }
{
    let mut members = Map::new(alloc);
    add_one(&mut members, alloc, "success", put)?;
    add_condition(&mut members, alloc, key)?;
    Ok(Value::Object(members))
}

/// The text of a value.
fn text_of(alloc: Global, value: &Value) -> Result<String, AllocError>
    ensures { depth (view value.now) ≤ max_depth
        → IfOk result (λ text. read (string_bytes text) ≡ Some (view value.now)) }
{
    value.to_string(alloc)
}

/// The text of the object of leaves.
fn leaves_text(alloc: Global, leaves: &[(&str, Leaf<'_>)]) -> Result<String, AllocError>
    ensures { depth (object (with_leaves leaves.now no_members)) ≤ max_depth
        → IfOk result (λ text. read (string_bytes text)
        ≡ Some (object (with_leaves leaves.now no_members))) }
{
    let value = object_of(alloc, leaves)?;
    text_of(alloc, &value)
}

/// The text of the transaction that puts that at a key.
fn transaction_text(alloc: Global, key: &[u8], put: Value) -> Result<String, AllocError>
    ensures { depth (transaction (base64 key.now) (view put)) ≤ max_depth
        → IfOk result (λ text. read (string_bytes text)
        ≡ Some (transaction (base64 key.now) (view put))) }
{
    let value = transaction_value(alloc, key, put)?;
    text_of(alloc, &value)
}

/// Asks to put a value at a key where nothing stands, and else to tell what stands there.
pub fn put_text(alloc: Global, key: &[u8], value: &[u8]) -> Result<String, AllocError>
    // Read as JSON, the text is exactly the transaction that puts the value at the key where
    // nothing stands there, and else tells what does, memory aside.
    ensures { IfOk result (λ text. read (string_bytes text) ≡ Some (put_data key.now value.now)) }
{
    let put = put_value(alloc, &[("key", Bytes(key)), ("value", Bytes(value))])?;
    transaction_text(alloc, key, put)
}

/// The same, for a value that stays for as long as a lease.
pub fn put_leased_text<'b>(
    alloc: Global,
    key: &'b [u8],
    value: &'b [u8],
    lease: u64,
) -> Result<String, AllocError>
    // Read as JSON, the text is exactly the transaction that puts the value for this lease at the
    // key where nothing stands there, and else tells what does, memory aside.
    ensures { IfOk result
        (λ text. read (string_bytes text) ≡ Some (put_leased_data key.now value.now lease)) }
{
    let put = put_value(
        alloc,
        &[
            ("key", Bytes(key)),
            ("lease", Number(lease)),
            ("value", Bytes(value)),
        ],
    )?;
    transaction_text(alloc, key, put)
}

/// Asks for the values at the keys from one on, before another one, at most so many.
pub fn range_text<'b>(
    alloc: Global,
    first: &'b [u8],
    end: &'b [u8],
    limit: u32,
) -> Result<String, AllocError>
    // Read as JSON, the text is exactly the request for the range of these two keys, in base64,
    // with this limit, memory aside.
    ensures { IfOk result
        (λ text. read (string_bytes text) ≡ Some (range_data first.now end.now limit)) }
{
    leaves_text(
        alloc,
        &[
            ("key", Bytes(first)),
            ("limit", Number(limit as u64)),
            ("range_end", Bytes(end)),
        ],
    )
}

/// Asks for the value at a key.
pub fn look_text(alloc: Global, key: &[u8]) -> Result<String, AllocError>
    // Read as JSON, the text is exactly the request for this key, in base64, memory aside.
    ensures { IfOk result (λ text. read (string_bytes text) ≡ Some (look_data key.now)) }
{
    leaves_text(alloc, &[("key", Bytes(key))])
}

/// Asks for a token.
pub fn login_text(alloc: Global, user: &str, password: &str) -> Result<String, AllocError>
    // Read as JSON, the text is exactly the user's name and password, memory aside.
    ensures { IfOk result
        (λ text. read (string_bytes text) ≡ Some (login_data user.now password.now)) }
{
    leaves_text(alloc, &[("name", Text(user)), ("password", Text(password))])
}

/// Asks for a lease of so many seconds.
pub fn grant_text(alloc: Global, seconds: u32) -> Result<String, AllocError>
    // Read as JSON, the text is exactly the number of seconds, as `TTL`, memory aside.
    ensures { IfOk result (λ text. read (string_bytes text) ≡ Some (grant_data seconds)) }
{
    leaves_text(alloc, &[("TTL", Number(seconds as u64))])
}

/// Asks to keep a lease, or to end it.
pub fn lease_text(alloc: Global, lease: u64) -> Result<String, AllocError>
    // Read as JSON, the text is exactly the number of the lease, as `ID`, memory aside.
    ensures { IfOk result (λ text. read (string_bytes text) ≡ Some (lease_data lease)) }
{
    leaves_text(alloc, &[("ID", Number(lease))])
}
