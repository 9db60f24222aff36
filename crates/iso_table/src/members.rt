//! Members of a JSON object, for the documents of tables and of accounts.

ghost use Rattle.std.specs.Prelude.{◌≡◌, option_map};
ghost use Rattle.serde_json.specs.View.{view};
ghost use Rattle.iso_table.specs.Members.{has_size, text_at};

use serde_json::Value;

/// Whether a JSON value is an object of so many members.
pub fn has_members(value: &Value, size: usize) -> bool
    ensures { result ≡ has_size size (view value.now) }
{
    match value.as_object() {
        Some(members) => members.len() == size,
        None => false,
    }
}

/// The text at a member.
pub fn text_at<'a>(value: &'a Value, key: &str) -> Option<&'a str>
    // `None` comes where there is no such member, or it is no text.
    ensures { option_map (λ text. text.now) result ≡ text_at key.now (view value.now) }
{
    value.get(key)?.as_str()
}
