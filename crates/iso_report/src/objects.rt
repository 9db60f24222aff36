//! Objects of JSON, member by member.

use serde_json::{Map, Value};
use std::alloc::{AllocError, Global};

/// Adds a member.
pub(crate) fn add_value(
    members: &mut Map<String, Value>,
    alloc: Global,
    name: &str,
    value: Value,
) -> Result<(), AllocError> {
    members.insert(String::from_str(alloc, name)?, value)?;
    Ok(())
}

/// Adds a member that is a text.
pub(crate) fn add_text(
    members: &mut Map<String, Value>,
    alloc: Global,
    name: &str,
    text: &str,
) -> Result<(), AllocError> {
    let text = String::from_str(alloc, text)?;
    add_value(members, alloc, name, Value::String(text))
}

/// An object of numbers, by their names.
pub(crate) fn object_of(
    alloc: Global,
    numbers: &[(&str, u64)],
) -> Result<Map<String, Value>, AllocError> {
    let mut members = Map::new(alloc);
    for (name, number) in numbers {
        add_value(&mut members, alloc, name, Value::from(*number))?;
    }
    Ok(members)
}
