//! A document of rules.

use crate::counted::Counted;
use crate::document::rule_in;
use crate::fault::ScriptFault;
use crate::script::Script;
use iso_table::members::has_members;
use serde_json::{Category, Value};
use std::alloc::Global;

/// The most rules of a document.
pub const MOST_RULES: usize = 1_000;

/// The JSON value of a text.
fn value_of(alloc: Global, text: &[u8]) -> Result<Value, ScriptFault> {
    match Value::from_slice(alloc, text) {
        Ok(value) => Ok(value),
        Err(error) if error.classify() == Category::Memory => Err(ScriptFault::Memory),
        Err(error) => Err(ScriptFault::NotJson {
            line: error.line(),
            column: error.column(),
        }),
    }
}

/// The values that an object of one array lists.
fn values_in(value: &Value) -> Option<&[Value]> {
    if !has_members(value, 1) {
        return None;
    }
    Some(value.get("rules")?.as_array()?.as_slice())
}

/// The rules that these JSON values are.
fn rules_of(alloc: Global, values: &[Value]) -> Result<Vec<Counted>, ScriptFault> {
    let mut rules = Vec::new(alloc);
    for value in values {
        let rule = rule_in(alloc, rules.len().saturating_add(1), value)?;
        rules.push(Counted::new(rule))?;
    }
    Ok(rules)
}

impl Script {
    /// The script of a JSON text: `{"rules":[..]}`, 1 to 1,000 of them. Each is an object of `do`, and, where they are wanted,
    /// `account`, `amount`, `type` and `every`; of `code` too where it answers, and of `milliseconds` where it delays. Or else the first
    /// fault.
    pub fn from_text(alloc: Global, text: &[u8]) -> Result<Script, ScriptFault> {
        let value = value_of(alloc, text)?;
        let Some(values) = values_in(&value) else {
            return Err(ScriptFault::Shape);
        };
        if values.is_empty() || values.len() > MOST_RULES {
            return Err(ScriptFault::Count(values.len()));
        }
        Ok(Script::new(rules_of(alloc, values)?))
    }
}
