//! A document of links.

use crate::document::terms_in;
use crate::fault::LinksFault;
use crate::terms::Terms;
use iso_table::members::has_members;
use serde_json::{Category, Value};
use std::alloc::Global;

/// The most links of a document.
pub const MOST_LINKS: usize = 64;

/// The JSON value of a text.
fn value_of(alloc: Global, text: &[u8]) -> Result<Value, LinksFault> {
    match Value::from_slice(alloc, text) {
        Ok(value) => Ok(value),
        Err(error) if error.classify() == Category::Memory => Err(LinksFault::Memory),
        Err(error) => Err(LinksFault::NotJson {
            line: error.line(),
            column: error.column(),
        }),
    }
}

/// The values that an object of one array lists.
fn values_in(value: &Value) -> Option<&[Value]> {
    if !has_members(value, 1) {
        return None;
    }
    Some(value.get("links")?.as_array()?.as_slice())
}

/// What a link has in common with an earlier one that no two may have.
fn clash(link: usize, earlier: usize, one: &Terms, other: &Terms) -> Option<LinksFault> {
    if one.name == other.name {
        return Some(LinksFault::SameName { link, earlier });
    }
    if one.address == other.address {
        return Some(LinksFault::SameAddress { link, earlier });
    }
    None
}

/// Refuses a link that has the name or the address of one before it.
fn check_apart(links: &[Terms], terms: &Terms) -> Result<(), LinksFault> {
    let link = links.len().saturating_add(1);
    for (place, other) in links.iter().enumerate() {
        if let Some(fault) = clash(link, place.saturating_add(1), terms, other) {
            return Err(fault);
        }
    }
    Ok(())
}

/// The terms that these JSON values tell.
fn links_of(alloc: Global, values: &[Value]) -> Result<Vec<Terms>, LinksFault> {
    let mut links = Vec::new(alloc);
    for value in values {
        let terms = terms_in(alloc, links.len().saturating_add(1), value)?;
        check_apart(&links, &terms)?;
        links.push(terms)?;
    }
    Ok(links)
}

/// The links of a JSON text: `{"links":[..]}`, 1 to 64 of them, no two with one name or one address, each an object of
/// `name`, `listen`, `table` and `header`, and, where they are wanted, `skip`, `networks`, `acquirers` and `limits`. Or else
/// the first fault.
pub fn read_links(alloc: Global, text: &[u8]) -> Result<Vec<Terms>, LinksFault> {
    let value = value_of(alloc, text)?;
    let Some(values) = values_in(&value) else {
        return Err(LinksFault::Shape);
    };
    if values.is_empty() || values.len() > MOST_LINKS {
        return Err(LinksFault::Count(values.len()));
    }
    links_of(alloc, values)
}
