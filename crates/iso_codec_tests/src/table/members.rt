//! The members of an object.

use super::*;
use iso_table::members::{has_members, text_at};
use serde_json::Value;

/// Whether a document has so many members, or hasn't, and that text at its member `pad`.
fn is_told(alloc: Global, document: &str, size: usize, is_so: bool, pad: Option<&str>) -> bool {
    match Value::from_slice(alloc, document.as_bytes()) {
        Ok(value) => has_members(&value, size) == is_so && text_at(&value, "pad") == pad,
        Err(_) => false,
    }
}

/// A document, a count of members and whether it has so many, and the text at the member `pad`.
type Told = (&'static str, usize, bool, Option<&'static str>);

/// A member that is given twice is one.
const DOCUMENTS: &[Told] = &[
    (r#"{"class":"N","pad":"none"}"#, 2, true, Some("none")),
    (r#"{"class":"N","pad":"none"}"#, 3, false, Some("none")),
    (r#"{"pad":"left:2a","pad":"none"}"#, 1, true, Some("none")),
    (r#"{"pad":"left:2a","pad":"none"}"#, 2, false, Some("none")),
    (r#"{"pad":20}"#, 1, true, None),
    (r#"{"pad":20}"#, 2, false, None),
    ("{}", 0, true, None),
    ("{}", 1, false, None),
    // a list is no object
    ("[]", 0, false, None),
];

#[test]
fn members_of_an_object(rt: HostRuntime) -> Result<(), Fail> {
    for (document, size, is_so, pad) in DOCUMENTS {
        let is_told = is_told(rt.alloc(), *document, *size, *is_so, *pad);
        check(is_told, *document)?;
    }
    Ok(())
}
