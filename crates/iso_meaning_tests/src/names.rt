//! Worked rows: names as the editions have them, and a network's own.

use super::checks::{check_element, is_shown};
use iso_fakes::check;
use iso_names::{Names, name};
use std::alloc::Global;
use std::test::Fail;

/// A version, an element and its name. 1987 has version 0, 1993 version 1 and 2003 version 2.
const EDITIONS: &[(u8, u8, Option<&str>)] = &[
    (0, 2, Some("Primary account number (PAN)")),
    (0, 39, Some("Response code")),
    (0, 64, Some("Message authentication code")),
    (0, 90, Some("Original data elements")),
    (0, 127, Some("Reserved, private")),
    (0, 1, None),
    (0, 65, None),
    (0, 129, None),
    (1, 2, Some("Primary account number (PAN)")),
    (1, 39, Some("Action code")),
    (1, 56, Some("Original data elements")),
    (1, 106, Some("Debits, chargeback amount")),
    (1, 128, Some("Message authentication code")),
    (2, 26, Some("Merchant category code")),
    (2, 39, Some("Action code")),
    (2, 49, Some("Verification data")),
    (2, 50, None),
    (2, 90, None),
    (2, 104, Some("Transaction specific data")),
    (3, 2, None),
    (9, 2, None),
];

#[test]
fn editions() -> Result<(), Fail> {
    for (version, element, wanted) in EDITIONS {
        let is_so = name(*version, *element) == *wanted;
        check_element(is_so, *element, usize::from(*version))?;
    }
    Ok(())
}

const OWN: &[u8] = br#"{"48":"Merchant data","127":"Private use","2":"Konto"}"#;

/// An element and its name where a network has the names above, over 1987.
const LAID: &[(u8, Option<&str>)] = &[
    (2, Some("Konto")),
    (48, Some("Merchant data")),
    (127, Some("Private use")),
    (3, Some("Processing code")),
    (65, None),
];

/// That the elements have these names.
fn check_laid(names: &Names) -> Result<(), Fail> {
    for (element, wanted) in LAID {
        check_element(names.of(*element) == *wanted, *element, 0)?;
    }
    Ok(())
}

/// Whether the names without a network's own are those of 1993.
fn are_of_1993(alloc: Global) -> bool {
    let names = Names::new(alloc, 1);
    names.of(39) == Some("Action code") && names.of(48) == Some("Additional data, private")
}

#[test]
fn own_names_come_first(rt: HostRuntime) -> Result<(), Fail> {
    check(are_of_1993(rt.alloc()), "the names of 1993")?;
    let names = Names::from_json(rt.alloc(), 0, OWN)?;
    check_laid(&names)
}

/// A document of own names that is refused, and what is told of it.
const REFUSED: &[(&[u8], &str)] = &[
    (b"{\n\"48\" 7}", "the text is no JSON: line 2, column 6"),
    (b"\xFF", "the text is no JSON: line 1, column 1"),
    (b"[]", "the JSON is no object from element numbers to names"),
    (br#"{"1":"a"}"#, "the key \"1\" is no element's number"),
    (br#"{"65":"a"}"#, "the key \"65\" is no element's number"),
    (br#"{"129":"a"}"#, "the key \"129\" is no element's number"),
    (br#"{"048":"a"}"#, "the key \"048\" is no element's number"),
    (br#"{"48 ":"a"}"#, "the key \"48 \" is no element's number"),
    (br#"{"":"a"}"#, "the key \"\" is no element's number"),
    (br#"{"48":7}"#, "the name of element 48 is no text"),
    (
        br#"{"48":"a\tb"}"#,
        "the name of element 48 holds a control character",
    ),
    (
        b"{\"48\":\"a\xC2\x9Bb\"}",
        "the name of element 48 holds a control character",
    ),
];

/// Whether the document is refused so.
fn is_refused(alloc: Global, text: &[u8], wanted: &str) -> bool {
    match Names::from_json(alloc, 0, text) {
        Ok(_) => false,
        Err(fault) => is_shown(alloc, &fault, wanted),
    }
}

#[test]
fn refusals(rt: HostRuntime) -> Result<(), Fail> {
    for (text, wanted) in REFUSED {
        check(is_refused(rt.alloc(), *text, *wanted), *wanted)?;
    }
    Ok(())
}
