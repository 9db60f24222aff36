//! The checks that end a test and show what its row is of.

use std::alloc::Global;
use std::fmt::Display;
use std::test::Fail;

/// Ends the test with the bytes of a case, unless it is so.
pub(crate) fn check_bytes(is_so: bool, bytes: &[u8]) -> Result<(), Fail> {
    if is_so {
        Ok(())
    } else {
        Err(Fail::new(format_args!("{bytes:?}")))
    }
}

/// Ends the test with the element of a case and its version or size, unless it is so.
pub(crate) fn check_element(is_so: bool, element: u8, other: usize) -> Result<(), Fail> {
    if is_so {
        Ok(())
    } else {
        Err(Fail::new(format_args!("element {element}, {other}")))
    }
}

/// Whether that is shown of a value.
pub(crate) fn is_shown(alloc: Global, value: &impl Display, want: &str) -> bool {
    match format!(in alloc; "{value}") {
        Ok(text) => text.as_str() == want,
        Err(_) => false,
    }
}
