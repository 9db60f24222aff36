//! The bodies that a question brings.

use hex::decode;
use iso_desk::{DeskFault, Question};
use serde_json::Value;
use std::alloc::Global;

/// What bodies have to be.
const UNFIT: DeskFault = DeskFault::Member {
    member: "bodies",
    wanted: "a list of texts of hexadecimal digits",
};

/// The bytes that a text of digits stands for.
fn body_of(alloc: Global, value: &Value) -> Result<Vec<u8>, DeskFault> {
    let Some(digits) = value.as_str() else {
        return Err(UNFIT);
    };
    match decode(alloc, digits.as_bytes()) {
        Ok(bytes) => Ok(bytes),
        Err(_) => Err(UNFIT),
    }
}

/// The bodies that a question brings, as texts of hexadecimal digits in its member `bodies`.
pub fn bodies_in(alloc: Global, question: &Question) -> Result<Vec<Vec<u8>>, DeskFault> {
    let mut bodies = Vec::new(alloc);
    for value in question.list("bodies")? {
        bodies.push(body_of(alloc, value)?)?;
    }
    Ok(bodies)
}
