//! A question, and what its members are.

use crate::fault::DeskFault;
use iso_wire::Header;
use serde_json::{Category, Value};
use std::alloc::Global;

/// A question: an object of JSON.
#[derive(Drop)]
pub struct Question {
    value: Value,
}

/// That a member isn't what is wanted.
fn unfit(member: &'static str, wanted: &'static str) -> DeskFault {
    DeskFault::Member { member, wanted }
}

impl Question {
    /// The question that a text is.
    pub fn read(alloc: Global, text: &[u8]) -> Result<Question, DeskFault> {
        match Value::from_slice(alloc, text) {
            Ok(value) => Ok(Question { value }),
            Err(error) if error.classify() == Category::Memory => Err(DeskFault::Memory),
            Err(error) => Err(DeskFault::NotJson {
                line: error.line(),
                column: error.column(),
            }),
        }
    }

    /// A member, where it is there.
    pub fn member(&self, member: &'static str) -> Option<&Value> {
        self.value.get(member)
    }

    /// A member that is a text.
    pub fn text(&self, member: &'static str) -> Result<&str, DeskFault> {
        match self.member(member) {
            Some(Value::String(text)) => Ok(text.as_str()),
            _ => Err(unfit(member, "a text")),
        }
    }

    /// A member that is true or false; false where it isn't there.
    pub fn flag(&self, member: &'static str) -> Result<bool, DeskFault> {
        match self.member(member) {
            None => Ok(false),
            Some(Value::Bool(flag)) => Ok(*flag),
            Some(_) => Err(unfit(member, "true or false")),
        }
    }

    /// A member that is a whole number up to the most that it may be; 0 where it isn't there.
    pub fn number(
        &self,
        member: &'static str,
        most: u64,
        wanted: &'static str,
    ) -> Result<u64, DeskFault> {
        let Some(value) = self.member(member) else {
            return Ok(0);
        };
        match value.as_u64() {
            Some(number) if number <= most => Ok(number),
            _ => Err(unfit(member, wanted)),
        }
    }

    /// A member that is a list.
    pub fn list(&self, member: &'static str) -> Result<&[Value], DeskFault> {
        match self.member(member) {
            Some(Value::Array(values)) => Ok(values.as_slice()),
            _ => Err(unfit(member, "a list")),
        }
    }

    /// The header of frames; none where the member isn't there or is null.
    pub fn header(&self, member: &'static str) -> Result<Option<Header>, DeskFault> {
        match self.member(member) {
            None | Some(Value::Null) => Ok(None),
            Some(Value::String(word)) => match word.as_str() {
                "binary2" => Ok(Some(Header::Binary2)),
                "ascii4" => Ok(Some(Header::Ascii4)),
                "bcd2" => Ok(Some(Header::Bcd2)),
                _ => Err(unfit(member, "binary2, ascii4, bcd2 or null")),
            },
            Some(_) => Err(unfit(member, "binary2, ascii4, bcd2 or null")),
        }
    }
}
