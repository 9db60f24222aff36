//! What is told of answers that aren't as expected.

use iso_names::Names;
use iso_table::Table;

/// How differences are told.
#[derive(Clone, Copy)]
pub struct Telling<'a> {
    /// The table that messages are read by.
    pub table: &'a Table,
    /// The names of their elements.
    pub names: &'a Names,
    /// Whether card data are shown in full.
    pub is_clear: bool,
}
