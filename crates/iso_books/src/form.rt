//! In which form entries and balances are told.

/// In which form entries and balances are told.
#[derive(Clone, Copy, Debug, PartialEq, Eq)]
pub enum Form {
    /// In columns, under a line with their names.
    Columns,
    /// As an object of JSON each, a line each.
    Json,
    /// As comma-separated values, a line each, behind a line with the names of the columns.
    Csv,
}
