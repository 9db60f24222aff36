//! The words about tables.

/// The words about a table that is made from another one.
#[derive(Debug, Drop)]
pub struct NewWords<'a> {
    /// The name or path of the table to begin with.
    pub from: &'a str,
    /// The elements whose rows are left out.
    pub drops: Vec<u16>,
    /// The rows that are set, each as a text.
    pub rows: Vec<&'a str>,
}

/// What is asked about tables.
#[derive(Debug, Drop)]
pub enum TableJob<'a> {
    /// `check TABLE`
    Check(&'a str),
    /// `show TABLE [--names FILE]`
    Show(&'a str, Option<&'a str>),
    /// `list`
    List,
    /// `new [--from TABLE] [--set ROW].. [--drop N]..`
    New(NewWords<'a>),
    /// `diff A B`
    Diff(&'a str, &'a str),
}
