//! The words about journals, in files and on etcd.

use iso_books::Form;

/// The words about the journal of a host.
#[derive(Clone, Copy, Debug)]
pub struct KeptWords<'a> {
    /// The path of the accounts' document.
    pub accounts: &'a str,
    /// The path of the journal.
    pub journal: &'a str,
    /// Whether the journal is made.
    pub is_new: bool,
}

/// The words about a journal that is looked into.
#[derive(Clone, Copy, Debug)]
pub struct BooksWords<'a> {
    /// The path of its file, or where else it is.
    pub file: &'a str,
    /// In which form it is told.
    pub form: Form,
    /// Whether account numbers are shown in full.
    pub is_clear: bool,
}

/// What is asked about a journal.
#[derive(Clone, Copy, Debug)]
pub enum BooksJob<'a> {
    /// `show FILE [--json] [--clear]`, `export FILE --csv | --json [--clear]`
    Show(BooksWords<'a>),
    /// `check FILE [--accounts FILE]`
    Check(BooksWords<'a>, Option<&'a str>),
    /// `balance FILE --accounts FILE [--json] [--clear]`
    Balance(BooksWords<'a>, &'a str),
}

/// The words about the members of etcd.
#[derive(Clone, Copy, Debug)]
pub struct EtcdWords<'a> {
    /// How long one call may take, in milliseconds.
    pub timeout: Option<u64>,
    /// The user's name.
    pub user: Option<&'a str>,
    /// The path of the file that has its password.
    pub password: Option<&'a str>,
}

/// The words about a copy.
#[derive(Clone, Copy, Debug)]
pub struct CopyWords<'a> {
    /// Where the journal is.
    pub from: &'a str,
    /// Where the copy is to be.
    pub to: &'a str,
}

/// What is asked about journals in files and on etcd.
#[derive(Clone, Copy, Debug)]
pub enum JournalJob<'a> {
    /// What a journal tells.
    Books(BooksJob<'a>, EtcdWords<'a>),
    /// `copy FROM TO`
    Copy(CopyWords<'a>, EtcdWords<'a>),
}
