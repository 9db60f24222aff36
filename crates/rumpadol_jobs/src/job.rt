//! What the words of a command line ask.

use rumpadol_drive_words::DriveJob;
use rumpadol_front::FrontJob;
use rumpadol_import::ImportWords;
use rumpadol_journals::JournalJob;
use rumpadol_messages::MessageJob;
use rumpadol_page::PageWords;
use rumpadol_ports::{HostWords, Place};
use rumpadol_tables::{STANDARD_INPUT, TableJob};

/// What the words ask.
#[derive(Debug, Drop)]
pub enum Job<'a> {
    /// About messages.
    Messages(MessageJob<'a>),
    /// About tables.
    Tables(TableJob<'a>),
    /// A host.
    Host(HostWords<'a>),
    /// A front before shards.
    Front(FrontJob<'a>),
    /// An acquirer that drives a host.
    Drive(DriveJob<'a>),
    /// About journals.
    Books(JournalJob<'a>),
    /// A page.
    Page(PageWords),
    /// A table of another program.
    Import(ImportWords<'a>),
}

impl<'a> Job<'a> {
    /// Whether standard input is read.
    pub fn reads_input(&self) -> bool {
        match self {
            Job::Messages(job) => job.input() == STANDARD_INPUT,
            Job::Tables(TableJob::Check(table) | TableJob::Show(table, _)) => *table
                == STANDARD_INPUT,
            Job::Tables(TableJob::New(words)) => words.from == STANDARD_INPUT,
            Job::Tables(TableJob::Diff(first, second)) => {
                *first == STANDARD_INPUT || *second == STANDARD_INPUT
            }
            Job::Tables(TableJob::List) | Job::Books(_) | Job::Front(_) | Job::Page(_) => false,
            Job::Host(words) => matches!(words.place, Place::Streams(_)),
            Job::Drive(job) => job.table() == STANDARD_INPUT,
            Job::Import(words) => words.path == STANDARD_INPUT,
        }
    }
}
