//! What keeps a journal that is looked into.

use iso_log::RECORD;
use rumpadol_tables::{Source, SourceFault, Stop, failed};
use std::alloc::Global;
use std::io::Read;

/// What keeps a journal that is looked into. It only reads.
pub trait Keeper {
    /// The records of a journal, one after another: its heading, and one for each order.
    type Records: Read + Drop;

    /// Begins to read the records of the journal that a word names.
    fn records(&self, alloc: Global, word: &str) -> Result<Self::Records, Stop>;

    /// Whether the journal ends behind so many orders, where a host always leaves room for a record more.
    fn is_cut(&self, word: &str, orders: usize) -> bool;

    /// What is to be done where the journal is damaged.
    fn cure(&self) -> &'static str;
}

/// Files that keep journals, by path.
#[derive(Drop)]
pub struct InFiles<'a, S> {
    source: &'a S,
}

impl<'a, S: Source> InFiles<'a, S> {
    /// The files of a source.
    pub fn new(source: &'a S) -> InFiles<'a, S> {
        InFiles { source }
    }
}

impl<'a, S: Source> Keeper for InFiles<'a, S> {
    type Records = S::File;

    fn records(&self, alloc: Global, word: &str) -> Result<S::File, Stop> {
        match self.source.open(word) {
            Ok(file) => Ok(file),
            Err(SourceFault::Memory) => Err(Stop::Memory),
            Err(SourceFault::Unread) => Err(failed(format!(in alloc;
                "rumpadol: {word}: no such journal; name a file that is there and may be read\n"
            ))),
        }
    }

    fn is_cut(&self, word: &str, orders: usize) -> bool {
        match self.source.size(word) {
            Some(size) => size / RECORD as u64 <= (orders as u64).saturating_add(1),
            None => false,
        }
    }

    fn cure(&self) -> &'static str {
        "take a copy of the file that is whole"
    }
}
