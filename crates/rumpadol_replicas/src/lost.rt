//! How the program stops where a host's log failed.
use crate::sentences::not_kept;
use iso_durable::Log;
use iso_etcd::Dial;
use iso_journal::JournalLog;
use iso_replicas::EtcdStore;
use iso_shared::{Patience, SharedLog};
use rumpadol_tables::Stop;
use sqlite_disk::Disk;
use std::alloc::Global;

/// A log that says why it failed.
pub trait Lost: Log {
    /// How the program stops where the log failed that a word names.
    fn lost(&self, alloc: Global, word: &str) -> Stop;
}

impl<D: Disk + Drop> Lost for JournalLog<D> {
    fn lost(&self, alloc: Global, word: &str) -> Stop {
        rumpadol_journals::not_kept(alloc, word)
    }
}

impl<D: Dial + Drop, P: Patience + Drop> Lost for SharedLog<EtcdStore<D>, P> {
    fn lost(&self, alloc: Global, word: &str) -> Stop {
        not_kept(alloc, word, self.why(), self.store.trouble())
    }
}
