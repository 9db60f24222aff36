//! The journals of the system's files.

ghost use Rattle.std.specs.Prelude.{None};

use crate::disk::Disk;
use crate::files::{begin_at, finish_at, front_at, give_up_at, open_at};
use iso_gather::GatheredDisk;
use iso_journal::JournalLog;
use iso_service::{FileFault, Journals};
use sqlite_std_file::File;
use std::alloc::Global;

impl<'a> Journals for Disk<'a, HostRuntime> {
    ghost held_at = { λ s path. None };

    /// The orders of a group are handed to the file as one write.
    type Disk = GatheredDisk<File>;

    fn front(&self, alloc: Global, path: &str, most: u64) -> Result<Vec<u8>, FileFault> {
        front_at(self.rt, alloc, path, most)
    }

    fn open(&self, path: &str) -> Result<GatheredDisk<File>, FileFault> {
        open_at(self.rt, path)
    }

    fn begin(&self, path: &str) -> Result<GatheredDisk<File>, FileFault> {
        begin_at(self.rt, path)
    }

    fn finish(&self, path: &str, _made: &JournalLog<GatheredDisk<File>>) -> Result<(), FileFault> {
        finish_at(self.rt, path)
    }

    fn give_up(&self, path: &str) {
        give_up_at(self.rt, path);
    }
}
