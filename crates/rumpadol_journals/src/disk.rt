//! The files of the system.

ghost use Rattle.std.specs.Prelude.{None};

use rumpadol_tables::{Source, SourceFault, read_front};
use std::alloc::Global;
use std::rt::Files;

/// The files of the system.
#[derive(Drop)]
pub struct Disk<'a, R> {
    /// The runtime, by which files are opened.
    pub rt: &'a R,
}

impl<'a, R: Files> Source for Disk<'a, R> {
    ghost file = { λ s path. None };

    type File = R::File;

    fn open(&self, path: &str) -> Result<R::File, SourceFault> {
        match std::fs::open(self.rt, path) {
            Ok(file) => Ok(file),
            Err(_) => Err(SourceFault::Unread),
        }
    }

    fn size(&self, path: &str) -> Option<u64> {
        match std::fs::metadata(self.rt, path) {
            Ok(found) if found.is_file() => Some(found.len()),
            Ok(_) | Err(_) => None,
        }
    }

    fn read(&self, alloc: Global, path: &str) -> Result<Vec<u8>, SourceFault> {
        match std::fs::open(self.rt, path) {
            Ok(file) => read_front(alloc, file),
            Err(_) => Err(SourceFault::Unread),
        }
    }
}
