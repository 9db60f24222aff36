//! Where the command reads its files.
ghost use Rattle.std.specs.Prelude.{◌≡◌, List, ℕ, IfOk, IfSome, None};
ghost use Rattle.std.specs.declared.option.Option.{Option};
ghost use Rattle.iso_cli.specs.Source.{read_of};

use std::alloc::Global;
use std::io::{ErrorKind, Read};
use std::rt::Files;

/// Why a file isn't read.
#[derive(Clone, Copy, PartialEq, Eq, Drop)]
pub enum SourceFault {
    /// There is no such file, it isn't one that can be read, or reading it failed.
    File,
    /// There is no memory for its bytes.
    Memory,
}

/// The most bytes that the command takes of one input or file.
pub const MOST_BYTES: u64 = 1_048_576;

/// Files by path.
pub trait Source {
    // The bytes of the file at a path, where they are known.
    ghost file: { Self → List ℕ → Option (List ℕ) };

    /// The file's bytes. Of one with more than `MOST_BYTES` only that many and one more, so that it can be told.
    fn read(&self, alloc: Global, path: &str) -> Result<Vec<u8>, SourceFault>
        ensures bytes { IfOk result
            (λ bytes. IfSome (file self.now path.now) (λ held. bytes.items ≡ read_of held)) };
}

/// The files of the system.
#[derive(Drop)]
pub struct Disk<'a, R> {
    /// The runtime, by which files are opened.
    pub rt: &'a R,
}

impl<'a, R: Files> Source for Disk<'a, R> {
    ghost file = { λ s path. None };

    fn read(&self, alloc: Global, path: &str) -> Result<Vec<u8>, SourceFault> {
        match std::fs::open(self.rt, path) {
            Ok(file) => read_front(alloc, file),
            Err(_) => Err(SourceFault::File),
        }
    }
}

/// The bytes of an opened file, or its first ones where there are more than `MOST_BYTES`.
fn read_front<R: Read + Drop>(alloc: Global, file: R) -> Result<Vec<u8>, SourceFault>
    ensures { IfOk result
        (λ bytes. IfSome (R.remaining file) (λ held. bytes.items ≡ read_of held)) }
{
    let mut bytes = Vec::new(alloc);
    match file.take(MOST_BYTES + 1).read_to_end(&mut bytes) {
        Ok(_) => Ok(bytes),
        Err(error) if error.kind() == ErrorKind::OutOfMemory => Err(SourceFault::Memory),
        Err(_) => Err(SourceFault::File),
    }
}
