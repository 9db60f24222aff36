//! Where files and streams are read.

ghost use Rattle.std.specs.Prelude.{◌≡◌, List, ℕ, IfOk, IfSome};
ghost use Rattle.std.specs.declared.option.Option.{Option};
ghost use Rattle.rumpadol_tables.specs.Source.{read_of};

use std::alloc::Global;
use std::io::{ErrorKind, Read};

/// Why a file or a stream isn't read.
#[derive(Clone, Copy, Debug, PartialEq, Eq)]
pub enum SourceFault {
    /// It isn't there, it isn't one that can be read, or reading it failed.
    Unread,
    /// There is no memory for its bytes.
    Memory,
}

/// The most bytes that a document has.
pub const MOST_BYTES: u64 = 1_048_576;

/// Files by path.
pub trait Source {
    // The bytes of the file at a path, where they are known.
    ghost file: { Self → List ℕ → Option (List ℕ) };

    /// A file that is read bit by bit.
    type File: Read + Drop;

    /// Opens a file to be read bit by bit.
    fn open(&self, path: &str) -> Result<Self::File, SourceFault>;

    /// How many bytes the file at a path has, if that is known.
    fn size(&self, path: &str) -> Option<u64>;

    /// The file's bytes. Of one with more than `MOST_BYTES` only that many and one more, so that it can be told.
    fn read(&self, alloc: Global, path: &str) -> Result<Vec<u8>, SourceFault>
        ensures bytes { IfOk result
            (λ bytes. IfSome (file self.now path.now) (λ held. bytes.items ≡ read_of held)) };
}

/// The bytes of a reader, or its first ones where there are more than `MOST_BYTES`.
pub fn read_front<R: Read + Drop>(alloc: Global, reader: R) -> Result<Vec<u8>, SourceFault>
    // At `Ok` these are the reader's bytes, where they are known, up to one more than `MOST_BYTES`.
    ensures { IfOk result
        (λ bytes. IfSome (R.remaining reader) (λ held. bytes.items ≡ read_of held)) }
{
    let mut bytes = Vec::new(alloc);
    match reader.take(MOST_BYTES + 1).read_to_end(&mut bytes) {
        Ok(_) => Ok(bytes),
        Err(error) if error.kind() == ErrorKind::OutOfMemory => Err(SourceFault::Memory),
        Err(_) => Err(SourceFault::Unread),
    }
}
