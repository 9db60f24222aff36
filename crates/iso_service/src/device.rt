//! The files of a device, as a host wants them for its journal.

ghost use Rattle.std.specs.Prelude.{◌≡◌, ℕ, List, take, IfOk, IfSome, IsTrue};
ghost use Rattle.std.specs.declared.option.Option.{Option};
ghost use Rattle.sqlite_disk.specs.Disk.{Only};
ghost use Rattle.iso_log.specs.Headed.{IsReady};

use iso_journal::JournalLog;
use sqlite_disk::Disk;
use std::alloc::Global;
use thiserror::Error;

/// Why a file isn't opened or made.
#[derive(Clone, Copy, Debug, PartialEq, Eq, Drop, Error)]
pub enum FileFault {
    /// Nothing has this name.
    #[error("there is no such file; look at the path, or make a new journal with --new")]
    Missing,
    /// The folder that it is to stand in isn't there.
    #[error("there is no such folder; make it first, or look at the path")]
    NoFolder,
    /// Something has this name already.
    #[error("it is there already, and --new makes a journal only where nothing is; leave --new out to go on with it, or name another file")]
    Exists,
    /// It is a folder.
    #[error("it is a folder; name a file in it")]
    Folder,
    /// It is neither a file nor a folder.
    #[error("it is no file but a device, a pipe or a socket; name a file")]
    Special,
    /// Another host has it open.
    #[error("another host has it open, and a journal has one host; end that one, or name another file")]
    Busy,
    /// It has a second name, or another file stands in its way.
    #[error("it has a second name, or files with its name and '-wal' or '-journal' behind it aren't this program's; take those away")]
    Shared,
    /// The right to it is missing.
    #[error("this user may not read and write it and make files beside it; give it the right to, or serve as the file's owner")]
    Denied,
    /// Its file system can only be read.
    #[error("its file system can only be read; a host writes: mount it so, or copy the file elsewhere")]
    ReadOnly,
    /// There is no room.
    #[error("its device has no room; make some, and start again")]
    Full,
    /// A call of the device failed.
    #[error("its device failed; see what the system tells of it, and start again once it is mended")]
    Device,
    /// Memory ran out.
    #[error("memory ran out")]
    Memory,
}

/// The files of a device, by path. One that is opened is this process's alone until it is dropped.
pub trait Journals {
    // The bytes of the file at a path, where they are known.
    ghost held_at: { Self → List ℕ → Option (List ℕ) };

    /// An open file.
    type Disk: Disk + Drop;

    /// The first bytes of the file at a path, and no more than so many.
    fn front(&self, alloc: Global, path: &str, most: u64) -> Result<Vec<u8>, FileFault>
        ensures bytes { IfOk result
            (λ bytes. IfSome (held_at self.now path.now) (λ held. bytes.items ≡ take most held)) };

    /// Opens the file at a path, which has to be there.
    fn open(&self, path: &str) -> Result<Self::Disk, FileFault>
        // A read shows the bytes of the file, where these are known.
        ensures seen { IfOk result
            (λ disk. IfSome (held_at self.now path.now) (λ held. Self.Disk.seen disk ≡ held)) }
        // A start after a crash finds these bytes and no others.
        ensures only { IfOk result (λ disk.
            IfSome (held_at self.now path.now) (λ held. Only held (Self.Disk.may_leave disk))) };

    /// Makes an empty file, which its owner alone may read, for the one that is to have this path. Until `finish` it has
    /// another name. Nothing may have this path yet.
    fn begin(&self, path: &str) -> Result<Self::Disk, FileFault>;

    /// Gives the file that was begun for a path its name, so that it stays after a crash. The journal in it is made.
    fn finish(&self, path: &str, made: &JournalLog<Self::Disk>) -> Result<(), FileFault>
        // A disk that gave no wrong answer holds the journal, made and synced.
        requires { IsTrue (Self.Disk.is_clean made.now.log.disk)
            → IsReady Self.Disk.seen Self.Disk.may_leave Self.Disk.is_usable made.now.log };

    /// Takes away what was begun for a path, as far as that can be done.
    fn give_up(&self, path: &str);
}
