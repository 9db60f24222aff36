//! Why there is no diary to go on with.
ghost use Rattle.std.specs.Prelude.{◌≡◌};
ghost use Rattle.rumpadol_buying.specs.Diary.{is_refusal};

use iso_diary::HeadingFault;
use iso_service::FileFault;
use thiserror::Error;

/// Why there is no diary to go on with.
#[derive(Clone, Copy, Debug, PartialEq, Eq, Drop, Error)]
pub enum DiaryFault {
    /// Nothing has this name.
    #[error("there is no such file; look at the path, or make a new diary with --new")]
    Missing,
    /// Something has this name already.
    #[error("it is there already, and --new makes a diary only where nothing is; leave --new out to go on with it, or name another file")]
    Exists,
    /// Another process has it open.
    #[error("another run or host has it open; end that one, or name another file")]
    Busy,
    /// This user may not write there.
    #[error("this user may not read and write it and make files beside it; give it the right to")]
    Denied,
    /// Another fault of the file.
    #[error("{0}")]
    File(FileFault),
    /// The file is no diary, or not this acquirer's.
    #[error("{0}")]
    Other(HeadingFault),
    /// A record is no note at its place.
    #[error("the diary is damaged: record {0} is no note at its place (the heading is record 0); no record is changed; bring back a copy")]
    Damaged(usize),
    /// The notes are none that an acquirer can have written.
    #[error("the diary is damaged: no acquirer can have written these notes; no record is changed; bring back a copy")]
    Notes,
    /// A write or a sync failed while it was made, or a call of its device later.
    #[error("its device failed; see that it is well and has 2 MB of room")]
    Device,
    /// The device may leave other bytes than the old ones and those that were written.
    #[error("its device doesn't keep the old bytes or the new ones when it is cut off; name a file on another one")]
    Unfit,
    /// Memory ran out.
    #[error("memory ran out")]
    Memory,
}

impl DiaryFault {
    /// Whether what was given is refused, and it isn't a device, the right to it, or memory.
    pub fn is_refusal(&self) -> bool
        // It is true exactly where the path is taken, or the file is no diary of this acquirer
        // that can be gone on with.
        ensures { result ≡ is_refusal self.now }
    {
        matches!(
            self,
            DiaryFault::Exists | DiaryFault::Other(_) | DiaryFault::Damaged(_) | DiaryFault::Notes
        )
    }
}
