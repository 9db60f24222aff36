//! The diary of an acquirer, at a path.
ghost use Rattle.std.specs.Prelude.{◌≡◌, true, false};
ghost use Rattle.rumpadol_tables.specs.Stop.{status_of};
ghost use Rattle.rumpadol_buying.specs.Diary.{is_refusal};

use iso_diary::{Heading, OpenError, Opened, create, open};
use iso_gather::GatheredDisk;
use iso_log::LogError;
use iso_service::FileFault;
use rumpadol_buying::DiaryFault;
use rumpadol_journals::{Disk, begin_at, finish_at, give_up_at, open_at};
use rumpadol_tables::{Stop, refused_or_failed};
use sqlite_std_file::File;
use std::alloc::Global;

/// The version of the acquirer's rules. Whoever changes what an acquirer does with its notes raises it: a diary under other
/// rules is refused.
const RULES: u16 = 1;

/// For how many notes a new diary has room: a megabyte.
const FIRST_ROOM: usize = 8_192;

/// At least as many notes as are ever kept together: three for each transaction that may be open.
pub(crate) const LARGEST_GROUP: usize = 65_536;

/// The files of a device, as an acquirer wants them for its diary. One that is opened is this process's alone until it is
/// dropped.
pub trait Diaries {
    /// An open file.
    type Paper: sqlite_disk::Disk + Drop;

    /// Opens the file at a path, which has to be there.
    fn open_diary(&self, path: &str) -> Result<Self::Paper, FileFault>;

    /// Makes an empty file for the one that is to have this path. Until `finish_diary` it has another name.
    fn begin_diary(&self, path: &str) -> Result<Self::Paper, FileFault>;

    /// Gives the file that was begun for a path its name, so that it stays after a crash.
    fn finish_diary(&self, path: &str) -> Result<(), FileFault>;

    /// Takes away what was begun for a path, as far as that can be done.
    fn give_up_diary(&self, path: &str);
}

impl<'a> Diaries for Disk<'a, HostRuntime> {
    type Paper = GatheredDisk<File>;

    fn open_diary(&self, path: &str) -> Result<GatheredDisk<File>, FileFault> {
        open_at(self.rt, path)
    }

    fn begin_diary(&self, path: &str) -> Result<GatheredDisk<File>, FileFault> {
        begin_at(self.rt, path)
    }

    fn finish_diary(&self, path: &str) -> Result<(), FileFault> {
        finish_at(self.rt, path)
    }

    fn give_up_diary(&self, path: &str) {
        give_up_at(self.rt, path);
    }
}

/// Why a file isn't opened or made.
fn of_file(fault: FileFault) -> DiaryFault {
    match fault {
        FileFault::Missing => DiaryFault::Missing,
        FileFault::Exists => DiaryFault::Exists,
        FileFault::Busy => DiaryFault::Busy,
        FileFault::Denied => DiaryFault::Denied,
        FileFault::Memory => DiaryFault::Memory,
        fault => DiaryFault::File(fault),
    }
}

/// Why a diary isn't opened.
fn of_open(error: OpenError) -> DiaryFault {
    match error {
        OpenError::Memory => DiaryFault::Memory,
        OpenError::Disk => DiaryFault::Device,
        OpenError::Unfit => DiaryFault::Unfit,
        OpenError::Other(fault) => DiaryFault::Other(fault),
        OpenError::Damaged(place) => DiaryFault::Damaged(place),
    }
}

/// How the program stops where there is no diary to go on with.
pub(crate) fn no_diary(alloc: Global, path: &str, fault: DiaryFault) -> Stop
    ensures refused { status_of result ≡ 1 → is_refusal fault ≡ true }
    ensures failed { is_refusal fault ≡ false → status_of result ≡ 3 }
{
    if matches!(fault, DiaryFault::Memory) {
        return Stop::Memory;
    }
    let is_refused = fault.is_refusal();
    refused_or_failed(is_refused, format!(in alloc; "rumpadol: {path}: {fault}\n"))
}

/// The heading of an acquirer's diary.
fn heading_of(acquirer: u64) -> Heading {
    Heading {
        rules: RULES,
        acquirer,
    }
}

/// Writes a new diary into the file that was begun for a path.
fn write_diary<D: Diaries>(diaries: &D, path: &str, heading: &Heading) -> Result<(), DiaryFault> {
    let paper = match diaries.begin_diary(path) {
        Ok(paper) => paper,
        Err(fault) => return Err(of_file(fault)),
    };
    // it is open until it has its name, so that no other process takes it for its own
    let made = match create(paper, heading, FIRST_ROOM) {
        Ok(made) => made,
        Err(LogError::Unfit) => return Err(DiaryFault::Unfit),
        Err(_) => return Err(DiaryFault::Device),
    };
    let named = diaries.finish_diary(path);
    drop(made);
    match named {
        Ok(()) => Ok(()),
        Err(fault) => Err(of_file(fault)),
    }
}

/// Makes a diary at a path where nothing is. It has that name only once it is whole and synced.
pub(crate) fn make_diary<D: Diaries>(
    diaries: &D,
    path: &str,
    acquirer: u64,
) -> Result<(), DiaryFault> {
    match write_diary(diaries, path, &heading_of(acquirer)) {
        Ok(()) => Ok(()),
        Err(DiaryFault::Exists) => Err(DiaryFault::Exists),
        Err(DiaryFault::Busy) => Err(DiaryFault::Busy),
        Err(fault) => {
            diaries.give_up_diary(path);
            Err(fault)
        }
    }
}

/// Opens the diary at a path.
pub(crate) fn open_diary<D: Diaries>(
    alloc: Global,
    diaries: &D,
    path: &str,
    acquirer: u64,
) -> Result<Opened<D::Paper>, DiaryFault> {
    let paper = match diaries.open_diary(path) {
        Ok(paper) => paper,
        Err(fault) => return Err(of_file(fault)),
    };
    match open(alloc, paper, &heading_of(acquirer), LARGEST_GROUP) {
        Ok(opened) => Ok(opened),
        Err((error, _)) => Err(of_open(error)),
    }
}
