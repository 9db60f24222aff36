//! The files of the system that one process at a time writes.

use iso_gather::GatheredDisk;
use iso_service::FileFault;
use sqlite_std_file::{File, OpenError, Unknown};
use std::alloc::{AllocError, Global};
use std::fs;
use std::fs::{OpenOptions, Permissions};
use std::io::{Error, ErrorKind, Read};
use std::os::unix::fs::{OpenOptionsExt, PermissionsExt};

/// What stands behind the path of a file that is being made.
const BEGUN: &str = ".new";

/// Of files that their owner alone may read and write.
const OWNER_ALONE: u32 = 0o600;

/// Why a call of the system failed.
fn fault_of(error: Error) -> FileFault {
    match error.kind() {
        ErrorKind::NotFound | ErrorKind::NotADirectory => FileFault::Missing,
        ErrorKind::AlreadyExists => FileFault::Exists,
        ErrorKind::IsADirectory => FileFault::Folder,
        ErrorKind::PermissionDenied => FileFault::Denied,
        ErrorKind::ReadOnlyFilesystem => FileFault::ReadOnly,
        ErrorKind::StorageFull | ErrorKind::QuotaExceeded | ErrorKind::FileTooLarge =>
            FileFault::Full,
        ErrorKind::OutOfMemory => FileFault::Memory,
        ErrorKind::Unsupported => FileFault::Shared,
        _ => FileFault::Device,
    }
}

/// The same, where a file is to be made: what is missing then is its folder.
fn fault_of_making(error: Error) -> FileFault {
    match fault_of(error) {
        FileFault::Missing => FileFault::NoFolder,
        fault => fault,
    }
}

/// Opens a file, and locks it.
fn open_locked(rt: &HostRuntime, path: &str) -> Result<File, FileFault> {
    match sqlite_std_file::open(rt, path, Unknown) {
        Ok(files) => Ok(files.db),
        Err(OpenError::Busy) => Err(FileFault::Busy),
        Err(OpenError::HotJournal) => Err(FileFault::Shared),
        Err(OpenError::OutOfMemory) => Err(FileFault::Memory),
        Err(OpenError::Io(error)) => Err(fault_of(error)),
    }
}

/// Refuses what is no file.
fn check_kind(rt: &HostRuntime, path: &str) -> Result<(), FileFault> {
    match fs::metadata(rt, path) {
        Ok(found) if found.is_file() => Ok(()),
        Ok(found) if found.is_dir() => Err(FileFault::Folder),
        Ok(_) => Err(FileFault::Special),
        Err(error) => Err(fault_of(error)),
    }
}

/// The first bytes of an open file.
fn read_first<R: Read + Drop>(alloc: Global, file: R, most: u64) -> Result<Vec<u8>, FileFault> {
    let mut bytes = Vec::new(alloc);
    match file.take(most).read_to_end(&mut bytes) {
        Ok(_) => Ok(bytes),
        Err(error) => Err(fault_of(error)),
    }
}

/// Refuses a path that something has already.
fn check_free(rt: &HostRuntime, path: &str) -> Result<(), FileFault> {
    match fs::symlink_metadata(rt, path) {
        Ok(_) => Err(FileFault::Exists),
        Err(error) if error.kind() == ErrorKind::NotFound => Ok(()),
        Err(error) => Err(fault_of_making(error)),
    }
}

/// The name of the file that is begun for a path, and what stands behind it.
fn begun_path(alloc: Global, path: &str, behind: &str) -> Result<String, FileFault> {
    match format!(in alloc; "{path}{BEGUN}{behind}") {
        Ok(begun) => Ok(begun),
        Err(AllocError) => Err(FileFault::Memory),
    }
}

/// Makes a file that its owner alone may read. One that is there was left by a making that was cut off.
fn make_for_owner(rt: &HostRuntime, path: &str) -> Result<(), FileFault> {
    let made = OpenOptions::new()
        .read(true)
        .write(true)
        .create_new(true)
        .mode(OWNER_ALONE)
        .open(rt, path);
    match made {
        Ok(_) => Ok(()),
        Err(error) if error.kind() == ErrorKind::AlreadyExists => {
            check_kind(rt, path)?;
            match fs::set_permissions(rt, path, Permissions::from_mode(OWNER_ALONE)) {
                Ok(()) => Ok(()),
                Err(error) => Err(fault_of(error)),
            }
        }
        Err(error) => Err(fault_of_making(error)),
    }
}

/// Cuts off what a making that was cut off had written.
fn emptied(mut file: File) -> Result<File, FileFault> {
    use sqlite_disk::Disk as _;
    if !file.may_be_used() {
        return Err(FileFault::Device);
    }
    match file.set_len(0) {
        Ok(()) => Ok(file),
        Err(error) => Err(fault_of(error)),
    }
}

/// Has the folder of a file keep its names.
fn sync_folder(rt: &HostRuntime, path: &str) -> Result<(), FileFault> {
    let mut folder = match fs::canonicalize(rt, path) {
        Ok(folder) => folder,
        Err(error) => return Err(fault_of(error)),
    };
    folder.pop();
    let synced = match fs::File::open(rt, folder.as_str()) {
        Ok(folder) => folder.sync_all(),
        Err(error) => return Err(fault_of(error)),
    };
    match synced {
        Ok(()) => Ok(()),
        Err(error) => Err(fault_of(error)),
    }
}

/// The first bytes of the file at a path, and no more than so many.
pub fn front_at(
    rt: &HostRuntime,
    alloc: Global,
    path: &str,
    most: u64,
) -> Result<Vec<u8>, FileFault> {
    check_kind(rt, path)?;
    match fs::open(rt, path) {
        Ok(file) => read_first(alloc, file, most),
        Err(error) => Err(fault_of(error)),
    }
}

/// Opens the file at a path, which has to be there. It is this process's alone until it is dropped, and what is written
/// together is handed to it as one write.
pub fn open_at(rt: &HostRuntime, path: &str) -> Result<GatheredDisk<File>, FileFault> {
    check_kind(rt, path)?;
    let file = open_locked(rt, path)?;
    Ok(GatheredDisk::new(rt.alloc(), file))
}

/// Makes an empty file, which its owner alone may read, for the one that is to have this path. Until `finish_at` it has
/// another name. Nothing may have this path yet.
pub fn begin_at(rt: &HostRuntime, path: &str) -> Result<GatheredDisk<File>, FileFault> {
    check_free(rt, path)?;
    let begun = begun_path(rt.alloc(), path, "")?;
    make_for_owner(rt, begun.as_str())?;
    let file = open_locked(rt, begun.as_str())?;
    // another maker may have been done before this one had the lock
    check_free(rt, path)?;
    let file = emptied(file)?;
    Ok(GatheredDisk::new(rt.alloc(), file))
}

/// Gives the file that was begun for a path its name, so that it stays after a crash.
pub fn finish_at(rt: &HostRuntime, path: &str) -> Result<(), FileFault> {
    let alloc = rt.alloc();
    let begun = begun_path(alloc, path, "")?;
    let beside = begun_path(alloc, path, "-wal")?;
    if let Err(error) = fs::rename(rt, begun.as_str(), path) {
        return Err(fault_of(error));
    }
    let _ = fs::remove_file(rt, beside.as_str());
    sync_folder(rt, path)
}

/// Takes away what was begun for a path, as far as that can be done.
pub fn give_up_at(rt: &HostRuntime, path: &str) {
    let alloc = rt.alloc();
    if let Ok(begun) = begun_path(alloc, path, "") {
        let _ = fs::remove_file(rt, begun.as_str());
    }
    if let Ok(beside) = begun_path(alloc, path, "-wal") {
        let _ = fs::remove_file(rt, beside.as_str());
    }
}
