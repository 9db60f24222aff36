//! A new journal in a file.

use crate::device::{FileFault, Journals};
use crate::fault::StartFault;
use iso_journal::create;
use iso_log::LogError;
use iso_record::Heading;

/// For how many records a new journal has room: a megabyte.
pub const FIRST_ROOM: usize = 8_192;

/// Why a file that was begun is no journal.
fn not_made(error: LogError) -> StartFault {
    match error {
        LogError::Unfit => StartFault::Unfit,
        LogError::Full | LogError::NotEmpty | LogError::Disk => StartFault::NotMade,
    }
}

/// Writes a new journal into the file that was begun for a path.
fn write_journal<J: Journals>(
    journals: &J,
    path: &str,
    heading: &Heading,
) -> Result<(), StartFault> {
    let disk = match journals.begin(path) {
        Ok(disk) => disk,
        Err(fault) => return Err(StartFault::File(fault)),
    };
    // it is open until it has its name, so that no other process takes it for its own
    let made = match create(disk, heading, FIRST_ROOM) {
        Ok(made) => made,
        Err(error) => return Err(not_made(error)),
    };
    let named = journals.finish(path, &made);
    drop(made);
    match named {
        Ok(()) => Ok(()),
        Err(fault) => Err(StartFault::File(fault)),
    }
}

/// Makes a journal at a path where nothing is. It has that name only once it is whole and synced.
pub fn make_journal<J: Journals>(
    journals: &J,
    path: &str,
    heading: &Heading,
) -> Result<(), StartFault> {
    match write_journal(journals, path, heading) {
        Ok(()) => Ok(()),
        Err(StartFault::File(FileFault::Exists)) => Err(StartFault::File(FileFault::Exists)),
        Err(StartFault::File(FileFault::Busy)) => Err(StartFault::File(FileFault::Busy)),
        Err(fault) => {
            journals.give_up(path);
            Err(fault)
        }
    }
}
