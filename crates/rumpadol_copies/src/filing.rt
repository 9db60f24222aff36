//! Records as the file of a journal.

use iso_log::{LogError, RECORD};
use iso_service::{FIRST_ROOM, FileFault, Journals, StartFault};
use rumpadol_batches::write_journal;

/// Why a file that was begun is no journal.
fn not_made(error: LogError) -> StartFault {
    match error {
        LogError::Unfit => StartFault::Unfit,
        LogError::Full | LogError::NotEmpty | LogError::Disk => StartFault::NotMade,
    }
}

/// Writes the file that is begun for a path, and gives it its name.
fn make_file<J: Journals>(
    journals: &J,
    path: &str,
    heading: &[u8; RECORD],
    records: &[u8],
) -> Result<(), StartFault> {
    let disk = match journals.begin(path) {
        Ok(disk) => disk,
        Err(fault) => return Err(StartFault::File(fault)),
    };
    // it is open until it has its name, so that no other process takes it for its own
    let made = match write_journal(disk, FIRST_ROOM, heading, records) {
        Ok(made) => made,
        Err(error) => return Err(not_made(error)),
    };
    let named = journals.finish(path, &made);
    drop(made);
    match named {
        Ok(()) => Ok(()),
        Err(fault) => Err(StartFault::File(fault)),
    }
}

/// Makes the file of a journal at a path where nothing is, of its heading and the records behind it. It has that name only once it
/// is whole and synced.
pub fn file_records<J: Journals>(
    journals: &J,
    path: &str,
    heading: &[u8; RECORD],
    records: &[u8],
) -> Result<(), StartFault> {
    match make_file(journals, path, heading, records) {
        Ok(()) => Ok(()),
        Err(StartFault::File(FileFault::Exists)) => Err(StartFault::File(FileFault::Exists)),
        Err(StartFault::File(FileFault::Busy)) => Err(StartFault::File(FileFault::Busy)),
        Err(fault) => {
            journals.give_up(path);
            Err(fault)
        }
    }
}
