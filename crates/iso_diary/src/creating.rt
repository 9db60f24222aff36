//! A new diary.
ghost use Rattle.std.specs.Prelude.{◌≡◌, [], IfOk, IsTrue};
ghost use Rattle.iso_log.specs.Headed.{IsReady};
ghost use Rattle.iso_diary.specs.Notes.{synced_notes, pending_notes};

use crate::diary::DiaryLog;
use crate::heading::{Heading, heading_bytes};
use iso_log::{LogError, make};
use sqlite_disk::Disk;

/// Makes a diary in an empty file, with room for so many records and its heading in it, all synced. Until it is done, the
/// file is none: make it under another name, and rename it, so that no half of one can be taken for a diary.
pub fn create<D: Disk + Drop>(
    disk: D,
    heading: &Heading,
    slots: usize,
) -> Result<DiaryLog<D>, LogError>
    // At `Ok`, on a disk that didn't lie, the file is a sound log of records
    // whose heading is synced.
    ensures ready { IfOk result (λ l. IsTrue (D.is_clean l.log.disk)
        → IsReady D.seen D.may_leave D.is_usable l.log) }
    // At `Ok`, on a disk that didn't lie, no note is synced yet.
    ensures synced { IfOk result (λ l. IsTrue (D.is_clean l.log.disk)
        → synced_notes D.seen l.log ≡ []) }
    // At `Ok`, on a disk that didn't lie, no note waits for a sync.
    ensures pending { IfOk result (λ l. IsTrue (D.is_clean l.log.disk)
        → pending_notes D.seen l.log ≡ []) }
{
    let log = make(disk, slots, &heading_bytes(heading))?;
    Ok(DiaryLog { log })
}
