//! Opening a diary.
ghost use Rattle.std.specs.Prelude.{◌≡◌, ◌≤◌, ◌<◌, ◌*◌, ◌^◌, [], ℕ, List, length, true, IfOk, OnOk, IfErr, IsTrue};
ghost use Rattle.sqlite_disk.specs.Disk.{Only};
ghost use Rattle.iso_log.specs.Headed.{IsReady};
ghost use Rattle.iso_log.specs.Slots.{records_of};
ghost use Rattle.iso_restarts.specs.Durable.{IsOpened};
ghost use Rattle.iso_diary.specs.Heading.{heading_bytes};
ghost use Rattle.iso_diary.specs.Notes.{diary_notes, synced_notes, pending_notes};
ghost use Rattle.iso_diary.specs.Kept.{AreNotes};
ghost use Rattle.iso_diary.specs.Why.{IsWhy, IsOther};

use crate::diary::DiaryLog;
use crate::error::OpenError;
use crate::heading::{Heading, HeadingFault, heading_fault};
use crate::scanning::scan;
use iso_log::laws::{files, slots};
use iso_log::{RECORD, RecordLog, recover};
use iso_restarts::Note;
use sqlite_disk::Disk;
use std::alloc::Global;

/// A diary that was opened.
#[derive(Drop)]
pub struct Opened<D: Disk + Drop> {
    /// The notes that it holds.
    pub notes: Vec<Note>,
    /// The log that goes on with them.
    pub log: DiaryLog<D>,
}

/// The notes of a file, and what else it has.
#[derive(Drop)]
struct Loaded {
    notes: Vec<Note>,
    slots: usize,
    count: usize,
}

/// Refuses a file whose first record is not the heading. Changes nothing.
fn check_heading<D: Disk>(disk: &mut D, heading: &Heading) -> Result<(), OpenError>
    ensures usable { OnOk result (IsTrue (D.is_usable disk.new)) }
    ensures fault { IfErr result (λ e. IsTrue (D.is_clean disk.new)
        → IsOther (heading_bytes heading.now) (D.seen disk.old) e) }
    ensures clean { IsTrue (D.is_clean disk.new) → IsTrue (D.is_clean disk.old) }
    ensures seen { D.seen disk.new ≡ D.seen disk.old }
    ensures crash { (c : List ℕ) → D.may_leave disk.new c → D.may_leave disk.old c }
{
    slots(); // for the prover: what was read of a file has its records
    if !disk.may_be_used() {
        return Err(OpenError::Disk);
    }
    let Ok(len) = disk.len() else {
        return Err(OpenError::Disk);
    };
    if len < RECORD {
        return Err(OpenError::Other(HeadingFault::Format));
    }
    let mut first = [0; RECORD];
    let Ok(()) = disk.read_at(0, &mut first) else {
        return Err(OpenError::Disk);
    };
    match heading_fault(&first, heading) {
        None => Ok(()),
        Some(fault) => Err(OpenError::Other(fault)),
    }
}

/// The notes of a diary, once what a crash tore is cut off, and the last records are written again.
fn load<D: Disk>(
    alloc: Global,
    disk: &mut D,
    heading: &Heading,
    group: usize,
) -> Result<Loaded, OpenError>
    ensures ready { IfOk result (λ l. IsTrue (D.is_clean disk.new)
        → Only (D.seen disk.old) (D.may_leave disk.old)
        → IsReady D.seen D.may_leave D.is_usable
        (record { disk = disk.new; slots = l.slots; count = l.count; synced = l.count })) }
    ensures notes { IfOk result (λ l. IsTrue (D.is_clean disk.new)
        → Only (D.seen disk.old) (D.may_leave disk.old)
        → l.notes.items ≡ diary_notes (records_of (D.seen disk.old))) }
    ensures read { OnOk result (IsTrue (D.is_clean disk.new)
        → Only (D.seen disk.old) (D.may_leave disk.old)
        → AreNotes (records_of (D.seen disk.old))) }
    ensures records { OnOk result (IsTrue (D.is_clean disk.new)
        → Only (D.seen disk.old) (D.may_leave disk.old)
        → records_of (D.seen disk.new) ≡ records_of (D.seen disk.old)) }
    ensures fault { IfErr result (λ e. IsTrue (D.is_clean disk.new)
        → Only (D.seen disk.old) (D.may_leave disk.old)
        → IsWhy (heading_bytes heading.now) (D.seen disk.old) e) }
    ensures any_moment { IsTrue (D.is_clean disk.new)
        → Only (D.seen disk.old) (D.may_leave disk.old)
        → (c : List ℕ) → D.may_leave disk.new c → records_of c ≡ records_of (D.seen disk.old) }
{
    check_heading(disk, heading)?;
    let found = recover(disk, group)?;
    if found.count == 0 {
        return Err(OpenError::Disk);
    }
    let notes = match scan(alloc, disk, found.count) {
        Ok(notes) => notes,
        Err(error) => return Err(error),
    };
    Ok(Loaded {
        notes,
        slots: found.slots,
        count: found.count,
    })
}

/// Opens the diary in a file: cuts off what a crash tore, writes the last `group` records again, syncs, and reads the notes.
/// `DurableAcquirer::start` goes on with what it gives, under the number that the heading has. Let `group` be as many notes
/// as are ever kept together. An `Err` hands the disk back.
///
/// What it says of values has two premises that no code can test: that no wrong answer of the disk was taken as true, and
/// that after a restart a read gives what is on the disk.
pub fn open<D: Disk + Drop>(
    alloc: Global,
    mut disk: D,
    heading: &Heading,
    group: usize,
) -> Result<Opened<D>, (OpenError, D)>
    // At `Ok`, on a disk that didn't lie and shows what is on it, the log is ready, it holds these
    // notes, and nothing waits.
    ensures opened { IfOk result (λ o. IsTrue (D.is_clean o.log.log.disk)
        → Only (D.seen disk) (D.may_leave disk)
        → IsOpened (λ l. IsReady D.seen D.may_leave D.is_usable l.log)
        (λ l. synced_notes D.seen l.log)
        (λ l. pending_notes D.seen l.log) o.log o.notes.items) }
    // At `Ok`, on a disk that didn't lie and shows what is on it, the notes are those of the file's
    // records behind the heading.
    ensures notes { IfOk result (λ o. IsTrue (D.is_clean o.log.log.disk)
        → Only (D.seen disk) (D.may_leave disk)
        → o.notes.items ≡ diary_notes (records_of (D.seen disk))) }
    // At `Ok`, on a disk that didn't lie and shows what is on it, each record behind the heading is
    // a note at its own place.
    ensures read { IfOk result (λ o. IsTrue (D.is_clean o.log.log.disk)
        → Only (D.seen disk) (D.may_leave disk)
        → AreNotes (records_of (D.seen disk))) }
    // On a disk that didn't lie and shows what is on it, `Other` tells what the heading has
    // otherwise, and `Damaged` the first record that is no note at its place.
    ensures fault { IfErr result (λ e. IsTrue (D.is_clean e.1)
        → Only (D.seen disk) (D.may_leave disk)
        → IsWhy (heading_bytes heading.now) (D.seen disk) e.0) }
    // After an `Err`, on a disk that didn't lie and showed what is on it, a crash leaves the
    // records that the file had.
    ensures unchanged { IfErr result (λ e. IsTrue (D.is_clean e.1)
        → Only (D.seen disk) (D.may_leave disk)
        → (c : List ℕ) → D.may_leave e.1 c → records_of c ≡ records_of (D.seen disk)) }
{
    files(); // for the prover: which records stand up to a place
    match load(alloc, &mut disk, heading, group) {
        Ok(loaded) => {
            let log = RecordLog {
                disk,
                slots: loaded.slots,
                count: loaded.count,
                synced: loaded.count,
            };
            Ok(Opened {
                notes: loaded.notes,
                log: DiaryLog { log },
            })
        }
        Err(error) => Err((error, disk)),
    }
}
