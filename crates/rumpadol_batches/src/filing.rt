//! Records as the file of a journal.
ghost use Rattle.std.specs.Prelude.{◌≡◌, ◌≤◌, ◌<◌, ◌+◌, ◌*◌, ◌/◌, ◌^◌, ◌++◌, ◌∷◌, length, OnOk, IfOk, IsTrue};
ghost use Rattle.iso_log.specs.Slots.{slot, records_of};
ghost use Rattle.iso_log.specs.Log.{IsLog};
ghost use Rattle.iso_log.specs.Headed.{IsReady};
ghost use Rattle.rumpadol_batches.specs.Filing.{slots_of};

use iso_journal::JournalLog;
use iso_log::{LogError, MOST_RECORDS, RECORD, RecordLog, is_whole, make};
use sqlite_disk::Disk;

/// For how many records the file of so many orders has room: as a host's file, which has room for so many at first, and doubles
/// where none is left behind the heading and the orders.
pub fn slots_for(orders: usize, first: usize) -> usize
    // There is room for the heading, for the orders, and for one record more (up to 2^56 records).
    ensures room { orders + 2 ≤ 2 ^ 56 → orders + 2 ≤ result }
{
    let mut slots = first.max(1);
    while slots < orders.saturating_add(2) && slots < MOST_RECORDS {
        slots *= 2;
    }
    slots
}

/// The record at a place.
fn record_at(records: &[u8], place: usize) -> &[u8]
    requires { 128 * place + 128 ≤ length records.now }
    ensures slot { result.now ≡ slot records.now place }
    ensures size { length result.now ≡ 128 }
{
    &records[RECORD * place..RECORD * place + RECORD]
}

/// Adds records behind those that are there, and syncs.
fn add_records<D: Disk>(log: &mut RecordLog<D>, records: &[u8]) -> Result<(), LogError>
    ensures clean { D.is_clean log.new.disk ≡ D.is_clean log.old.disk }
    ensures log { OnOk result (IsLog D.seen D.may_leave D.is_usable log.old
        → IsLog D.seen D.may_leave D.is_usable log.new) }
    ensures records { OnOk result (IsLog D.seen D.may_leave D.is_usable log.old
        → records_of (D.seen log.new.disk)
        ≡ records_of (D.seen log.old.disk) ++ slots_of (length records.now / 128) records.now) }
    ensures synced { OnOk result (IsLog D.seen D.may_leave D.is_usable log.old
        → log.new.synced ≡ length (records_of (D.seen log.new.disk))) }
{
    for place in 0..records.len() / RECORD {
        let record = record_at(records, place);
        if !is_whole(record) {
            // never, since the journal was looked through
            return Err(LogError::Disk);
        }
        log.append(record)?;
    }
    log.sync()
}

/// Writes a heading and the records behind it into an empty file, and syncs them. A host's file has room for so many records at
/// first.
pub fn write_journal<D: Disk + Drop>(
    disk: D,
    first: usize,
    heading: &[u8; RECORD],
    records: &[u8],
) -> Result<JournalLog<D>, LogError>
    // At `Ok`, where no wrong answer of the disk was taken as true, the file is a log
    // that is ready for orders.
    ensures ready { IfOk result (λ l. IsTrue (D.is_clean l.log.disk)
        → IsReady D.seen D.may_leave D.is_usable l.log) }
    // At `Ok`, where no wrong answer of the disk was taken as true, the records of the file are the
    // heading and then those that were given, in their order.
    ensures records { IfOk result (λ l. IsTrue (D.is_clean l.log.disk)
        → records_of (D.seen l.log.disk)
        ≡ heading.now ∷ slots_of (length records.now / 128) records.now) }
    // At `Ok`, where no wrong answer of the disk was taken as true, all
    // records of the file are synced.
    ensures synced { IfOk result (λ l. IsTrue (D.is_clean l.log.disk)
        → l.log.synced ≡ length (records_of (D.seen l.log.disk))) }
{
    if !is_whole(heading.as_slice()) {
        // never, for the same reason
        return Err(LogError::Disk);
    }
    let slots = slots_for(records.len() / RECORD, first);
    let mut log = make(disk, slots, heading.as_slice())?;
    add_records(&mut log, records)?;
    Ok(JournalLog { log })
}
