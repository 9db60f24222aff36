//! What holds of every file of records, and over a crash: functions that do nothing, and whose contracts are laws.
ghost use Rattle.std.specs.Prelude.{ℕ, List};
ghost use Rattle.iso_log.specs.FileLaws.{FileLaws, SlotLaws, HeadedLaws};

use sqlite_disk::Disk;

/// Which records stand behind the heading of a file, up to each place.
pub fn files()
    // A file has as many records as it counts. Those up to a later place are those up to an
    // earlier one, and then the slots in between.
    ensures { FileLaws }
{}

/// Slots that stand one after another are so many records, and those of a piece that was read are the file's.
pub fn slots()
    // A slot more is a record more, the last. What was read of a file at a place has the records
    // that the file has from there on.
    ensures { SlotLaws }
{}

/// What the records behind a heading tell, by any reading of a record: what of it is synced, what waits for a sync, and what
/// a crash leaves of it.
pub fn headed_logs<D: Disk, T>()
    // A record that is added waits behind the others, and a sync leaves none waiting. A crash
    // leaves what was synced, and of what waits some from the front.
    ensures { (read : List ℕ → T) → HeadedLaws D.seen D.may_leave D.is_usable read }
{}
