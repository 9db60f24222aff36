//! A log of records over a disk: adding a record, and the sync of a group.
ghost use Rattle.std.specs.Prelude.{◌≡◌, ◌<◌, ◌≤◌, ◌+◌, ◌*◌, ◌^◌, ◌++◌, ◌∷◌, [], ℕ, List, length, take, true, OnOk, IfOk, IsTrue};
ghost use Rattle.std.specs.List.{list_all};
ghost use Rattle.iso_log.specs.Slots.{is_nonzero, is_whole, records_of};
ghost use Rattle.iso_log.specs.Log.{IsLog, LeavesRecords};

use sqlite_disk::Disk;
use thiserror::Error;

/// How many bytes a record has.
pub const RECORD: usize = 128;

/// More records than any file has room for.
pub const MOST_RECORDS: usize = 1 << 56;

/// Why a call of the log failed.
#[derive(Clone, Copy, Debug, PartialEq, Eq, Drop, Error)]
pub enum LogError {
    /// There is no room: no slot is free, or the file would be larger than any can be.
    #[error("there is no room for another record")]
    Full,
    /// There is something in the file already.
    #[error("there is something in the file already")]
    NotEmpty,
    /// A call of the disk failed, or one failed before.
    #[error("a call of the disk failed")]
    Disk,
    /// The disk may leave other bytes than the old ones and those that were written.
    #[error("the disk may leave bytes that are neither the old ones nor those that were written")]
    Unfit,
}

/// Whether a record is whole: no byte is zero.
pub fn is_whole(bytes: &[u8]) -> bool
    ensures { result ≡ list_all is_nonzero bytes.now }
{
    bytes.iter().all(|byte| *byte != 0)
}

/// Refuses a disk that may leave other bytes of a torn write than the old ones and those that were written.
pub(crate) fn test_mixing<D: Disk>(disk: &D) -> Result<(), LogError>
    ensures mixes { OnOk result (IsTrue (D.is_mixing disk.now)) }
{
    if disk.mixes() {
        Ok(())
    } else {
        Err(LogError::Unfit)
    }
}

/// A log over a disk: so many records, and then slots of zeros.
#[derive(Drop)]
pub struct RecordLog<D: Disk> {
    /// The file.
    pub disk: D,
    /// How many records the file has room for.
    pub slots: usize,
    /// How many records were added.
    pub count: usize,
    /// How many of them are synced.
    pub synced: usize,
}

impl<D: Disk> RecordLog<D> {
    /// Adds a record, which then waits for a sync. After an `Err` the log is to be opened again.
    pub fn append(&mut self, bytes: &[u8]) -> Result<(), LogError>
        // The record has 128 bytes, and none of them is zero.
        requires { is_whole bytes.now ≡ true }
        // However it ends, the log has as many slots as before.
        ensures slots { self.new.slots ≡ self.old.slots }
        // However it ends, the call takes no wrong answer of the disk as true.
        ensures clean { D.is_clean self.new.disk ≡ D.is_clean self.old.disk }
        // However it ends, as many records count as synced as before.
        ensures synced { self.new.synced ≡ self.old.synced }
        // At `Ok` a sound log stays sound: whole records, zeros behind them, and a
        // crash keeps the synced ones.
        ensures log { OnOk result (IsLog D.seen D.may_leave D.is_usable self.old
            → IsLog D.seen D.may_leave D.is_usable self.new) }
        // At `Ok` a sound log has the records that it had, and this one behind them.
        ensures records { OnOk result (IsLog D.seen D.may_leave D.is_usable self.old
            → records_of (D.seen self.new.disk)
            ≡ records_of (D.seen self.old.disk) ++ bytes.now ∷ []) }
        // However it ends, a crash leaves the synced records, and of those behind them some from the front.
        ensures crash { IsLog D.seen D.may_leave D.is_usable self.old
            → LeavesRecords (D.may_leave self.new.disk) self.old.synced
            (records_of (D.seen self.old.disk) ++ bytes.now ∷ []) }
    {
        if self.count >= self.slots {
            return Err(LogError::Full);
        }
        if self.count >= MOST_RECORDS {
            return Err(LogError::Full);
        }
        // the contract of a sync does not say that the disk goes on as one that mixes
        test_mixing(&self.disk)?;
        if !self.disk.may_be_used() {
            return Err(LogError::Disk);
        }
        let Ok(()) = self.disk.write_at(RECORD * self.count, bytes) else {
            return Err(LogError::Disk);
        };
        self.count += 1;
        Ok(())
    }

    /// After it, a crash leaves all records. After an `Err` the log is to be opened again.
    pub fn sync(&mut self) -> Result<(), LogError>
        // However it ends, the log has as many slots as before.
        ensures slots { self.new.slots ≡ self.old.slots }
        // However it ends, the call takes no wrong answer of the disk as true.
        ensures clean { D.is_clean self.new.disk ≡ D.is_clean self.old.disk }
        // At `Ok` a sound log stays sound: whole records, zeros behind them, and a
        // crash keeps the synced ones.
        ensures log { OnOk result (IsLog D.seen D.may_leave D.is_usable self.old
            → IsLog D.seen D.may_leave D.is_usable self.new) }
        // At `Ok` a sound log counts all of its records as synced.
        ensures synced { OnOk result (IsLog D.seen D.may_leave D.is_usable self.old
            → self.new.synced ≡ length (records_of (D.seen self.new.disk))) }
        // At `Ok` a read shows the same records as before.
        ensures records { OnOk result (records_of (D.seen self.new.disk)
            ≡ records_of (D.seen self.old.disk)) }
        // However it ends, a crash leaves the records of a sound log that were synced before, and
        // of those behind them some from the front.
        ensures crash { IsLog D.seen D.may_leave D.is_usable self.old
            → LeavesRecords (D.may_leave self.new.disk) self.old.synced
            (records_of (D.seen self.old.disk)) }
    {
        if !self.disk.may_be_used() {
            return Err(LogError::Disk);
        }
        let Ok(()) = self.disk.sync() else {
            return Err(LogError::Disk);
        };
        self.synced = self.count;
        Ok(())
    }
}
