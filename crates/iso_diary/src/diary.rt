//! A file of records as a log of notes.
ghost use Rattle.std.specs.Prelude.{◌≡◌, ◌<◌, ◌≤◌, ◌^◌, ◌+◌, ◌-◌, ◌++◌, ◌∷◌, [], List, take, drop, OnOk};
ghost use Rattle.iso_log.specs.Headed.{IsReady};
ghost use Rattle.iso_log.specs.Slots.{records_of};
ghost use Rattle.iso_restarts.specs.Front.{LeavesFront};
ghost use Rattle.iso_diary.specs.Line.{line_bytes};
ghost use Rattle.iso_diary.specs.Notes.{synced_notes, pending_notes, LeavesNotes};
ghost use Rattle.iso_diary.specs.Fronts.{ready_leaves};

use crate::laws::lines_come_back;
use crate::line::Line;
use crate::writing::line_bytes;
use iso_log::laws::headed_logs;
use iso_log::{LogError, RecordLog};
use iso_restarts::{LogFailed, Note, NoteLog};
use sqlite_disk::Disk;

/// The fewest records by which a file grows.
const LEAST_GROWTH: usize = 8192;

/// A sync that finds room for no more notes than that has the file grow.
const LEAST_ROOM: usize = 1024;

/// A log of notes in a file of records.
#[derive(Drop)]
pub struct DiaryLog<D: Disk + Drop> {
    /// The records: the heading, and one for each note.
    pub log: RecordLog<D>,
}

impl<D: Disk + Drop> DiaryLog<D> {
    /// For how many notes there is room.
    pub fn room(&self) -> usize
        // It is the number of slots less the number of records, the heading among them.
        ensures { result ≡ self.now.log.slots - self.now.log.count }
    {
        self.log.slots.saturating_sub(self.log.count)
    }

    /// Makes room for so many notes more, and syncs. There has to be room for one: it keeps what a crash leaves of the new
    /// room apart from the notes. After an `Err` the diary is to be opened again.
    pub fn grow(&mut self, more: usize) -> Result<(), LogError>
        // At `Ok` a diary that was ready stays so: a sound log whose heading is synced.
        ensures ready { OnOk result (IsReady D.seen D.may_leave D.is_usable self.old.log
            → IsReady D.seen D.may_leave D.is_usable self.new.log) }
        // At `Ok` the file has slots for so many records more.
        ensures room { OnOk result (self.new.log.slots ≡ self.old.log.slots + more) }
        // At `Ok` the waiting notes of a diary that was ready are synced, behind the others.
        ensures synced { OnOk result (IsReady D.seen D.may_leave D.is_usable self.old.log
            → synced_notes D.seen self.new.log
            ≡ synced_notes D.seen self.old.log ++ pending_notes D.seen self.old.log) }
        // At `Ok` no note of a diary that was ready waits any more.
        ensures none { OnOk result (IsReady D.seen D.may_leave D.is_usable self.old.log
            → pending_notes D.seen self.new.log ≡ []) }
        // However it ends, a crash leaves the synced notes, and of those behind them some from the front.
        ensures crash { IsReady D.seen D.may_leave D.is_usable self.old.log
            → LeavesFront (LeavesNotes D.may_leave self.new.log) (synced_notes D.seen self.old.log)
            (pending_notes D.seen self.old.log) }
    {
        headed_logs::<D, Note>(); // for the prover: what the records behind the heading tell
        match self.log.grow(more) {
            Ok(()) => Ok(()),
            Err(error) => Err(error),
        }
    }

    /// Has all notes kept, in the room that there is.
    fn keep(&mut self) -> Result<(), LogFailed>
        ensures ready { OnOk result (IsReady D.seen D.may_leave D.is_usable self.old.log
            → IsReady D.seen D.may_leave D.is_usable self.new.log) }
        ensures synced { OnOk result (IsReady D.seen D.may_leave D.is_usable self.old.log
            → synced_notes D.seen self.new.log
            ≡ synced_notes D.seen self.old.log ++ pending_notes D.seen self.old.log) }
        ensures none { OnOk result (IsReady D.seen D.may_leave D.is_usable self.old.log
            → pending_notes D.seen self.new.log ≡ []) }
        ensures crash { IsReady D.seen D.may_leave D.is_usable self.old.log
            → LeavesFront (LeavesNotes D.may_leave self.new.log) (synced_notes D.seen self.old.log)
            (pending_notes D.seen self.old.log) }
    {
        headed_logs::<D, Note>(); // for the prover: what the records behind the heading tell
        match self.log.sync() {
            Ok(()) => Ok(()),
            Err(_) => Err(LogFailed),
        }
    }
}

impl<D: Disk + Drop> NoteLog for DiaryLog<D> {
    ghost is_ready = { λ l. IsReady D.seen D.may_leave D.is_usable l.log };

    ghost synced = { λ l. synced_notes D.seen l.log };

    ghost pending = { λ l. pending_notes D.seen l.log };

    ghost may_leave = { λ l. LeavesNotes D.may_leave l.log };

    /// Adds the record of a note and its place.
    fn append(&mut self, note: Note) -> Result<(), LogFailed>
        // After a call that succeeds, a log that was ready still is.
        ensures ready { OnOk result (IsReady D.seen D.may_leave D.is_usable self.old.log
            → IsReady D.seen D.may_leave D.is_usable self.new.log) }
        // At `Ok` the synced notes are those of before.
        ensures synced { OnOk result (IsReady D.seen D.may_leave D.is_usable self.old.log
            → synced_notes D.seen self.new.log ≡ synced_notes D.seen self.old.log) }
        // At `Ok` the note waits behind the others.
        ensures pending { OnOk result (IsReady D.seen D.may_leave D.is_usable self.old.log
            → pending_notes D.seen self.new.log
            ≡ pending_notes D.seen self.old.log ++ note ∷ []) }
        // However it ends, a crash leaves the synced notes, and of those behind them some from the
        // front.
        ensures crash { IsReady D.seen D.may_leave D.is_usable self.old.log
            → LeavesFront (LeavesNotes D.may_leave self.new.log) (synced_notes D.seen self.old.log)
            (pending_notes D.seen self.old.log ++ note ∷ []) }
        // At `Ok` the file has one record more: the line of the note and its place.
        ensures line { OnOk result (IsReady D.seen D.may_leave D.is_usable self.old.log
            → records_of (D.seen self.new.log.disk)
            ≡ records_of (D.seen self.old.log.disk)
            ++ line_bytes (record { place = self.old.log.count; note = note }) ∷ []) }
    {
        lines_come_back();
        headed_logs::<D, Note>(); // for the prover: what the records behind the heading tell
        let place = self.log.count as u64;
        let bytes = line_bytes(&Line { place, note });
        match self.log.append(&bytes) {
            Ok(()) => Ok(()),
            Err(_) => Err(LogFailed),
        }
    }

    /// Has all notes kept. Where there is little room left, the file grows.
    fn sync(&mut self) -> Result<(), LogFailed> {
        let room = self.room();
        if room == 0 || room > LEAST_ROOM {
            return self.keep();
        }
        match self.grow(self.log.slots.max(LEAST_GROWTH)) {
            Ok(()) => Ok(()),
            Err(_) => Err(LogFailed),
        }
    }

    ghost leaves_front = { λ l is notes left. ready_leaves l.log is notes left };
}
