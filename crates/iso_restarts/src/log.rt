//! A log of notes, as an acquirer sees it.
ghost use Rattle.std.specs.Prelude.{◌≡◌, ◌++◌, [], ◌∷◌, List, OnOk};
ghost use Rattle.iso_restarts.specs.declared.note.Note.{Note};
ghost use Rattle.iso_restarts.specs.Front.{LeavesFront};

use crate::note::Note;
use thiserror::Error;

/// The log failed. Nothing more may be asked of it until it is opened again.
#[derive(Clone, Copy, Debug, PartialEq, Eq, Drop, Error)]
#[error("the log failed")]
pub struct LogFailed;

/// A log of notes. A crash keeps the notes that are synced, and of those behind them some from the front: it may cut
/// them off anywhere, and what is torn counts as not there.
pub trait NoteLog {
    /// It was opened well and no call has failed since. A premise, and no test: no code can tell whether the disk lied
    /// when the log was opened.
    ghost is_ready: { Self → Type 0 };

    /// The notes that each crash keeps.
    ghost synced: { Self → List Note };

    /// The notes behind them, which wait for a sync.
    ghost pending: { Self → List Note };

    /// The notes that a start may find after a crash at this moment.
    ghost may_leave: { Self → List Note → Type 0 };

    /// Adds a note, which then waits for a sync.
    fn append(&mut self, note: Note) -> Result<(), LogFailed>
        // After a call that succeeds, a log that was ready still is.
        ensures ready { OnOk result (is_ready self.old → is_ready self.new) }
        // At `Ok` the synced notes are those of before.
        ensures synced { OnOk result (is_ready self.old → synced self.new ≡ synced self.old) }
        // At `Ok` the note waits behind the others.
        ensures pending { OnOk result (is_ready self.old
            → pending self.new ≡ pending self.old ++ note ∷ []) }
        // However it ends, a crash leaves the synced notes, and of those behind them, this one too,
        // some from the front.
        ensures crash { is_ready self.old
            → LeavesFront (may_leave self.new) (synced self.old) (pending self.old ++ note ∷ []) };

    /// After it, each crash keeps all notes.
    fn sync(&mut self) -> Result<(), LogFailed>
        // After a call that succeeds, a log that was ready still is.
        ensures ready { OnOk result (is_ready self.old → is_ready self.new) }
        // At `Ok` every note that waited is synced, behind those that were.
        ensures synced { OnOk result (is_ready self.old
            → synced self.new ≡ synced self.old ++ pending self.old) }
        // At `Ok` nothing waits for a sync any more.
        ensures none { OnOk result (is_ready self.old → pending self.new ≡ []) }
        // However it ends, a crash leaves the synced notes, and of those that waited some from the
        // front.
        ensures crash { is_ready self.old
            → LeavesFront (may_leave self.new) (synced self.old) (pending self.old) };

    /// A log that is ready leaves its synced notes, and of those behind them some from the front.
    ghost leaves_front: { (log : Self) → is_ready log → LeavesFront (may_leave log) (synced log) (pending log) };
}
