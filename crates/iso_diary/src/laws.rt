//! What holds of every record, and over a crash: functions that do no more than others, and whose contracts are laws.
ghost use Rattle.std.specs.Prelude.{IfOk, IsTrue};
ghost use Rattle.sqlite_disk.specs.Disk.{Only};
ghost use Rattle.iso_log.specs.Headed.{IsReady};
ghost use Rattle.iso_restarts.specs.Diary.{MayLeave};
ghost use Rattle.iso_restarts.specs.Durable.{IsConsistent, diary_of};
ghost use Rattle.iso_diary.specs.Notes.{synced_notes, pending_notes};
ghost use Rattle.iso_diary.specs.Line.{LinesComeBack, LinesAreWhole, NothingElse};
ghost use Rattle.iso_diary.specs.Heading.{HeadingsAreWhole, HeadingsDiffer, HeadingsAreToldApart};

use crate::diary::DiaryLog;
use crate::error::OpenError;
use crate::heading::Heading;
use crate::opening::{Opened, open};
use iso_record::laws::{columns, rows_are_whole, rows_come_back};
use iso_restarts::DurableAcquirer;
use iso_wire::laws::decimals;
use sqlite_disk::Disk;
use std::alloc::Global;

/// Each note and its place come back.
pub fn lines_come_back()
    // The record of each note and place that the code can hold is read as that note at that place.
    ensures { LinesComeBack }
{
    decimals();
    columns();
    rows_come_back();
    rows_are_whole();
}

/// Each record is whole.
pub fn lines_are_whole()
    // The record of each note and place that the code can hold has 128 bytes, none of them zero.
    ensures { LinesAreWhole }
{
    decimals();
    columns();
    rows_come_back();
    rows_are_whole();
}

/// Nothing else is a record.
pub fn nothing_else()
    // Bytes that are read as a note and a place are the very bytes of their record.
    ensures { NothingElse }
{}

/// Each heading is whole.
pub fn headings_are_whole()
    // The record of each heading has 128 bytes, none of them zero.
    ensures { HeadingsAreWhole }
{
    decimals();
    columns();
}

/// Two headings have two records.
pub fn headings_differ()
    // Headings that have the same record are the same, where acquirers have at most 11 digits.
    ensures { HeadingsDiffer }
{
    decimals();
    columns();
}

/// Of two headings it is told that their rules differ, or, where those are the same, that their acquirers do.
pub fn headings_are_told_apart()
    ensures { HeadingsAreToldApart }
{
    decimals();
    columns();
}

/// Opens a diary. Where its disk holds what a crash of an acquirer may leave, its notes are what a crash may leave of that
/// acquirer: the synced ones, and of those behind them some from the front.
pub fn open_after_a_crash<D: Disk + Drop>(
    alloc: Global,
    before: &DurableAcquirer<DiaryLog<D>>,
    disk: D,
    heading: &Heading,
    group: usize,
) -> Result<Opened<D>, (OpenError, D)>
    // At `Ok`, on a disk that didn't lie and shows what is on it, the notes are the synced ones of
    // the acquirer that crashed, and of those behind them some from the front.
    ensures crashed { IfOk result (λ o. IsTrue (D.is_clean o.log.log.disk)
        → IsConsistent (λ l. IsReady D.seen D.may_leave D.is_usable l.log) (λ l.
        synced_notes D.seen l.log)
        (λ l. pending_notes D.seen l.log) before.now
        → D.may_leave before.now.log.log.disk (D.seen disk)
        → Only (D.seen disk) (D.may_leave disk)
        → MayLeave (diary_of (λ l. synced_notes D.seen l.log)
        (λ l. pending_notes D.seen l.log) before.now) o.notes.items) }
{
    match open(alloc, disk, heading, group) {
        Ok(opened) => Ok(opened),
        Err(refused) => Err(refused),
    }
}
