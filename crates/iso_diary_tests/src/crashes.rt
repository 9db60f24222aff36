//! Crashes at every byte, and files that are refused.

use crate::records::{KEY, payment};
use iso_diary::{DiaryLog, Heading, HeadingFault, OpenError, create, open};
use iso_log::RECORD;
use iso_log_tests::{Tear, TornDisk};
use iso_restarts::{Note, NoteLog};
use std::alloc::Global;
use std::test::Fail;

const HEADING: Heading = Heading {
    rules: 1,
    acquirer: 7,
};

/// A diary in which two notes wait for a sync.
fn two_wait(alloc: Global) -> Option<DiaryLog<TornDisk>> {
    let order = payment()?;
    let Ok(mut log) = create(TornDisk::new(alloc), &HEADING, 8) else {
        return None;
    };
    let waits = log.append(Note::Begun(order)).is_ok() && log.append(Note::Told(KEY, 0)).is_ok();
    if waits { Some(log) } else { None }
}

/// How many notes a start finds after a crash.
fn kept(alloc: Global, log: &DiaryLog<TornDisk>, tear: Tear) -> Option<usize> {
    let Ok(disk) = log.log.disk.crash(alloc, tear) else {
        return None;
    };
    match open(alloc, disk, &HEADING, 2) {
        Ok(opened) => Some(opened.notes.len()),
        Err(_) => None,
    }
}

/// The place at which a torn write leaves too few or too many notes.
fn wrong_tear(alloc: Global, log: &DiaryLog<TornDisk>) -> Option<usize> {
    for end in RECORD..3 * RECORD + 1 {
        if kept(alloc, log, Tear::Front(end)) != Some(end / RECORD - 1) {
            return Some(end);
        }
    }
    None
}

#[test]
fn a_crash_at_every_byte_leaves_whole_notes(rt: HostRuntime) -> Result<(), Fail> {
    let alloc = rt.alloc();
    let log = two_wait(alloc).ok_or("no diary")?;
    if let Some(end) = wrong_tear(alloc, &log) {
        return Err(Fail::new(format_args!("torn at {end}")));
    }
    Ok(())
}

/// Why a diary isn't opened under another heading.
fn refusal(alloc: Global, heading: &Heading) -> Option<OpenError> {
    let log = two_wait(alloc)?;
    let Ok(disk) = log.log.disk.crash(alloc, Tear::Front(3 * RECORD)) else {
        return None;
    };
    match open(alloc, disk, heading, 2) {
        Ok(_) => None,
        Err((error, _)) => Some(error),
    }
}

#[test]
fn a_diary_of_another_is_refused(rt: HostRuntime) {
    let alloc = rt.alloc();
    let other = Heading {
        acquirer: 8,
        ..HEADING
    };
    assert_eq!(rt;
        refusal(alloc, &other),
        Some(OpenError::Other(HeadingFault::Acquirer))
    );
    let newer = Heading {
        rules: 2,
        ..HEADING
    };
    assert_eq!(rt;
        refusal(alloc, &newer),
        Some(OpenError::Other(HeadingFault::Rules))
    );
}
