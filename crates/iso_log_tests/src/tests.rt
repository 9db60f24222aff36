use crate::{Tear, TornDisk};
use iso_log::{RECORD, RecordLog, make, recover};
use std::alloc::Global;
use std::test::Fail;

const A: [u8; RECORD] = [b'A'; RECORD];

const B: [u8; RECORD] = [b'B'; RECORD];

const C: [u8; RECORD] = [b'C'; RECORD];

const D: [u8; RECORD] = [b'D'; RECORD];

/// Adds the second record, and syncs.
fn adds_one(log: &mut RecordLog<TornDisk>) -> bool {
    log.append(&B).is_ok() && log.sync().is_ok()
}

/// Adds the third and the fourth record.
fn adds_two(log: &mut RecordLog<TornDisk>) -> bool {
    log.append(&C).is_ok() && log.append(&D).is_ok()
}

/// A log with room for 100 records, of which two are synced and two wait.
fn filled(alloc: Global) -> Option<RecordLog<TornDisk>> {
    let Ok(mut log) = make(TornDisk::new(alloc), 100, &A) else {
        return None;
    };
    if adds_one(&mut log) && adds_two(&mut log) {
        Some(log)
    } else {
        None
    }
}

/// What the file has at a place, where so many of the four records stand in it.
fn wanted(place: usize, count: usize) -> u8 {
    let slot = place / RECORD;
    if slot >= count {
        return 0;
    }
    match slot {
        0 => b'A',
        1 => b'B',
        2 => b'C',
        _ => b'D',
    }
}

/// Whether the file is so many of the four records, and then zeros.
fn has(disk: &TornDisk, count: usize) -> bool {
    let mut all = disk.bytes.len() == 100 * RECORD;
    for (place, byte) in disk.bytes.iter().enumerate() {
        all = all && *byte == wanted(place, count);
    }
    all
}

/// How many records a start finds, where the file has these in its 100 slots and nothing else.
fn found_on(disk: &mut TornDisk, last: usize) -> Option<usize> {
    match recover(disk, last) {
        Ok(found) if found.slots == 100 && has(disk, found.count) => Some(found.count),
        _ => None,
    }
}

/// How many records a start finds after a crash.
fn found_after(alloc: Global, disk: &TornDisk, tear: Tear) -> Option<usize> {
    match disk.crash(alloc, tear) {
        Ok(mut left) => found_on(&mut left, 2),
        Err(_) => None,
    }
}

/// The place at which a torn write leaves other records than the whole ones in front of it.
fn wrong_place(alloc: Global, disk: &TornDisk) -> Option<usize> {
    for end in 2 * RECORD..4 * RECORD + 1 {
        if found_after(alloc, disk, Tear::Front(end)) != Some(end / RECORD) {
            return Some(end);
        }
    }
    None
}

/// The mix that leaves other records than the synced ones.
fn wrong_mix(alloc: Global, disk: &TornDisk) -> Option<usize> {
    for number in 0..5 {
        if found_after(alloc, disk, Tear::Some(number)) != Some(2) {
            return Some(number);
        }
    }
    None
}

#[test]
fn a_torn_record_is_not_there(rt: HostRuntime) -> Result<(), Fail> {
    let alloc = rt.alloc();
    let log = filled(alloc).ok_or("no log")?;
    assert_eq!(rt; wrong_place(alloc, &log.disk), None, "torn at");
    assert_eq!(rt; wrong_mix(alloc, &log.disk), None, "mix");
    Ok(())
}

/// A disk that a crash left, after a start that was cut off after so many calls.
fn cut_off(alloc: Global, disk: &TornDisk, calls: u64) -> Option<TornDisk> {
    match disk.crash(alloc, Tear::Front(450)) {
        Ok(mut torn) => {
            torn.calls_left = calls;
            // the next start finds the same, however this one ends
            let _ = recover(&mut torn, 2);
            Some(torn)
        }
        Err(_) => None,
    }
}

/// How many records a start finds after one that was cut off and another crash.
fn found_again(alloc: Global, disk: &TornDisk, calls: u64) -> Option<usize> {
    match cut_off(alloc, disk, calls) {
        Some(torn) => found_after(alloc, &torn, Tear::Some(calls as usize)),
        None => None,
    }
}

#[test]
fn a_recovery_can_be_cut_off(rt: HostRuntime) -> Result<(), Fail> {
    let alloc = rt.alloc();
    let log = filled(alloc).ok_or("no log")?;
    for calls in 0..20 {
        assert_eq!(rt;
            found_again(alloc, &log.disk, calls),
            Some(3),
            "{calls} calls"
        );
    }
    Ok(())
}

/// Syncs on a disk that fails after so many calls, and adds a record and syncs again: how many records are synced then.
fn synced_with(log: &mut RecordLog<TornDisk>, calls: u64) -> usize {
    log.disk.calls_left = calls;
    if log.sync().is_err() {
        return 2;
    }
    let goes_on = log.append(&D).is_ok() && log.sync().is_ok();
    if goes_on { 5 } else { 4 }
}

/// Whether a start after a failure and a crash finds what was synced.
fn outlives(alloc: Global, calls: u64) -> bool {
    match filled(alloc) {
        Some(mut log) => {
            let synced = synced_with(&mut log, calls);
            found_after(alloc, &log.disk, Tear::Some(calls as usize)) == Some(synced)
        }
        None => false,
    }
}

#[test]
fn what_was_synced_outlives_each_failure(rt: HostRuntime) {
    let alloc = rt.alloc();
    for calls in 0..8 {
        assert!(rt; outlives(alloc, calls), "{calls} calls");
    }
}

/// Adds a part of a slot to a file.
fn adds_part(file: &mut Vec<u8>) -> bool {
    file.extend_from_slice(b"a part of a slot").is_ok()
}

/// What a crash leaves, and a part of a slot behind it.
fn with_a_part(alloc: Global, disk: &TornDisk) -> Option<TornDisk> {
    match disk.crash(alloc, Tear::Front(0)) {
        Ok(mut left) => {
            if adds_part(&mut left.bytes) {
                Some(left)
            } else {
                None
            }
        }
        Err(_) => None,
    }
}

#[test]
fn a_start_writes_the_last_records_again_and_cuts_off_a_part_of_a_slot(
    rt: HostRuntime,
) -> Result<(), Fail> {
    let alloc = rt.alloc();
    let mut log = filled(alloc).ok_or("no log")?;
    assert!(rt; log.sync().is_ok());
    let mut disk = with_a_part(alloc, &log.disk).ok_or("no disk")?;
    assert_eq!(rt; found_on(&mut disk, 3), Some(4));
    assert_eq!(rt; disk.last_write, (RECORD, 3 * RECORD));
    assert!(rt; disk.bytes == disk.synced);
    Ok(())
}

#[test]
fn a_log_grows_where_a_slot_is_free(rt: HostRuntime) -> Result<(), Fail> {
    let alloc = rt.alloc();
    let mut log = make(TornDisk::new(alloc), 2, &A)?;
    log.grow(98)?;
    log.append(&B)?;
    log.sync()?;
    assert_eq!(rt; (log.slots, log.count, log.synced), (100, 2, 2));
    assert!(rt; has(&log.disk, 2));
    let mut small = make(TornDisk::new(alloc), 1, &A)?;
    assert!(rt; small.append(&B).is_err());
    assert!(rt; small.grow(1).is_err());
    Ok(())
}
