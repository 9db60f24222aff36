use iso_gather::GatheredDisk;
use iso_log::{RECORD, RecordLog, make, recover};
use iso_log_tests::{Tear, TornDisk};
use sqlite_disk::Disk;
use std::alloc::Global;
use std::test::Fail;

const A: [u8; RECORD] = [b'A'; RECORD];

const B: [u8; RECORD] = [b'B'; RECORD];

/// How many records wait.
const GROUP: usize = 64;

/// Two writes, of which the second one joins the first.
const JOINED: [(usize, &[u8]); 2] = [(0, b"abc"), (3, b"def")];

/// A write that waits, and one in front of it.
const APART: [(usize, &[u8]); 2] = [(7, b", or later"), (0, b"A")];

/// A disk over one that fails after so many calls.
fn disk_of(alloc: Global, calls: u64) -> GatheredDisk<TornDisk> {
    let mut disk = TornDisk::new(alloc);
    disk.calls_left = calls;
    GatheredDisk::new(alloc, disk)
}

/// Whether a group of records is taken.
fn takes_group(log: &mut RecordLog<GatheredDisk<TornDisk>>) -> bool {
    let mut all = true;
    for _ in 0..GROUP {
        all = all && log.append(&B).is_ok();
    }
    all
}

/// A log with room for 100 records, of which one is synced and a group waits. Its disk fails after so many calls.
fn waiting(alloc: Global, calls: u64) -> Option<RecordLog<GatheredDisk<TornDisk>>> {
    match make(disk_of(alloc, calls), 100, &A) {
        Ok(mut log) => {
            if takes_group(&mut log) {
                Some(log)
            } else {
                None
            }
        }
        Err(_) => None,
    }
}

/// How many calls of the disk below are left.
fn calls_left(disk: &GatheredDisk<TornDisk>) -> u64 {
    disk.inner().calls_left
}

/// Where the last write began, and how many bytes it had.
fn last_write(disk: &GatheredDisk<TornDisk>) -> (usize, usize) {
    disk.inner().last_write
}

/// Whether the file of the disk below is these bytes.
fn holds(disk: &GatheredDisk<TornDisk>, bytes: &[u8]) -> bool {
    disk.inner().bytes.as_slice() == bytes
}

/// Whether all that was written is synced.
fn is_synced(disk: &GatheredDisk<TornDisk>) -> bool {
    disk.inner().bytes == disk.inner().synced
}

/// How many records a start finds.
fn count_on(disk: &mut TornDisk) -> Option<usize> {
    match recover(disk, 1) {
        Ok(found) => Some(found.count),
        Err(_) => None,
    }
}

/// How many records a start finds after a crash that leaves what was written in front of a place.
fn count_after(alloc: Global, disk: &GatheredDisk<TornDisk>, end: usize) -> Option<usize> {
    match disk.inner().crash(alloc, Tear::Front(end)) {
        Ok(mut left) => count_on(&mut left),
        Err(_) => None,
    }
}

/// Whether a write is taken.
fn writes(disk: &mut GatheredDisk<TornDisk>, at: usize, bytes: &[u8]) -> bool {
    disk.may_be_used() && disk.write_at(at, bytes).is_ok()
}

/// Whether two writes are taken, one after the other.
fn writes_both(disk: &mut GatheredDisk<TornDisk>, both: [(usize, &[u8]); 2]) -> bool {
    let mut are_taken = true;
    for (at, bytes) in both {
        are_taken = are_taken && writes(disk, at, bytes);
    }
    are_taken
}

/// Whether a sync ends well.
fn syncs(disk: &mut GatheredDisk<TornDisk>) -> bool {
    disk.may_be_used() && disk.sync().is_ok()
}

/// Whether these bytes stand there.
fn reads(disk: &mut GatheredDisk<TornDisk>, at: usize, wanted: &[u8; 4]) -> bool {
    let mut found = [0; 4];
    disk.may_be_used() && disk.read_at(at, &mut found).is_ok() && found == *wanted
}

/// How many bytes the file has, where that can be told.
fn len(disk: &mut GatheredDisk<TornDisk>) -> Option<usize> {
    if !disk.may_be_used() {
        return None;
    }
    disk.len().ok()
}

/// Whether the file gets so many bytes.
fn resizes(disk: &mut GatheredDisk<TornDisk>, len: usize) -> bool {
    disk.may_be_used() && disk.set_len(len).is_ok()
}

#[test]
fn a_group_is_one_write(rt: HostRuntime) -> Result<(), Fail> {
    let mut log = waiting(rt.alloc(), 100).ok_or("no log")?;
    // the length, two writes of zeros and a sync, the first record and a sync
    assert_eq!(rt; calls_left(&log.disk), 94);
    assert_eq!(rt; last_write(&log.disk), (0, RECORD));
    assert!(rt; log.sync().is_ok());
    assert_eq!(rt; calls_left(&log.disk), 92);
    assert_eq!(rt; last_write(&log.disk), (RECORD, GROUP * RECORD));
    assert!(rt; is_synced(&log.disk));
    Ok(())
}

/// The count that a start doesn't find after a write of a group was torn behind so many records.
fn wrong_count(alloc: Global, disk: &GatheredDisk<TornDisk>) -> Option<usize> {
    for count in [1, 2, GROUP, GROUP + 1] {
        if count_after(alloc, disk, count * RECORD + 1) != Some(count) {
            return Some(count);
        }
    }
    None
}

/// How many records a start finds after a crash while a group waits.
fn count_before_sync(alloc: Global) -> Option<usize> {
    match waiting(alloc, 100) {
        Some(log) => count_after(alloc, &log.disk, 100 * RECORD),
        None => None,
    }
}

#[test]
fn a_crash_leaves_records_from_the_front(rt: HostRuntime) -> Result<(), Fail> {
    let alloc = rt.alloc();
    assert_eq!(rt; count_before_sync(alloc), Some(1), "nothing was written");
    let mut log = waiting(alloc, 7).ok_or("no log")?;
    assert!(rt; log.sync().is_err());
    assert_eq!(rt; wrong_count(alloc, &log.disk), None, "the write is torn");
    Ok(())
}

#[test]
fn what_waits_is_read(rt: HostRuntime) {
    let mut disk = disk_of(rt.alloc(), 100);
    assert!(rt; syncs(&mut disk) && writes_both(&mut disk, JOINED));
    assert_eq!(rt; calls_left(&disk), 99);
    assert!(rt; reads(&mut disk, 1, b"bcde"));
    assert_eq!(rt; last_write(&disk), (0, 6));
    assert!(rt; writes(&mut disk, 6, b"g"));
    assert_eq!(rt; len(&mut disk), Some(7));
}

/// Whether a write is taken behind the end of a file that was cut.
fn writes_far(disk: &mut GatheredDisk<TornDisk>) -> bool {
    resizes(disk, 2) && writes(disk, 4, b"far")
}

#[test]
fn what_does_not_join_goes_on_its_own(rt: HostRuntime) {
    let mut disk = disk_of(rt.alloc(), 100);
    assert!(rt; writes(&mut disk, 0, b"at once"));
    assert_eq!(rt; calls_left(&disk), 99);
    assert!(rt; syncs(&mut disk) && writes_both(&mut disk, APART));
    assert_eq!(rt; last_write(&disk), (7, 10));
    // behind the end nothing waits
    assert!(rt; writes(&mut disk, 20, b"far"));
    assert_eq!(rt; last_write(&disk), (20, 3));
    assert!(rt; writes_far(&mut disk));
    assert!(rt; holds(&disk, b"At\0\0far"));
}

#[test]
fn a_sync_that_cannot_write_ends_the_disk(rt: HostRuntime) {
    let mut disk = disk_of(rt.alloc(), 1);
    assert!(rt; syncs(&mut disk) && writes(&mut disk, 0, b"abc"));
    assert_eq!(rt; len(&mut disk), None);
    assert!(rt; disk.may_be_used());
    assert!(rt; !syncs(&mut disk));
    assert!(rt; !disk.may_be_used());
}
