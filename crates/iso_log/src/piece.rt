//! Reading and writing many slots at once.
ghost use Rattle.std.specs.Prelude.{◌≡◌, ◌≤◌, ◌<◌, ◌+◌, ◌*◌, ◌/◌, ◌^◌, ℕ, List, length, replicate, true, OnOk, IfOk, IsTrue};
ghost use Rattle.sqlite_disk.specs.Disk.{Holds, Torn, Mixed, Follows, Only};
ghost use Rattle.iso_log.specs.Log.{IsFirst};

use crate::log::{LogError, RECORD, is_whole, test_mixing};
use sqlite_disk::Disk;

/// How many slots are read or written at once, at most.
const PIECE: usize = 64;

/// How many bytes those are.
const PIECE_BYTES: usize = RECORD * PIECE;

/// Slots with no record.
const ZEROS: [u8; PIECE_BYTES] = [0; PIECE_BYTES];

/// How many slots the next piece has, of those from one to another.
pub(crate) fn piece_len(from: usize, to: usize) -> usize
    requires { from < to }
    ensures some { 1 ≤ result }
    ensures within { from + result ≤ to }
    ensures most { result ≤ 64 }
{
    if to - from < PIECE { to - from } else { PIECE }
}

/// How many slots from the first on hold a record.
fn whole_in(bytes: &[u8]) -> usize
    ensures { IsFirst 0 (length bytes.now / 128) result bytes.now }
{
    let slots = bytes.len() / RECORD;
    for place in 0..slots {
        let slot = &bytes[RECORD * place..RECORD * place + RECORD];
        if !is_whole(slot) {
            return place;
        }
    }
    slots
}

/// Up to which of the slots from a place on each holds a record.
pub(crate) fn whole_until<D: Disk>(
    disk: &mut D,
    place: usize,
    count: usize,
) -> Result<usize, LogError>
    requires usable { IsTrue (D.is_usable disk.old) }
    requires some { 1 ≤ count }
    requires most { count ≤ 64 }
    requires small { 128 * (place + count) < 2 ^ 63 }
    ensures least { IfOk result (λ end. place ≤ end) }
    ensures within { IfOk result (λ end. end ≤ place + count) }
    ensures first { IfOk result (λ end. IsTrue (D.is_clean disk.new)
        → IsFirst place (place + count) end (D.seen disk.old)) }
    ensures usable { IsTrue (D.is_usable disk.new) }
    ensures clean { IsTrue (D.is_clean disk.new) → IsTrue (D.is_clean disk.old) }
    ensures seen { D.seen disk.new ≡ D.seen disk.old }
    ensures crash { (c : List ℕ) → D.may_leave disk.new c → D.may_leave disk.old c }
{
    let mut buffer = ZEROS;
    let bytes = &mut buffer[..RECORD * count];
    let Ok(()) = disk.read_at(RECORD * place, bytes) else {
        return Err(LogError::Disk);
    };
    Ok(place + whole_in(bytes))
}

/// Writes zeros over so many slots.
pub(crate) fn write_zeros<D: Disk>(disk: &mut D, place: usize, count: usize) -> Result<(), LogError>
    requires usable { IsTrue (D.is_usable disk.old) }
    requires some { 1 ≤ count }
    requires most { count ≤ 64 }
    requires small { 128 * (place + count) < 2 ^ 63 }
    ensures written { OnOk result
        (Holds (D.seen disk.new) (128 * place) (replicate (128 * count) 0)) }
    ensures others { Torn (128 * place) (128 * count) (D.seen disk.old) (D.seen disk.new) }
    ensures mixed { IsTrue (D.is_mixing disk.old)
        → Follows (Mixed (128 * place) (replicate (128 * count) 0))
        (D.may_leave disk.old) (D.may_leave disk.new) }
    ensures crash { Follows (Torn (128 * place) (128 * count))
        (D.may_leave disk.old) (D.may_leave disk.new) }
    ensures usable { IsTrue (D.is_usable disk.new) }
    ensures clean { D.is_clean disk.new ≡ D.is_clean disk.old }
{
    match disk.write_at(RECORD * place, &ZEROS[..RECORD * count]) {
        Ok(()) => Ok(()),
        Err(_) => Err(LogError::Disk),
    }
}

/// Whether so many slots are zeros.
fn are_zeros<D: Disk>(disk: &mut D, place: usize, count: usize) -> Result<bool, LogError>
    requires usable { IsTrue (D.is_usable disk.old) }
    requires some { 1 ≤ count }
    requires most { count ≤ 64 }
    requires small { 128 * (place + count) < 2 ^ 63 }
    ensures zeros { IfOk result (λ b. b ≡ true → IsTrue (D.is_clean disk.new)
        → Holds (D.seen disk.old) (128 * place) (replicate (128 * count) 0)) }
    ensures usable { IsTrue (D.is_usable disk.new) }
    ensures clean { IsTrue (D.is_clean disk.new) → IsTrue (D.is_clean disk.old) }
    ensures seen { D.seen disk.new ≡ D.seen disk.old }
    ensures crash { (c : List ℕ) → D.may_leave disk.new c → D.may_leave disk.old c }
{
    let mut buffer = ZEROS;
    let bytes = &mut buffer[..RECORD * count];
    let Ok(()) = disk.read_at(RECORD * place, bytes) else {
        return Err(LogError::Disk);
    };
    Ok(bytes.iter().all(|byte| *byte == 0))
}

/// Makes so many slots zeros, where they aren't.
pub(crate) fn clear_slots<D: Disk>(disk: &mut D, place: usize, count: usize) -> Result<(), LogError>
    requires usable { IsTrue (D.is_usable disk.old) }
    requires some { 1 ≤ count }
    requires most { count ≤ 64 }
    requires small { 128 * (place + count) < 2 ^ 63 }
    ensures written { OnOk result (IsTrue (D.is_clean disk.new)
        → Holds (D.seen disk.new) (128 * place) (replicate (128 * count) 0)) }
    ensures others { Torn (128 * place) (128 * count) (D.seen disk.old) (D.seen disk.new) }
    ensures mixed { Follows (Mixed (128 * place) (replicate (128 * count) 0))
        (D.may_leave disk.old) (D.may_leave disk.new) }
    ensures usable { IsTrue (D.is_usable disk.new) }
    ensures clean { IsTrue (D.is_clean disk.new) → IsTrue (D.is_clean disk.old) }
{
    if are_zeros(disk, place, count)? {
        return Ok(());
    }
    test_mixing(disk)?;
    write_zeros(disk, place, count)
}

/// Writes so many slots again, as they are.
pub(crate) fn rewrite_slots<D: Disk>(
    disk: &mut D,
    place: usize,
    count: usize,
) -> Result<(), LogError>
    requires usable { IsTrue (D.is_usable disk.old) }
    requires some { 1 ≤ count }
    requires most { count ≤ 64 }
    requires small { 128 * (place + count) < 2 ^ 63 }
    ensures same { OnOk result (IsTrue (D.is_clean disk.new) → D.seen disk.new ≡ D.seen disk.old) }
    ensures left { IsTrue (D.is_clean disk.new)
        → Only (D.seen disk.old) (D.may_leave disk.old)
        → Only (D.seen disk.old) (D.may_leave disk.new) }
    ensures usable { IsTrue (D.is_usable disk.new) }
    ensures clean { IsTrue (D.is_clean disk.new) → IsTrue (D.is_clean disk.old) }
{
    let mut buffer = ZEROS;
    let bytes = &mut buffer[..RECORD * count];
    let Ok(()) = disk.read_at(RECORD * place, bytes) else {
        return Err(LogError::Disk);
    };
    test_mixing(disk)?;
    match disk.write_at(RECORD * place, bytes) {
        Ok(()) => Ok(()),
        Err(_) => Err(LogError::Disk),
    }
}
