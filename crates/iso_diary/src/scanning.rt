//! The notes of a diary's records.
ghost use Rattle.std.specs.Prelude.{◌≡◌, ◌≤◌, ◌<◌, ◌+◌, ◌*◌, ◌/◌, ◌++◌, ◌∷◌, ◌^◌, [], ℕ, List, length, true, false, IfOk, OnOk, IfErr, IsTrue};
ghost use Rattle.iso_log.specs.Slots.{slot, records_of, slots_from};
ghost use Rattle.iso_log.specs.Log.{IsFile};
ghost use Rattle.iso_diary.specs.Notes.{note_of, notes_of, diary_notes};
ghost use Rattle.iso_diary.specs.Kept.{IsLineAt, AreLines, AreNotes};
ghost use Rattle.iso_diary.specs.Why.{IsPlain, IsScanFault};

use crate::error::OpenError;
use crate::reading::read_line;
use iso_log::RECORD;
use iso_log::laws::{files, slots};
use iso_restarts::Note;
use sqlite_disk::Disk;
use std::alloc::Global;

/// How many records are read at once, at most.
const PIECE: usize = 64;

/// How many bytes those are.
const PIECE_BYTES: usize = RECORD * PIECE;

/// Adds the note of a record, and tells whether the record is that of a note at this place.
fn scan_record(notes: &mut Vec<Note>, bytes: &[u8; RECORD], place: usize) -> Result<bool, OpenError>
    ensures read { IfOk result (λ b. b ≡ true → IsLineAt place bytes.now) }
    ensures not { IfOk result (λ b. b ≡ false → IsLineAt place bytes.now → ⊥) }
    ensures more { IfOk result (λ b. b ≡ true
        → notes.new.items ≡ notes.old.items ++ note_of bytes.now ∷ []) }
    ensures fault { IfErr result (λ e. IsPlain e) }
{
    let Some(line) = read_line(bytes) else {
        return Ok(false);
    };
    if line.place != place as u64 {
        return Ok(false);
    }
    match notes.push(line.note) {
        Ok(()) => Ok(true),
        Err(_) => Err(OpenError::Memory),
    }
}

/// How many records the next piece has, of those from one place to another.
fn piece_len(from: usize, to: usize) -> usize
    requires { from < to }
    ensures some { 1 ≤ result }
    ensures within { from + result ≤ to }
    ensures most { result ≤ 64 }
{
    if to - from < PIECE { to - from } else { PIECE }
}

/// The bytes of the record at a place of a piece.
fn record_at(piece: &[u8], place: usize) -> [u8; RECORD]
    requires { 128 * place + 128 ≤ length piece.now }
    ensures { result ≡ slot piece.now place }
{
    let mut record = [0; RECORD];
    record.copy_from_slice(&piece[RECORD * place..RECORD * place + RECORD]);
    record
}

/// Adds the notes of a piece whose first record has this place, up to the first record that is none: how many there are
/// before it, or all.
fn scan_piece(notes: &mut Vec<Note>, piece: &[u8], first: usize) -> Result<usize, OpenError>
    requires small { first < 2 ^ 63 }
    ensures within { IfOk result (λ n. n ≤ length piece.now / 128) }
    ensures read { IfOk result (λ n. AreLines first (slots_from n 0 piece.now)) }
    ensures not { IfOk result (λ n. n < length piece.now / 128
        → IsLineAt (first + n) (slot piece.now n) → ⊥) }
    ensures more { IfOk result (λ n. n ≡ length piece.now / 128
        → notes.new.items ≡ notes.old.items ++ notes_of (slots_from n 0 piece.now)) }
    ensures fault { IfErr result (λ e. IsPlain e) }
{
    slots(); // for the prover: what was read of a file has its records
    let count = piece.len() / RECORD;
    for place in 0..count {
        let record = record_at(piece, place);
        if !scan_record(notes, &record, first + place)? {
            return Ok(place);
        }
    }
    Ok(count)
}

/// The same, of so many records of a file from a place on.
fn scan_some<D: Disk>(
    disk: &mut D,
    notes: &mut Vec<Note>,
    place: usize,
    count: usize,
) -> Result<usize, OpenError>
    requires usable { IsTrue (D.is_usable disk.old) }
    requires some { 1 ≤ count }
    requires most { count ≤ 64 }
    requires small { 128 * (place + count) < 2 ^ 63 }
    ensures within { IfOk result (λ n. n ≤ count) }
    ensures read { IfOk result (λ n. IsTrue (D.is_clean disk.new)
        → AreLines place (slots_from n place (D.seen disk.old))) }
    ensures not { IfOk result (λ n. n < count → IsTrue (D.is_clean disk.new)
        → IsLineAt (place + n) (slot (D.seen disk.old) (place + n)) → ⊥) }
    ensures more { IfOk result (λ n. n ≡ count → IsTrue (D.is_clean disk.new)
        → notes.new.items ≡ notes.old.items ++ notes_of (slots_from n place (D.seen disk.old))) }
    ensures fault { IfErr result (λ e. IsPlain e) }
    ensures clean { IsTrue (D.is_clean disk.new) → IsTrue (D.is_clean disk.old) }
    ensures seen { D.seen disk.new ≡ D.seen disk.old }
    ensures crash { (c : List ℕ) → D.may_leave disk.new c → D.may_leave disk.old c }
    ensures usable { IsTrue (D.is_usable disk.new) }
{
    slots(); // for the prover: what was read of a file has its records
    let mut buffer = [0; PIECE_BYTES];
    let piece = &mut buffer[..RECORD * count];
    let Ok(()) = disk.read_at(RECORD * place, piece) else {
        return Err(OpenError::Disk);
    };
    let scanned = scan_piece(notes, piece, place)?;
    Ok(scanned)
}

/// The notes of a diary's records, of which the first is the heading.
pub(crate) fn scan<D: Disk>(
    alloc: Global,
    disk: &mut D,
    count: usize,
) -> Result<Vec<Note>, OpenError>
    requires usable { IsTrue (D.is_usable disk.old) }
    requires small { 128 * count < 2 ^ 63 }
    requires some { 1 ≤ count }
    ensures notes { IfOk result (λ notes. IsTrue (D.is_clean disk.new) → (slots : ℕ)
        → IsFile slots count (D.seen disk.old)
        → notes.items ≡ diary_notes (records_of (D.seen disk.old))) }
    ensures read { OnOk result (IsTrue (D.is_clean disk.new) → (slots : ℕ)
        → IsFile slots count (D.seen disk.old)
        → AreNotes (records_of (D.seen disk.old))) }
    ensures fault { IfErr result (λ e. IsTrue (D.is_clean disk.new) → (slots : ℕ)
        → IsFile slots count (D.seen disk.old)
        → IsScanFault (records_of (D.seen disk.old)) e) }
    ensures clean { IsTrue (D.is_clean disk.new) → IsTrue (D.is_clean disk.old) }
    ensures seen { D.seen disk.new ≡ D.seen disk.old }
    ensures crash { (c : List ℕ) → D.may_leave disk.new c → D.may_leave disk.old c }
    ensures usable { IsTrue (D.is_usable disk.new) }
{
    files(); // for the prover: which records stand up to a place
    let mut notes = Vec::new(alloc);
    let mut place = 1;
    while place < count {
        let some = piece_len(place, count);
        let scanned = scan_some(disk, &mut notes, place, some)?;
        if scanned < some {
            return Err(OpenError::Damaged(place + scanned));
        }
        place += some;
    }
    Ok(notes)
}
