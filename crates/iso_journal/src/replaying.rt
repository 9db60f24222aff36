//! The records of a journal, decided again.
ghost use Rattle.std.specs.Prelude.{◌≡◌, ◌≤◌, ◌<◌, ◌+◌, ◌*◌, ◌/◌, ◌++◌, ◌∷◌, ◌^◌, [], ℕ, List, length, true, false, IfOk, OnOk, IfErr, IsTrue};
ghost use Rattle.iso_log.specs.Slots.{slot, records_of, slots_from};
ghost use Rattle.iso_log.specs.Log.{IsFile};
ghost use Rattle.iso_journal.specs.Orders.{order_of, orders_of, journal_orders};
ghost use Rattle.iso_journal.specs.Written.{IsWritten, AreWritten, IsReplayed};
ghost use Rattle.iso_journal.specs.Why.{IsPlain, IsReplayFault};

use crate::error::OpenError;
use crate::watching::Watch;
use iso_durable::answer_order;
use iso_issuer::{Accounts, Issuer};
use iso_log::RECORD;
use iso_log::laws::{files, slots};
use iso_record::read_row;
use sqlite_disk::Disk;

/// How many records are read at once, at most.
const PIECE: usize = 64;

/// How many bytes those are.
const PIECE_BYTES: usize = RECORD * PIECE;

/// Enters the order of a record, and tells whether the record is the one that a host writes for it then.
pub fn replay_record(issuer: &mut Issuer, bytes: &[u8; RECORD]) -> Result<bool, OpenError>
    // Where it answers true, a host with the issuer's books writes this record next: its order is
    // new, and its answer is the one that they give.
    ensures written { IfOk result (λ b. b ≡ true
        → IsWritten issuer.old.accounts issuer.old.limit issuer.old.orders bytes.now) }
    // Where it answers false, no host with the issuer's books writes this record next.
    ensures not { IfOk result (λ b. b ≡ false
        → IsWritten issuer.old.accounts issuer.old.limit issuer.old.orders bytes.now → ⊥) }
    // Where it answers true, the order of the record is entered behind the others.
    ensures entered { IfOk result (λ b. b ≡ true
        → issuer.new.orders ≡ issuer.old.orders ++ order_of bytes.now ∷ []) }
    // Where it answers true, the issuer's accounts stay as they were.
    ensures accounts { IfOk result (λ b. b ≡ true → issuer.new.accounts ≡ issuer.old.accounts) }
    // Where it answers true, the issuer's limit stays as it was.
    ensures limit { IfOk result (λ b. b ≡ true → issuer.new.limit ≡ issuer.old.limit) }
    // An `Err` tells nothing of the record: it is neither `Other` nor `Damaged`.
    ensures fault { IfErr result (λ e. IsPlain e) }
{
    let Some(row) = read_row(bytes) else {
        return Ok(false);
    };
    let (answer, is_new) = answer_order(issuer, row.order)?;
    Ok(is_new && answer == row.answer)
}

/// How many records the next piece has, of those from one place to another.
fn piece_len(from: usize, to: usize) -> usize
    requires { from < to }
    ensures some { 1 ≤ result }
    ensures within { from + result ≤ to }
    ensures most { result ≤ 64 }
{
    if to - from < PIECE { to - from } else { PIECE }
}

/// The bytes of the record at a place of a piece.
fn record_at(piece: &[u8], place: usize) -> [u8; RECORD]
    requires { 128 * place + 128 ≤ length piece.now }
    ensures { result ≡ slot piece.now place }
{
    let mut record = [0; RECORD];
    record.copy_from_slice(&piece[RECORD * place..RECORD * place + RECORD]);
    record
}

/// Enters the orders of a piece, up to the first record that no host writes then: how many there are before it, or all.
fn replay_piece(issuer: &mut Issuer, piece: &[u8]) -> Result<usize, OpenError>
    ensures within { IfOk result (λ n. n ≤ length piece.now / 128) }
    ensures written { IfOk result (λ n. AreWritten issuer.old.accounts issuer.old.limit
        issuer.old.orders (slots_from n 0 piece.now)) }
    ensures not { IfOk result (λ n. n < length piece.now / 128
        → IsWritten issuer.old.accounts issuer.old.limit (issuer.old.orders
        ++ orders_of (slots_from n 0 piece.now)) (slot piece.now n) → ⊥) }
    ensures entered { IfOk result (λ n. n ≡ length piece.now / 128
        → issuer.new.orders ≡ issuer.old.orders ++ orders_of (slots_from n 0 piece.now)) }
    ensures accounts { IfOk result
        (λ n. n ≡ length piece.now / 128 → issuer.new.accounts ≡ issuer.old.accounts) }
    ensures limit { IfOk result
        (λ n. n ≡ length piece.now / 128 → issuer.new.limit ≡ issuer.old.limit) }
    ensures fault { IfErr result (λ e. IsPlain e) }
{
    slots(); // for the prover: what was read of a file has its records
    let count = piece.len() / RECORD;
    for place in 0..count {
        let record = record_at(piece, place);
        if !replay_record(issuer, &record)? {
            return Ok(place);
        }
    }
    Ok(count)
}

/// The same, of so many records of a file from a place on.
fn replay_some<D: Disk>(
    disk: &mut D,
    issuer: &mut Issuer,
    place: usize,
    count: usize,
) -> Result<usize, OpenError>
    requires usable { IsTrue (D.is_usable disk.old) }
    requires some { 1 ≤ count }
    requires most { count ≤ 64 }
    requires small { 128 * (place + count) < 2 ^ 63 }
    ensures within { IfOk result (λ n. n ≤ count) }
    ensures written { IfOk result (λ n. IsTrue (D.is_clean disk.new)
        → AreWritten issuer.old.accounts issuer.old.limit issuer.old.orders
        (slots_from n place (D.seen disk.old))) }
    ensures not { IfOk result (λ n. n < count → IsTrue (D.is_clean disk.new)
        → IsWritten issuer.old.accounts issuer.old.limit
        (issuer.old.orders ++ orders_of (slots_from n place (D.seen disk.old)))
        (slot (D.seen disk.old) (place + n)) → ⊥) }
    ensures entered { IfOk result (λ n. n ≡ count → IsTrue (D.is_clean disk.new)
        → issuer.new.orders
        ≡ issuer.old.orders ++ orders_of (slots_from n place (D.seen disk.old))) }
    ensures accounts { IfOk result (λ n. n ≡ count → issuer.new.accounts ≡ issuer.old.accounts) }
    ensures limit { IfOk result (λ n. n ≡ count → issuer.new.limit ≡ issuer.old.limit) }
    ensures fault { IfErr result (λ e. IsPlain e) }
    ensures clean { IsTrue (D.is_clean disk.new) → IsTrue (D.is_clean disk.old) }
    ensures seen { D.seen disk.new ≡ D.seen disk.old }
    ensures crash { (c : List ℕ) → D.may_leave disk.new c → D.may_leave disk.old c }
    ensures usable { IsTrue (D.is_usable disk.new) }
{
    slots(); // for the prover: what was read of a file has its records
    let mut buffer = [0; PIECE_BYTES];
    let piece = &mut buffer[..RECORD * count];
    let Ok(()) = disk.read_at(RECORD * place, piece) else {
        return Err(OpenError::Disk);
    };
    let replayed = replay_piece(issuer, piece)?;
    Ok(replayed)
}

/// The issuer whose journal the records are, of which the first is the heading.
pub(crate) fn replay_records<D: Disk, W: Watch>(
    disk: &mut D,
    count: usize,
    accounts: Accounts,
    limit: u32,
    watch: &mut W,
) -> Result<Issuer, OpenError>
    requires usable { IsTrue (D.is_usable disk.old) }
    requires small { 128 * count < 2 ^ 63 }
    requires some { 1 ≤ count }
    requires least { 1 ≤ limit }
    requires most { limit ≤ 999999 }
    ensures accounts { IfOk result (λ issuer. issuer.accounts ≡ accounts) }
    ensures limit { IfOk result (λ issuer. issuer.limit ≡ limit) }
    ensures orders { IfOk result (λ issuer. IsTrue (D.is_clean disk.new) → (slots : ℕ)
        → IsFile slots count (D.seen disk.old)
        → issuer.orders ≡ journal_orders (records_of (D.seen disk.old))) }
    ensures written { OnOk result (IsTrue (D.is_clean disk.new) → (slots : ℕ)
        → IsFile slots count (D.seen disk.old)
        → IsReplayed accounts limit (records_of (D.seen disk.old))) }
    ensures fault { IfErr result (λ e. IsTrue (D.is_clean disk.new) → (slots : ℕ)
        → IsFile slots count (D.seen disk.old)
        → IsReplayFault accounts limit (records_of (D.seen disk.old)) e) }
    ensures clean { IsTrue (D.is_clean disk.new) → IsTrue (D.is_clean disk.old) }
    ensures seen { D.seen disk.new ≡ D.seen disk.old }
    ensures crash { (c : List ℕ) → D.may_leave disk.new c → D.may_leave disk.old c }
    ensures usable { IsTrue (D.is_usable disk.new) }
{
    files(); // for the prover: which records stand up to a place
    let mut issuer = Issuer::new(accounts, limit);
    let mut place = 1;
    while place < count {
        let some = piece_len(place, count);
        let replayed = replay_some(disk, &mut issuer, place, some)?;
        if replayed < some {
            return Err(OpenError::Damaged(place + replayed));
        }
        place += some;
        watch.replayed(place - 1, count - 1);
    }
    Ok(issuer)
}
