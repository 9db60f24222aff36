//! A disk that holds back writes which join one another, and hands them on as one.
ghost use Rattle.std.specs.Prelude.{◌≡◌, ◌↔◌, ◌≤◌, ◌<◌, ◌+◌, ◌^◌, [], ℕ, List, length, true, false, is_ok, MatchBool, OnOk, IsTrue};
ghost use Rattle.sqlite_disk.specs.Disk.{Holds, Torn, Mixed, Cut, Follows, Only, CountsFault};
ghost use Rattle.sqlite_disk.specs.Events.{raised};
ghost use Rattle.sqlite_disk.specs.Refusal.{finds_no_room};
ghost use Rattle.iso_gather.specs.Shown.{shown, Leaves};

use sqlite_disk::{Disk, Tally, is_no_room};
use std::alloc::Global;
use std::io;

/// How many bytes wait at most.
const ROOM: usize = 1 << 17;

/// A disk over a disk. After its first sync it holds back writes that join one another, and hands them on as one: at a sync,
/// before a call that reads or changes the length, and where a write doesn't join them or finds no room. Where the disk
/// below may leave other bytes of a torn write than the old ones and those that were written, each write goes straight on.
///
/// A write that is held back and then fails is told by the call that handed it on.
#[derive(Drop)]
pub struct GatheredDisk<D: Disk> {
    /// The disk below.
    inner: D,
    /// So many bytes the file has at least.
    known: usize,
    /// Where the bytes belong that wait.
    at: usize,
    /// The bytes that wait.
    waiting: Vec<u8>,
    /// Whether it has synced once.
    is_gathering: bool,
    /// How many calls that write found no room.
    refused: u64,
    /// Whether bytes that waited couldn't be written at a sync.
    has_failed: bool,
    ghost within: { known ≤ length (D.Disk.seen inner) },
    ghost starts: { 0 < length waiting.items → at ≤ known },
    ghost ends: { at + length waiting.items < 2 ^ 64 },
    ghost mixed: { 0 < length waiting.items → IsTrue (D.Disk.is_mixing inner) },
}

/// Counts a failure that says that there is no room.
fn count(refused: &mut u64, outcome: io::Result<()>) -> io::Result<()>
    ensures same { result ≡ outcome }
    ensures counted { refused.new ≡ raised (finds_no_room outcome) refused.old }
{
    match outcome {
        Ok(()) => Ok(()),
        Err(error) => {
            if is_no_room(&error) {
                *refused = refused.saturating_add(1);
            }
            Err(error)
        }
    }
}

impl<D: Disk> GatheredDisk<D> {
    ghost use Rattle.iso_gather.specs.Gathered.{inner_of, seen_of, left_of, usable_of, counts_of, IsKept};

    /// A disk over this one, with nothing that waits. Its room for bytes that wait is from this allocator.
    pub fn new(alloc: Global, inner: D) -> GatheredDisk<D>
        // The disk below is the one that was given.
        ensures inner { inner_of result ≡ inner }
        // A read shows what the disk below shows.
        ensures seen { seen_of result ≡ D.Disk.seen inner }
        // A crash leaves exactly what it may leave of the disk below.
        ensures left { (c : List ℕ) → left_of result c ↔ D.Disk.may_leave inner c }
        // It may be used exactly where the disk below may.
        ensures usable { usable_of result ≡ D.Disk.is_usable inner }
        // It has counted what the disk below has: the failed calls that met damage, and
        // those that found no room.
        ensures tally { counts_of result ≡ D.Disk.tally_of inner }
    {
        let refused = inner.tally().refused;
        GatheredDisk {
            inner,
            known: 0,
            at: 0,
            waiting: Vec::new(alloc),
            is_gathering: false,
            refused,
            has_failed: false,
        }
    }

    /// The disk below.
    pub fn inner(&self) -> &D
        ensures { result.now ≡ inner_of self.now }
    {
        &self.inner
    }

    /// Whether so many bytes at an offset can be held back.
    fn joins(&self, at: usize, len: usize) -> bool
        ensures mixing { result ≡ true → IsTrue (D.Disk.is_mixing self.now.inner) }
        ensures some { result ≡ true → 0 < len }
        ensures end { result ≡ true → at + len < 2 ^ 64 }
        ensures first { result ≡ true → length self.now.waiting.items ≡ 0 → at ≤ self.now.known }
        ensures next { result ≡ true → 0 < length self.now.waiting.items
            → at ≡ self.now.at + length self.now.waiting.items }
    {
        let is_next = if self.waiting.is_empty() {
            at <= self.known
        } else {
            at == self.at + self.waiting.len()
        };
        let is_room = len <= ROOM.saturating_sub(self.waiting.len()) && len <= usize::MAX - at;
        is_next && is_room && len > 0 && self.is_gathering && self.inner.mixes()
    }

    /// Holds back bytes that join those that wait. Where it says `false`, nothing has changed.
    fn hold_back(&mut self, at: usize, bytes: &[u8]) -> bool
        ensures inner { self.new.inner ≡ self.old.inner }
        ensures failed { self.new.has_failed ≡ self.old.has_failed }
        ensures refused { self.new.refused ≡ self.old.refused }
        ensures waiting { result ≡ false → self.new.waiting.items ≡ self.old.waiting.items }
        ensures seen { MatchBool result (Holds (seen_of self.new) at bytes.now)
            (seen_of self.new ≡ seen_of self.old) }
        ensures others { Torn at (length bytes.now) (seen_of self.old) (seen_of self.new) }
        ensures mixed { Follows (Mixed at bytes.now) (left_of self.old) (left_of self.new) }
        ensures left { result ≡ false → (c : List ℕ) → left_of self.new c → left_of self.old c }
    {
        if !self.joins(at, bytes.len()) {
            return false;
        }
        let start = at - self.waiting.len();
        if self.waiting.extend_from_slice(bytes).is_err() {
            return false;
        }
        self.at = start;
        true
    }

    /// Hands the bytes on that wait. Where that fails, they wait on.
    fn flush(&mut self) -> io::Result<()>
        requires { IsTrue (D.Disk.is_usable self.old.inner) }
        ensures empty { OnOk result (self.new.waiting.items ≡ []) }
        ensures failed { self.new.has_failed ≡ self.old.has_failed }
        ensures refused { self.new.refused ≡ self.old.refused }
        ensures seen { seen_of self.new ≡ seen_of self.old }
        ensures left { (c : List ℕ) → left_of self.new c → left_of self.old c }
        ensures usable { IsTrue (D.Disk.is_usable self.new.inner) }
        ensures mixing { D.Disk.is_mixing self.new.inner ≡ D.Disk.is_mixing self.old.inner }
        ensures faults { CountsFault result (D.Disk.faults self.old.inner)
            (D.Disk.faults self.new.inner) }
        ensures kept { IsKept self.old self.new }
    {
        if self.waiting.is_empty() {
            return Ok(());
        }
        self.inner.write_at(self.at, &self.waiting)?;
        self.known = self.known.max(self.at + self.waiting.len());
        self.waiting.clear();
        Ok(())
    }

    /// Writes bytes behind those that wait, or holds them back alone.
    fn write_behind(&mut self, at: usize, bytes: &[u8]) -> io::Result<()>
        requires { IsTrue (D.Disk.is_usable self.old.inner) }
        ensures failed { self.new.has_failed ≡ self.old.has_failed }
        ensures refused { self.new.refused ≡ self.old.refused }
        ensures written { OnOk result (0 < length bytes.now
            → Holds (seen_of self.new) at bytes.now) }
        ensures others { Torn at (length bytes.now) (seen_of self.old) (seen_of self.new) }
        ensures mixed { IsTrue (D.Disk.is_mixing self.old.inner) → at + length bytes.now < 2 ^ 64
            → Follows (Mixed at bytes.now) (left_of self.old) (left_of self.new) }
        ensures crash { Follows (Torn at (length bytes.now)) (left_of self.old) (left_of self.new) }
        ensures usable { IsTrue (D.Disk.is_usable self.new.inner) }
        ensures mixing { D.Disk.is_mixing self.new.inner ≡ D.Disk.is_mixing self.old.inner }
        ensures faults { CountsFault result (D.Disk.faults self.old.inner)
            (D.Disk.faults self.new.inner) }
        ensures kept { IsKept self.old self.new }
    {
        self.flush()?;
        if self.hold_back(at, bytes) {
            return Ok(());
        }
        self.inner.write_at(at, bytes)?;
        if !bytes.is_empty() {
            self.known = self.known.max(at.saturating_add(bytes.len()));
        }
        Ok(())
    }
}

impl<D: Disk> GatheredDisk<D> {
    ghost use Rattle.iso_gather.specs.Gathered.{seen_of, left_of, usable_of, IsKept};

    /// Changes the length once nothing waits.
    fn resize_behind(&mut self, len: usize) -> io::Result<()>
        requires { IsTrue (D.Disk.is_usable self.old.inner) }
        ensures failed { self.new.has_failed ≡ self.old.has_failed }
        ensures refused { self.new.refused ≡ self.old.refused }
        ensures len { OnOk result (length (seen_of self.new) ≡ len) }
        ensures others { Cut len (seen_of self.old) (seen_of self.new) }
        ensures crash { Follows (Cut len) (left_of self.old) (left_of self.new) }
        ensures usable { IsTrue (D.Disk.is_usable self.new.inner) }
        ensures faults { CountsFault result (D.Disk.faults self.old.inner)
            (D.Disk.faults self.new.inner) }
        ensures kept { IsKept self.old self.new }
    {
        self.flush()?;
        // a change of the length that fails may have cut the file off as well
        self.known = self.known.min(len);
        self.inner.set_len(len)?;
        self.known = len;
        Ok(())
    }

    /// Syncs once nothing waits.
    fn sync_behind(&mut self) -> io::Result<()>
        requires usable { IsTrue (D.Disk.is_usable self.old.inner) }
        requires not_failed { self.old.has_failed ≡ false }
        ensures refused { self.new.refused ≡ self.old.refused }
        ensures durable { OnOk result (Only (seen_of self.old) (left_of self.new)) }
        ensures seen { seen_of self.new ≡ seen_of self.old }
        ensures left { (c : List ℕ) → left_of self.new c → left_of self.old c }
        ensures usable { usable_of self.new ≡ is_ok result }
        ensures faults { CountsFault result (D.Disk.faults self.old.inner)
            (D.Disk.faults self.new.inner) }
        ensures kept { IsKept self.old self.new }
    {
        if let Err(error) = self.flush() {
            self.has_failed = true;
            return Err(error);
        }
        self.inner.sync()?;
        self.is_gathering = true;
        Ok(())
    }
}

impl<D: Disk> Disk for GatheredDisk<D> {
    ghost use Rattle.iso_gather.specs.Gathered.{seen_of, left_of, usable_of, counts_of};
    ghost use Rattle.iso_gather.specs.Staying.{shown_may_stay};

    ghost seen = { seen_of };

    ghost may_leave = { left_of };

    ghost is_usable = { usable_of };

    ghost faults = { λ g. D.Disk.faults g.inner };

    ghost tally_of = { counts_of };

    ghost key_of = { λ g. D.Disk.key_of g.inner };

    ghost is_clean = { λ g. D.Disk.is_clean g.inner };

    ghost is_fair = { λ g. D.Disk.is_fair g.inner };

    ghost fair_if_clean = { λ g. D.Disk.fair_if_clean g.inner };

    ghost seen_may_stay = { λ g. shown_may_stay g.at g.waiting.items (D.Disk.may_leave g.inner)
        (D.Disk.seen g.inner) (D.Disk.seen_may_stay g.inner) };

    ghost is_mixing = { λ g. D.Disk.is_mixing g.inner };

    fn mixes(&self) -> bool {
        self.inner.mixes()
    }

    fn key(&self) -> u64 {
        self.inner.key()
    }

    fn tally(&self) -> Tally {
        Tally {
            caught: self.inner.tally().caught,
            refused: self.refused,
        }
    }

    fn may_be_used(&self) -> bool {
        self.inner.may_be_used() && !self.has_failed
    }

    fn len(&mut self) -> io::Result<usize> {
        self.flush()?;
        self.inner.len()
    }

    fn read_at(&mut self, at: usize, buf: &mut [u8]) -> io::Result<()> {
        self.flush()?;
        self.inner.read_at(at, buf)
    }

    fn read_checked(&mut self, key: u64, want: u64, at: usize, buf: &mut [u8]) -> io::Result<()> {
        self.flush()?;
        self.inner.read_checked(key, want, at, buf)
    }

    fn write_at(&mut self, at: usize, bytes: &[u8]) -> io::Result<()> {
        if self.hold_back(at, bytes) {
            return Ok(());
        }
        let outcome = self.write_behind(at, bytes);
        count(&mut self.refused, outcome)
    }

    fn set_len(&mut self, len: usize) -> io::Result<()> {
        let outcome = self.resize_behind(len);
        count(&mut self.refused, outcome)
    }

    fn sync(&mut self) -> io::Result<()> {
        let outcome = self.sync_behind();
        count(&mut self.refused, outcome)
    }
}
