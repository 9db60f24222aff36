//! A disk in memory whose crashes can be chosen.
ghost use Rattle.std.specs.Prelude.{◌≡◌, true, false, refl, is_ok, OnOk, length};
ghost use Rattle.sqlite_disk.specs.Disk.{Holds, Torn, Mixed, Cut, CountsFault};
ghost use Rattle.sqlite_disk.specs.Refusal.{finds_no_room};

use sqlite_disk::{Disk, Tally};
use std::alloc::{AllocError, Global};
use std::io;

/// Which bytes of what isn't synced a crash leaves as they were written.
#[derive(Clone, Copy)]
pub enum Tear {
    /// Those in front of a place.
    Front(usize),
    /// About two of five, other ones for each number.
    Some(usize),
}

/// A disk in memory that fails after so many calls. What it ensures is that of a disk whose crashes lose nothing: others are
/// made by `crash`.
#[derive(Drop)]
pub struct TornDisk {
    /// What a read gives.
    pub bytes: Vec<u8>,
    /// What was synced last.
    pub synced: Vec<u8>,
    /// How many calls are left before each fails.
    pub calls_left: u64,
    /// Where the last write began, and how many bytes it had.
    pub last_write: (usize, usize),
    is_usable: bool,
    faults: u64,
}

impl TornDisk {
    /// An empty disk that doesn't fail.
    pub fn new(alloc: Global) -> TornDisk {
        TornDisk {
            bytes: Vec::new(alloc),
            synced: Vec::new(alloc),
            calls_left: u64::MAX,
            last_write: (0, 0),
            is_usable: true,
            faults: 0,
        }
    }

    /// What a crash leaves, on a disk that doesn't fail. The file keeps its length.
    pub fn crash(&self, alloc: Global, tear: Tear) -> Result<TornDisk, AllocError> {
        let mut disk = TornDisk::new(alloc);
        for (place, byte) in self.bytes.iter().enumerate() {
            let kept = match self.synced.get(place) {
                Some(old) => *old,
                None => 0,
            };
            let left = if is_written(tear, place) { *byte } else { kept };
            disk.bytes.push(left)?;
            disk.synced.push(left)?;
        }
        Ok(disk)
    }
}

/// Whether a crash leaves the byte at a place as it was written.
fn is_written(tear: Tear, place: usize) -> bool {
    match tear {
        Tear::Front(end) => place < end,
        Tear::Some(number) => place.wrapping_mul(31).wrapping_add(number.wrapping_mul(17)) % 5 < 2,
    }
}

/// Takes one of the calls that are left.
fn spend(calls_left: &mut u64, faults: &mut u64) -> io::Result<()>
    ensures faults { CountsFault result faults.old faults.new }
    ensures kind { finds_no_room result ≡ false }
{
    if *calls_left == 0 {
        *faults = faults.saturating_add(1);
        return Err(io::Error::other("no call is left"));
    }
    *calls_left -= 1;
    Ok(())
}

/// Counts a failure.
fn count(outcome: Result<(), AllocError>, faults: &mut u64) -> io::Result<()>
    ensures variant { is_ok result ≡ is_ok outcome }
    ensures kind { finds_no_room result ≡ false }
    ensures faults { CountsFault result faults.old faults.new }
{
    if outcome.is_err() {
        *faults = faults.saturating_add(1);
        return Err(io::Error::from(io::ErrorKind::OutOfMemory));
    }
    Ok(())
}

fn resize(file: &mut Vec<u8>, len: usize) -> Result<(), AllocError>
    ensures len { OnOk result (length file.new.items ≡ len) }
    ensures others { Cut len file.old.items file.new.items }
{
    file.resize(len, 0)
}

fn overwrite(file: &mut Vec<u8>, at: usize, bytes: &[u8]) -> Result<(), AllocError>
    ensures written { OnOk result (Holds file.new.items at bytes.now) }
    ensures others { Torn at (length bytes.now) file.old.items file.new.items }
    ensures mixed { Mixed at bytes.now file.old.items file.new.items }
{
    let end = at.checked_add(bytes.len()).ok_or(AllocError)?;
    if end > file.len() {
        resize(file, end)?;
    }
    file[at..end].copy_from_slice(bytes);
    Ok(())
}

fn replace(file: &mut Vec<u8>, bytes: &[u8]) -> Result<(), AllocError>
    ensures ok { OnOk result (file.new.items ≡ bytes.now) }
{
    let mut copy = Vec::new(*file.allocator());
    copy.extend_from_slice(bytes)?;
    *file = copy;
    Ok(())
}

impl Disk for TornDisk {
    ghost seen = { λ d. d.bytes.items };

    ghost may_leave = { λ d c. c ≡ d.bytes.items };

    ghost is_usable = { λ d. d.is_usable };

    ghost faults = { λ d. d.faults };

    ghost is_clean = { λ _. false };

    ghost tally_of = { λ _. record { caught = 0; refused = 0 } };

    ghost key_of = { λ _. 0 };

    ghost is_fair = { λ _ _. true };

    ghost fair_if_clean = { λ _ _ _. refl };

    ghost seen_may_stay = { λ _. refl };

    ghost is_mixing = { λ _. true };

    fn mixes(&self) -> bool {
        true
    }

    fn key(&self) -> u64 {
        0
    }

    fn tally(&self) -> Tally {
        Tally {
            caught: 0,
            refused: 0,
        }
    }

    fn may_be_used(&self) -> bool {
        self.is_usable
    }

    fn len(&mut self) -> io::Result<usize> {
        spend(&mut self.calls_left, &mut self.faults)?;
        Ok(self.bytes.len())
    }

    fn read_at(&mut self, at: usize, buf: &mut [u8]) -> io::Result<()> {
        spend(&mut self.calls_left, &mut self.faults)?;
        if at > self.bytes.len() || buf.len() > self.bytes.len() - at {
            return count(Err(AllocError), &mut self.faults);
        }
        buf.copy_from_slice(&self.bytes[at..at + buf.len()]);
        Ok(())
    }

    /// No log asks for it.
    fn read_checked(
        &mut self,
        _key: u64,
        _want: u64,
        _at: usize,
        _buf: &mut [u8],
    ) -> io::Result<()> {
        count(Err(AllocError), &mut self.faults)
    }

    fn write_at(&mut self, at: usize, bytes: &[u8]) -> io::Result<()> {
        spend(&mut self.calls_left, &mut self.faults)?;
        self.last_write = (at, bytes.len());
        count(overwrite(&mut self.bytes, at, bytes), &mut self.faults)
    }

    fn set_len(&mut self, len: usize) -> io::Result<()> {
        spend(&mut self.calls_left, &mut self.faults)?;
        count(resize(&mut self.bytes, len), &mut self.faults)
    }

    fn sync(&mut self) -> io::Result<()> {
        self.is_usable = false;
        spend(&mut self.calls_left, &mut self.faults)?;
        count(replace(&mut self.synced, &self.bytes), &mut self.faults)?;
        self.is_usable = true;
        Ok(())
    }
}
