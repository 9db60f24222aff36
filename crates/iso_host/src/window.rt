//! The bytes that were read and not yet taken.

ghost use Rattle.std.specs.Prelude.{◌≡◌, ◌≤◌, [], length, drop};
ghost use Rattle.std.specs.Io.KnownBytes.{Keeps, prepend_known};
ghost use Rattle.iso_host.specs.Counts.{stream};
ghost use Rattle.iso_host.specs.Reading.{Refills, SpendsOnReads, reading};
ghost use Rattle.iso_host.specs.Turns.{TakesTurns};

use crate::fault::ServeFault;
use crate::streams::Inlet;
use std::marker::Model;

/// The most bytes of one read.
const BLOCK: usize = 4096;

/// The bytes of one read that are not yet taken. A contract sees them alone.
#[derive(Drop)]
pub struct Window {
    block: [u8; BLOCK],
    start: usize,
    end: usize,
}

impl Model for Window {
    ghost use Rattle.std.specs.Prelude.{ℕ, List, ◌-◌, ◌≤◌, take, drop};

    ghost Value = { List ℕ };

    ghost view = { λ w. take (w.end - w.start) (drop w.start w.block) };

    ghost invariant = { λ w. (w.start ≤ w.end) × (w.end ≤ 4096) };
}

impl Window {
    /// An empty window.
    pub fn new() -> Window
        ensures { result ≡ [] }
    {
        Window {
            block: [0; BLOCK],
            start: 0,
            end: 0,
        }
    }

    /// The bytes.
    pub fn bytes(&self) -> &[u8]
        ensures { result.now ≡ self.now }
    {
        &self.block[self.start..self.end]
    }

    /// Goes past the first bytes, which are taken.
    pub fn pass(&mut self, count: usize)
        // The window has so many bytes.
        requires { count ≤ length self.old }
        ensures { self.new ≡ drop count self.old }
    {
        self.start += count;
    }

    /// One read into the empty window, which takes one of the turns that are left. The end of the input is `CutFrame`.
    pub fn refill<R: Inlet>(&mut self, reader: &mut R, left: &mut u64) -> Result<(), ServeFault>
        // The window is empty.
        requires { self.old ≡ [] }
        // No byte is lost or added: those of the window, and then those that the reader still
        // gives, are the same as before, where they are known.
        ensures kept { Keeps (prepend_known self.old (R.remaining reader.old))
            (prepend_known self.new (R.remaining reader.new)) }
        // At `Ok` the window has a byte at least. Else it is empty, and `CutFrame` comes
        // only at the end of the input.
        ensures bytes { Refills self.new (R.remaining reader.new) result }
        // A read takes one of the turns that are left.
        ensures turns { TakesTurns (R.counts reader.old) (R.counts reader.new) left.old left.new }
        // `Read` comes only where the reader failed, `TooManyTurns` only where no turn is left. At
        // `Ok` the read didn't fail, and gave a byte at least.
        ensures spent { SpendsOnReads
            (reading self.old (stream (R.remaining reader.old) (R.counts reader.old)) left.old)
            (reading self.new (stream (R.remaining reader.new) (R.counts reader.new)) left.new)
            0 result }
    {
        if *left == 0 {
            return Err(ServeFault::TooManyTurns);
        }
        *left -= 1;
        self.start = 0;
        self.end = 0;
        let Ok(count) = reader.read(&mut self.block) else {
            return Err(ServeFault::Read);
        };
        self.end = count;
        if count == 0 {
            return Err(ServeFault::CutFrame);
        }
        Ok(())
    }
}
