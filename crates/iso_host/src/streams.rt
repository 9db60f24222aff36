//! What the host reads from and writes to.
ghost use Rattle.std.specs.Prelude.{◌≡◌, ◌<◌, ℕ, List, None};
ghost use Rattle.std.specs.declared.option.Option.{Option};
ghost use Rattle.std.specs.Io.{ReadsAtMost, WritesAtMost};
ghost use Rattle.std.specs.Io.KnownBytes.{Keeps, ReadConsumes, WriteAppends};
ghost use Rattle.iso_host.specs.Counts.{Counts};
ghost use Rattle.iso_host.specs.Streams.{CountsRead, CountsWrite, CountsFlush, TakesSome};

/// The stream failed. It says no more.
#[derive(Clone, Copy, Debug, PartialEq, Eq, Drop)]
pub struct Failed;

/// A reader of bytes.
pub trait Inlet {
    // The bytes that reads will give from here on, where they are known.
    ghost remaining: { Self → Option (List ℕ) };

    // The reads made, the bytes that they gave, and how many of them failed.
    ghost counts: { Self → Counts };

    /// Reads into the front of the buffer, and gives how many bytes it read.
    ///
    /// A read into at least one byte that gives none is the end of the input. One that fails gave nothing.
    fn read(&mut self, buffer: &mut [u8]) -> Result<usize, Failed>
        // It gives no more bytes than the buffer has.
        ensures bound { ReadsAtMost result buffer.new }
        // What it gives is the front of what was still to come, where that is known; a failure
        // gives nothing.
        ensures bytes { ReadConsumes (remaining self.old) (remaining self.new) result buffer.new }
        // One more read is counted with its bytes, or a failure.
        ensures counts { CountsRead (counts self.old) (counts self.new) result };
}

/// A writer of bytes.
pub trait Outlet {
    // The bytes that the writer holds, where they are known.
    ghost contents: { Self → Option (List ℕ) };

    // The writes made, the bytes that they took, the failures of writes and flushes, and the bytes that wait for a flush.
    ghost counts: { Self → Counts };

    /// Writes some of the bytes, from the front on, and gives how many. At least one is taken of at least one.
    ///
    /// A write that fails took nothing.
    fn write(&mut self, bytes: &[u8]) -> Result<usize, Failed>
        // It takes no more bytes than it was given.
        ensures bound { WritesAtMost result bytes.now }
        // Of some bytes it takes at least one.
        ensures some { TakesSome result bytes.now }
        // What it takes stands behind what the writer had, where that is known; a failure takes
        // nothing.
        ensures bytes { WriteAppends (contents self.old) (contents self.new) result bytes.now }
        // One more write is counted with its bytes, which wait for a flush, or a failure.
        ensures counts { CountsWrite (counts self.old) (counts self.new) result };

    /// Passes on what the writer still keeps back.
    fn flush(&mut self) -> Result<(), Failed>
        // What the writer has stays, where that is known.
        ensures bytes { Keeps (contents self.old) (contents self.new) }
        // After a flush no byte waits; one that fails is counted as a failure.
        ensures counts { CountsFlush (counts self.old) (counts self.new) result };
}
