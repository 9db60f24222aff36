//! The bytes of an input that are held.

ghost use Rattle.std.specs.Prelude.{◌≡◌, ◌≢◌, ◌+◌, ◌-◌, ◌≤◌, [], length, take, drop, slice_range, vec_len, IfOk, IfErr, OnOk, OnErr};
ghost use Rattle.std.specs.Io.KnownBytes.{Keeps, ReadConsumes};
ghost use Rattle.iso_input.specs.Window.{IsRead};

use crate::input_fault::InputFault;
use crate::interrupts::read_uninterrupted;
use std::alloc::{AllocError, Global};
use std::io::Read;

/// The most bytes of one read.
const BLOCK: usize = 65_536;

/// The bytes of an input that were read and not yet let go: those of the block from `start` to `end`.
#[derive(Drop)]
pub(crate) struct Held {
    block: Vec<u8>,
    start: usize,
    end: usize,
    ghost ordered: { start ≤ end },
    ghost in_bounds: { end ≤ vec_len block },
}

/// Reads once over the part of a block from a place on, which has the room for it.
fn read_at<R: Read>(input: &mut R, block: &mut Vec<u8>, at: usize) -> Result<usize, InputFault>
    requires { at + 65536 ≤ vec_len block.old }
    ensures len { vec_len block.new ≡ vec_len block.old }
    ensures front { take at block.new.items ≡ take at block.old.items }
    ensures bound { IfOk result (λ count. count ≤ 65536) }
    ensures fault { IfErr result (λ e. e ≢ InputFault.TooLong) }
    ensures bytes { ReadConsumes (R.remaining input.old) (R.remaining input.new) result
        (slice_range block.new.items at (at + 65536)) }
{
    let room = &mut block.as_mut_slice()[at..at + BLOCK];
    read_uninterrupted(input, room)
}

impl Held {
    /// No bytes. Takes no memory.
    pub(crate) fn new(alloc: Global) -> Held
        ensures { slice_range result.block.items result.start result.end ≡ [] }
    {
        Held {
            block: Vec::new(alloc),
            start: 0,
            end: 0,
        }
    }

    /// The bytes.
    pub(crate) fn bytes(&self) -> &[u8]
        ensures { result.now ≡ slice_range self.now.block.items self.now.start self.now.end }
    {
        let (start, end) = (self.start, self.end);
        let all = self.block.as_slice();
        &all[start..end]
    }

    /// Lets the first bytes go.
    pub(crate) fn drop_front(&mut self, count: usize)
        requires { self.old.start + count ≤ self.old.end }
        ensures { slice_range self.new.block.items self.new.start self.new.end
            ≡ drop count (slice_range self.old.block.items self.old.start self.old.end) }
    {
        self.start += count;
    }

    /// Makes room for a read behind the bytes. They move to the front of the block only into the room of at least as many
    /// that were let go.
    fn make_room(&mut self) -> Result<(), AllocError>
        ensures same { slice_range self.new.block.items self.new.start self.new.end
            ≡ slice_range self.old.block.items self.old.start self.old.end }
        ensures room { OnOk result (self.new.end + 65536 ≤ vec_len self.new.block) }
    {
        if self.block.len() - self.end >= BLOCK {
            return Ok(());
        }
        let size = self.end - self.start;
        if self.start >= BLOCK && self.start >= size {
            self.block.copy_within(self.start..self.end, 0);
            self.start = 0;
            self.end = size;
            return Ok(());
        }
        self.block.resize(self.end + BLOCK, 0)
    }

    /// Reads once behind the bytes. Gives how many bytes were read, which is none only at the end of the input.
    pub(crate) fn read_more<R: Read>(&mut self, input: &mut R) -> Result<usize, InputFault>
        ensures read { IfOk result
            (IsRead (slice_range self.old.block.items self.old.start self.old.end)
            (slice_range self.new.block.items self.new.start self.new.end)
            (R.remaining input.old) (R.remaining input.new)) }
        ensures unchanged { OnErr result
            (slice_range self.new.block.items self.new.start self.new.end
            ≡ slice_range self.old.block.items self.old.start self.old.end) }
        ensures fault { IfErr result (λ e. e ≢ InputFault.TooLong) }
        ensures kept { OnErr result (Keeps (R.remaining input.old) (R.remaining input.new)) }
    {
        self.make_room()?;
        let count = read_at(input, &mut self.block, self.end)?;
        self.end += count;
        Ok(count)
    }

    /// How many bytes there are.
    pub(crate) fn len(&self) -> usize
        ensures { result ≡ length (slice_range self.now.block.items self.now.start self.now.end) }
    {
        self.end - self.start
    }

    /// The bytes alone.
    pub(crate) fn into_bytes(self) -> Vec<u8>
        ensures { result.items ≡ slice_range self.block.items self.start self.end }
    {
        let Held {
            mut block,
            start,
            end,
        } = self;
        if start > 0 {
            block.copy_within(start..end, 0);
        }
        block.truncate(end - start);
        block
    }
}
