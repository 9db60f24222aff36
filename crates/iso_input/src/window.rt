//! An input that is read block by block.

ghost use Rattle.std.specs.Prelude.{◌≡◌, ◌≢◌, ◌≤◌, ◌++◌, ℕ, List, [], length, drop, false, IfOk, IfErr, IfSome, OnErr, option_map};
ghost use Rattle.std.specs.Io.KnownBytes.{Keeps};
ghost use Rattle.iso_input.specs.Window.{Grows};

use crate::held::Held;
use crate::input_fault::InputFault;
use std::alloc::Global;
use std::io::Read;
use std::marker::Model;

/// An input that is read block by block, and those of its bytes that are held. A contract sees the held bytes, and all that
/// are held or still to come, where those are known. A read that the system interrupts is made again, up to 1,000 times.
#[derive(Drop)]
pub struct Window<R: Read> {
    held: Held,
    input: R,
}

impl<R: Read> Model for Window<R> {
    ghost use Rattle.std.specs.Prelude.{slice_range};
    ghost use Rattle.std.specs.Io.KnownBytes.{prepend_known};
    ghost use Rattle.iso_input.specs.Window.{Ahead};

    ghost Value = { Ahead };

    ghost view = { λ w. record {
      held = slice_range w.held.block.items w.held.start w.held.end;
      ahead = prepend_known (slice_range w.held.block.items w.held.start w.held.end)
          (R.remaining w.input);
    } };
}

impl<R: Read + Drop> Window<R> {
    /// A window that holds nothing yet. Takes no memory, and reads nothing.
    pub fn new(alloc: Global, input: R) -> Window<R>
        // The window holds no byte yet.
        ensures held { result.held ≡ [] }
        // All of the input is ahead, where its bytes are known.
        ensures ahead { result.ahead ≡ R.remaining input }
    {
        Window {
            held: Held::new(alloc),
            input,
        }
    }

    /// The bytes that are held.
    pub fn held(&self) -> &[u8]
        // The result is exactly the bytes that the window holds.
        ensures held { result.now ≡ self.now.held }
        // The result is the first ones of all bytes that are still to be had, where these are
        // known.
        ensures front { IfSome self.now.ahead
            (λ all. (rest : List ℕ) × (all ≡ result.now ++ rest)) }
    {
        self.held.bytes()
    }

    /// Reads a block more, of at most 65,536 bytes, behind the held ones; false where the input has ended. On a fault the
    /// held bytes are as before, and nothing of the input is lost.
    pub fn read_more(&mut self) -> Result<bool, InputFault>
        // At `Ok` a piece of at most 65,536 bytes stands behind the held ones, and it has a byte
        // exactly where the answer is true.
        ensures grown { IfOk result (Grows self.old.held self.new.held) }
        // What is held and still to come stays the same, where it is known, after a fault too.
        ensures kept { Keeps self.old.ahead self.new.ahead }
        // Where the answer is false, all that is ahead is held: the input has ended.
        ensures end { IfOk result
            (λ more. more ≡ false → IfSome self.new.ahead (λ all. all ≡ self.new.held)) }
        // The fault is never `TooLong`.
        ensures fault { IfErr result (λ e. e ≢ InputFault.TooLong) }
        // After a fault exactly the bytes are held that were held before.
        ensures unchanged { OnErr result (self.new.held ≡ self.old.held) }
    {
        let count = self.held.read_more(&mut self.input)?;
        Ok(count > 0)
    }

    /// Lets the first held bytes go. Takes no memory.
    pub fn drop_front(&mut self, count: usize)
        // No more bytes are let go than are held.
        requires { count ≤ length self.old.held }
        // The first bytes, so many, are held no more, and the others are.
        ensures held { self.new.held ≡ drop count self.old.held }
        // Of all that is ahead the first bytes, so many, are gone, and nothing else is.
        ensures ahead { self.new.ahead ≡ option_map (drop count) self.old.ahead }
    {
        self.held.drop_front(count);
    }
}
