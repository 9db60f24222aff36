//! One read of an input.

ghost use Rattle.std.specs.Prelude.{◌≢◌, IfErr};
ghost use Rattle.std.specs.Io.{ReadsAtMost};
ghost use Rattle.std.specs.Io.KnownBytes.{ReadConsumes};

use crate::input_fault::InputFault;
use std::io::{ErrorKind, Read};

/// The most times that a read is made which the system interrupts each time.
const MOST_TRIES: u32 = 1_000;

/// One read, made again where the system interrupted it.
pub(crate) fn read_uninterrupted<R: Read>(
    input: &mut R,
    buffer: &mut [u8],
) -> Result<usize, InputFault>
    ensures bound { ReadsAtMost result buffer.new }
    ensures fault { IfErr result (λ e. e ≢ InputFault.TooLong) }
    ensures bytes { ReadConsumes (R.remaining input.old) (R.remaining input.new) result buffer.new }
{
    for _ in 0..MOST_TRIES {
        match input.read(buffer) {
            Ok(count) => return Ok(count),
            Err(error) if error.kind() == ErrorKind::Interrupted => {}
            Err(_) => return Err(InputFault::Read),
        }
    }
    Err(InputFault::Read)
}
