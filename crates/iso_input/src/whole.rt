//! An input that is read whole.

ghost use Rattle.std.specs.Prelude.{◌≡◌, ◌<◌, ◌≤◌, length, IfOk, OnOk, IfSome, IsErrOf, vec_len};
ghost use Rattle.std.specs.Io.KnownBytes.{Consumes, IsAtEnd};

use crate::held::Held;
use crate::input_fault::InputFault;
use std::alloc::Global;
use std::io::Read;

/// All bytes of an input that has at most `most`. What was read before a fault is lost. A read that the system interrupts is
/// made again, up to 1,000 times.
pub fn read_whole<R: Read>(alloc: Global, input: &mut R, most: usize) -> Result<Vec<u8>, InputFault>
    // At `Ok` the bytes are those that the input gave, in its order, where its bytes are known.
    ensures bytes { IfOk result
        (λ bytes. Consumes (R.remaining input.old) (R.remaining input.new) bytes.items) }
    // At `Ok` the input is at its end: no byte that is known is left.
    ensures end { OnOk result (IsAtEnd (R.remaining input.new)) }
    // At `Ok` there are at most `most` bytes.
    ensures bound { IfOk result (λ bytes. length bytes.items ≤ most) }
    // `TooLong` comes only where the input had more than `most` bytes, if its bytes are known.
    ensures too_long { IsErrOf result InputFault.TooLong
        → IfSome (R.remaining input.old) (λ all. most < length all) }
{
    let mut held = Held::new(alloc);
    while held.len() <= most {
        match held.read_more(input) {
            Ok(0) => return Ok(held.into_bytes()),
            Ok(_) => {}
            Err(fault) => return Err(fault),
        }
    }
    Err(InputFault::TooLong)
}
