//! Inputs that are read whole.

ghost use Rattle.std.specs.Prelude.{◌≡◌, IfOk, IfSome};
ghost use Rattle.iso_jobs.specs.Inputs.{IsDecoded, Opens, most_of};

use crate::fault::Stop;
use crate::form::Form;
use crate::refusal::Trouble;
use iso_input::{HexFault, InputFault, append_hex, read_whole};
use std::alloc::Global;
use std::io::Read;

/// The most bytes of an input that is one message.
const MOST_BYTES: usize = 1_048_576;

/// The most characters of hexadecimal text.
const MOST_HEX: usize = 16_777_216;

/// An input that was read whole.
#[derive(Drop)]
pub(crate) enum Opened {
    /// The bytes that it has, or that its digits stand for.
    Bytes(Vec<u8>),
    /// Why there are none.
    Refused(Trouble),
}

/// The most characters of an input.
fn most_of(form: Form) -> usize
    ensures { result ≡ most_of form }
{
    if form.is_hex { MOST_HEX } else { MOST_BYTES }
}

/// The bytes that a text of hexadecimal digits stands for.
fn decoded(alloc: Global, text: &[u8]) -> Result<Opened, Stop>
    ensures { IfOk result (IsDecoded text.now) }
{
    let mut bytes = Vec::new(alloc);
    match append_hex(text, &mut bytes) {
        Ok(()) => Ok(Opened::Bytes(bytes)),
        Err(HexFault::Memory) => Err(Stop::Memory),
        Err(fault) => Ok(Opened::Refused(Trouble::Hex(fault))),
    }
}

/// Reads an input whole, and the digits of a text.
pub(crate) fn open_whole<R: Read + Drop>(
    alloc: Global,
    form: Form,
    mut input: R,
) -> Result<Opened, Stop>
    ensures { IfOk result (λ opened. IfSome (R.remaining input) (λ all. Opens form all opened)) }
{
    let most = most_of(form);
    let bytes = match read_whole(alloc, &mut input, most) {
        Ok(bytes) => bytes,
        Err(InputFault::TooLong) => return Ok(Opened::Refused(Trouble::InputTooLong(most))),
        Err(InputFault::Memory) => return Err(Stop::Memory),
        Err(InputFault::Read) => return Err(Stop::Read),
    };
    if form.is_hex {
        return decoded(alloc, &bytes);
    }
    Ok(Opened::Bytes(bytes))
}
