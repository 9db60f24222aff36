//! A whole input.
ghost use Rattle.std.specs.Prelude.{◌≡◌, ◌≢◌, ◌+◌, ◌≤◌, ◌<◌, IfErr, IfOk, IfSome, OnOk, IsErrOf, vec_len, length};
ghost use Rattle.std.specs.Io.KnownBytes.{Appends, Consumes, IsAtEnd};
ghost use Rattle.iso_cli.specs.Stop.{status_of};
ghost use Rattle.iso_cli.specs.Streaming.{ReadCause};
ghost use Rattle.iso_cli.specs.Refused.{IsTooLong};
ghost use Rattle.iso_cli.specs.Turns.{most_reads};
ghost use Rattle.iso_cli.specs.declared.stop.Stop.TheVariants.{TooManyTurns, Words, Write};

use crate::source::MOST_BYTES;
use crate::stop::Stop;
use iso_host::{Failed, Inlet, Outlet, write_all};
use std::alloc::Global;

/// Why an input isn't read whole.
#[derive(Clone, Copy, PartialEq, Eq, Drop)]
pub enum InputFault {
    /// The reader failed.
    Read,
    /// It has more than 1,048,576 bytes.
    TooLong,
    /// Its end didn't come in the reads that it was given.
    TooManyTurns,
    /// There is no memory for its bytes.
    Memory,
}

/// Reads an input of at most 1,048,576 bytes to its end, in at most `turns` reads.
///
/// The last of the reads is the one that gives no byte. What was read before a fault is lost.
pub fn read_all<I: Inlet>(alloc: Global, input: &mut I, turns: u32) -> Result<Vec<u8>, InputFault>
    // The bytes that are given are those that were taken off the front of the input.
    ensures bytes { IfOk result
        (λ bytes. Consumes (I.remaining input.old) (I.remaining input.new) bytes.items) }
    // Where it succeeds, nothing of the input is left.
    ensures end { OnOk result (IsAtEnd (I.remaining input.new)) }
    // The bytes that are given are at most 1,048,576.
    ensures bound { IfOk result (λ bytes. vec_len bytes ≤ 1048576) }
    // An input is told to be too long only where it has more than 1,048,576 bytes.
    ensures too_long { IsErrOf result InputFault.TooLong
        → IfSome (I.remaining input.old) (λ all. 1048576 < length all) }
    // `Read` is told only where a read failed, and all else only where none did; `TooManyTurns`
    // only after all the reads, which gave at least as many bytes.
    ensures cause { ReadCause (I.counts input.old) (I.counts input.new) turns result }
    // It reads at most `turns` times, however it ends.
    ensures reads { (I.counts input.new).calls ≤ (I.counts input.old).calls + turns }
{
    let mut bytes = Vec::new(alloc);
    let mut chunk = [0u8; 4096];
    for _ in 0..turns {
        let Ok(count) = input.read(&mut chunk) else {
            return Err(InputFault::Read);
        };
        if count == 0 {
            return Ok(bytes);
        }
        if count > MOST_BYTES as usize - bytes.len() {
            return Err(InputFault::TooLong);
        }
        if bytes.extend_from_slice(&chunk[..count]).is_err() {
            return Err(InputFault::Memory);
        }
    }
    Err(InputFault::TooManyTurns)
}

/// The most reads that the command makes of one input.
const MOST_READS: u32 = 2_000_000;

/// Reads the command's input to its end.
pub fn read_input<I: Inlet>(alloc: Global, input: &mut I) -> Result<Vec<u8>, Stop>
    // Where it succeeds, the bytes are the whole input.
    ensures bytes { IfOk result
        (λ bytes. IfSome (I.remaining input.old) (λ all. all ≡ bytes.items)) }
    // The bytes that are given are at most 1,048,576.
    ensures bound { IfOk result (λ bytes. vec_len bytes ≤ 1048576) }
    // A stop of status 1 is that of too long an input, which has more than 1,048,576 bytes.
    ensures stop { IfErr result
        (λ stop. status_of stop ≡ 1 → IsTooLong (I.remaining input.old) stop) }
    // No stop says that the command line is refused.
    ensures words { IfErr result (λ stop. stop ≢ Words) }
    // It takes at most 2,000,000 reads. They always suffice: each but the last gives a byte, and more bytes are too long.
    ensures reads { (I.counts input.new).calls ≤ (I.counts input.old).calls + most_reads }
    // No stop says that there were too many reads.
    ensures turns { IfErr result (λ stop. stop ≢ TooManyTurns) }
{
    match read_all(alloc, input, MOST_READS) {
        Ok(bytes) => Ok(bytes),
        Err(fault) => Err(Stop::from(fault)),
    }
}

/// Writes the command's output, and flushes it.
pub fn write_output<O: Outlet>(output: &mut O, bytes: &[u8]) -> Result<(), Stop>
    // Where it succeeds, the output has grown by exactly these bytes.
    ensures written { OnOk result
        (Appends (O.contents output.old) (O.contents output.new) bytes.now) }
    // Every stop is that of an output that failed.
    ensures stop { IfErr result (λ stop. stop ≡ Write) }
{
    match write_all(output, bytes) {
        Ok(()) => Ok(()),
        Err(Failed) => Err(Stop::Write),
    }
}
