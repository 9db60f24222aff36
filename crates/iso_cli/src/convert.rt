//! A message from one table to another.

ghost use Rattle.std.specs.Prelude.{◌≡◌, ◌≢◌, IfErr, IfOk, OnOk, Some};
ghost use Rattle.iso_wire.specs.Reading.{message_at};
ghost use Rattle.iso_wire.specs.Spelling.{Converts};
ghost use Rattle.iso_cli.specs.AtHand.{at_hand};
ghost use Rattle.iso_cli.specs.Convert.{ConvertsOnStreams};
ghost use Rattle.iso_cli.specs.Stop.{status_of};
ghost use Rattle.iso_cli.specs.declared.stop.Stop.TheVariants.{Memory, TooManyTurns, Words};
ghost use Rattle.iso_cli.specs.Refused.{ConvertStops, rewrite_stop};

use crate::source::Source;
use crate::stop::Stop;
use crate::streaming::{read_input, write_output};
use crate::tables::table_named;
use iso_host::{Inlet, Outlet};
use iso_table::Table;
use iso_wire::{pack, unpack};
use std::alloc::Global;

/// The plain bytes, under the second table, of the message that the bytes spell under the first.
fn converted_bytes(alloc: Global, from: &Table, to: &Table, bytes: &[u8]) -> Result<Vec<u8>, Stop>
    ensures packed { IfOk result (λ packed. Converts from.now to.now bytes.now packed.items) }
    ensures stop { IfErr result (λ stop. stop ≢ Memory
        → rewrite_stop to.now bytes.now (message_at from.now bytes.now) ≡ Some stop) }
    ensures words { IfErr result (λ stop. stop ≢ Words) }
    ensures turns { IfErr result (λ stop. stop ≢ TooManyTurns) }
{
    let (message, used) = unpack(alloc, from, bytes)?;
    if used < bytes.len() {
        return Err(Stop::TrailingBytes);
    }
    Ok(pack(alloc, to, &message)?)
}

/// Reads the message that the whole input spells under one table, and writes it under the other.
pub fn convert<S: Source, I: Inlet, O: Outlet>(
    alloc: Global,
    from: &str,
    to: &str,
    source: &S,
    input: &mut I,
    output: &mut O,
) -> Result<(), Stop>
    // Where it succeeds, what was written is the plain spelling, under the second table, of the
    // message that the whole input spells under the first.
    ensures packed { OnOk result (ConvertsOnStreams (at_hand (S.file source.now)
        (I.remaining input.old) (O.contents output.old) (O.contents output.new)) from.now to.now) }
    // A stop of status 1 is the first fault there is: of the first table, of the second, of too
    // long an input, of reading the message, of bytes behind it, or of writing it anew.
    ensures stop { IfErr result (λ stop. status_of stop ≡ 1
        → ConvertStops (S.file source.now) from.now to.now (I.remaining input.old) stop) }
    // No stop says that the command line is refused.
    ensures words { IfErr result (λ stop. stop ≢ Words) }
    // No stop says that there were too many reads and writes.
    ensures turns { IfErr result (λ stop. stop ≢ TooManyTurns) }
{
    let from = table_named(alloc, source, from)?;
    let to = table_named(alloc, source, to)?;
    let bytes = read_input(alloc, input)?;
    let packed = converted_bytes(alloc, &from, &to, &bytes)?;
    write_output(output, &packed)
}
