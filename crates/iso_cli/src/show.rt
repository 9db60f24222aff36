//! The lines of a message.

ghost use Rattle.std.specs.Prelude.{◌≡◌, ◌≢◌, IfErr, IfOk, OnOk, Some};
ghost use Rattle.iso_wire.specs.Reading.{message_at};
ghost use Rattle.iso_cli.specs.AtHand.{at_hand};
ghost use Rattle.iso_cli.specs.Show.{Shows, ShowsOnStreams};
ghost use Rattle.iso_cli.specs.Stop.{status_of};
ghost use Rattle.iso_cli.specs.declared.stop.Stop.TheVariants.{Memory, TooManyTurns, Words};
ghost use Rattle.iso_cli.specs.Refused.{ShowStops, read_stop};

use crate::describe::shown_lines;
use crate::source::Source;
use crate::stop::Stop;
use crate::streaming::{read_input, write_output};
use crate::tables::table_named;
use iso_host::{Inlet, Outlet};
use iso_table::Table;
use iso_wire::unpack;
use std::alloc::Global;

/// The lines of the message that the bytes begin with.
fn first_lines(alloc: Global, table: &Table, clear: bool, bytes: &[u8]) -> Result<Vec<u8>, Stop>
    ensures lines { IfOk result (λ lines. Shows table.now clear bytes.now lines.items) }
    ensures stop { IfErr result
        (λ stop. stop ≢ Memory → read_stop (message_at table.now bytes.now) ≡ Some stop) }
    ensures words { IfErr result (λ stop. stop ≢ Words) }
    ensures turns { IfErr result (λ stop. stop ≢ TooManyTurns) }
{
    let (message, used) = unpack(alloc, table, bytes)?;
    Ok(shown_lines(alloc, table, &message, used, bytes.len(), clear)?)
}

/// Describes the message that the input begins with. Later bytes are left.
pub fn show<S: Source, I: Inlet, O: Outlet>(
    alloc: Global,
    table: &str,
    clear: bool,
    source: &S,
    input: &mut I,
    output: &mut O,
) -> Result<(), Stop>
    // Where it succeeds, what was written is the lines of the message that the input begins with;
    // unless `clear` is asked for, what a bystander shouldn't read is hidden.
    ensures lines { OnOk result (ShowsOnStreams (at_hand (S.file source.now) (I.remaining input.old)
        (O.contents output.old) (O.contents output.new)) table.now clear) }
    // A stop of status 1 is the first fault there is: of the table's document, of too long an
    // input, or of reading the message that it begins with.
    ensures stop { IfErr result (λ stop. status_of stop ≡ 1
        → ShowStops (S.file source.now) table.now (I.remaining input.old) stop) }
    // No stop says that the command line is refused.
    ensures words { IfErr result (λ stop. stop ≢ Words) }
    // No stop says that there were too many reads and writes.
    ensures turns { IfErr result (λ stop. stop ≢ TooManyTurns) }
{
    let table = table_named(alloc, source, table)?;
    let bytes = read_input(alloc, input)?;
    let lines = first_lines(alloc, &table, clear, &bytes)?;
    write_output(output, &lines)
}
