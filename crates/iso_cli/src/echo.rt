//! The echo: one message in, its lines and its answer out.

ghost use Rattle.std.specs.Prelude.{◌≡◌, ◌≢◌, ◌++◌, IfErr, IfOk, OnOk, Some};
ghost use Rattle.iso_wire.specs.Reading.{message_at};
ghost use Rattle.iso_order.specs.Verdict.{verdict};
ghost use Rattle.iso_cli.specs.Echo.{Answers, Echoes, EchoesOnStreams, answer_line};
ghost use Rattle.iso_cli.specs.Stop.{status_of};
ghost use Rattle.iso_cli.specs.declared.stop.Stop.TheVariants.{Memory, TooManyTurns, Words};
ghost use Rattle.iso_cli.specs.Refused.{EchoStops, echo_stop, reply_stop};

use crate::describe::shown_lines;
use crate::stop::Stop;
use crate::streaming::{read_input, write_output};
use iso_host::{Inlet, Outlet};
use iso_order::{Answer, Verdict, order_of, respond};
use iso_table::Table;
use iso_wire::{Message, pack, unpack};
use std::alloc::{AllocError, Global};

/// The bytes of the response where the message itself decides it, else `none`.
fn answer_bytes(alloc: Global, table: &Table, message: &Message) -> Result<Vec<u8>, Stop>
    ensures answer { IfOk result (λ answer. Answers table.now message.now answer.items) }
    ensures stop { IfErr result (λ stop. stop ≢ Memory
        → reply_stop table.now message.now (verdict message.now) ≡ Some stop) }
    ensures words { IfErr result (λ stop. stop ≢ Words) }
    ensures turns { IfErr result (λ stop. stop ≢ TooManyTurns) }
{
    let Verdict::Reply(code) = order_of(message) else {
        return Ok(Vec::from_slice(alloc, b"none")?);
    };
    let response = respond(alloc, message, &Answer::only(code))?;
    Ok(pack(alloc, table, &response)?)
}

/// Appends `ANSWER=`, the answer and a newline.
fn push_answer(answer: &[u8], text: &mut Vec<u8>) -> Result<(), AllocError>
    ensures { OnOk result (text.new.items ≡ text.old.items ++ answer_line answer.now) }
{
    text.extend_from_slice(b"ANSWER=")?;
    text.extend_from_slice(answer)?;
    text.extend_from_slice(b"\n")
}

/// The lines of the message that the bytes begin with, and the line of its answer.
fn echo_text(alloc: Global, table: &Table, bytes: &[u8]) -> Result<Vec<u8>, Stop>
    ensures text { IfOk result (λ text. Echoes table.now bytes.now text.items) }
    ensures stop { IfErr result
        (λ stop. stop ≢ Memory → echo_stop table.now (message_at table.now bytes.now) ≡ Some stop) }
    ensures words { IfErr result (λ stop. stop ≢ Words) }
    ensures turns { IfErr result (λ stop. stop ≢ TooManyTurns) }
{
    let (message, used) = unpack(alloc, table, bytes)?;
    let mut text = shown_lines(alloc, table, &message, used, bytes.len(), false)?;
    let answer = answer_bytes(alloc, table, &message)?;
    push_answer(&answer, &mut text)?;
    Ok(text)
}

/// Reads the message that the input begins with, under the 1987 table in ASCII, and writes its lines and the
/// line of its answer. Later bytes are left.
pub fn echo<I: Inlet, O: Outlet>(alloc: Global, input: &mut I, output: &mut O) -> Result<(), Stop>
    // Where it succeeds, what was written is the message's lines, what a bystander shouldn't read
    // hidden, and then `ANSWER=` with the response that the message decides, or `none`.
    ensures text { OnOk result
        (EchoesOnStreams (I.remaining input.old) (O.contents output.old) (O.contents output.new)) }
    // A stop of status 1 is the first fault there is: of too long an input, of reading the message
    // that it begins with, or of writing the response.
    ensures stop { IfErr result
        (λ stop. status_of stop ≡ 1 → EchoStops (I.remaining input.old) stop) }
    // No stop says that the command line is refused.
    ensures words { IfErr result (λ stop. stop ≢ Words) }
    // No stop says that there were too many reads and writes.
    ensures turns { IfErr result (λ stop. stop ≢ TooManyTurns) }
{
    let bytes = read_input(alloc, input)?;
    let table = Table::ascii87(alloc)?;
    let text = echo_text(alloc, &table, &bytes)?;
    write_output(output, &text)
}
