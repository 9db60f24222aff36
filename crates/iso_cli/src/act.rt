//! What the command does.

ghost use Rattle.std.specs.Prelude.{◌≡◌, ◌≤◌, [], map};
ghost use Rattle.iso_host.specs.Counts.{stream, usage};
ghost use Rattle.iso_cli.specs.AtHand.{at_hand};
ghost use Rattle.iso_cli.specs.Echo.{EchoesOnStreams};
ghost use Rattle.iso_cli.specs.Check.{ChecksIfAsked};
ghost use Rattle.iso_cli.specs.Convert.{ConvertsIfAsked};
ghost use Rattle.iso_cli.specs.Jobs.{Performs};
ghost use Rattle.iso_cli.specs.Run.{RunsIfAsked};
ghost use Rattle.iso_cli.specs.Show.{ShowsIfAsked};
ghost use Rattle.iso_cli.specs.Tells.{TellsEnding};
ghost use Rattle.iso_cli.specs.Turns.{HasFailed};
ghost use Rattle.iso_cli.specs.Words.{AsksNothing};
ghost use Rattle.iso_cli.specs.Refused.{IsRefused};

use crate::check::check;
use crate::convert::convert;
use crate::echo::echo;
use crate::report::tell_report;
use crate::run::run;
use crate::show::show;
use crate::source::Source;
use crate::stop::{Stop, tell};
use crate::words::{Job, parse};
use iso_host::{Inlet, Outlet, Report};
use std::alloc::Global;

/// Does what the words ask. A host on a stream has a report at its end.
fn perform<S: Source, I: Inlet, O: Outlet>(
    alloc: Global,
    words: &[&str],
    source: &S,
    input: &mut I,
    output: &mut O,
) -> Result<Option<Report>, Stop>
    ensures { Performs (map (λ w. w.now) words.now)
        (at_hand (S.file source.now) (I.remaining input.old)
        (O.contents output.old) (O.contents output.new))
        (usage (I.counts input.old) (O.counts output.old))
        (usage (I.counts input.new) (O.counts output.new)) result }
{
    match parse(alloc, words)? {
        Job::Echo => echo(alloc, input, output)?,
        Job::Check { table } => check(alloc, table, source, output)?,
        Job::Show { table, clear } => show(alloc, table, clear, source, input, output)?,
        Job::Convert { from, to } => convert(alloc, from, to, source, input, output)?,
        Job::Run {
            table,
            accounts,
            header,
        } => return Ok(Some(run(alloc, table, accounts, header, source, input, output)?)),
    }
    Ok(None)
}

/// Does what the words ask, and gives the status: 0 done, 1 an input was refused, 2 the command line was, 3 a
/// device or memory failed. The words are those behind the program's name. A line on `faults` says why it stops.
pub fn act<S: Source, I: Inlet, O: Outlet, F: Outlet>(
    alloc: Global,
    words: &[&str],
    source: &S,
    input: &mut I,
    output: &mut O,
    faults: &mut F,
) -> u8
    // Without words, at status 0, the output grew by the message's lines, what a bystander
    // shouldn't read hidden, and by `ANSWER=` with the response that it decides itself, or `none`.
    ensures echo { words.now ≡ [] → result ≡ 0
        → EchoesOnStreams (I.remaining input.old) (O.contents output.old) (O.contents output.new) }
    // At status 0 of `check`, the output grew by the line of the table that is named: its version,
    // how many rows it has, and how many bytes a message may take.
    ensures check { result ≡ 0 → ChecksIfAsked (map (λ w. w.now) words.now) (S.file source.now)
        (O.contents output.old) (O.contents output.new) }
    // At status 0 of `show`, the output grew by the lines of the message that the input begins
    // with; without `--clear`, what a bystander shouldn't read is hidden.
    ensures show { result ≡ 0 → ShowsIfAsked (map (λ w. w.now) words.now) (S.file source.now)
        (I.remaining input.old) (O.contents output.old) (O.contents output.new) }
    // At status 0 of `convert`, the output grew by the plain spelling, under the second table, of
    // the message that the whole input spells under the first.
    ensures convert { result ≡ 0 → ConvertsIfAsked (map (λ w. w.now) words.now) (S.file source.now)
        (I.remaining input.old) (O.contents output.old) (O.contents output.new) }
    // At status 0 of `run`, the output grew by that for the bodies of the whole input, from an
    // empty journal, and the fault stream by the report that counts them.
    ensures run { result ≡ 0 → RunsIfAsked (map (λ w. w.now) words.now)
        (at_hand (S.file source.now) (I.remaining input.old)
        (O.contents output.old) (O.contents output.new))
        (F.contents faults.old) (F.contents faults.new) }
    // At status 1 the line of a stop is told: but for `run`, of the first thing that is refused, be
    // it a table, too long an input, or what the input holds.
    ensures refused { result ≡ 1 → IsRefused (map (λ w. w.now) words.now) (S.file source.now)
        (I.remaining input.old) (F.contents faults.old) (F.contents faults.new) }
    // At status 2 the words spell no job.
    ensures words { result ≡ 2 → AsksNothing (map (λ w. w.now) words.now) }
    // At status 3 the line of what failed is told, or the fault stream failed. `TooManyTurns` is
    // told of `run` alone, after exactly 100,000,000 reads and writes.
    ensures failed { result ≡ 3 → HasFailed (map (λ w. w.now) words.now)
        (usage (I.counts input.old) (O.counts output.old))
        (usage (I.counts input.new) (O.counts output.new))
        (stream (F.contents faults.old) (F.counts faults.old))
        (stream (F.contents faults.new) (F.counts faults.new)) }
    // The status is 0 to 3.
    ensures status { result ≤ 3 }
    // The fault stream got nothing, at status 0; or the report of `run` or a stop's line, with its
    // status; or no more than a front of one, with status 3.
    ensures told { TellsEnding (stream (F.contents faults.old) (F.counts faults.old))
        (stream (F.contents faults.new) (F.counts faults.new)) result }
{
    match perform(alloc, words, source, input, output) {
        Ok(None) => 0,
        Ok(Some(report)) => tell_report(alloc, faults, report),
        Err(stop) => tell(alloc, faults, stop),
    }
}
