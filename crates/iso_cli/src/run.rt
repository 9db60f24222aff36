//! The issuer host on a stream: frames in, the frames of their responses out.

ghost use Rattle.std.specs.Prelude.{◌≡◌, ◌≢◌, IfErr, IfOk, IfSome};
ghost use Rattle.iso_issuer.specs.Document.{ListsAccounts};
ghost use Rattle.iso_host.specs.Counts.{usage};
ghost use Rattle.iso_host.specs.Serving.{UsesAllTurns, WithinTurns};
ghost use Rattle.iso_table.specs.HostReady.{IsHostReady};
ghost use Rattle.iso_cli.specs.AtHand.{at_hand};
ghost use Rattle.iso_cli.specs.Run.{RunsOnStreams};
ghost use Rattle.iso_cli.specs.Tables.{IsNamed};
ghost use Rattle.iso_cli.specs.Turns.{most_turns};
ghost use Rattle.iso_cli.specs.declared.stop.Stop.TheVariants.{TooManyTurns, Words};

use crate::documents::document_at;
use crate::source::Source;
use crate::stop::Stop;
use crate::tables::table_named;
use iso_host::{Inlet, Outlet, Report, serve};
use iso_issuer::{Accounts, Issuer, MOST_ENTRIES};
use iso_table::Table;
use iso_wire::Header;
use std::alloc::Global;

/// The most reads and writes of a stream.
pub const MOST_TURNS: u64 = 100_000_000;

/// The table that a word names, if an issuer host can serve under it.
pub fn host_table<S: Source>(alloc: Global, source: &S, word: &str) -> Result<Table, Stop>
    // Where it succeeds, the table is the one that the word names: a built-in one, or that of the
    // document at this path.
    ensures named { IfOk result (IsNamed (S.file source.now) word.now) }
    // Where it succeeds, an issuer host can serve under the table.
    ensures ready { IfOk result IsHostReady }
    // No stop says that the command line is refused.
    ensures words { IfErr result (λ stop. stop ≢ Words) }
    // No stop says that there were too many reads and writes.
    ensures turns { IfErr result (λ stop. stop ≢ TooManyTurns) }
{
    let table = table_named(alloc, source, word)?;
    table.host_ready()?;
    Ok(table)
}

/// The accounts of the document at a path.
pub fn accounts_at<S: Source>(alloc: Global, source: &S, path: &str) -> Result<Accounts, Stop>
    // Where it succeeds, the accounts are those that the document at the path lists.
    ensures accounts { IfOk result
        (λ accounts. IfSome (S.file source.now path.now) (λ text. ListsAccounts text accounts)) }
    // No stop says that the command line is refused.
    ensures words { IfErr result (λ stop. stop ≢ Words) }
    // No stop says that there were too many reads and writes.
    ensures turns { IfErr result (λ stop. stop ≢ TooManyTurns) }
{
    let text = document_at(alloc, source, path)?;
    Ok(Accounts::from_json(alloc, &text)?)
}

/// Reads frames to the end of the input, and writes the frame of each response. The journal is empty at first.
pub fn run<S: Source, I: Inlet, O: Outlet>(
    alloc: Global,
    table: &str,
    accounts: &str,
    header: Header,
    source: &S,
    input: &mut I,
    output: &mut O,
) -> Result<Report, Stop>
    // Where it succeeds, the whole input is frames; what was written is the host's output for their
    // bodies, from an empty journal, and the report counts these bodies by kind.
    ensures output { IfOk result (RunsOnStreams (at_hand (S.file source.now) (I.remaining input.old)
        (O.contents output.old) (O.contents output.new)) table.now accounts.now header) }
    // No stop says that the command line is refused.
    ensures words { IfErr result (λ stop. stop ≢ Words) }
    // However it ends, the reads and writes together are at most 100,000,000. They are too many only after so many.
    ensures within { WithinTurns (usage (I.counts input.old) (O.counts output.old))
        (usage (I.counts input.new) (O.counts output.new)) most_turns }
    // It stops for too many turns only after exactly 100,000,000 reads and writes, which moved at
    // least as many bytes.
    ensures turns { IfErr result
        (λ stop. stop ≡ TooManyTurns → UsesAllTurns
        (usage (I.counts input.old) (O.counts output.old))
        (usage (I.counts input.new) (O.counts output.new)) most_turns) }
{
    let table = host_table(alloc, source, table)?;
    let accounts = accounts_at(alloc, source, accounts)?;
    let mut issuer = Issuer::new(accounts, MOST_ENTRIES);
    match serve(
        alloc,
        &table,
        header,
        &mut issuer,
        input,
        output,
        MOST_TURNS,
    ) {
        Ok(report) => Ok(report),
        Err(fault) => Err(Stop::from(fault)),
    }
}
