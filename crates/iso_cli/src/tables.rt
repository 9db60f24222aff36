//! The tables that the command line names.

ghost use Rattle.std.specs.Prelude.{◌≡◌, ◌≢◌, IfErr, IfOk, IfSome};
ghost use Rattle.iso_table.specs.Document.{IsTableOf};
ghost use Rattle.iso_cli.specs.Stop.{status_of};
ghost use Rattle.iso_cli.specs.Tables.{IsNamed};
ghost use Rattle.iso_cli.specs.Refused.{HoldsNone, NamesNone};
ghost use Rattle.iso_cli.specs.declared.stop.Stop.TheVariants.{TooManyTurns, Words};

use crate::documents::document_at;
use crate::source::Source;
use crate::stop::Stop;
use iso_table::Table;
use std::alloc::Global;

/// The table of the document at a path.
fn table_at<S: Source>(alloc: Global, source: &S, path: &str) -> Result<Table, Stop>
    ensures ok { IfOk result
        (λ table. IfSome (S.file source.now path.now) (λ text. IsTableOf text table)) }
    ensures stop { IfErr result (λ stop. status_of stop ≡ 1
        → IfSome (S.file source.now path.now) (λ held. HoldsNone held stop)) }
    ensures words { IfErr result (λ stop. stop ≢ Words) }
    ensures turns { IfErr result (λ stop. stop ≢ TooManyTurns) }
{
    let text = document_at(alloc, source, path)?;
    Ok(Table::from_json(alloc, &text)?)
}

/// The table that a word names: `ascii87` and `bcd87` are built in, every other word is the path of a document.
pub fn table_named<S: Source>(alloc: Global, source: &S, word: &str) -> Result<Table, Stop>
    // Where it succeeds, the table is the one that the word names: a built-in one of 1987, or that
    // of the document at this path.
    ensures ok { IfOk result (IsNamed (S.file source.now) word.now) }
    // A stop of status 1 tells what is wrong with the document that the word names: it is too long,
    // is no JSON, or has this first fault as a table.
    ensures stop { IfErr result
        (λ stop. status_of stop ≡ 1 → NamesNone (S.file source.now) word.now stop) }
    // No stop says that the command line is refused.
    ensures words { IfErr result (λ stop. stop ≢ Words) }
    // No stop says that there were too many reads and writes.
    ensures turns { IfErr result (λ stop. stop ≢ TooManyTurns) }
{
    if word == "ascii87" {
        return Ok(Table::ascii87(alloc)?);
    }
    if word == "bcd87" {
        return Ok(Table::bcd87(alloc)?);
    }
    table_at(alloc, source, word)
}
