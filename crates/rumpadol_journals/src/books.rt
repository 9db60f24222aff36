//! What is told of a journal.

ghost use Rattle.std.specs.Prelude.{◌≡◌, ◌≤◌, IfOk};

mod sentences;

use crate::accounts::accounts_at;
use crate::keeper::Keeper;
use crate::words::{BooksJob, BooksWords};
use iso_books::{Condition, Replayed, Wanted, account_rows, append_balances, replay, survey, tell};
use iso_issuer::Issuer;
use rumpadol_tables::{Source, Stop, write_output};
use sentences::{cut, damaged, stopped, torn_line, whole_line};
use std::alloc::Global;
use std::io::Write;

/// How many orders a journal has.
#[derive(Clone, Copy, Debug, PartialEq, Eq)]
pub struct Surveyed {
    /// So many.
    pub orders: usize,
    /// Whether a crash left something of another one behind them.
    pub is_torn: bool,
}

/// Shows the entries of a journal, or gives them to another program.
fn show<K: Keeper, O: Write>(
    alloc: Global,
    words: BooksWords<'_>,
    keeper: &K,
    output: &mut O,
) -> Result<(), Stop> {
    let records = keeper.records(alloc, words.file)?;
    match tell(alloc, records, words.form, words.is_clear, output) {
        Ok(Condition::Whole(_) | Condition::Torn(_)) => Ok(()),
        Ok(Condition::Damaged(place)) => Err(damaged(alloc, words.file, place, keeper.cure())),
        Err(fault) => Err(stopped(alloc, words.file, fault)),
    }
}

/// Refuses a journal that ends behind so many orders, where a host always leaves room for a record more.
fn not_cut<K: Keeper>(
    alloc: Global,
    path: &str,
    keeper: &K,
    surveyed: Surveyed,
) -> Result<Surveyed, Stop> {
    if keeper.is_cut(path, surveyed.orders) {
        return Err(cut(alloc, path, surveyed.orders));
    }
    Ok(surveyed)
}

/// How many orders a journal has. One that is cut, is damaged or can't be read is refused.
pub fn survey_at<K: Keeper>(alloc: Global, path: &str, keeper: &K) -> Result<Surveyed, Stop> {
    let records = keeper.records(alloc, path)?;
    let (orders, is_torn) = match survey(alloc, records, &Wanted::Any) {
        Ok(Condition::Whole(orders)) => (orders, false),
        Ok(Condition::Torn(orders)) => (orders, true),
        Ok(Condition::Damaged(place)) => return Err(damaged(alloc, path, place, keeper.cure())),
        Err(fault) => return Err(stopped(alloc, path, fault)),
    };
    not_cut(alloc, path, keeper, Surveyed { orders, is_torn })
}

/// The line of a journal with so many orders, which is whole or torn behind them.
fn line_of(alloc: Global, path: &str, surveyed: Surveyed) -> Result<String, Stop> {
    if surveyed.is_torn {
        return Ok(torn_line(alloc, path, surveyed.orders)?);
    }
    Ok(whole_line(alloc, path, surveyed.orders)?)
}

/// Tells whether a journal is whole.
fn check_alone<K: Keeper, O: Write>(
    alloc: Global,
    words: BooksWords<'_>,
    keeper: &K,
    output: &mut O,
) -> Result<(), Stop> {
    let surveyed = survey_at(alloc, words.file, keeper)?;
    let line = line_of(alloc, words.file, surveyed)?;
    write_output(output, line.as_bytes())
}

/// What a journal holds, each answer decided again.
fn replayed<K: Keeper, S: Source>(
    alloc: Global,
    words: BooksWords<'_>,
    accounts: &str,
    keeper: &K,
    source: &S,
) -> Result<Replayed, Stop> {
    let (accounts, heading) = accounts_at(alloc, source, accounts)?;
    let records = keeper.records(alloc, words.file)?;
    match replay(alloc, records, &heading, accounts) {
        Ok(found) => Ok(found),
        Err(fault) => Err(stopped(alloc, words.file, fault)),
    }
}

/// Tells whether a journal is whole, and whether each answer in it is the one that a host gives again.
fn check_answers<K: Keeper, S: Source, O: Write>(
    alloc: Global,
    words: BooksWords<'_>,
    accounts: &str,
    keeper: &K,
    source: &S,
    output: &mut O,
) -> Result<(), Stop> {
    let (issuer, is_torn) = match replayed(alloc, words, accounts, keeper, source)? {
        Replayed::Whole(issuer) => (issuer, false),
        Replayed::Torn(issuer) => (issuer, true),
        Replayed::Damaged(place) => {
            return Err(damaged(alloc, words.file, place, keeper.cure()));
        }
    };
    let orders = issuer.len() as usize;
    let surveyed = not_cut(alloc, words.file, keeper, Surveyed { orders, is_torn })?;
    let line = line_of(alloc, words.file, surveyed)?;
    write_output(output, line.as_bytes())
}

/// Tells what is on each account of an issuer.
fn tell_balances<O: Write>(
    alloc: Global,
    words: BooksWords<'_>,
    issuer: &Issuer,
    output: &mut O,
) -> Result<(), Stop> {
    let rows = account_rows(alloc, issuer)?;
    let mut text = Vec::new(alloc);
    append_balances(&rows, words.form, words.is_clear, &mut text)?;
    write_output(output, &text)
}

/// Tells what is on each account after the orders of a journal.
fn balance<K: Keeper, S: Source, O: Write>(
    alloc: Global,
    words: BooksWords<'_>,
    accounts: &str,
    keeper: &K,
    source: &S,
    output: &mut O,
) -> Result<(), Stop> {
    match replayed(alloc, words, accounts, keeper, source)? {
        Replayed::Whole(issuer) => tell_balances(alloc, words, &issuer, output),
        Replayed::Torn(issuer) => tell_balances(alloc, words, &issuer, output),
        Replayed::Damaged(place) => Err(damaged(alloc, words.file, place, keeper.cure())),
    }
}

/// Does what is asked about a journal.
fn perform_one<K: Keeper, S: Source, O: Write>(
    alloc: Global,
    job: BooksJob<'_>,
    keeper: &K,
    source: &S,
    output: &mut O,
) -> Result<(), Stop> {
    match job {
        BooksJob::Show(words) => show(alloc, words, keeper, output),
        BooksJob::Check(words, None) => check_alone(alloc, words, keeper, output),
        BooksJob::Check(words, Some(accounts)) => {
            check_answers(alloc, words, accounts, keeper, source, output)
        }
        BooksJob::Balance(words, accounts) => {
            balance(alloc, words, accounts, keeper, source, output)
        }
    }
}

/// Does what is asked about a journal, and gives the status 0. The document of its accounts is a file of the source.
pub fn perform_books<K: Keeper, S: Source, O: Write>(
    alloc: Global,
    job: BooksJob<'_>,
    keeper: &K,
    source: &S,
    output: &mut O,
) -> Result<u8, Stop>
    // Where it ends with a status, it is 0 or 1.
    ensures { IfOk result (λ status. status ≤ 1) }
{
    perform_one(alloc, job, keeper, source, output)?;
    Ok(0)
}
