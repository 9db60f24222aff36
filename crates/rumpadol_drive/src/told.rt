//! What a run tells at its end.

use crate::asked::Asked;
use crate::in_question::messages_of;
use crate::ready::Ready;
use iso_drive::Driver;
use iso_report::{Report, Settings};
use iso_restarts::NoteLog;
use iso_table::Table;
use iso_tally::{AccountBooks, Declined, Doubt, Ended, Latencies, Tally, Verdict};
use iso_traffic::Outcome;
use rumpadol_buying::Buyers;
use rumpadol_drive_words::{DriveWords, header_word};
use std::alloc::{AllocError, Global};

/// How many accounts on which both ends differ are looked into.
const MOST_TOLD: usize = 20;

/// What happened in a run.
#[derive(Drop)]
pub(crate) struct Happened {
    pub tally: Tally,
    pub latencies: Latencies,
    pub outcome: Outcome,
}

/// What the run was to do.
fn settings_of<'a>(words: &DriveWords<'a>, asked: &Asked, most_open: usize) -> Settings<'a> {
    Settings {
        address: words.address,
        table: words.table,
        header: header_word(words.header),
        acquirer: words.acquirer,
        peers: words.peers,
        most_open,
        rate: words.rate,
        patience: words.patience,
        lose: asked.faults.lose,
        repeat: asked.faults.repeat,
        cut: asked.faults.cut,
        delay: asked.faults.delay,
        seed: words.seed,
    }
}

/// The transactions of a driver that were refused, by their codes.
fn declined_by<L: NoteLog>(
    alloc: Global,
    driver: &Driver<L>,
    all: usize,
) -> Result<Vec<Declined>, AllocError> {
    let mut declined = Vec::new(alloc);
    let mut found = 0usize;
    for code in 0..100u8 {
        if found < all {
            let count = driver.declined_with(code);
            found = found.saturating_add(count);
            if count > 0 {
                declined.push(Declined { code, count })?;
            }
        }
    }
    Ok(declined)
}

/// How far the transactions of a driver got.
fn ended_of<L: NoteLog>(alloc: Global, driver: &Driver<L>) -> Result<Ended, AllocError> {
    let counts = driver.counts();
    Ok(Ended {
        approved: counts.approved,
        declined: declined_by(alloc, driver, counts.declined)?,
        reversed: counts.reversed,
        open: driver.open(),
    })
}

/// What was on the account at a place before the first purchase: what the host told then, or what its document says.
fn opening_at(buyers: &Buyers, before: &[Option<i64>], place: usize) -> i64 {
    match before.get(place).copied() {
        Some(Some(told)) => told,
        Some(None) | None => buyers.openings.get(place).copied().unwrap_or(0),
    }
}

/// What was taken from the account at a place by what isn't a purchase.
fn moved_at(outcome: &Outcome, place: usize) -> u128 {
    outcome.moved.get(place).copied().unwrap_or(0)
}

/// What both ends say of each account.
fn books_of<L: NoteLog>(
    alloc: Global,
    buyers: &Buyers,
    driver: &Driver<L>,
    outcome: &Outcome,
) -> Result<Vec<AccountBooks>, AllocError> {
    let mut books = Vec::new(alloc);
    for (place, buyer) in buyers.buyers.iter().enumerate() {
        books.push(AccountBooks {
            pan: buyer.pan,
            opening: opening_at(buyers, &outcome.before, place),
            spent: driver
                .spent(&buyer.pan)
                .saturating_add(moved_at(outcome, place)),
            told: outcome.balances.get(place).copied().unwrap_or(None),
        })?;
    }
    Ok(books)
}

/// The same, where the run checks its books.
fn books_asked<L: NoteLog>(
    alloc: Global,
    ready: &Ready<'_>,
    driver: &Driver<L>,
    outcome: &Outcome,
) -> Result<Option<Vec<AccountBooks>>, AllocError> {
    if !ready.words.checks {
        return Ok(None);
    }
    Ok(Some(books_of(alloc, &ready.buyers, driver, outcome)?))
}

/// What to look at of the first accounts on which both ends differ.
fn doubts_of<L: NoteLog>(
    alloc: Global,
    table: &Table,
    driver: &Driver<L>,
    books: &[AccountBooks],
) -> Result<Vec<Doubt>, AllocError> {
    let mut doubts = Vec::new(alloc);
    for (place, of) in books.iter().enumerate() {
        if doubts.len() < MOST_TOLD && of.verdict() == Verdict::Differ {
            let traces = driver.doubtful(alloc, &of.pan)?;
            let messages = messages_of(alloc, table, driver, &traces)?;
            doubts.push(Doubt {
                place,
                traces,
                messages,
            })?;
        }
    }
    Ok(doubts)
}

/// What a run tells.
pub(crate) fn report_of<'a, L: NoteLog>(
    alloc: Global,
    ready: &Ready<'a>,
    driver: &Driver<L>,
    mut happened: Happened,
) -> Result<Report<'a>, AllocError> {
    let books = books_asked(alloc, ready, driver, &happened.outcome)?;
    let doubts = match &books {
        Some(books) => doubts_of(alloc, &ready.table, driver, books)?,
        None => Vec::new(alloc),
    };
    Ok(Report {
        settings: settings_of(&ready.words, &ready.asked, ready.most_open()),
        tally: happened.tally,
        ended: ended_of(alloc, driver)?,
        mixed: happened.outcome.mixed,
        timed: happened.latencies.len(),
        summary: happened.latencies.summary(),
        buckets: happened.latencies.buckets(alloc)?,
        micros: happened.outcome.micros,
        books,
        doubts,
    })
}
