//! Whether both ends agree, for people.

use iso_tally::{AccountBooks, Doubt, Verdict};
use std::alloc::AllocError;

/// How many accounts on which the ends differ are told one by one, and how many trace numbers of each.
const MOST_TOLD: usize = 20;

/// How many accounts have each verdict.
#[derive(Clone, Copy)]
pub(crate) struct Verdicts {
    pub agree: usize,
    pub differ: usize,
    pub untold: usize,
}

/// How many accounts have that verdict.
fn count_of(books: &[AccountBooks], verdict: Verdict) -> usize {
    books.iter().filter(|of| of.verdict() == verdict).count()
}

/// How many accounts have each verdict.
pub(crate) fn verdicts_of(books: &[AccountBooks]) -> Verdicts {
    Verdicts {
        agree: count_of(books, Verdict::Agree),
        differ: count_of(books, Verdict::Differ),
        untold: count_of(books, Verdict::Untold),
    }
}

/// Adds the trace numbers of the transactions to look at.
fn add_traces(text: &mut String, doubt: &Doubt) -> Result<(), AllocError> {
    let count = doubt.traces.len();
    if count == 0 {
        return Ok(());
    }
    text.push_str("  look at the transactions that were reversed or are open, by trace number:")?;
    for trace in doubt.traces.iter().take(MOST_TOLD) {
        write!(text, " {trace:06}")?;
    }
    if count > MOST_TOLD {
        write!(text, " and others, {count} in all")?;
    }
    text.push_str("\n")
}

/// Adds the messages of the first of them, a line each.
fn add_messages(text: &mut String, doubt: &Doubt) -> Result<(), AllocError> {
    for message in &doubt.messages {
        write!(text, "    {message}\n")?;
    }
    Ok(())
}

/// Adds an account on which the ends differ. Its number is masked.
fn add_difference(text: &mut String, of: &AccountBooks, doubt: &Doubt) -> Result<(), AllocError> {
    let AccountBooks {
        pan,
        opening,
        spent,
        told,
    } = *of;
    if let Some(told) = told {
        write!(text, "account {pan:?} differs: the host tells {told}, ")?;
        write!(text, "our books say {opening} less {spent}\n")?;
        add_traces(text, doubt)?;
        add_messages(text, doubt)?;
    }
    Ok(())
}

/// Adds the first accounts on which the ends differ.
fn add_differences(
    text: &mut String,
    books: &[AccountBooks],
    doubts: &[Doubt],
) -> Result<(), AllocError> {
    for doubt in doubts {
        if let Some(of) = books.get(doubt.place) {
            add_difference(text, of, doubt)?;
        }
    }
    Ok(())
}

/// Adds whether both ends agree, as sentences.
pub(crate) fn add_books(
    text: &mut String,
    books: &[AccountBooks],
    doubts: &[Doubt],
) -> Result<(), AllocError> {
    let Verdicts {
        agree,
        differ,
        untold,
    } = verdicts_of(books);
    text.push_str("\n")?;
    add_differences(text, books, doubts)?;
    if differ > MOST_TOLD {
        write!(text, "{differ} accounts differ\n")?;
    }
    if untold > 0 {
        write!(text, "the host told no balance of accounts: {untold}\n")?;
    }
    if differ == 0 && untold == 0 {
        return write!(text, "both books agree on all accounts: {agree}\n");
    }
    write!(text, "both books agree on accounts: {agree}\n")
}
