//! How far a long input is worked on.

use crate::fault::Stop;
use crate::job::Job;
use std::io::Write;

/// How many bytes are read at once.
const BLOCK: u64 = 65_536;

/// What share of the input so many blocks are, in percent.
fn percent(blocks: u64, total: u64) -> u64 {
    match blocks
        .saturating_mul(BLOCK)
        .saturating_mul(100)
        .checked_div(total)
    {
        Some(share) => share.min(100),
        None => 100,
    }
}

/// Writes a text to the error stream, and passes it on.
fn show<F: Write>(text: &str, faults: &mut F) -> Result<(), Stop> {
    if faults.write_all(text.as_bytes()).is_err() || faults.flush().is_err() {
        return Err(Stop::Faults);
    }
    Ok(())
}

/// Tells how far the input is worked on, in place of what was told before, where its progress is to be told.
pub(crate) fn tell_progress<F: Write>(
    job: Job,
    blocks: u64,
    number: u64,
    faults: &mut F,
) -> Result<(), Stop> {
    let Some(total) = job.total else {
        return Ok(());
    };
    let (input, share, frames) = (job.input, percent(blocks, total), number.saturating_sub(1));
    let line = format!(in job.alloc; "\r{input}: {share}%, {frames} frames")?;
    show(&line, faults)
}

/// Clears the line of the progress.
pub(crate) fn end_progress<F: Write>(job: Job, faults: &mut F) -> Result<(), Stop> {
    if job.total.is_none() {
        return Ok(());
    }
    show("\r\x1b[K", faults)
}
