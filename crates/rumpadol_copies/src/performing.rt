//! What is asked about journals in files and on etcd.

ghost use Rattle.std.specs.Prelude.{◌≡◌, ◌≤◌, IfOk};

use crate::copying::{fetch_at, perform_copy};
use crate::held::Held;
use crate::place::check_file_words;
use iso_service::Journals;
use rumpadol_cluster::is_on_etcd;
use rumpadol_journals::{BooksJob, EtcdWords, InFiles, JournalJob, perform_books};
use rumpadol_tables::{Source, Stop};
use std::alloc::Global;
use std::io::Write;
use std::net::Net;
use std::random::RandomSource;
use std::time::Clock;

/// The word that names the journal.
fn word_of<'a>(job: BooksJob<'a>) -> &'a str {
    match job {
        BooksJob::Show(words) | BooksJob::Check(words, _) | BooksJob::Balance(words, _) =>
            words.file,
    }
}

/// Does what is asked about a journal.
fn look_into<S: Source, R: Net + Clock, O: Write, F: Write>(
    alloc: Global,
    job: BooksJob<'_>,
    etcd: EtcdWords<'_>,
    source: &S,
    runtime: &R,
    is_terminal: bool,
    output: &mut O,
    faults: &mut F,
) -> Result<u8, Stop>
    ensures { IfOk result (λ status. status ≤ 1) }
{
    let word = word_of(job);
    if !is_on_etcd(word) {
        check_file_words(alloc, word, etcd)?;
        return perform_books(alloc, job, &InFiles::new(source), source, output);
    }
    let bytes = fetch_at(alloc, word, etcd, source, runtime, is_terminal, faults)?;
    perform_books(
        alloc,
        job,
        &Held {
            bytes: bytes.as_slice(),
        },
        source,
        output,
    )
}

/// Does what is asked about journals, and gives the status 0. A long job tells the error stream how far it is, where that is a
/// terminal.
pub fn perform_journal<S: Source + Journals, R: Net + Clock + RandomSource, O: Write, F: Write>(
    alloc: Global,
    job: JournalJob<'_>,
    source: &S,
    runtime: &R,
    is_shown: bool,
    output: &mut O,
    faults: &mut F,
) -> Result<u8, Stop>
    // Where it ends with a status, that is 0 or 1.
    ensures { IfOk result (λ status. status ≤ 1) }
{
    match job {
        JournalJob::Books(job, etcd) => look_into(
            alloc, job, etcd, source, runtime, is_shown, output, faults,
        ),
        JournalJob::Copy(words, etcd) => {
            perform_copy(
                alloc, words, etcd, source, runtime, is_shown, output, faults,
            )?;
            Ok(0)
        }
    }
}
