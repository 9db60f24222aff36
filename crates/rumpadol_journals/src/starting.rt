//! A host that starts over its journal.

ghost use Rattle.std.specs.Prelude.{◌≡◌, true, false};
ghost use Rattle.iso_service.specs.Refusal.{is_refusal};
ghost use Rattle.rumpadol_tables.specs.Stop.{status_of};

use crate::progress::Progress;
use crate::words::KeptWords;
use iso_issuer::Accounts;
use iso_journal::JournalLog;
use iso_peers::DurableHost;
use iso_record::Heading;
use iso_service::{FileFault, Journals, StartFault, make_journal, start};
use rumpadol_tables::{Source, Stop, failed, refused_or_failed};
use std::alloc::Global;
use std::io::Write;

/// How the program stops where a host doesn't start.
fn not_started(alloc: Global, path: &str, fault: StartFault) -> Stop
    ensures refused { status_of result ≡ 1 → is_refusal fault ≡ true }
    ensures failed { is_refusal fault ≡ false → status_of result ≡ 3 }
{
    if matches!(fault, StartFault::File(FileFault::Memory)) {
        return Stop::Memory;
    }
    let is_refused = fault.is_refusal();
    refused_or_failed(is_refused, format!(in alloc; "rumpadol: {path}: {fault}\n"))
}

/// How the program stops where an order couldn't be kept.
pub fn not_kept(alloc: Global, path: &str) -> Stop {
    failed(format!(in alloc;
        "rumpadol: {path}: an order couldn't be kept, and none that waited was answered; see that its device is well and has room, and start the host again: each order that comes again gets its first answer\n"
    ))
}

/// Makes the journal, or says why there is none.
fn make_new<S: Source + Journals>(
    alloc: Global,
    path: &str,
    heading: &Heading,
    source: &S,
) -> Result<(), Stop> {
    match make_journal(source, path, heading) {
        Ok(()) => Ok(()),
        Err(fault) => Err(not_started(alloc, path, fault)),
    }
}

/// A host over the journal of these accounts, which is made before where that is asked. A long start tells the error stream
/// how far it is, where that is a terminal.
pub fn start_host<S: Source + Journals, F: Write>(
    alloc: Global,
    words: KeptWords<'_>,
    accounts: Accounts,
    heading: &Heading,
    source: &S,
    is_terminal: bool,
    faults: &mut F,
) -> Result<DurableHost<JournalLog<S::Disk>>, Stop> {
    if words.is_new {
        make_new(alloc, words.journal, heading, source)?;
    }
    let mut progress = Progress::new(faults, is_terminal);
    let started = start(
        alloc,
        source,
        words.journal,
        heading,
        accounts,
        &mut progress,
    );
    progress.clear();
    match started {
        Ok(started) => Ok(DurableHost::new(alloc, started)),
        Err(fault) => Err(not_started(alloc, words.journal, fault)),
    }
}
