//! A copy of a journal, from a file to etcd, back, or from one name on etcd to another.

use crate::fetching::fetch;
use crate::filing::file_records;
use crate::held::Held;
use crate::reaching::cluster_at;
use crate::sending::{SendFault, send_records};
use crate::sentences::{exists, not_fetched, not_filed, not_free, not_sent, orders_text};
use iso_etcd::{Cluster, Dial, HEADING_SIZE};
use iso_log::RECORD;
use iso_replicas::{Clocked, check_free};
use iso_service::{FileFault, Journals};
use iso_shared::Writer;
use rumpadol_cluster::is_on_etcd;
use rumpadol_journals::{CopyWords, EtcdWords, InFiles, Progress, Surveyed, survey_at};
use rumpadol_tables::{Source, Stop, failed, misused, write_output};
use std::alloc::Global;
use std::io::{Read, Write};
use std::net::Net;
use std::random::RandomSource;
use std::time::Clock;

/// How long a copy goes on asking for one batch, in milliseconds.
const PATIENCE: u64 = 30_000;

/// How long it pauses before it asks again, in milliseconds.
const PAUSE: u64 = 100;

/// A journal that is copied.
#[derive(Drop)]
struct Taken {
    /// Its heading, and the records of its orders.
    bytes: Vec<u8>,
    /// How many orders there are, and whether something was torn behind them.
    surveyed: Surveyed,
}

/// Reads a journal on etcd whole. A long one tells the error stream how far it is, where that is a terminal.
pub fn fetch_at<S: Source, R: Net + Clock, F: Write>(
    alloc: Global,
    word: &str,
    etcd: EtcdWords<'_>,
    source: &S,
    runtime: &R,
    is_terminal: bool,
    faults: &mut F,
) -> Result<Vec<u8>, Stop> {
    let mut cluster = cluster_at(alloc, word, etcd, source, runtime)?;
    let mut progress = Progress::new(faults, is_terminal);
    let fetched = fetch(alloc, &mut cluster, &mut progress);
    progress.clear();
    match fetched {
        Ok(bytes) => Ok(bytes),
        Err(fault) => Err(not_fetched(alloc, word, fault)),
    }
}

/// The first bytes of a file.
fn front_of<R: Read + Drop>(
    alloc: Global,
    path: &str,
    file: R,
    most: u64,
) -> Result<Vec<u8>, Stop> {
    let mut bytes = Vec::new(alloc);
    match file.take(most).read_to_end(&mut bytes) {
        Ok(_) => Ok(bytes),
        Err(_) => Err(failed(format!(in alloc;
            "rumpadol: {path}: reading stopped before its end; look at its device\n"
        ))),
    }
}

/// The journal in a file: its heading, and the records of its orders.
fn take_file<S: Source>(alloc: Global, path: &str, source: &S) -> Result<Taken, Stop> {
    let surveyed = survey_at(alloc, path, &InFiles::new(source))?;
    let Ok(file) = source.open(path) else {
        return Err(failed(format!(in alloc;
            "rumpadol: {path}: it can't be read any more; copy it once it stays where it is\n"
        )));
    };
    let most = (surveyed.orders as u64)
        .saturating_add(1)
        .saturating_mul(RECORD as u64);
    let bytes = front_of(alloc, path, file, most)?;
    Ok(Taken { bytes, surveyed })
}

/// The journal on etcd.
fn take_fetched<S: Source, R: Net + Clock, F: Write>(
    alloc: Global,
    word: &str,
    etcd: EtcdWords<'_>,
    source: &S,
    runtime: &R,
    is_terminal: bool,
    faults: &mut F,
) -> Result<Taken, Stop> {
    let bytes = fetch_at(alloc, word, etcd, source, runtime, is_terminal, faults)?;
    let surveyed = survey_at(
        alloc,
        word,
        &Held {
            bytes: bytes.as_slice(),
        },
    )?;
    Ok(Taken { bytes, surveyed })
}

/// The journal that is copied.
fn take<S: Source, R: Net + Clock, F: Write>(
    alloc: Global,
    words: CopyWords<'_>,
    etcd: EtcdWords<'_>,
    source: &S,
    runtime: &R,
    is_terminal: bool,
    faults: &mut F,
) -> Result<Taken, Stop> {
    if is_on_etcd(words.from) {
        return take_fetched(
            alloc,
            words.from,
            etcd,
            source,
            runtime,
            is_terminal,
            faults,
        );
    }
    take_file(alloc, words.from, source)
}

/// Who writes the batches of a copy.
fn new_writer<R: RandomSource>(alloc: Global, runtime: &R) -> Result<Writer, Stop> {
    let mut bits = [0; 16];
    match runtime.fill_bytes(&mut bits) {
        Ok(()) => Ok(Writer { bits }),
        Err(_) => Err(failed(format!(in alloc;
            "rumpadol: the system gave no random bytes, by which a copy names its writer; start again\n"
        ))),
    }
}

/// The heading of a journal, and the records of its orders.
fn parts_of(bytes: &[u8]) -> ([u8; HEADING_SIZE], &[u8]) {
    match bytes.split_first_chunk::<HEADING_SIZE>() {
        Some((heading, records)) => (*heading, records),
        None => ([b' '; HEADING_SIZE], &[]),
    }
}

/// Refuses a path that something has already, before what is copied is read.
fn check_path<S: Journals>(alloc: Global, path: &str, source: &S) -> Result<(), Stop> {
    match source.front(alloc, path, 0) {
        Ok(_) => Err(exists(alloc, path)),
        Err(FileFault::Memory) => Err(Stop::Memory),
        // what else is wrong with it is told where the file is begun
        Err(_) => Ok(()),
    }
}

/// Copies to a file.
fn copy_to_file<S: Source + Journals, R: Net + Clock, F: Write>(
    alloc: Global,
    words: CopyWords<'_>,
    etcd: EtcdWords<'_>,
    source: &S,
    runtime: &R,
    is_terminal: bool,
    faults: &mut F,
) -> Result<Surveyed, Stop> {
    check_path(alloc, words.to, source)?;
    let taken = take(alloc, words, etcd, source, runtime, is_terminal, faults)?;
    let (heading, records) = parts_of(taken.bytes.as_slice());
    match file_records(source, words.to, &heading, records) {
        Ok(()) => Ok(taken.surveyed),
        Err(fault) => Err(not_filed(alloc, words.to, fault)),
    }
}

/// Sends a heading and the records behind it to a cluster.
fn send_all<R: Clock, D: Dial + Drop, F: Write>(
    alloc: Global,
    runtime: &R,
    cluster: &mut Cluster<D>,
    writer: Writer,
    bytes: &[u8],
    progress: &mut Progress<'_, F>,
) -> Result<(), SendFault> {
    let (heading, records) = parts_of(bytes);
    let patience = Clocked::new(runtime, PATIENCE, PAUSE);
    let batch = Vec::new(alloc);
    send_records(
        cluster, patience, writer, &heading, records, batch, progress,
    )
}

/// Copies to etcd.
fn copy_to_etcd<S: Source, R: Net + Clock + RandomSource, F: Write>(
    alloc: Global,
    words: CopyWords<'_>,
    etcd: EtcdWords<'_>,
    source: &S,
    runtime: &R,
    is_terminal: bool,
    faults: &mut F,
) -> Result<Surveyed, Stop> {
    let cluster = &mut cluster_at(alloc, words.to, etcd, source, runtime)?;
    if let Err(fault) = check_free(cluster) {
        return Err(not_free(alloc, words.to, fault));
    }
    let taken = take(alloc, words, etcd, source, runtime, is_terminal, faults)?;
    let writer = new_writer(alloc, runtime)?;
    let bytes = taken.bytes.as_slice();
    let mut progress = Progress::new(faults, is_terminal);
    let sent = send_all(alloc, runtime, cluster, writer, bytes, &mut progress);
    progress.clear();
    match sent {
        Ok(()) => Ok(taken.surveyed),
        Err(fault) => Err(not_sent(alloc, words.to, fault)),
    }
}

/// The command line is refused where both are files.
fn between_files(alloc: Global, words: CopyWords<'_>) -> Stop {
    let CopyWords { from, to } = words;
    misused(format!(in alloc;
        "rumpadol: {from}: both are files, and this copies from a file to etcd or back; use cp {from} {to} while no host has it open\n"
    ))
}

/// What a copy did.
fn line_of(alloc: Global, words: CopyWords<'_>, surveyed: Surveyed) -> Result<String, Stop> {
    let CopyWords { from, to } = words;
    let orders = orders_text(alloc, surveyed.orders)?;
    let torn = if surveyed.is_torn {
        ", without what a crash tore behind them"
    } else {
        ""
    };
    Ok(format!(in alloc; "{to}: whole, {orders} copied from {from}{torn}\n")?)
}

/// Copies a journal, and tells how many orders it has.
pub fn perform_copy<S: Source + Journals, R: Net + Clock + RandomSource, O: Write, F: Write>(
    alloc: Global,
    words: CopyWords<'_>,
    etcd: EtcdWords<'_>,
    source: &S,
    runtime: &R,
    is_terminal: bool,
    output: &mut O,
    faults: &mut F,
) -> Result<(), Stop> {
    if !is_on_etcd(words.from) && !is_on_etcd(words.to) {
        return Err(between_files(alloc, words));
    }
    let surveyed = if is_on_etcd(words.to) {
        copy_to_etcd(alloc, words, etcd, source, runtime, is_terminal, faults)?
    } else {
        copy_to_file(alloc, words, etcd, source, runtime, is_terminal, faults)?
    };
    let line = line_of(alloc, words, surveyed)?;
    write_output(output, line.as_bytes())
}
