//! A host whose one peer is at the standard streams.

ghost use Rattle.std.specs.Prelude.{◌≡◌, IfOk};
ghost use Rattle.rumpadol_tables.specs.Named.{IsNamed};

use crate::replicas::started;
use iso_host::{Link, Report, Std};
use iso_issuer::Accounts;
use iso_peers::DurableHost;
use iso_record::Heading;
use iso_service::{Journals, ServiceFault, serve_kept};
use iso_wire::Header;
use rumpadol_cluster::is_on_etcd;
use rumpadol_journals::{accounts_at, start_host};
use rumpadol_keeping::Beating;
use rumpadol_ports::{HostWords, StreamWords, System, link_under};
use rumpadol_replicas::{Lost, Replica};
use rumpadol_tables::{
    STANDARD_INPUT, Source, Stop, failed, misused, refused, table_named, write_output,
};
use rumpadol_terminals::Terminals;
use std::alloc::Global;
use std::io::{Read, Write};

/// What both ends of the stream have agreed on.
fn link_of<S: Source, I: Read>(
    alloc: Global,
    word: &str,
    header: Header,
    source: &S,
    input: &mut I,
) -> Result<Link, Stop>
    ensures table { IfOk result
        (λ link. IsNamed (S.file source.now) (I.remaining input.old) word.now link.table) }
    ensures header { IfOk result (λ link. link.header ≡ header) }
{
    if word == STANDARD_INPUT {
        return Err(misused(format!(in alloc;
            "rumpadol: -: standard input has the frames; name a file for the table\n"
        )));
    }
    let table = table_named(alloc, source, input, word)?;
    link_under(alloc, word, table, header)
}

/// How the program stops where serving did.
fn stopped<L: Lost>(alloc: Global, path: &str, log: &L, fault: ServiceFault) -> Stop {
    match fault {
        ServiceFault::Read => failed(format!(in alloc; "rumpadol: the input: {fault}\n")),
        ServiceFault::BadHeader | ServiceFault::CutFrame => {
            refused(format!(in alloc; "rumpadol: the input: {fault}\n"))
        }
        ServiceFault::Write => Stop::Output,
        ServiceFault::Memory => Stop::Memory,
        ServiceFault::Log => log.lost(alloc, path),
    }
}

/// Tells how many orders the journal has, and what came of the frames.
fn tell_report<F: Write>(
    alloc: Global,
    orders: u32,
    report: Report,
    faults: &mut F,
) -> Result<u8, Stop>
    ensures { IfOk result (λ status. status ≡ 0) }
{
    let Report {
        frames,
        answered,
        silent,
        unreadable,
    } = report;
    let line = format!(in alloc;
        "entries={orders} frames={frames} answered={answered} silent={silent} unreadable={unreadable}\n"
    )?;
    write_output(faults, line.as_bytes())?;
    Ok(0)
}

/// Serves the frames of the input by a host.
fn serve_stream<L: Lost, I: Read, O: Write, F: Write>(
    alloc: Global,
    journal: &str,
    link: &Link,
    host: &mut DurableHost<L>,
    input: &mut I,
    output: &mut O,
    faults: &mut F,
) -> Result<u8, Stop>
    ensures { IfOk result (λ status. status ≡ 0) }
{
    let (mut reader, mut writer) = (Std::new(input), Std::new(output));
    match serve_kept(alloc, host, link, &mut reader, &mut writer) {
        Ok(report) => tell_report(alloc, host.issuer().len(), report, faults),
        Err(fault) => Err(stopped(alloc, journal, &host.log, fault)),
    }
}

/// Serves the frames of the input by a host whose journal is on etcd.
fn perform_replica<S: Source + System, I: Read, O: Write, F: Write>(
    alloc: Global,
    words: &HostWords<'_>,
    link: &Link,
    accounts: Accounts,
    heading: &Heading,
    source: &S,
    terminals: Terminals,
    input: &mut I,
    output: &mut O,
    faults: &mut F,
) -> Result<u8, Stop>
    ensures { IfOk result (λ status. status ≡ 0) }
{
    let is_shown = terminals.faults;
    let Replica { mut host, stand } = started(
        alloc, words, accounts, heading, source, is_shown, faults,
    )?;
    let (journal, host) = (words.kept.journal, &mut host);
    let mut beating = Beating::new(input, source.runtime(), stand);
    let served = serve_stream(alloc, journal, link, host, &mut beating, output, faults);
    beating.give_up();
    served
}

/// Serves the frames of the input.
pub fn perform_stream<S: Source + Journals + System, I: Read, O: Write, F: Write>(
    alloc: Global,
    words: &HostWords<'_>,
    stream: StreamWords<'_>,
    source: &S,
    terminals: Terminals,
    input: &mut I,
    output: &mut O,
    faults: &mut F,
) -> Result<u8, Stop>
    // A host that served to its end has status 0.
    ensures { IfOk result (λ status. status ≡ 0) }
{
    let (kept, is_shown) = (words.kept, terminals.faults);
    let link = link_of(alloc, stream.table, stream.header, source, input)?;
    let (accounts, heading) = accounts_at(alloc, source, kept.accounts)?;
    if is_on_etcd(kept.journal) {
        return perform_replica(
            alloc, words, &link, accounts, &heading, source, terminals, input, output, faults,
        );
    }
    let mut host = start_host(alloc, kept, accounts, &heading, source, is_shown, faults)?;
    serve_stream(alloc, kept.journal, &link, &mut host, input, output, faults)
}
