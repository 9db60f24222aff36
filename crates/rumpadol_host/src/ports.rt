//! A host on ports.

ghost use Rattle.std.specs.Prelude.{◌≡◌, IfOk};

use crate::replicas::started;
use iso_durable::Log;
use iso_lines::{Control, Line, LoopFault};
use iso_links::Terms;
use iso_loop::{LogLines, NoWait, Ports, serve_ports};
use iso_metrics::{Both, Metrics};
use iso_peers::DurableHost;
use iso_service::Journals;
use rumpadol_cluster::is_on_etcd;
use rumpadol_journals::{accounts_at, start_host};
use rumpadol_keeping::Keeping;
use rumpadol_ports::{
    Asked, HostWords, Outside, System, addresses_of, all_agreed, asked_of, check_stop_file,
    lines_of, log_asked,
};
use rumpadol_replicas::{Lost, Replica};
use rumpadol_tables::{Source, Stop, failed, write_output};
use rumpadol_terminals::Terminals;
use std::alloc::{AllocError, Global};
use std::fmt::Write as _;
use std::io::{Read, Write};
use std::net::Net;
use std::rt::Files;
use std::time::Clock;

/// The number of the error stream.
const ERROR_STREAM: i32 = 2;

/// How the program stops where the loop over ports does.
fn loop_stopped(alloc: Global, fault: LoopFault) -> Stop {
    match fault {
        LoopFault::Memory => Stop::Memory,
        fault => failed(format!(in alloc; "rumpadol: {fault}\n")),
    }
}

/// How the program stops where serving by a host does.
fn serve_stopped<L: Lost>(alloc: Global, journal: &str, log: &L, fault: LoopFault) -> Stop {
    match fault {
        LoopFault::Log => log.lost(alloc, journal),
        fault => loop_stopped(alloc, fault),
    }
}

/// A sentence for each link: where the host listens, and what is allowed to its peers.
fn sentences(alloc: Global, ports: &Ports, terms: &[Terms]) -> Result<String, AllocError> {
    let mut text = String::new(alloc);
    for (address, terms) in ports.addresses(alloc)?.iter().zip(terms.iter()) {
        let (name, limits) = (&terms.name, terms.limits);
        writeln!(
            text,
            "rumpadol: link {name} listens on {address}: peers={} idle={} frame={} unread={} waiting={}",
            limits.peers, limits.idle, limits.frame, limits.unread, limits.waiting
        )?;
    }
    if let Some(address) = ports.pages_address() {
        writeln!(
            text,
            "rumpadol: /metrics and /health are told at http://{address}"
        )?;
    }
    Ok(text)
}

/// The counts of a host on these links that starts now.
fn metrics_of<R: Clock, L: Log>(
    alloc: Global,
    runtime: &R,
    host: &DurableHost<L>,
    terms: &[Terms],
) -> Result<Metrics, Stop> {
    let started = match runtime.since_1970() {
        Ok(time) => time.as_secs().saturating_mul(1_000),
        Err(_) => return Err(no_clock(alloc)),
    };
    let (entries, limit) = (host.issuer().len(), host.issuer().limit());
    let mut metrics = Metrics::new(alloc, entries, limit, started);
    for terms in terms {
        metrics.add_link(terms.name.as_str())?;
    }
    Ok(metrics)
}

/// How the program stops where the system has no clock.
fn no_clock(alloc: Global) -> Stop {
    failed(format!(in alloc; "rumpadol: the system's clock can't be read\n"))
}

/// Listens on all that the words ask for.
fn open_ports<R: Net>(alloc: Global, runtime: &R, asked: &Asked) -> Result<Ports, Stop> {
    match ports_on(alloc, runtime, asked) {
        Ok(ports) => Ok(ports),
        Err(fault) => Err(loop_stopped(alloc, fault)),
    }
}

/// Listens on the addresses of the links, and on that of the metrics.
fn ports_on<R: Net>(alloc: Global, runtime: &R, asked: &Asked) -> Result<Ports, LoopFault> {
    let addresses = addresses_of(alloc, &asked.terms)?;
    let mut ports = Ports::open(runtime, alloc, &addresses)?;
    if let Some(address) = asked.metrics {
        ports.open_pages(runtime, address)?;
    }
    Ok(ports)
}

/// Serves the peers of these lines, counts what happens, and tells it to a writer.
fn serve<R: Net + Clock, L: Lost, C: Control, W: Write + Drop>(
    alloc: Global,
    journal: &str,
    runtime: &R,
    host: &mut DurableHost<L>,
    lines: &[Line<'_>],
    metrics: Metrics,
    ports: &mut Ports,
    control: &mut C,
    out: W,
) -> Result<u8, Stop>
    ensures { IfOk result (λ status. status ≡ 0) }
{
    let mut told = Both {
        first: LogLines::new(alloc, lines, out),
        second: metrics,
    };
    match serve_ports(runtime, alloc, host, lines, ports, control, &mut told) {
        Ok(()) => Ok(0),
        Err(fault) => Err(serve_stopped(alloc, journal, &host.log, fault)),
    }
}

/// Serves the peers of these lines, and tells what happens to the error stream.
fn serve_untold<R: Net + Clock, L: Lost, C: Control, F: Write>(
    alloc: Global,
    journal: &str,
    runtime: &R,
    host: &mut DurableHost<L>,
    lines: &[Line<'_>],
    metrics: Metrics,
    ports: &mut Ports,
    control: &mut C,
    faults: &mut F,
) -> Result<u8, Stop>
    ensures { IfOk result (λ status. status ≡ 0) }
{
    match NoWait::new(runtime, alloc, ERROR_STREAM, faults) {
        Ok(out) => serve(
            alloc, journal, runtime, host, lines, metrics, ports, control, out,
        ),
        Err(fault) => Err(loop_stopped(alloc, fault)),
    }
}

/// Serves the peers of these lines, and tells what happens to a log, or to the error stream where none is named. Beside a log
/// the error stream gets a sentence for each link.
fn serve_told<R: Net + Clock + Files, L: Lost, C: Control, F: Write>(
    alloc: Global,
    words: &HostWords<'_>,
    runtime: &R,
    log: Option<R::File>,
    host: &mut DurableHost<L>,
    lines: &[Line<'_>],
    terms: &[Terms],
    ports: &mut Ports,
    control: &mut C,
    faults: &mut F,
) -> Result<u8, Stop>
    ensures { IfOk result (λ status. status ≡ 0) }
{
    let journal = words.kept.journal;
    let metrics = metrics_of(alloc, runtime, host, terms)?;
    let Some(log) = log else {
        return serve_untold(
            alloc, journal, runtime, host, lines, metrics, ports, control, faults,
        );
    };
    write_output(faults, sentences(alloc, ports, terms)?.as_bytes())?;
    serve(
        alloc, journal, runtime, host, lines, metrics, ports, control, log,
    )
}

/// What stops a host with these words.
fn stopper<'r, 'w, 'i, R, I>(
    runtime: &'r R,
    words: &HostWords<'w>,
    terminals: Terminals,
    input: &'i mut I,
) -> Outside<'r, 'w, 'i, R, I> {
    Outside {
        runtime,
        stop_file: words.stop_file,
        input,
        is_terminal: terminals.input,
        is_armed: !words.replica.is_standby,
    }
}

/// Serves the peers of these lines by a host over a journal in a file.
fn serve_file<S: Source + Journals + System, I: Read, F: Write>(
    alloc: Global,
    words: &HostWords<'_>,
    source: &S,
    terminals: Terminals,
    asked: &Asked,
    lines: &[Line<'_>],
    input: &mut I,
    faults: &mut F,
) -> Result<u8, Stop>
    ensures { IfOk result (λ status. status ≡ 0) }
{
    let (runtime, kept, is_shown) = (source.runtime(), words.kept, terminals.faults);
    let (accounts, heading) = accounts_at(alloc, source, kept.accounts)?;
    // what may be refused without a journal comes first, so that none is made for a host that can't listen
    let log = log_asked(alloc, runtime, words.log)?;
    let mut ports = open_ports(alloc, runtime, asked)?;
    let mut host = start_host(alloc, kept, accounts, &heading, source, is_shown, faults)?;
    let control = &mut stopper(runtime, words, terminals, input);
    let terms = &asked.terms;
    serve_told(
        alloc, words, runtime, log, &mut host, lines, terms, &mut ports, control, faults,
    )
}

/// Serves the peers of these lines by a host that was started over a journal on etcd. It listens now, and not before.
fn serve_replica<R: Net + Clock + Files, C: Control, L: Lost, F: Write>(
    alloc: Global,
    words: &HostWords<'_>,
    runtime: &R,
    asked: &Asked,
    lines: &[Line<'_>],
    log: Option<R::File>,
    host: &mut DurableHost<L>,
    control: &mut C,
    faults: &mut F,
) -> Result<u8, Stop>
    ensures { IfOk result (λ status. status ≡ 0) }
{
    let mut ports = open_ports(alloc, runtime, asked)?;
    let terms = &asked.terms;
    serve_told(
        alloc, words, runtime, log, host, lines, terms, &mut ports, control, faults,
    )
}

/// Serves the peers of these lines by a host over a journal on etcd, and keeps its lease meanwhile.
fn serve_etcd<S: Source + System, I: Read, F: Write>(
    alloc: Global,
    words: &HostWords<'_>,
    source: &S,
    terminals: Terminals,
    asked: &Asked,
    lines: &[Line<'_>],
    input: &mut I,
    faults: &mut F,
) -> Result<u8, Stop>
    ensures { IfOk result (λ status. status ≡ 0) }
{
    let (runtime, is_shown) = (source.runtime(), terminals.faults);
    let (accounts, heading) = accounts_at(alloc, source, words.kept.accounts)?;
    let log = log_asked(alloc, runtime, words.log)?;
    let Replica { mut host, stand } = started(
        alloc, words, accounts, &heading, source, is_shown, faults,
    )?;
    let control = &mut Keeping::new(stopper(runtime, words, terminals, input), runtime, stand);
    let served = serve_replica(
        alloc, words, runtime, asked, lines, log, &mut host, control, faults,
    );
    control.give_up();
    served
}

/// Serves the peers that come on ports.
pub fn perform_ports<S: Source + Journals + System, I: Read, F: Write>(
    alloc: Global,
    words: &HostWords<'_>,
    source: &S,
    terminals: Terminals,
    input: &mut I,
    faults: &mut F,
) -> Result<u8, Stop>
    // A host that served to its end has status 0.
    ensures { IfOk result (λ status. status ≡ 0) }
{
    // for a standby the stop file is there, and goes when it is to take over
    if !words.replica.is_standby {
        check_stop_file(alloc, source.runtime(), "host", words.stop_file)?;
    }
    let asked = asked_of(alloc, source, words)?;
    let links = all_agreed(alloc, source, input, &asked.terms)?;
    let lines = lines_of(alloc, &links, &asked.terms)?;
    if is_on_etcd(words.kept.journal) {
        return serve_etcd(
            alloc, words, source, terminals, &asked, &lines, input, faults,
        );
    }
    serve_file(
        alloc, words, source, terminals, &asked, &lines, input, faults,
    )
}
