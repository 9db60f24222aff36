//! The loop of a host with many peers.
ghost use Rattle.std.specs.Prelude.{OnOk};
ghost use Rattle.iso_peers.specs.Host.{IsInStep, IsKept};

use crate::ports::Ports;
use iso_durable::Log;
use iso_edge::Looks;
use iso_lines::{
    Control, Event, Filling, Line, Lines, LoopFault, Moment, PAUSE, Pages, Peers, Stop,
};
use iso_peers::DurableHost;
use mio::net::TcpStream;
use std::alloc::Global;
use std::net::Net;
use std::time::{Clock, Duration};

/// The microseconds of a duration.
fn micros_of(time: Duration) -> u64 {
    time.as_secs()
        .saturating_mul(1_000_000)
        .saturating_add(time.subsec_micros() as u64)
}

/// The moment now.
fn moment<R: Clock>(rt: &R) -> Result<Moment, LoopFault> {
    let (Ok(time), Ok(date)) = (rt.monotonic(), rt.since_1970()) else {
        return Err(LoopFault::Wait);
    };
    Ok(Moment {
        micros: micros_of(time),
        since_1970: micros_of(date) / 1_000,
    })
}

/// Keeps the orders of a turn with one sync, and tells how long that took. Where none waits, nothing is done.
fn keep<R: Clock, L: Log, N: Lines>(
    rt: &R,
    host: &mut DurableHost<L>,
    log: &mut N,
) -> Result<(), LoopFault>
    // Every order that came is kept.
    ensures kept { OnOk result (IsKept host.new) }
    ensures step { OnOk result (IsInStep L.is_ready L.synced L.pending host.old
        → IsInStep L.is_ready L.synced L.pending host.new) }
{
    let orders = host.waits();
    let began = moment(rt)?;
    if host.keep().is_err() {
        log.tell(began.since_1970, &Event::LogFailed);
        return Err(LoopFault::Log);
    }
    if orders > 0 {
        let ended = moment(rt)?;
        let micros = ended.micros.saturating_sub(began.micros);
        log.tell(ended.since_1970, &Event::Kept { orders, micros });
    }
    Ok(())
}

/// Tells how full the journal is, where that wasn't told.
fn tell_journal<L: Log, N: Lines>(
    host: &DurableHost<L>,
    filling: &mut Filling,
    now: Moment,
    log: &mut N,
) {
    let (entries, limit) = (host.issuer().len(), host.issuer().limit());
    if let Some(hundredths) = filling.rises(entries, limit) {
        log.tell(
            now.since_1970,
            &Event::Journal {
                entries,
                limit,
                hundredths,
            },
        );
    }
}

/// A turn: connections that wait are let in, what came is read and decided, all of it is kept with one sync, and only then
/// its answers are written. Visitors come last. Gives how long the next turn may wait for events.
fn turn<R: Clock, L: Log, N: Lines + Pages>(
    rt: &R,
    host: &mut DurableHost<L>,
    ports: &mut Ports,
    peers: &mut Peers<'_, TcpStream>,
    filling: &mut Filling,
    log: &mut N,
) -> Result<Duration, LoopFault>
    // Every order that came is kept.
    ensures kept { OnOk result (IsKept host.new) }
    ensures step { OnOk result (IsInStep L.is_ready L.synced L.pending host.old
        → IsInStep L.is_ready L.synced L.pending host.new) }
{
    let began = moment(rt)?;
    ports.accept_all(peers, began, log);
    peers.read_all(host, began);
    keep(rt, host, log)?;
    peers.write_all(host, began);
    let ended = moment(rt)?;
    peers.tell_frames(began, ended, log);
    tell_journal(host, filling, ended, log);
    let goes_on = peers.settle(ended, log);
    log.flush();
    let visits = ports.visit(log, ended);
    if goes_on || visits {
        Ok(Duration::from_millis(0))
    } else {
        Ok(Duration::from_millis(PAUSE))
    }
}

/// A turn, behind which the lines of the log are written, also where it fails.
fn turn_told<R: Clock, L: Log, N: Lines + Pages>(
    rt: &R,
    host: &mut DurableHost<L>,
    ports: &mut Ports,
    peers: &mut Peers<'_, TcpStream>,
    filling: &mut Filling,
    log: &mut N,
) -> Result<Duration, LoopFault>
    // Every order that came is kept.
    ensures kept { OnOk result (IsKept host.new) }
    ensures step { OnOk result (IsInStep L.is_ready L.synced L.pending host.old
        → IsInStep L.is_ready L.synced L.pending host.new) }
{
    match turn(rt, host, ports, peers, filling, log) {
        Ok(pause) => Ok(pause),
        Err(fault) => {
            log.flush();
            Err(fault)
        }
    }
}

/// Stops: tells why, and closes all peers.
fn stop<N: Lines>(peers: &mut Peers<'_, TcpStream>, why: Stop, now: Moment, log: &mut N) {
    log.tell(now.since_1970, &Event::Stopping { why });
    peers.close_all(now, log);
    log.flush();
}

/// Serves the peers that come on these ports, which are those of the lines, until it is stopped: then it ends after the
/// turn. No peer holds up another. After an `Err` nothing more is written; at `Log` no order that waited is answered.
pub fn serve_ports<R: Net + Clock, L: Log, C: Control, N: Lines + Pages>(
    rt: &R,
    alloc: Global,
    host: &mut DurableHost<L>,
    lines: &[Line<'_>],
    ports: &mut Ports,
    control: &mut C,
    log: &mut N,
) -> Result<(), LoopFault>
    // Where it ends well, every order that came is kept.
    ensures kept { OnOk result (IsKept host.new) }
{
    let mut peers = Peers::new(alloc, lines)?;
    let mut filling = Filling::NONE;
    let mut looks = Looks::every(PAUSE);
    ports.tell(moment(rt)?, log);
    let mut pause = Duration::from_millis(0);
    for _ in 0..u64::MAX {
        let has_ended = ports.wait(pause, &mut peers, control)?;
        pause = turn_told(rt, host, ports, &mut peers, &mut filling, log)?;
        let now = moment(rt)?;
        if let Some(why) = looks.stop(control, has_ended, now.millis()) {
            stop(&mut peers, why, now, log);
            return Ok(());
        }
    }
    Err(LoopFault::Wait)
}
