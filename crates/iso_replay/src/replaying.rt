//! An exchange with a host at an address.

use crate::fault::ReplayFault;
use crate::running::{Exchanged, Plan, exchange_over};
use crate::waiting::Waiting;
use mio::net::TcpStream;
use mio::{Events, Interest, Poll, Token};
use std::alloc::Global;
use std::io::ErrorKind;
use std::net::{Net, SocketAddr};
use std::time::{Clock, Duration};

/// The token of the connection.
const HOST: Token = Token(0);

/// How many events are looked at together.
const EVENTS: usize = 16;

/// A clock, and the readiness of a connection.
#[derive(Drop)]
struct Readiness<'r, R: Clock> {
    rt: &'r R,
    poll: Poll,
    events: Events<Global>,
}

impl<R: Clock> Waiting for Readiness<'_, R> {
    fn now(&mut self) -> Result<u64, ReplayFault> {
        match self.rt.monotonic() {
            Ok(time) => Ok(
                time.as_secs()
                    .saturating_mul(1_000)
                    .saturating_add(u64::from(time.subsec_millis())),
            ),
            Err(_) => Err(ReplayFault::Wait),
        }
    }

    fn wait(&mut self, millis: u64) -> Result<(), ReplayFault> {
        match self
            .poll
            .poll(&mut self.events, Some(Duration::from_millis(millis)))
        {
            Ok(()) => Ok(()),
            Err(error) if error.kind() == ErrorKind::Interrupted => Ok(()),
            Err(_) => Err(ReplayFault::Wait),
        }
    }
}

/// What a connection waits with.
fn readiness_of<'r, R: Net + Clock>(
    rt: &'r R,
    alloc: Global,
    stream: &mut TcpStream,
) -> Result<Readiness<'r, R>, ReplayFault> {
    let Ok(poll) = Poll::new(rt) else {
        return Err(ReplayFault::Wait);
    };
    let both = Interest::READABLE | Interest::WRITABLE;
    if poll.registry().register(stream, HOST, both).is_err() {
        return Err(ReplayFault::Wait);
    }
    let events = Events::with_capacity(alloc, EVENTS)?;
    Ok(Readiness { rt, poll, events })
}

/// Waits until a connection is made, for so many milliseconds at most, and tells whether it is.
fn is_connected<W: Waiting>(
    stream: &TcpStream,
    waiting: &mut W,
    patience: u64,
) -> Result<bool, ReplayFault> {
    let start = waiting.now()?;
    for _ in 0..u64::MAX {
        match stream.take_error() {
            Ok(None) => {}
            _ => return Ok(false),
        }
        if stream.peer_addr().is_ok() {
            return Ok(true);
        }
        let passed = waiting.now()?.saturating_sub(start);
        if patience <= passed {
            return Ok(false);
        }
        waiting.wait(patience.saturating_sub(passed))?;
    }
    Err(ReplayFault::Wait)
}

/// Sends frames to the host at an address as fast as it takes them, and hears the frames that it answers, until all are sent
/// and as many came as are wanted, or nothing more is to come.
pub fn replay<R: Net + Clock>(
    rt: &R,
    alloc: Global,
    address: SocketAddr,
    plan: Plan<'_>,
) -> Result<Exchanged, ReplayFault> {
    let Ok(mut stream) = TcpStream::connect(rt, address) else {
        return Err(ReplayFault::NoHost(address));
    };
    let mut waiting = readiness_of(rt, alloc, &mut stream)?;
    if !is_connected(&stream, &mut waiting, plan.patience)? {
        return Err(ReplayFault::NoHost(address));
    }
    let _ = stream.set_nodelay(true);
    let (mut input, mut output) = (&stream, &stream);
    exchange_over(alloc, plan, &mut input, &mut output, &mut waiting)
}
