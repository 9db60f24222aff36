//! The ports of the page, and the loop around their sockets.

use crate::site::Site;
use crate::visitor::{Turn, Visitor};
use iso_edge::{listen, moment};
use iso_lines::LoopFault;
use mio::net::{TcpListener, TcpStream};
use mio::{Events, Interest, Poll, Token};
use std::alloc::Global;
use std::hash::RandomState;
use std::io::ErrorKind;
use std::net::{IpAddr, Ipv4Addr, Ipv6Addr, Net, SocketAddr};
use std::time::{Clock, Duration};

/// The most connections at a time.
const MOST_VISITORS: usize = 64;

/// The tokens of both listeners.
const FIRST: Token = Token(MOST_VISITORS);

const SECOND: Token = Token(MOST_VISITORS + 1);

/// How many events are looked at together.
const EVENTS: usize = 128;

/// How many seconds the loop waits for an event.
const PAUSE: u64 = 1;

/// The ports of the page, and who is connected.
#[derive(Drop)]
pub(crate) struct Ports {
    poll: Poll,
    events: Events<Global>,
    first: TcpListener,
    /// The one of [::1], where the system has it.
    second: Option<TcpListener>,
    visitors: Vec<Option<Visitor>>,
}

/// Room for visitors, of whom none is there.
fn no_visitors(alloc: Global) -> Result<Vec<Option<Visitor>>, LoopFault> {
    let mut visitors = Vec::with_capacity(alloc, MOST_VISITORS)?;
    for _ in 0..MOST_VISITORS {
        visitors.push(None)?;
    }
    Ok(visitors)
}

impl Ports {
    /// Listens on a port of 127.0.0.1, and of [::1] where the system has it.
    pub(crate) fn open<R: Net>(rt: &R, alloc: Global, port: u16) -> Result<Ports, LoopFault> {
        let Ok(poll) = Poll::new(rt) else {
            return Err(LoopFault::Wait);
        };
        let events = Events::with_capacity(alloc, EVENTS)?;
        let address = SocketAddr::new(IpAddr::V4(Ipv4Addr::LOCALHOST), port);
        let first = listen(rt, &poll, FIRST, address)?;
        let address = SocketAddr::new(IpAddr::V6(Ipv6Addr::LOCALHOST), port);
        let second = listen(rt, &poll, SECOND, address).ok();
        Ok(Ports {
            poll,
            events,
            first,
            second,
            visitors: no_visitors(alloc)?,
        })
    }
}

/// Gives a stream a place, and has the system watch it. Where no place is free, the stream is closed.
fn let_in(
    alloc: Global,
    keys: RandomState,
    poll: &Poll,
    mut stream: TcpStream,
    visitors: &mut [Option<Visitor>],
    now: u64,
) {
    let Some(free) = visitors.iter().position(|visitor| visitor.is_none()) else {
        return;
    };
    let both = Interest::READABLE | Interest::WRITABLE;
    if poll
        .registry()
        .register(&mut stream, Token(free), both)
        .is_err()
    {
        return;
    }
    if let Some(place) = visitors.get_mut(free) {
        place.replace(Visitor::new(alloc, keys, stream, now));
    }
}

/// Takes every connection that waits.
fn accept_all(
    alloc: Global,
    keys: RandomState,
    poll: &Poll,
    listener: &TcpListener,
    visitors: &mut [Option<Visitor>],
    now: u64,
) {
    for _ in 0..MOST_VISITORS {
        match listener.accept() {
            Ok((stream, _)) => let_in(alloc, keys, poll, stream, visitors, now),
            Err(error) if error.kind() == ErrorKind::WouldBlock => return,
            Err(_) => {}
        }
    }
}

/// Gives a visitor its turn.
fn take_turn(poll: &Poll, token: Token, place: &mut Option<Visitor>, site: &mut Site, now: u64) {
    let Some(visitor) = place else {
        return;
    };
    match visitor.turn(site, now) {
        Turn::Ended => {
            place.take();
        }
        Turn::Waits => {}
        // an event comes at a change alone, so this asks again for what is ready
        Turn::Busy => {
            let both = Interest::READABLE | Interest::WRITABLE;
            let _ = poll.registry().reregister(&mut visitor.stream, token, both);
        }
    }
}

/// Whether nothing passed on the connection at a place for too long.
fn is_silent(place: &Option<Visitor>, now: u64) -> bool {
    match place {
        Some(visitor) => visitor.is_silent(now),
        None => false,
    }
}

/// Closes the connections on which nothing passed for too long.
fn close_silent(visitors: &mut [Option<Visitor>], now: u64) {
    for place in visitors.iter_mut() {
        if is_silent(place, now) {
            place.take();
        }
    }
}

/// One turn: waits for events, gives each visitor that has one its turn, and takes those that came.
fn turn(alloc: Global, keys: RandomState, ports: &mut Ports, site: &mut Site, now: u64) {
    for event in ports.events.iter() {
        let Token(index) = event.token();
        if let Some(place) = ports.visitors.get_mut(index) {
            take_turn(&ports.poll, Token(index), place, site, now);
        }
    }
    let visitors = &mut ports.visitors;
    accept_all(alloc, keys, &ports.poll, &ports.first, visitors, now);
    if let Some(second) = &ports.second {
        accept_all(alloc, keys, &ports.poll, second, visitors, now);
    }
    close_silent(visitors, now);
}

/// Serves the page, for as long as the program runs.
pub(crate) fn serve<R: Net + Clock>(
    rt: &R,
    alloc: Global,
    keys: RandomState,
    ports: &mut Ports,
    site: &mut Site,
) -> Result<(), LoopFault> {
    for _ in 0..u64::MAX {
        let pause = Some(Duration::from_secs(PAUSE));
        if ports.poll.poll(&mut ports.events, pause).is_err() {
            return Err(LoopFault::Wait);
        }
        let now = moment(rt)?;
        turn(alloc, keys, ports, site, now);
    }
    Ok(())
}
