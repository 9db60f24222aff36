//! The sockets of a run.

use crate::connection::State;
use crate::fault::TrafficFault;
use crate::lines::Lines;
use iso_tally::{Tally, add_one};
use mio::net::TcpStream;
use mio::{Events, Interest, Poll, Token};
use std::alloc::Global;
use std::io::ErrorKind;
use std::net::{Net, SocketAddr};
use std::time::Duration;

/// How many events are looked at together.
const EVENTS: usize = 1_024;

/// The sockets of a run, and what it waits with.
#[derive(Drop)]
pub(crate) struct Edge {
    poll: Poll,
    events: Events<Global>,
    address: SocketAddr,
}

/// How a connection stands that was asked for.
#[derive(Clone, Copy, PartialEq, Eq)]
enum Standing {
    /// The host took it.
    Taken,
    /// The host or the system refused it.
    Refused,
    /// Neither yet.
    Waiting,
}

/// How a connection stands that was asked for, by what the system tells.
fn standing_of(stream: &TcpStream) -> Standing {
    match stream.take_error() {
        Ok(None) => {}
        Ok(Some(_)) | Err(_) => return Standing::Refused,
    }
    match stream.peer_addr() {
        Ok(_) => Standing::Taken,
        Err(error) if error.kind() == ErrorKind::NotConnected => Standing::Waiting,
        Err(_) => Standing::Refused,
    }
}

/// The same of the connection at a place: where none was asked for, it waits for nothing.
fn standing_at(lines: &mut Lines<TcpStream>, place: usize) -> Standing {
    match lines.get_mut(place) {
        Some(connection) if connection.state == State::Asked => standing_of(&connection.stream),
        Some(_) | None => Standing::Waiting,
    }
}

impl Edge {
    /// What a run waits with, for a host at an address.
    pub fn open<R: Net>(rt: &R, alloc: Global, address: SocketAddr) -> Result<Edge, TrafficFault> {
        let Ok(poll) = Poll::new(rt) else {
            return Err(TrafficFault::Wait);
        };
        Ok(Edge {
            poll,
            events: Events::with_capacity(alloc, EVENTS)?,
            address,
        })
    }

    /// A connection that the system watches.
    fn dial<R: Net>(&self, rt: &R, place: usize) -> Option<TcpStream> {
        let mut stream = TcpStream::connect(rt, self.address).ok()?;
        let _ = stream.set_nodelay(true);
        self.poll
            .registry()
            .register(
                &mut stream,
                Token(place),
                Interest::READABLE | Interest::WRITABLE,
            )
            .ok()?;
        Some(stream)
    }

    /// Asks for each connection that is due.
    pub fn dial_due<R: Net>(
        &self,
        rt: &R,
        lines: &mut Lines<TcpStream>,
        tally: &mut Tally,
        now: u64,
    ) {
        for place in 0..lines.len() {
            if !lines.is_due(place, now) {
                continue;
            }
            match self.dial(rt, place) {
                Some(stream) => lines.ask(place, stream),
                None => {
                    add_one(&mut tally.refused);
                    lines.drop_at(place, now);
                }
            }
        }
    }

    /// Waits for events, for so many milliseconds at most: whether they are told. An interrupted wait tells none.
    fn has_events(&mut self, pause: u64) -> Result<bool, TrafficFault> {
        match self
            .poll
            .poll(&mut self.events, Some(Duration::from_millis(pause)))
        {
            Ok(()) => Ok(true),
            Err(error) if error.kind() == ErrorKind::Interrupted => Ok(false),
            Err(_) => Err(TrafficFault::Wait),
        }
    }

    /// Waits for events, for so many milliseconds at most, and marks the connections that they are of.
    pub fn wait(
        &mut self,
        pause: u64,
        lines: &mut Lines<TcpStream>,
        tally: &mut Tally,
        now: u64,
    ) -> Result<(), TrafficFault> {
        if !self.has_events(pause)? {
            return Ok(());
        }
        for event in &self.events {
            let Token(place) = event.token();
            match standing_at(lines, place) {
                Standing::Taken => lines.opens(place, tally),
                Standing::Refused => {
                    add_one(&mut tally.refused);
                    lines.drop_at(place, now);
                }
                Standing::Waiting => {}
            }
            lines.notice(place, event.is_read_closed() || event.is_error());
        }
        Ok(())
    }
}
