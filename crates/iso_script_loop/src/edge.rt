//! The port that a host with rules listens on.

use crate::peers::Peers;
use iso_edge::listen;
use iso_lines::{Control, LoopFault};
use mio::net::{TcpListener, TcpStream};
use mio::unix::SourceFd;
use mio::{Events, Interest, Poll, Token};
use std::alloc::Global;
use std::io::{ErrorKind, Write};
use std::net::{Net, SocketAddr};
use std::time::Duration;

/// The token of standard input.
const CONTROL: Token = Token(usize::MAX);

/// The token of the port. Those of peers are below it.
const PORT: Token = Token(usize::MAX - 1);

/// How many connections are taken in one turn.
const ACCEPTS: usize = 1_024;

/// How many events are looked at together.
const EVENTS: usize = 1_024;

/// The port that a host with rules listens on, and what it waits with.
#[derive(Drop)]
pub struct Port {
    poll: Poll,
    events: Events<Global>,
    listener: TcpListener,
    /// Whether connections may wait that weren't taken.
    may_have_come: bool,
}

impl Port {
    /// Listens on an address. Standard input is watched for its end, where it is a pipe or a terminal.
    pub fn open<R: Net>(rt: &R, alloc: Global, address: SocketAddr) -> Result<Port, LoopFault> {
        let Ok(poll) = Poll::new(rt) else {
            return Err(LoopFault::Wait);
        };
        let events = Events::with_capacity(alloc, EVENTS)?;
        let listener = listen(rt, &poll, PORT, address)?;
        let _ = poll
            .registry()
            .register(&mut SourceFd(&0), CONTROL, Interest::READABLE);
        Ok(Port {
            poll,
            events,
            listener,
            may_have_come: true,
        })
    }

    /// The address that it listens on.
    pub fn address(&self) -> Option<SocketAddr> {
        self.listener.local_addr().ok()
    }

    /// Waits for events, for so many milliseconds at most, and marks the peers that they are of. Tells whether standard input
    /// ended.
    pub(crate) fn wait<C: Control, W: Write>(
        &mut self,
        pause: u64,
        peers: &mut Peers<'_, TcpStream, W>,
        control: &mut C,
    ) -> Result<bool, LoopFault> {
        match self
            .poll
            .poll(&mut self.events, Some(Duration::from_millis(pause)))
        {
            Ok(()) => {}
            Err(error) if error.kind() == ErrorKind::Interrupted => return Ok(false),
            Err(_) => return Err(LoopFault::Wait),
        }
        let mut stops = false;
        for event in &self.events {
            match event.token() {
                CONTROL => stops = event.is_read_closed() || control.is_at_end(),
                PORT => self.may_have_come = true,
                Token(key) => peers.notice(key, event.is_read_closed() || event.is_error()),
            }
        }
        Ok(stops)
    }

    /// Watches the stream of a peer that was let in.
    fn watch<W: Write>(&self, key: usize, peers: &mut Peers<'_, TcpStream, W>) -> bool {
        match peers.stream_mut(key) {
            Some(stream) => self
                .poll
                .registry()
                .register(stream, Token(key), Interest::READABLE | Interest::WRITABLE)
                .is_ok(),
            None => true,
        }
    }

    /// Takes one connection: whether another may wait.
    fn accept<W: Write>(&mut self, peers: &mut Peers<'_, TcpStream, W>) -> bool {
        let stream = match self.listener.accept() {
            Ok((stream, _)) => stream,
            Err(error) => {
                self.may_have_come = error.kind() != ErrorKind::WouldBlock;
                return false;
            }
        };
        let _ = stream.set_nodelay(true);
        if let Some(key) = peers.let_in(stream)
            && !self.watch(key, peers)
        {
            peers.close(key);
        }
        true
    }

    /// Takes the connections that wait, up to some. Where the system refuses one, it is asked again in the next turn.
    pub(crate) fn accept_all<W: Write>(&mut self, peers: &mut Peers<'_, TcpStream, W>) {
        if !self.may_have_come {
            return;
        }
        for _ in 0..ACCEPTS {
            if !self.accept(peers) {
                return;
            }
        }
    }
}
