//! The port that a front listens on.

use crate::acquirers::{Acquirers, Dial, token_of};
use iso_edge::listen;
use iso_lines::{Control, LoopFault};
use mio::net::{TcpListener, TcpStream};
use mio::unix::SourceFd;
use mio::{Events, Interest, Poll, Token};
use std::alloc::Global;
use std::io::{ErrorKind, Write};
use std::net::{Net, SocketAddr};
use std::time::Duration;

/// The token of standard input.
const CONTROL: Token = Token(usize::MAX);

/// The token of the port. Those of connections are below it.
const PORT: Token = Token(usize::MAX - 1);

/// How many connections are taken in one turn.
const ACCEPTS: usize = 1_024;

/// How many events are looked at together.
const EVENTS: usize = 1_024;

/// The port that a front listens on, and what it waits with.
#[derive(Drop)]
pub struct Port {
    poll: Poll,
    events: Events<Global>,
    listener: TcpListener,
    /// Whether connections may wait that weren't taken.
    may_have_come: bool,
}

/// What opens connections to shards, on sockets.
#[derive(Drop)]
pub(crate) struct Sockets<'p, R> {
    rt: &'p R,
    port: &'p Port,
}

impl<'p, R: Net> Dial<TcpStream> for Sockets<'p, R> {
    fn dial(&mut self, token: usize, address: SocketAddr) -> Option<TcpStream> {
        let Ok(mut stream) = TcpStream::connect(self.rt, address) else {
            return None;
        };
        let _ = stream.set_nodelay(true);
        if self.port.watch(&mut stream, token) {
            Some(stream)
        } else {
            None
        }
    }
}

impl Port {
    /// Listens on an address. Standard input is watched for its end, where it is a pipe or a terminal.
    pub fn open<R: Net>(rt: &R, alloc: Global, address: SocketAddr) -> Result<Port, LoopFault> {
        let Ok(poll) = Poll::new(rt) else {
            return Err(LoopFault::Wait);
        };
        let events = Events::with_capacity(alloc, EVENTS)?;
        let listener = listen(rt, &poll, PORT, address)?;
        let _ = poll
            .registry()
            .register(&mut SourceFd(&0), CONTROL, Interest::READABLE);
        Ok(Port {
            poll,
            events,
            listener,
            may_have_come: true,
        })
    }

    /// The address that it listens on.
    pub fn address(&self) -> Option<SocketAddr> {
        self.listener.local_addr().ok()
    }

    /// What opens connections to shards.
    pub(crate) fn sockets<'p, R: Net>(&'p self, rt: &'p R) -> Sockets<'p, R> {
        Sockets { rt, port: self }
    }

    /// Waits for events, for so many milliseconds at most, and marks the connections that they are of. Tells whether standard
    /// input ended.
    pub(crate) fn wait<C: Control, W: Write>(
        &mut self,
        pause: u64,
        acquirers: &mut Acquirers<'_, TcpStream, W>,
        control: &mut C,
    ) -> Result<bool, LoopFault> {
        match self
            .poll
            .poll(&mut self.events, Some(Duration::from_millis(pause)))
        {
            Ok(()) => {}
            Err(error) if error.kind() == ErrorKind::Interrupted => return Ok(false),
            Err(_) => return Err(LoopFault::Wait),
        }
        let mut stops = false;
        for event in &self.events {
            match event.token() {
                CONTROL => stops = event.is_read_closed() || control.is_at_end(),
                PORT => self.may_have_come = true,
                Token(token) => acquirers.notice(token, event.is_read_closed() || event.is_error()),
            }
        }
        Ok(stops)
    }

    /// Has the system watch a stream.
    fn watch(&self, stream: &mut TcpStream, token: usize) -> bool {
        self.poll
            .registry()
            .register(
                stream,
                Token(token),
                Interest::READABLE | Interest::WRITABLE,
            )
            .is_ok()
    }

    /// Watches the stream of an acquirer that was let in.
    fn watch_acquirer<W: Write>(
        &self,
        key: usize,
        acquirers: &mut Acquirers<'_, TcpStream, W>,
    ) -> bool {
        match acquirers.stream_mut(key) {
            Some(stream) => self.watch(stream, token_of(key, 0)),
            None => true,
        }
    }

    /// Takes one connection: whether another may wait.
    fn accept<W: Write>(&mut self, acquirers: &mut Acquirers<'_, TcpStream, W>, now: u64) -> bool {
        let stream = match self.listener.accept() {
            Ok((stream, _)) => stream,
            Err(error) => {
                self.may_have_come = error.kind() != ErrorKind::WouldBlock;
                return false;
            }
        };
        let _ = stream.set_nodelay(true);
        if let Some(key) = acquirers.let_in(stream, now)
            && !self.watch_acquirer(key, acquirers)
        {
            acquirers.close(key);
        }
        true
    }

    /// Takes the connections that wait, up to some. Where the system refuses one, it is asked again in the next turn.
    pub(crate) fn accept_all<W: Write>(
        &mut self,
        acquirers: &mut Acquirers<'_, TcpStream, W>,
        now: u64,
    ) {
        if !self.may_have_come {
            return;
        }
        for _ in 0..ACCEPTS {
            if !self.accept(acquirers, now) {
                return;
            }
        }
    }
}
