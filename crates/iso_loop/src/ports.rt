//! The ports that a host listens on.

use crate::visitors::Visitors;
use iso_lines::{
    Closing, Control, Event, Lines, LoopFault, MOST_VISITORS, Moment, Pages, Peers, Unbound,
};
use mio::net::{TcpListener, TcpStream};
use mio::unix::SourceFd;
use mio::{Events, Interest, Poll, Token};
use std::alloc::{AllocError, Global};
use std::io::ErrorKind;
use std::net::{Net, SocketAddr};
use std::time::Duration;

/// The token of standard input.
const CONTROL: Token = Token(usize::MAX);

/// The token of the port for visitors.
const PAGES: Token = Token(usize::MAX - 1);

/// The tokens of listeners begin here, and those of visitors end.
const LISTENERS: usize = usize::MAX - 65_536;

/// The tokens of visitors begin here, and those of peers end.
const VISITORS: usize = usize::MAX - 131_072;

/// How many connections are taken from one port in one turn.
const ACCEPTS: usize = 1_024;

/// How many events are looked at together.
const EVENTS: usize = 1_024;

/// The ports that a host listens on, and what it waits with.
#[derive(Drop)]
pub struct Ports {
    poll: Poll,
    events: Events<Global>,
    listeners: Vec<Listener>,
    /// Where visitors come, if they may.
    pages: Option<Listener>,
    visitors: Visitors<TcpStream>,
}

/// One port.
#[derive(Drop)]
struct Listener {
    socket: TcpListener,
    /// Whether connections may wait that weren't taken.
    may_have_come: bool,
    /// Whether the system refused the last one.
    fails: bool,
}

/// How taking a connection went on.
#[derive(Clone, Copy, PartialEq, Eq)]
enum Accepted {
    /// One was taken, and more may wait.
    One,
    /// None waits.
    None,
    /// The system refused it.
    Failed,
}

/// Listens on an address.
fn listen<R: Net>(
    rt: &R,
    poll: &Poll,
    token: Token,
    address: SocketAddr,
) -> Result<Listener, Unbound> {
    let mut socket = match TcpListener::bind(rt, address) {
        Ok(socket) => socket,
        Err(error) => return Err(Unbound::of(error.kind())),
    };
    match poll
        .registry()
        .register(&mut socket, token, Interest::READABLE)
    {
        Ok(()) => Ok(Listener {
            socket,
            may_have_come: true,
            fails: false,
        }),
        Err(error) => Err(Unbound::of(error.kind())),
    }
}

/// Listens on each address, in their order.
fn listen_all<R: Net>(
    rt: &R,
    alloc: Global,
    poll: &Poll,
    addresses: &[SocketAddr],
) -> Result<Vec<Listener>, LoopFault> {
    let mut listeners = Vec::new(alloc);
    for (place, address) in addresses.iter().enumerate() {
        let token = Token(LISTENERS.saturating_add(place));
        match listen(rt, poll, token, *address) {
            Ok(listener) => listeners.push(listener)?,
            Err(why) => return Err(LoopFault::Listen {
                address: *address,
                why,
            }),
        }
    }
    Ok(listeners)
}

/// A connection may have come on a port, where there is one.
fn notice(listener: Option<&mut Listener>) {
    if let Some(listener) = listener {
        listener.may_have_come = true;
    }
}

impl Ports {
    /// Listens on each address. Standard input is watched for its end, where it is a pipe or a terminal.
    pub fn open<R: Net>(
        rt: &R,
        alloc: Global,
        addresses: &[SocketAddr],
    ) -> Result<Ports, LoopFault> {
        let poll = match Poll::new(rt) {
            Ok(poll) => poll,
            Err(_) => return Err(LoopFault::Wait),
        };
        let events = Events::with_capacity(alloc, EVENTS)?;
        let listeners = listen_all(rt, alloc, &poll, addresses)?;
        let _ = poll
            .registry()
            .register(&mut SourceFd(&0), CONTROL, Interest::READABLE);
        Ok(Ports {
            poll,
            events,
            listeners,
            pages: None,
            visitors: Visitors::new(alloc),
        })
    }

    /// Listens for visitors on an address, each of whom has one request answered by the pages.
    pub fn open_pages<R: Net>(&mut self, rt: &R, address: SocketAddr) -> Result<(), LoopFault> {
        match listen(rt, &self.poll, PAGES, address) {
            Ok(listener) => {
                self.pages = Some(listener);
                Ok(())
            }
            Err(why) => Err(LoopFault::Listen { address, why }),
        }
    }

    /// The address that it listens on for visitors.
    pub fn pages_address(&self) -> Option<SocketAddr> {
        match &self.pages {
            Some(listener) => listener.socket.local_addr().ok(),
            None => None,
        }
    }

    /// The addresses that it listens on.
    pub fn addresses(&self, alloc: Global) -> Result<Vec<SocketAddr>, AllocError> {
        let mut addresses = Vec::new(alloc);
        for listener in &self.listeners {
            if let Ok(address) = listener.socket.local_addr() {
                addresses.push(address)?;
            }
        }
        Ok(addresses)
    }

    /// Tells the addresses that it listens on.
    pub fn tell<N: Lines>(&self, now: Moment, log: &mut N) {
        for (link, listener) in self.listeners.iter().enumerate() {
            if let Ok(address) = listener.socket.local_addr() {
                log.tell(now.since_1970, &Event::Listening { link, address });
            }
        }
    }

    /// Waits for events, for so long at most, and marks the peers and ports that they are of. Tells whether standard input
    /// ended.
    pub fn wait<C: Control>(
        &mut self,
        pause: Duration,
        peers: &mut Peers<'_, TcpStream>,
        control: &mut C,
    ) -> Result<bool, LoopFault> {
        match self.poll.poll(&mut self.events, Some(pause)) {
            Ok(()) => {}
            Err(error) if error.kind() == ErrorKind::Interrupted => return Ok(false),
            Err(_) => return Err(LoopFault::Wait),
        }
        let mut stops = false;
        for event in &self.events {
            match event.token() {
                CONTROL => stops = event.is_read_closed() || control.is_at_end(),
                PAGES => notice(self.pages.as_mut()),
                Token(key) if key >= LISTENERS => notice(self.listeners.get_mut(key - LISTENERS)),
                Token(key) if key >= VISITORS => self.visitors.notice(key - VISITORS),
                Token(key) => peers.notice(key, event.is_read_closed() || event.is_error()),
            }
        }
        Ok(stops)
    }

    /// Watches the stream of a peer that was let in.
    fn watch(&self, key: usize, peers: &mut Peers<'_, TcpStream>) -> bool {
        match peers.stream_mut(key) {
            Some(stream) => self
                .poll
                .registry()
                .register(stream, Token(key), Interest::READABLE | Interest::WRITABLE)
                .is_ok(),
            None => true,
        }
    }

    /// Takes one connection of a port.
    fn accept_one<N: Lines>(
        &self,
        link: usize,
        peers: &mut Peers<'_, TcpStream>,
        now: Moment,
        log: &mut N,
    ) -> Accepted {
        let Some(listener) = self.listeners.get(link) else {
            return Accepted::None;
        };
        let (stream, address) = match listener.socket.accept() {
            Ok(accepted) => accepted,
            Err(error) if error.kind() == ErrorKind::WouldBlock => return Accepted::None,
            Err(_) => return Accepted::Failed,
        };
        let _ = stream.set_nodelay(true);
        if let Some(key) = peers.let_in(link, stream, address, now, log)
            && !self.watch(key, peers)
        {
            peers.close(key, Closing::Failed, now, log);
        }
        Accepted::One
    }

    /// Takes the connections that wait at a port.
    fn accept_from<N: Lines>(
        &mut self,
        link: usize,
        peers: &mut Peers<'_, TcpStream>,
        now: Moment,
        log: &mut N,
    ) {
        let mut last = Accepted::One;
        for _ in 0..ACCEPTS {
            last = self.accept_one(link, peers, now, log);
            if last != Accepted::One {
                break;
            }
        }
        let Some(listener) = self.listeners.get_mut(link) else {
            return;
        };
        let fails = last == Accepted::Failed;
        if fails && !listener.fails {
            log.tell(now.since_1970, &Event::NotAccepted { link });
        }
        listener.fails = fails;
        listener.may_have_come = last != Accepted::None;
    }

    /// Takes the connections that wait. Where the system refuses one, it is asked again in the next turn, and that is told
    /// once.
    pub fn accept_all<N: Lines>(
        &mut self,
        peers: &mut Peers<'_, TcpStream>,
        now: Moment,
        log: &mut N,
    ) {
        for link in 0..self.listeners.len() {
            let may_have_come = match self.listeners.get(link) {
                Some(listener) => listener.may_have_come,
                None => false,
            };
            if may_have_come {
                self.accept_from(link, peers, now, log);
            }
        }
    }

    /// Watches the stream of a visitor that was let in.
    fn watch_visitor(&mut self, key: usize) -> bool {
        let token = Token(VISITORS.saturating_add(key));
        match self.visitors.stream_mut(key) {
            Some(stream) => self
                .poll
                .registry()
                .register(stream, token, Interest::READABLE | Interest::WRITABLE)
                .is_ok(),
            None => true,
        }
    }

    /// Takes one visitor, and tells whether more may wait. One for whom there is no room is closed.
    fn accept_visitor(&mut self, now: u64) -> bool {
        let Some(listener) = &mut self.pages else {
            return false;
        };
        let stream = match listener.socket.accept() {
            Ok((stream, _)) => stream,
            Err(error) => {
                listener.may_have_come = error.kind() != ErrorKind::WouldBlock;
                return false;
            }
        };
        if let Some(key) = self.visitors.let_in(stream, now)
            && !self.watch_visitor(key)
        {
            self.visitors.close(key);
        }
        true
    }

    /// Takes the visitors that wait.
    fn accept_visitors(&mut self, now: u64) {
        let may_have_come = match &self.pages {
            Some(listener) => listener.may_have_come,
            None => false,
        };
        if !may_have_come {
            return;
        }
        for _ in 0..MOST_VISITORS {
            if !self.accept_visitor(now) {
                return;
            }
        }
    }

    /// Lets visitors in, answers their requests, and tells whether one goes on without a further event.
    pub fn visit<P: Pages>(&mut self, pages: &mut P, now: Moment) -> bool {
        self.accept_visitors(now.millis());
        self.visitors.visit_all(pages, now.millis())
    }
}
