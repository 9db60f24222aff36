//! Members over TCP.
use crate::dial::{Dial, Timed, Watch};
use crate::member::Member;
use std::io;
use std::io::{Read, Write};
use std::net::{HostAddrs, Net, OpenStream, SocketAddr, TcpStream, ToSocketAddrs};
use std::time::{Clock, Duration};

/// Connects to members by the system's sockets, and tells the time by its clock.
#[derive(Drop)]
pub struct Tcp<'n, N: Net + Clock> {
    net: &'n N,
}

/// A connection over TCP.
#[derive(Drop)]
pub struct Socket<S: Read + Write + OpenStream + Drop> {
    stream: S,
}

impl<'n, N: Net + Clock> Tcp<'n, N> {
    /// By these sockets and this clock.
    pub fn new(net: &'n N) -> Tcp<'n, N> {
        Tcp { net }
    }
}

impl<'n, N: Net + Clock> Watch for Tcp<'n, N> {
    fn now(&self) -> Option<u64> {
        let time = self.net.monotonic().ok()?;
        u64::try_from(time.as_millis()).ok()
    }
}

impl<S: Read + Write + OpenStream + Drop> Read for Socket<S> {
    ghost remaining = { λ s. S.remaining s.stream };

    fn read(&mut self, buffer: &mut [u8]) -> io::Result<usize> {
        self.stream.read(buffer)
    }
}

impl<S: Read + Write + OpenStream + Drop> Write for Socket<S> {
    ghost contents = { λ s. S.contents s.stream };

    fn write(&mut self, bytes: &[u8]) -> io::Result<usize> {
        self.stream.write(bytes)
    }

    fn flush(&mut self) -> io::Result<()> {
        self.stream.flush()
    }
}

impl<S: Read + Write + OpenStream + Drop> Timed for Socket<S> {
    fn set_wait(&mut self, milliseconds: u64) -> bool {
        let wait = Some(Duration::from_millis(milliseconds));
        self.stream.set_read_timeout(wait).is_ok() && self.stream.set_write_timeout(wait).is_ok()
    }
}

impl<'n, N: Net + Clock> Tcp<'n, N> {
    /// How long is left until the end.
    fn time_left(&self, end: u64) -> Option<Duration> {
        let left = end.checked_sub(self.now()?)?;
        Some(Duration::from_millis(left))
    }

    /// Connects to one address, before the end of the wait.
    fn connect(&self, address: SocketAddr, end: u64) -> Option<Socket<N::Stream>> {
        let wait = self.time_left(end)?;
        match TcpStream::connect_timeout(self.net, &address, wait) {
            Ok(stream) => {
                let _ = stream.set_nodelay(true);
                Some(Socket { stream })
            }
            Err(_) => None,
        }
    }

    /// Connects to the first address that takes a connection, before the end of the wait.
    fn connect_first(&self, addresses: HostAddrs, end: u64) -> Option<Socket<N::Stream>> {
        let mut socket = None;
        for address in addresses {
            socket = self.connect(address, end);
            if socket.is_some() {
                break;
            }
        }
        socket
    }
}

impl<'n, N: Net + Clock> Dial for Tcp<'n, N> {
    type Stream = Socket<N::Stream>;

    fn dial(&self, member: &Member, milliseconds: u64) -> Option<Socket<N::Stream>> {
        let end = self.now()?.saturating_add(milliseconds);
        let host = (member.host.as_str(), member.port);
        match host.to_socket_addrs(self.net) {
            Ok(addresses) => self.connect_first(addresses, end),
            Err(_) => None,
        }
    }
}
