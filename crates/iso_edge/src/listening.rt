//! A port on an address.

use iso_lines::{LoopFault, Unbound};
use mio::net::TcpListener;
use mio::{Interest, Poll, Token};
use std::net::{Net, SocketAddr};

/// Listens on an address, and has the system watch the port under this token. `Listen` says why the address isn't to be had.
/// `Wait` says that the system doesn't watch the port, which is closed then.
pub fn listen<R: Net>(
    rt: &R,
    poll: &Poll,
    token: Token,
    address: SocketAddr,
) -> Result<TcpListener, LoopFault> {
    let mut listener = match TcpListener::bind(rt, address) {
        Ok(listener) => listener,
        Err(error) => {
            let why = Unbound::of(error.kind());
            return Err(LoopFault::Listen { address, why });
        }
    };
    match poll
        .registry()
        .register(&mut listener, token, Interest::READABLE)
    {
        Ok(()) => Ok(listener),
        Err(_) => Err(LoopFault::Wait),
    }
}
