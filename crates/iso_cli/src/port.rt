//! A host on a port of this machine.

ghost use Rattle.std.specs.Prelude.{◌≡◌, ◌≢◌, ◌≤◌, map};
ghost use Rattle.iso_table.specs.HostReady.{IsHostReady};
ghost use Rattle.iso_cli.specs.Listening.{AsksNoServe};

use crate::connections::serve_connections;
use crate::prepare::{Serving, prepare};
use crate::source::Source;
use crate::stop::{Stop, tell};
use iso_host::Outlet;
use std::alloc::Global;
use std::net::{Ipv4Addr, Net, TcpListener, TcpStream};

/// Serves the connections that a host is for, on its port of 127.0.0.1, and gives the status.
fn serve_host<N: Net<Listener = TcpListener, Stream = TcpStream>, O: Outlet, F: Outlet>(
    alloc: Global,
    net: &N,
    host: &mut Serving,
    output: &mut O,
    faults: &mut F,
) -> u8
    requires { IsHostReady host.old.table }
    ensures status { result ≤ 3 }
    ensures words { result ≢ 2 }
{
    let Ok(listener) = TcpListener::bind(net, (Ipv4Addr::LOCALHOST, host.port)) else {
        return tell(alloc, faults, Stop::Read);
    };
    serve_connections(
        alloc,
        &listener,
        &host.table,
        host.header,
        &mut host.issuer,
        host.count,
        output,
        faults,
    )
}

/// Serves the connections that the words ask for, on their port of 127.0.0.1, and gives the status. A port that can't
/// be bound is a device that can't be read.
pub fn serve_port<
    N: Net<Listener = TcpListener, Stream = TcpStream>,
    S: Source,
    O: Outlet,
    F: Outlet,
>(alloc: Global, net: &N, words: &[&str], source: &S, output: &mut O, faults: &mut F) -> u8
    // The status is 0 to 3.
    ensures status { result ≤ 3 }
    // With status 2, the words name no host.
    ensures words { result ≡ 2 → AsksNoServe (map (λ w. w.now) words.now) }
{
    match prepare(alloc, words, source, faults) {
        Ok(mut host) => serve_host(alloc, net, &mut host, output, faults),
        Err(status) => status,
    }
}
