//! The way to the members of one cluster.
ghost use Rattle.std.specs.Prelude.{None};

use iso_etcd::{Dial, Link, Member, Request, Socket, Tcp, Term, Timed, Watch};
use serde_json::Value;
use std::alloc::Global;
use std::io::{Read, Write};
use std::net::Net;
use std::time::Clock;
use std::{io, str};

/// What a member is asked that tells its cluster.
const STATUS: &[u8] = b"/v3/maintenance/status";

/// A connection that is lent.
#[derive(Drop)]
struct Lent<'s, S> {
    stream: &'s mut S,
}

impl<'s, S: Read> Read for Lent<'s, S> {
    ghost remaining = { λ s. None };

    fn read(&mut self, buffer: &mut [u8]) -> io::Result<usize> {
        self.stream.read(buffer)
    }
}

impl<'s, S: Write> Write for Lent<'s, S> {
    ghost contents = { λ s. None };

    fn write(&mut self, bytes: &[u8]) -> io::Result<usize> {
        self.stream.write(bytes)
    }

    fn flush(&mut self) -> io::Result<()> {
        self.stream.flush()
    }
}

impl<'s, S: Timed> Timed for Lent<'s, S> {
    fn set_wait(&mut self, milliseconds: u64) -> bool {
        self.stream.set_wait(milliseconds)
    }
}

/// The number of the cluster that the body of a member's answer tells.
pub fn cluster_in(alloc: Global, body: &[u8]) -> Option<u64> {
    let text = str::from_utf8(body).ok()?;
    let answer = Value::from_str(alloc, text).ok()?;
    let number = answer.get("header")?.get("cluster_id")?.as_str()?;
    number.parse::<u64>().ok()
}

/// The number of the cluster that a member tells over a connection, which can then be used on.
fn cluster_over<W: Watch, S: Timed>(
    alloc: Global,
    watch: &W,
    term: Term,
    member: &Member,
    stream: &mut S,
) -> Option<u64> {
    let mut link = Link::new(alloc, Lent { stream });
    let request = Request {
        host: member.text.as_bytes(),
        token: None,
        path: STATUS,
        body: b"{}",
    };
    let response = link.ask(alloc, watch, term, &request).ok()?;
    if !link.is_idle() {
        return None;
    }
    cluster_in(alloc, response.body.as_slice())
}

/// A connection to a member, in so many milliseconds, and the number of the cluster that it tells.
pub fn reach<'n, N: Net + Clock>(
    alloc: Global,
    tcp: &Tcp<'n, N>,
    member: &Member,
    milliseconds: u64,
) -> Option<(Socket<N::Stream>, u64)> {
    let end = tcp.now()?.saturating_add(milliseconds);
    let mut stream = tcp.dial(member, milliseconds)?;
    let term = Term {
        end,
        each: milliseconds,
    };
    let cluster = cluster_over(alloc, tcp, term, member, &mut stream)?;
    Some((stream, cluster))
}

/// The way to the members of one cluster: a member of another one isn't connected to, also where it takes the place of one that
/// was known.
#[derive(Drop)]
pub struct OneCluster<'n, N: Net + Clock> {
    alloc: Global,
    tcp: Tcp<'n, N>,
    /// The number of the cluster.
    cluster: u64,
}

impl<'n, N: Net + Clock> OneCluster<'n, N> {
    /// To the members of the cluster of this number.
    pub fn new(alloc: Global, net: &'n N, cluster: u64) -> OneCluster<'n, N> {
        OneCluster {
            alloc,
            tcp: Tcp::new(net),
            cluster,
        }
    }
}

impl<'n, N: Net + Clock> Watch for OneCluster<'n, N> {
    fn now(&self) -> Option<u64> {
        self.tcp.now()
    }
}

impl<'n, N: Net + Clock> Dial for OneCluster<'n, N> {
    type Stream = Socket<N::Stream>;

    fn dial(&self, member: &Member, milliseconds: u64) -> Option<Socket<N::Stream>> {
        match reach(self.alloc, &self.tcp, member, milliseconds) {
            Some((stream, cluster)) if cluster == self.cluster => Some(stream),
            _ => None,
        }
    }
}
