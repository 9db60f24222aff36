//! The words about a host.

use iso_links::Limits;
use iso_wire::Header;
use rumpadol_cluster::ReplicaWords;
use rumpadol_journals::KeptWords;

/// The words about a stream of frames.
#[derive(Clone, Copy, Debug)]
pub struct StreamWords<'a> {
    /// The table's name or path.
    pub table: &'a str,
    /// The header of frames.
    pub header: Header,
}

/// The words about the one link of a host.
#[derive(Clone, Copy, Debug)]
pub struct ListenWords<'a> {
    /// The address on which the host listens.
    pub address: &'a str,
    /// How the peers write.
    pub stream: StreamWords<'a>,
    /// What is allowed to them.
    pub limits: Limits,
}

/// Where the peers of a host are.
#[derive(Clone, Copy, Debug)]
pub enum Place<'a> {
    /// One at the standard streams.
    Streams(StreamWords<'a>),
    /// At one address.
    Listen(ListenWords<'a>),
    /// At the addresses of the links' document at this path.
    Links(&'a str),
}

/// The words about a host.
#[derive(Clone, Copy, Debug)]
pub struct HostWords<'a> {
    /// Where its peers are.
    pub place: Place<'a>,
    /// Where it keeps its orders.
    pub kept: KeptWords<'a>,
    /// The path of the rules by which it misbehaves, if it does.
    pub script: Option<&'a str>,
    /// The path of the log of what happens.
    pub log: Option<&'a str>,
    /// The address at which the host tells its metrics.
    pub metrics: Option<&'a str>,
    /// The path of the file that stops the host.
    pub stop_file: Option<&'a str>,
    /// What is told about a journal on etcd.
    pub replica: ReplicaWords<'a>,
}
