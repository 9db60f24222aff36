//! The terms of a link.

ghost use Rattle.std.specs.Prelude.{◌≡◌};
ghost use Rattle.iso_links.specs.Terms.{is_in_one, lets_connect, speaks_for};

use crate::limits::Limits;
use crate::network::Network;
use iso_wire::Header;
use std::net::{IpAddr, SocketAddr};

/// What is agreed on for a link: an address on which a host listens, and the peers that come there.
#[derive(Debug, Drop)]
pub struct Terms {
    /// The name by which the link is told of.
    pub name: String,
    /// The address on which the host listens.
    pub address: SocketAddr,
    /// The name or path of the table by which messages are written.
    pub table: String,
    /// How each frame counts its bytes.
    pub header: Header,
    /// How many bytes stand before the type of each message.
    pub skip: usize,
    /// The networks that may connect; where there are none, any address may.
    pub networks: Vec<Network>,
    /// The acquirers that the peers may speak for; where there are none, they may for any.
    pub acquirers: Vec<u64>,
    /// What is allowed to the peers.
    pub limits: Limits,
}

/// Whether an address is in one of the networks.
fn is_in_one(networks: &[Network], address: IpAddr) -> bool
    ensures { result ≡ is_in_one networks.now address }
{
    for network in networks {
        if network.has(address) {
            return true;
        }
    }
    false
}

impl Terms {
    /// Whether a peer of this address may connect.
    pub fn lets_connect(&self, address: IpAddr) -> bool
        // It is true exactly where the address is in one of the networks, or none is named.
        ensures { result ≡ lets_connect self.now.networks.items address }
    {
        self.networks.is_empty() || is_in_one(&self.networks, address)
    }

    /// Whether the peers may speak for an acquirer (element 32).
    pub fn speaks_for(&self, acquirer: u64) -> bool
        // It is true exactly where the acquirer is one of those that are named, or none is named.
        ensures { result ≡ speaks_for self.now.acquirers.items acquirer }
    {
        self.acquirers.is_empty() || self.acquirers.contains(&acquirer)
    }
}
