//! The words about a front.

use iso_relay::Bounds;
use iso_wire::Header;
use std::net::SocketAddr;

/// The words about a front.
#[derive(Clone, Copy)]
pub struct FrontWords<'a> {
    /// The path of the shards' document.
    pub path: &'a str,
    /// The address on which the front listens.
    pub address: SocketAddr,
    /// The header of frames, of acquirers and of shards.
    pub header: Header,
    /// What is allowed to its acquirers.
    pub bounds: Bounds,
}
