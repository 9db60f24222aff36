//! The words about a host with rules.

use iso_script_peers::Bounds;
use std::net::SocketAddr;

/// The words about a host with rules.
#[derive(Clone, Copy)]
pub struct ScriptWords<'a> {
    /// The path of the rules' document.
    pub path: &'a str,
    /// The address on which the host listens.
    pub address: SocketAddr,
    /// What is allowed to its peers.
    pub bounds: Bounds,
}
