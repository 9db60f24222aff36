//! What is asked of a front.

use iso_relay::Bounds;
use iso_wire::Header;

/// The words about a front before shards.
#[derive(Clone, Copy, Debug)]
pub struct FrontJob<'a> {
    /// The address on which it listens.
    pub address: &'a str,
    /// The path of the shards' document.
    pub shards: &'a str,
    /// The table's name or path.
    pub table: &'a str,
    /// The header of frames.
    pub header: Header,
    /// What is allowed to its acquirers.
    pub bounds: Bounds,
    /// The path of the file that stops it.
    pub stop_file: Option<&'a str>,
}
