//! The loop of a front.

use crate::acquirers::Acquirers;
use crate::edge::Port;
use iso_edge::{Looks, moment};
use iso_front::Shards;
use iso_lines::{Control, LoopFault, PAUSE};
use iso_relay::Bounds;
use iso_table::Table;
use iso_wire::Header;
use mio::net::TcpStream;
use std::alloc::Global;
use std::io::Write;
use std::net::Net;
use std::time::Clock;

/// What a front has: the shards, and how frames are read and written.
#[derive(Clone, Copy)]
pub struct Front<'f> {
    /// The shards.
    pub shards: &'f Shards,
    /// The table of the messages.
    pub table: &'f Table,
    /// The header of the frames.
    pub header: Header,
    /// What is allowed.
    pub bounds: Bounds,
}

/// Serves the acquirers that come on a port: what they ask goes to the shards, and their answers come back. Until it is stopped:
/// then it ends after the turn. What happens is told to the writer, a line of JSON each, without an account number.
pub fn serve_front<R: Net + Clock, C: Control, W: Write + Drop>(
    rt: &R,
    alloc: Global,
    front: Front<'_>,
    port: &mut Port,
    control: &mut C,
    told: W,
) -> Result<(), LoopFault> {
    let mut acquirers: Acquirers<'_, TcpStream, W> = Acquirers::new(alloc, front, told);
    let mut looks = Looks::every(PAUSE);
    let mut pause = 0u64;
    for _ in 0..u64::MAX {
        let has_ended = port.wait(pause, &mut acquirers, control)?;
        let now = moment(rt)?;
        port.accept_all(&mut acquirers, now);
        acquirers.hear_all(now, &mut port.sockets(rt));
        let goes_on = acquirers.settle(now);
        if looks.stop(control, has_ended, now).is_some() {
            return Ok(());
        }
        pause = if goes_on { 0 } else { PAUSE };
    }
    Err(LoopFault::Wait)
}
