//! The loop of a host with rules.

use crate::edge::Port;
use crate::peers::Peers;
use iso_edge::{Looks, moment};
use iso_host::Link;
use iso_lines::{Control, LoopFault};
use iso_script::Scripted;
use iso_script_peers::{Bounds, PAUSE, pause_of};
use mio::net::TcpStream;
use std::alloc::Global;
use std::io::Write;
use std::net::Net;
use std::time::Clock;

/// Serves the peers that come on a port as the rules say, until it is stopped: then it ends after the turn. A rule that holds
/// an answer back holds up no other. What happens is told to the writer, a line of JSON each, without an account number.
pub fn serve_script<R: Net + Clock, C: Control, W: Write + Drop>(
    rt: &R,
    alloc: Global,
    scripted: &mut Scripted,
    link: &Link,
    bounds: Bounds,
    port: &mut Port,
    control: &mut C,
    told: W,
) -> Result<(), LoopFault> {
    let mut peers: Peers<'_, TcpStream, W> = Peers::new(alloc, link, bounds, told);
    let mut looks = Looks::every(PAUSE);
    let mut pause = 0u64;
    for _ in 0..u64::MAX {
        let has_ended = port.wait(pause, &mut peers, control)?;
        let now = moment(rt)?;
        port.accept_all(&mut peers);
        peers.hear_all(scripted, now);
        peers.deliver_due(now);
        let goes_on = peers.settle();
        if looks.stop(control, has_ended, now).is_some() {
            return Ok(());
        }
        pause = pause_of(goes_on, peers.next_due(), now);
    }
    Err(LoopFault::Wait)
}
