//! The turns of a host over streams, a log and a clock in memory, as a row tells them.

use super::frames::{Gets, Sends, bytes_of, coming_of};
use crate::{Script, Seen};
use iso_durable::DurableIssuer;
use iso_fakes::check_of;
use iso_host::{HostTable, Link};
use iso_issuer::Accounts;
use iso_lines::{Closing, Line, Moment, Peers, Refusal};
use iso_links::{Limits, Network, Terms};
use iso_peers::DurableHost;
use iso_peers_tests::ToldLog;
use iso_table::Table;
use iso_wire::Header;
use std::alloc::{AllocError, Global};
use std::net::{IpAddr, Ipv4Addr, SocketAddr};
use std::test::Fail;

const ACCOUNTS: &[u8] =
    b"{\"accounts\":[{\"currency\":\"840\",\"opening\":5000,\"pan\":\"4111111111111111\"}]}";

/// As many bytes as come, or as are to go, in one turn.
pub(super) const ALL: usize = 100_000;

/// What a peer does, and what it is to get.
#[derive(Clone, Copy)]
pub(super) struct Part {
    /// Its line: 0 is of ASCII digits, 1 of BCD.
    pub(super) link: usize,
    pub(super) sends: Sends,
    /// How many bytes it gives in a turn.
    pub(super) gives: usize,
    /// How many bytes it takes in a turn.
    pub(super) takes: usize,
    /// What it gets.
    pub(super) gets: Gets,
}

/// What happens in some turns.
pub(super) struct Row {
    pub(super) name: &'static str,
    pub(super) parts: &'static [Part],
    /// The moments of the turns, in milliseconds.
    pub(super) turns: &'static [u64],
    /// Whether all peers are closed then.
    pub(super) stops: bool,
    /// Which peers are closed, when and why.
    pub(super) closed: &'static [(u64, u64, Closing)],
    /// Why peers are refused.
    pub(super) refused: &'static [Refusal],
    /// The message type, the code and the place of each order that is answered.
    pub(super) answered: &'static [(u16, u8, u32)],
    /// How many frames are unreadable, and how many orders are of other acquirers.
    pub(super) bad: (u32, u32),
}

/// What a host allows.
#[derive(Clone, Copy)]
pub(super) struct Allowed {
    pub(super) skip: usize,
    pub(super) acquirer: Option<u64>,
    pub(super) network: Option<&'static str>,
    pub(super) peers: usize,
    pub(super) waiting: usize,
    /// How many syncs the log takes before it fails.
    pub(super) syncs: u32,
    /// Whether each event says that the peer's end came.
    pub(super) ends: bool,
}

/// All that is usual.
pub(super) const USUAL: Allowed = Allowed {
    skip: 0,
    acquirer: None,
    network: None,
    peers: 10,
    waiting: 1_000,
    syncs: 100,
    ends: true,
};

/// A link of ASCII digits, or of BCD.
fn link(alloc: Global, is_bcd: bool) -> Option<Link> {
    let (table, header) = if is_bcd {
        (Table::bcd87(alloc).ok()?, Header::Binary2)
    } else {
        (Table::ascii87(alloc).ok()?, Header::Ascii4)
    };
    match HostTable::new(table) {
        Ok(table) => Some(Link::new(table, header)),
        Err(_) => None,
    }
}

/// A host with an empty journal, whose log fails after so many syncs.
fn host(alloc: Global, syncs: u32) -> Option<DurableHost<ToldLog>> {
    let Ok(accounts) = Accounts::from_json(alloc, ACCOUNTS) else {
        return None;
    };
    match DurableIssuer::start(accounts, 5, &[], ToldLog::new(alloc, syncs)) {
        Ok(durable) => Some(DurableHost::new(alloc, durable)),
        Err(_) => None,
    }
}

/// Where a peer comes from.
fn address() -> SocketAddr {
    SocketAddr::new(IpAddr::V4(Ipv4Addr::new(192, 0, 2, 7)), 8583)
}

/// The network that may connect, where not each may.
fn networks(alloc: Global, allowed: &Allowed) -> Result<Vec<Network>, AllocError> {
    let mut networks = Vec::new(alloc);
    if let Some(text) = allowed.network
        && let Some(network) = Network::from_text(text)
    {
        networks.push(network)?;
    }
    Ok(networks)
}

/// The acquirer that peers may speak for, where not for each.
fn acquirers(alloc: Global, allowed: &Allowed) -> Result<Vec<u64>, AllocError> {
    let mut acquirers = Vec::new(alloc);
    if let Some(acquirer) = allowed.acquirer {
        acquirers.push(acquirer)?;
    }
    Ok(acquirers)
}

/// Terms that allow so much.
fn terms(alloc: Global, allowed: &Allowed, header: Header) -> Result<Terms, AllocError> {
    let networks = networks(alloc, allowed)?;
    let acquirers = acquirers(alloc, allowed)?;
    Ok(Terms {
        name: String::new(alloc),
        address: address(),
        table: String::new(alloc),
        header,
        skip: allowed.skip,
        networks,
        acquirers,
        limits: Limits {
            peers: allowed.peers,
            waiting: allowed.waiting,
            ..Limits::DEFAULT
        },
    })
}

/// A moment.
fn at(millis: u64) -> Moment {
    Moment {
        micros: millis.saturating_mul(1_000),
        since_1970: millis,
    }
}

/// Lets the peers in.
fn let_all<'t>(
    peers: &mut Peers<'_, Script<'t>>,
    parts: &[Part],
    outs: &'t mut [Vec<u8>],
    keys: &mut Vec<usize>,
    seen: &mut Seen,
) {
    for (part, out) in parts.iter().zip(outs.iter_mut()) {
        let script = Script::new(coming_of(part.sends), part.gives, part.takes, out);
        if let Some(key) = peers.let_in(part.link, script, address(), at(0), seen) {
            let _ = keys.push(key);
        }
    }
}

/// Something may come of each peer, and its end too or not.
fn begin(peers: &mut Peers<'_, Script<'_>>, keys: &[usize], ends: bool) {
    for key in keys {
        peers.notice(*key, ends);
    }
}

/// A turn, unless the log fails.
fn turn(
    peers: &mut Peers<'_, Script<'_>>,
    host: &mut DurableHost<ToldLog>,
    now: Moment,
    seen: &mut Seen,
) {
    peers.read_all(host, now);
    let _ = host.keep();
    peers.write_all(host, now);
    peers.tell_frames(now, now, seen);
    let _ = peers.settle(now, seen);
}

/// Lets the peers in, and takes the turns.
fn take_turns<'t>(
    row: &Row,
    ends: bool,
    peers: &mut Peers<'_, Script<'t>>,
    host: &mut DurableHost<ToldLog>,
    outs: &'t mut [Vec<u8>],
    keys: &mut Vec<usize>,
    seen: &mut Seen,
) {
    let_all(peers, row.parts, outs, keys, seen);
    let mut last = 0;
    for now in row.turns {
        begin(peers, keys, ends);
        turn(peers, host, at(*now), seen);
        last = *now;
    }
    if row.stops {
        peers.close_all(at(last), seen);
    }
}

/// As many places for what is written as there are peers.
fn places(alloc: Global, count: usize) -> Result<Vec<Vec<u8>>, AllocError> {
    let mut outs = Vec::new(alloc);
    for _ in 0..count {
        outs.push(Vec::new(alloc))?;
    }
    Ok(outs)
}

/// Whether each peer got what it is to get.
fn got_all(parts: &[Part], outs: &[Vec<u8>]) -> bool {
    parts
        .iter()
        .zip(outs.iter())
        .all(|(part, out)| out.as_slice() == bytes_of(part.gets))
}

/// What isn't as the row says.
fn wrong_in(row: &Row, outs: &[Vec<u8>], seen: &Seen) -> Option<&'static str> {
    if !got_all(row.parts, outs) {
        return Some("what the peers got");
    }
    if seen.closed.as_slice() != row.closed {
        return Some("which peers were closed, when and why");
    }
    if seen.refused.as_slice() != row.refused {
        return Some("why peers were refused");
    }
    if seen.answered.as_slice() != row.answered {
        return Some("the answers that were told");
    }
    if (seen.unreadable, seen.foreign) != row.bad {
        return Some("the frames that were told as bad");
    }
    None
}

/// What isn't as the row says, after its turns at this host.
fn wrong_at(
    alloc: Global,
    row: &Row,
    ends: bool,
    lines: &[Line<'_>],
    host: &mut DurableHost<ToldLog>,
    outs: &mut [Vec<u8>],
) -> Option<&'static str> {
    let mut seen = Seen::new(alloc);
    if !serve(alloc, row, ends, lines, host, outs, &mut seen) {
        return Some("peers on these lines");
    }
    wrong_in(row, outs, &seen)
}

/// The turns of a row are taken, if there is memory for its peers.
fn serve(
    alloc: Global,
    row: &Row,
    ends: bool,
    lines: &[Line<'_>],
    host: &mut DurableHost<ToldLog>,
    outs: &mut [Vec<u8>],
    seen: &mut Seen,
) -> bool {
    match Peers::new(alloc, lines) {
        Ok(mut peers) => {
            take_turns(
                row,
                ends,
                &mut peers,
                host,
                outs,
                &mut Vec::new(alloc),
                seen,
            );
            true
        }
        Err(_) => false,
    }
}

/// What isn't as the row says, after its turns at a new host.
fn wrong_of(
    alloc: Global,
    row: &Row,
    allowed: &Allowed,
    lines: &[Line<'_>],
    outs: &mut [Vec<u8>],
) -> Option<&'static str> {
    match host(alloc, allowed.syncs) {
        Some(mut host) => wrong_at(alloc, row, allowed.ends, lines, &mut host, outs),
        None => Some("a host"),
    }
}

/// Ends the test where the row isn't as it says, on these lines.
fn check_row(alloc: Global, row: &Row, allowed: &Allowed, lines: &[Line<'_>]) -> Result<(), Fail> {
    let mut outs = places(alloc, row.parts.len())?;
    let wrong = wrong_of(alloc, row, allowed, lines, outs.as_mut_slice());
    check_of(wrong.is_none(), row.name, wrong.unwrap_or("all"))
}

/// Ends the test where a row isn't as it says, on these lines.
fn check_on(
    alloc: Global,
    rows: &[Row],
    allowed: &Allowed,
    lines: &[Line<'_>],
) -> Result<(), Fail> {
    for row in rows {
        check_row(alloc, row, allowed, lines)?;
    }
    Ok(())
}

/// A link of ASCII digits and one of BCD, and what is agreed on of each.
#[derive(Drop)]
struct Sides {
    ascii: Link,
    bcd: Link,
    own: Terms,
    other: Terms,
}

/// Both links, at a host that allows so much.
fn both_links(alloc: Global, allowed: &Allowed) -> Option<Sides> {
    Some(Sides {
        ascii: link(alloc, false)?,
        bcd: link(alloc, true)?,
        own: terms(alloc, allowed, Header::Ascii4).ok()?,
        other: terms(alloc, allowed, Header::Binary2).ok()?,
    })
}

/// Ends the test where a row isn't as it says, on lines of both links.
fn check_over(alloc: Global, rows: &[Row], allowed: &Allowed, sides: &Sides) -> Result<(), Fail> {
    let lines = [
        Line {
            link: &sides.ascii,
            terms: &sides.own,
        },
        Line {
            link: &sides.bcd,
            terms: &sides.other,
        },
    ];
    check_on(alloc, rows, allowed, &lines)
}

/// Ends the test where a row isn't as it says, at a host that allows so much.
pub(super) fn check_rows(alloc: Global, rows: &[Row], allowed: &Allowed) -> Result<(), Fail> {
    match both_links(alloc, allowed) {
        Some(sides) => check_over(alloc, rows, allowed, &sides),
        None => Err(Fail::new("two links")),
    }
}
