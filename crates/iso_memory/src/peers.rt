//! A host without streams, a peer of it, and a host over its log.

use crate::ended::Ended;
use crate::known::{GRANTED, PURCHASE, accounts, balances, issuer};
use iso_durable::{DurableIssuer, MemoryLog};
use iso_host::{Handled, Host, HostTable, Link, Peer, PeerFault};
use iso_peers::{Connection, DurableHost};
use iso_table::Table;
use iso_wire::Header;
use std::alloc::Global;

/// A link of ASCII digits, and a host with an empty journal.
fn host_of(alloc: Global) -> Option<(Link, Host)> {
    let table = HostTable::new(Table::ascii87(alloc).ok()?).ok()?;
    Some((
        Link::new(table, Header::Ascii4),
        Host::new(alloc, issuer(alloc)?),
    ))
}

/// Whether the purchase was granted and posted once, and its answer is all that came out.
fn is_granted(host: &Host, out: &[u8]) -> bool {
    let is_posted = host.issuer().len() == 1 && balances(host.issuer()) == Some((4000, 4000));
    is_posted && out.starts_with(b"0090") && &out[4.min(out.len())..] == GRANTED
}

/// Answers the purchase, and answers it again where memory ran out.
fn answers_with(host: &mut Host, link: &Link, out: &mut Vec<u8>) -> Ended {
    let first = host.answer(link, PURCHASE, out);
    let was_refused = first.is_err();
    let is_kept = !was_refused || (out.is_empty() && host.issuer().len() <= 1);
    let told = match first {
        Ok(told) => Ok(told),
        Err(_) => host.answer(link, PURCHASE, out),
    };
    let is_told = matches!(
        told,
        Ok(Handled::Ordered {
            code: 0,
            seq: 1,
            ..
        })
    );
    Ended::of(was_refused, is_kept && is_told && is_granted(host, out))
}

/// Answers the purchase.
fn answers(alloc: Global) -> Ended {
    match host_of(alloc) {
        Some((link, mut host)) => answers_with(&mut host, &link, &mut Vec::new(alloc)),
        None => Ended::Unready,
    }
}

/// Hands a peer its bytes, and hands the same bytes again where memory ran out: whether that was so, and nothing else was
/// refused.
fn hand(peer: &mut Peer<'_>, host: &mut Host, bytes: &[u8], out: &mut Vec<u8>) -> Option<bool> {
    let mut rest = bytes;
    let mut was_refused = false;
    for _ in 0..200 {
        match peer.take(host, rest, out) {
            Ok(taken) => rest = &rest[taken.used..],
            Err(PeerFault::Memory) if !was_refused && out.is_empty() => was_refused = true,
            Err(_) => return None,
        }
    }
    if rest.is_empty() {
        Some(was_refused)
    } else {
        None
    }
}

/// Takes the frame of the purchase in two pieces.
fn takes_with(peer: &mut Peer<'_>, host: &mut Host, out: &mut Vec<u8>) -> Ended {
    let (front, back) = PURCHASE.split_at(50.min(PURCHASE.len()));
    let header = hand(peer, host, b"0082", out);
    let first = hand(peer, host, front, out);
    let second = hand(peer, host, back, out);
    let is_right = peer.may_end() && is_granted(host, out);
    match (header, first, second) {
        (Some(a), Some(b), Some(c)) => Ended::of(a || b || c, is_right),
        _ => Ended::Wrong,
    }
}

/// Takes the frame of the purchase.
fn takes(alloc: Global) -> Ended {
    match host_of(alloc) {
        Some((link, mut host)) => {
            let mut peer = Peer::new(alloc, &link);
            takes_with(&mut peer, &mut host, &mut Vec::new(alloc))
        }
        None => Ended::Unready,
    }
}

/// A host with an empty journal over a log in memory.
fn durable_host(alloc: Global) -> Option<DurableHost<MemoryLog>> {
    let accounts = accounts(alloc)?;
    match DurableIssuer::start(accounts, 5, &[], MemoryLog::new(alloc)) {
        Ok(durable) => Some(DurableHost::new(alloc, durable)),
        Err(_) => None,
    }
}

/// The frame of the purchase.
const FRAME: &[u8] =
    b"00820200722000010000800016411111111111111100000000000000100001020304050000070512345840";

/// Takes the frame, and takes what is left of it again where memory ran out. The answer waits.
fn takes_all_with(host: &mut DurableHost<MemoryLog>, peer: &mut Connection<'_>) -> Ended {
    let Ok(first) = host.take_all(peer, FRAME) else {
        return Ended::Wrong;
    };
    let was_refused = first.stopped == Some(PeerFault::Memory);
    let is_kept = !was_refused || peer.waiting() == 0;
    let rest = &FRAME[first.used.min(FRAME.len())..];
    let Ok(second) = host.take_all(peer, rest) else {
        return Ended::Wrong;
    };
    let is_posted = host.issuer().len() == 1 && balances(host.issuer()) == Some((4000, 4000));
    let is_taken = second.stopped.is_none() && peer.may_end() && peer.waiting() == 94;
    Ended::of(was_refused, is_kept && is_posted && is_taken)
}

/// Takes the frame of the purchase over a log.
fn takes_all(alloc: Global) -> Ended {
    let (Some((link, _)), Some(mut host)) = (host_of(alloc), durable_host(alloc)) else {
        return Ended::Unready;
    };
    takes_all_with(&mut host, &mut Connection::new(alloc, &link))
}

/// These calls by name, and how each ended.
pub fn rows(alloc: Global) -> [(&'static str, Ended); 3] {
    [
        ("Host::answer", answers(alloc)),
        ("Peer::take", takes(alloc)),
        ("DurableHost::take_all", takes_all(alloc)),
    ]
}
