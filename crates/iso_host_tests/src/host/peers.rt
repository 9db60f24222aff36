//! What a host tells a log, and what a peer refuses.

use super::frames::{ECHO, GRANTED, PURCHASE, issuer};
use iso_fakes::{check, check_of};
use iso_host::{BodyFault, Handled, Host, HostTable, Link, Peer, PeerFault};
use iso_table::Table;
use iso_wire::{Header, UnpackCause};
use std::alloc::Global;
use std::test::Fail;

/// A link of ASCII digits.
pub fn link(alloc: Global) -> Option<Link> {
    match HostTable::new(Table::ascii87(alloc).ok()?) {
        Ok(table) => Some(Link::new(table, Header::Ascii4)),
        Err(_) => None,
    }
}

/// A host with an empty journal.
pub fn host(alloc: Global) -> Option<Host> {
    match issuer(alloc, false) {
        Some(issuer) => Some(Host::new(alloc, issuer)),
        None => None,
    }
}

/// How many bytes a peer takes of these.
pub fn take(
    peer: &mut Peer<'_>,
    host: &mut Host,
    bytes: &[u8],
    out: &mut Vec<u8>,
) -> Result<usize, PeerFault> {
    let taken = peer.take(host, bytes, out)?;
    Ok(taken.used)
}

/// What a log is told of a body.
fn told(host: &mut Host, link: &Link, body: &[u8], out: &mut Vec<u8>) -> Option<Handled> {
    match host.answer(link, body, out) {
        Ok(handled) => Some(handled),
        Err(_) => None,
    }
}

/// Whether an order is told with its key, its code and its place.
fn tells_order(handled: Option<Handled>) -> bool {
    match handled {
        Some(Handled::Ordered { key, code, seq }) => key.stan == 7 && code == 0 && seq == 1,
        _ => false,
    }
}

/// Whether a body is told as one that ends inside its message.
fn tells_cut(handled: Option<Handled>) -> bool {
    match handled {
        Some(Handled::Unreadable(BodyFault::Stops(fault))) => fault.cause == UnpackCause::Short,
        _ => false,
    }
}

/// Which of the bodies isn't told as it should be.
fn told_otherwise(host: &mut Host, link: &Link, out: &mut Vec<u8>) -> Option<&'static str> {
    if !tells_order(told(host, link, &PURCHASE[4..], out)) {
        return Some("an order");
    }
    if told(host, link, &ECHO[4..], out) != Some(Handled::Replied { code: 0 }) {
        return Some("an echo test");
    }
    if told(host, link, &GRANTED[4..], out) != Some(Handled::Silent) {
        return Some("a response");
    }
    if !tells_cut(told(host, link, &ECHO[4..40], out)) {
        return Some("a cut message");
    }
    None
}

/// Whether a header that isn't of digits is refused.
fn refuses_header(alloc: Global, link: &Link, host: &mut Host, out: &mut Vec<u8>) -> bool {
    let mut peer = Peer::new(alloc, link);
    take(&mut peer, host, b"00x5", out) == Err(PeerFault::BadHeader)
}

/// What that host doesn't tell a log as it should.
fn wrong_of(alloc: Global, link: &Link, host: &mut Host) -> Option<&'static str> {
    let mut out = Vec::new(alloc);
    let wrong = told_otherwise(host, link, &mut out);
    if refuses_header(alloc, link, host, &mut out) {
        wrong
    } else {
        Some("a header that isn't of digits")
    }
}

/// What isn't told to a log as it should be.
fn wrong_in_log(alloc: Global, link: &Link) -> Option<&'static str> {
    match host(alloc) {
        Some(mut host) => wrong_of(alloc, link, &mut host),
        None => Some("no host"),
    }
}

/// Checks what is told to a log.
fn check_log(alloc: Global, link: &Link) -> Result<(), Fail> {
    let wrong = wrong_in_log(alloc, link);
    check_of(wrong.is_none(), "a log", wrong.unwrap_or("all"))
}

#[test]
fn a_log_is_told_what_came(rt: HostRuntime) -> Result<(), Fail> {
    match link(rt.alloc()) {
        Some(link) => check_log(rt.alloc(), &link),
        None => check(false, "no link"),
    }
}
