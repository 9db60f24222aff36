use crate::ToldLog;
use iso_durable::DurableIssuer;
use iso_fakes::check_of;
use iso_host::{HostTable, Link};
use iso_issuer::Accounts;
use iso_peers::{Connection, DurableHost, TurnFault};
use iso_table::Table;
use iso_wire::Header;
use std::alloc::Global;
use std::test::Fail;

/// A frame of a purchase of 10.00 in two pieces, and that of the response.
const PURCHASE: &[u8] = b"00820200722000010000800016411111111111111100";

const REST: &[u8] = b"000000000000100001020304050000070512345840";

const GRANTED: &[u8] =
    b"0090021072200001060080001641111111111111110000000000000010000102030405000007051234500000100840";

/// A frame of an echo test, and that of its response.
const ECHO: &[u8] = b"00550800822000000000000004000000000000000102030405000001301";

const ECHOED: &[u8] = b"0057081082200000020000000400000000000000010203040500000100301";

const ACCOUNTS: &[u8] =
    b"{\"accounts\":[{\"currency\":\"840\",\"opening\":5000,\"pan\":\"4111111111111111\"}]}";

/// A link of ASCII digits.
fn link(alloc: Global) -> Option<Link> {
    match HostTable::new(Table::ascii87(alloc).ok()?) {
        Ok(table) => Some(Link::new(table, Header::Ascii4)),
        Err(_) => None,
    }
}

/// A host with an empty journal, whose log fails after so many syncs.
fn host(alloc: Global, syncs: u32) -> Option<DurableHost<ToldLog>> {
    let Ok(accounts) = Accounts::from_json(alloc, ACCOUNTS) else {
        return None;
    };
    match DurableIssuer::start(accounts, 5, &[], ToldLog::new(alloc, syncs)) {
        Ok(durable) => Some(DurableHost::new(alloc, durable)),
        Err(_) => None,
    }
}

/// Whether a peer's bytes are all taken.
fn takes(host: &mut DurableHost<ToldLog>, peer: &mut Connection<'_>, bytes: &[u8]) -> bool {
    match host.take_all(peer, bytes) {
        Ok(turned) => turned.used == bytes.len() && turned.stopped.is_none(),
        Err(_) => false,
    }
}

/// Whether these bytes may be written to a peer.
fn hands_out(host: &DurableHost<ToldLog>, peer: &Connection<'_>, bytes: &[u8]) -> bool {
    match host.hand_out(peer) {
        Some(ready) => ready == bytes,
        None => false,
    }
}

/// Whether nothing may be written to a peer.
fn holds_back(host: &DurableHost<ToldLog>, peer: &Connection<'_>) -> bool {
    host.hand_out(peer).is_none()
}

/// Whether the log has one order, with its answer.
fn has_one(host: &DurableHost<ToldLog>) -> bool {
    match host.log.answers.first() {
        Some(answer) => {
            answer.code == 0 && host.log.answers.len() == 1 && host.log.log.kept.len() == 1
        }
        None => false,
    }
}

/// What isn't as it should be where two peers come in one turn.
fn wrong_in_turn(
    host: &mut DurableHost<ToldLog>,
    one: &mut Connection<'_>,
    other: &mut Connection<'_>,
) -> Option<&'static str> {
    if !takes(host, one, PURCHASE) || !takes(host, other, ECHO) || !takes(host, one, REST) {
        return Some("taking");
    }
    if !holds_back(host, one) || !holds_back(host, other) {
        return Some("an answer before the sync");
    }
    if host.keep().is_err() || !has_one(host) {
        return Some("keeping");
    }
    if !hands_out(host, one, GRANTED) || !hands_out(host, other, ECHOED) {
        return Some("the answers");
    }
    None
}

/// What isn't as it should be where the log fails.
fn wrong_in_failure(
    host: &mut DurableHost<ToldLog>,
    peer: &mut Connection<'_>,
) -> Option<&'static str> {
    if host.turn(peer, ECHO).is_err() || !hands_out(host, peer, ECHOED) {
        return Some("an echo test, which waits for no sync");
    }
    peer.written(peer.waiting());
    let failed = takes(host, peer, PURCHASE) && host.turn(peer, REST).is_err();
    if !failed || !holds_back(host, peer) {
        return Some("an answer after a failed sync");
    }
    match host.take(peer, ECHO) {
        Err(TurnFault::Log) => None,
        _ => Some("a host that goes on"),
    }
}

/// What isn't as it should be of two peers in one turn.
fn wrong_of_two(alloc: Global, link: &Link) -> Option<&'static str> {
    let Some(mut host) = host(alloc, 1) else {
        return Some("no host");
    };
    let mut one = Connection::new(alloc, link);
    let mut other = Connection::new(alloc, link);
    wrong_in_turn(&mut host, &mut one, &mut other)
}

/// What isn't as it should be of a log that fails.
fn wrong_of_failure(alloc: Global, link: &Link) -> Option<&'static str> {
    let Some(mut host) = host(alloc, 0) else {
        return Some("no host");
    };
    let mut peer = Connection::new(alloc, link);
    wrong_in_failure(&mut host, &mut peer)
}

#[test]
fn two_peers_share_a_turn(rt: HostRuntime) -> Result<(), Fail> {
    let alloc = rt.alloc();
    let link = link(alloc).ok_or("no link")?;
    let wrong = wrong_of_two(alloc, &link);
    check_of(wrong.is_none(), "two peers", wrong.unwrap_or("all"))
}

#[test]
fn nothing_is_handed_out_after_a_failure(rt: HostRuntime) -> Result<(), Fail> {
    let alloc = rt.alloc();
    let link = link(alloc).ok_or("no link")?;
    let wrong = wrong_of_failure(alloc, &link);
    check_of(wrong.is_none(), "a log that fails", wrong.unwrap_or("all"))
}
