//! Peers that share a host: streams that are cut anywhere, peers of two links in every order, and one that goes away inside
//! a frame.

use super::frames::{FIVE_ANSWERED, FIVE_FRAMES, PURCHASE, has_entered, issuer};
use super::peers::{host, link, take};
use iso_fakes::check;
use iso_host::{Host, HostTable, Link, Peer};
use iso_table::Table;
use iso_wire::Header;
use std::alloc::Global;
use std::test::Fail;

/// A purchase of 10.00 in two pieces, and the frame that grants it as the first, the second or the third order.
#[derive(Clone, Copy)]
struct Purchase {
    front: &'static [u8],
    rest: &'static [u8],
    granted: [&'static [u8]; 3],
}

/// Under the ASCII table, behind four digits, and cut in the header.
const FIRST: Purchase = Purchase {
    front: b"00",
    rest: b"820200722000010000800016411111111111111100000000000000100001020304050000070512345840",
    granted: [
        b"0090021072200001060080001641111111111111110000000000000010000102030405000007051234500000100840",
        b"0090021072200001060080001641111111111111110000000000000010000102030405000007051234500000200840",
        b"0090021072200001060080001641111111111111110000000000000010000102030405000007051234500000300840",
    ],
};

/// The same of another trace number, and cut in the body.
const SECOND: Purchase = Purchase {
    front: b"00820200722000010000800016411111111111111100000000",
    rest: b"000000100001020304050000100512345840",
    granted: [
        b"0090021072200001060080001641111111111111110000000000000010000102030405000010051234500000100840",
        b"0090021072200001060080001641111111111111110000000000000010000102030405000010051234500000200840",
        b"0090021072200001060080001641111111111111110000000000000010000102030405000010051234500000300840",
    ],
};

/// Under the BCD table, behind two bytes, and cut in the bitmap.
const THIRD: Purchase = Purchase {
    front: b"\x00\x2B\x02\x00\x72\x20\x00",
    rest: b"\x01\x00\x00\x80\x00\x16\x41\x11\x11\x11\x11\x11\x11\x11\x00\x00\x00\x00\x00\x00\x00\x10\x00\
\x01\x02\x03\x04\x05\x00\x00\x12\x05\x01\x23\x45840",
    granted: [
        b"\x00\x33\x02\x10\x72\x20\x00\x01\x06\x00\x80\x00\x16\x41\x11\x11\x11\x11\x11\x11\x11\x00\x00\x00\
\x00\x00\x00\x00\x10\x00\x01\x02\x03\x04\x05\x00\x00\x12\x05\x01\x23\x4500000100840",
        b"\x00\x33\x02\x10\x72\x20\x00\x01\x06\x00\x80\x00\x16\x41\x11\x11\x11\x11\x11\x11\x11\x00\x00\x00\
\x00\x00\x00\x00\x10\x00\x01\x02\x03\x04\x05\x00\x00\x12\x05\x01\x23\x4500000200840",
        b"\x00\x33\x02\x10\x72\x20\x00\x01\x06\x00\x80\x00\x16\x41\x11\x11\x11\x11\x11\x11\x11\x00\x00\x00\
\x00\x00\x00\x00\x10\x00\x01\x02\x03\x04\x05\x00\x00\x12\x05\x01\x23\x4500000300840",
    ],
};

/// One of the peers: its purchase, how many pieces of it came, and what came out.
#[derive(Drop)]
struct Line<'l> {
    peer: Peer<'l>,
    purchase: Purchase,
    pieces: u32,
    out: Vec<u8>,
}

/// A line on that link, before its first byte.
fn line_of<'l>(alloc: Global, link: &'l Link, purchase: Purchase) -> Line<'l> {
    Line {
        peer: Peer::new(alloc, link),
        purchase,
        pieces: 0,
        out: Vec::new(alloc),
    }
}

/// A link of BCD.
fn bcd_link(alloc: Global) -> Option<Link> {
    match HostTable::new(Table::bcd87(alloc).ok()?) {
        Ok(table) => Some(Link::new(table, Header::Binary2)),
        Err(_) => None,
    }
}

/// Hands all the bytes to a peer, and tells whether it took them.
fn hand(peer: &mut Peer<'_>, host: &mut Host, bytes: &[u8], out: &mut Vec<u8>) -> bool {
    let mut rest = bytes;
    for _ in bytes {
        let Ok(used) = take(peer, host, rest, out) else {
            return false;
        };
        let Some(behind) = rest.get(used..) else {
            return false;
        };
        if behind.is_empty() {
            return true;
        }
        rest = behind;
    }
    rest.is_empty()
}

/// Hands a line its next piece, where one is left. What came out then has to be the answer at that place in the journal.
fn goes_on(line: &mut Line<'_>, host: &mut Host) -> bool {
    let purchase = line.purchase;
    match line.pieces {
        0 => {
            line.pieces = 1;
            hand(&mut line.peer, host, purchase.front, &mut line.out) && line.out.is_empty()
        }
        1 => {
            line.pieces = 2;
            let taken = hand(&mut line.peer, host, purchase.rest, &mut line.out);
            let wanted = match host.issuer().len() {
                1 => purchase.granted[0],
                2 => purchase.granted[1],
                _ => purchase.granted[2],
            };
            taken && line.out.as_slice() == wanted
        }
        _ => true,
    }
}

/// Three lines, one piece each time: whose it is tell the digits of the order, to the base of three. Then come the pieces
/// that are left.
fn answers_three(
    order: usize,
    first: &mut Line<'_>,
    second: &mut Line<'_>,
    third: &mut Line<'_>,
    host: &mut Host,
) -> bool {
    for power in [1, 3, 9, 27, 81, 243] {
        let went_on = match order / power % 3 {
            0 => goes_on(first, host),
            1 => goes_on(second, host),
            _ => goes_on(third, host),
        };
        if !went_on {
            return false;
        }
    }
    goes_on(first, host)
        && goes_on(first, host)
        && goes_on(second, host)
        && goes_on(second, host)
        && goes_on(third, host)
        && goes_on(third, host)
}

/// A link of ASCII digits, and one of BCD.
fn links(alloc: Global) -> Option<(Link, Link)> {
    match (link(alloc), bcd_link(alloc)) {
        (Some(ascii), Some(bcd)) => Some((ascii, bcd)),
        _ => None,
    }
}

/// Whether three peers of two links get their own answers of that host, in that order of their pieces.
fn share(alloc: Global, ascii: &Link, bcd: &Link, host: &mut Host, order: usize) -> bool {
    let mut first = line_of(alloc, ascii, FIRST);
    let mut second = line_of(alloc, ascii, SECOND);
    let mut third = line_of(alloc, bcd, THIRD);
    answers_three(order, &mut first, &mut second, &mut third, host)
}

/// Whether three peers of two links get their own answers, in that order of their pieces. Where the third comes last, the
/// others share the host as two.
fn shares(alloc: Global, ascii: &Link, bcd: &Link, order: usize) -> bool {
    match host(alloc) {
        Some(mut host) => {
            share(alloc, ascii, bcd, &mut host, order) && has_entered(host.issuer(), 2000, 3)
        }
        None => false,
    }
}

/// Whether a peer that gets its stream cut there is answered by that host as by a whole one.
fn answers_cut(peer: &mut Peer<'_>, host: &mut Host, at: usize, out: &mut Vec<u8>) -> bool {
    let (front, rest) = FIVE_FRAMES.split_at(at.min(FIVE_FRAMES.len()));
    hand(peer, host, front, out)
        && hand(peer, host, rest, out)
        && peer.may_end()
        && out.as_slice() == FIVE_ANSWERED
        && has_entered(host.issuer(), 4000, 1)
}

/// Whether a stream that is cut there is answered as a whole one.
fn is_answered_cut(alloc: Global, link: &Link, at: usize) -> bool {
    match host(alloc) {
        Some(mut host) => {
            let mut out = Vec::new(alloc);
            answers_cut(&mut Peer::new(alloc, link), &mut host, at, &mut out)
        }
        None => false,
    }
}

/// Whether a peer goes away inside a frame, and nothing came out for it.
fn goes_away(alloc: Global, ascii: &Link, host: &mut Host, cut: usize) -> bool {
    let mut out = Vec::new(alloc);
    let (front, _) = PURCHASE.split_at(cut.min(PURCHASE.len()));
    hand(&mut Peer::new(alloc, ascii), host, front, &mut out) && out.is_empty()
}

/// Whether a peer that goes away between the pieces of the other leaves it as if it had never been.
fn leaves(alloc: Global, ascii: &Link, other: &mut Line<'_>, host: &mut Host, cut: usize) -> bool {
    goes_on(other, host)
        && goes_away(alloc, ascii, host, cut)
        && goes_on(other, host)
        && has_entered(host.issuer(), 4000, 1)
}

/// Whether a peer that goes away inside a frame leaves the other as if it had never been.
fn leaves_others(alloc: Global, ascii: &Link, bcd: &Link, cut: usize) -> bool {
    match host(alloc) {
        Some(mut host) => {
            let mut other = line_of(alloc, bcd, THIRD);
            leaves(alloc, ascii, &mut other, &mut host, cut)
        }
        None => false,
    }
}

/// Cuts a stream at every place.
fn check_cut(alloc: Global, ascii: &Link) -> Result<(), Fail> {
    for at in 0..FIVE_FRAMES.len() + 1 {
        if !is_answered_cut(alloc, ascii, at) {
            return Err(Fail::new(format_args!("a stream that is cut at {at}")));
        }
    }
    Ok(())
}

/// Has three peers share a host in every order.
fn check_orders(alloc: Global, ascii: &Link, bcd: &Link) -> Result<(), Fail> {
    for order in 0..729 {
        if !shares(alloc, ascii, bcd, order) {
            return Err(Fail::new(format_args!("three peers in the order {order}")));
        }
    }
    Ok(())
}

/// Has a peer go away at every place of a frame.
fn check_away(alloc: Global, ascii: &Link, bcd: &Link) -> Result<(), Fail> {
    for cut in 1..PURCHASE.len() {
        if !leaves_others(alloc, ascii, bcd, cut) {
            return Err(Fail::new(format_args!("a peer that goes away at {cut}")));
        }
    }
    Ok(())
}

#[test]
fn a_stream_is_cut_at_every_place(rt: HostRuntime) -> Result<(), Fail> {
    match link(rt.alloc()) {
        Some(ascii) => check_cut(rt.alloc(), &ascii),
        None => check(false, "no link"),
    }
}

#[test]
fn three_peers_share_a_host_in_every_order(rt: HostRuntime) -> Result<(), Fail> {
    match links(rt.alloc()) {
        Some((ascii, bcd)) => check_orders(rt.alloc(), &ascii, &bcd),
        None => check(false, "no link"),
    }
}

#[test]
fn a_peer_that_goes_away_leaves_the_others(rt: HostRuntime) -> Result<(), Fail> {
    match links(rt.alloc()) {
        Some((ascii, bcd)) => check_away(rt.alloc(), &ascii, &bcd),
        None => check(false, "no link"),
    }
}
