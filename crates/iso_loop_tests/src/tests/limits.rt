//! Peers that are refused, or not read from.

use super::frames::{Gets, Sends};
use super::running::{ALL, Allowed, Part, Row, USUAL, check_rows};
use iso_lines::{Closing, Refusal};
use std::test::Fail;

const UNREAD: &[Row] = &[Row {
    name: "a peer that never reads",
    parts: &[
        Part {
            link: 0,
            sends: Sends::EchoPurchaseLater,
            gives: ALL,
            takes: 0,
            gets: Gets::Nothing,
        },
        part!(0, Sends::Echo, Gets::Echoed),
    ],
    turns: &[1, 1_000, 30_000, 30_001],
    stops: false,
    closed: &[(1, 30_001, Closing::DoesNotRead)],
    refused: &[],
    answered: &[],
    bad: (0, 0),
}];

#[test]
fn a_peer_that_never_reads_is_not_read_from(rt: HostRuntime) -> Result<(), Fail> {
    let allowed = Allowed {
        waiting: 50,
        ..USUAL
    };
    check_rows(rt.alloc(), UNREAD, &allowed)
}

const CROWDED: &[Row] = &[Row {
    name: "a peer too many",
    parts: &[
        part!(0, Sends::Echo, Gets::Echoed),
        part!(0, Sends::Echo, Gets::Nothing),
        part!(1, Sends::BcdPurchase, Gets::BcdGranted),
    ],
    turns: &[1],
    stops: false,
    closed: &[],
    refused: &[Refusal::Peers],
    answered: &[(200, 0, 1)],
    bad: (0, 0),
}];

#[test]
fn no_more_peers_than_allowed_are_let_in(rt: HostRuntime) -> Result<(), Fail> {
    let allowed = Allowed { peers: 1, ..USUAL };
    check_rows(rt.alloc(), CROWDED, &allowed)
}

const STRANGE: &[Row] = &[Row {
    name: "an address of no network",
    parts: &[part!(0, Sends::Echo, Gets::Nothing)],
    turns: &[1],
    stops: false,
    closed: &[],
    refused: &[Refusal::Network],
    answered: &[],
    bad: (0, 0),
}];

#[test]
fn only_its_networks_may_connect(rt: HostRuntime) -> Result<(), Fail> {
    let allowed = Allowed {
        network: Some("10.0.0.0/8"),
        ..USUAL
    };
    check_rows(rt.alloc(), STRANGE, &allowed)
}
