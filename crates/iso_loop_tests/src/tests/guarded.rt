//! Lines whose peers speak for one acquirer, and write bytes before each message.

use super::frames::{Gets, Sends};
use super::running::{ALL, Allowed, Part, Row, USUAL, check_rows};
use iso_lines::Closing;
use std::test::Fail;

const FOREIGN: &[Row] = &[Row {
    name: "an order of another acquirer",
    parts: &[part!(0, Sends::BehindBothGarbage, Gets::RefusedBehind)],
    turns: &[1],
    stops: true,
    closed: &[(1, 1, Closing::Stopped)],
    refused: &[],
    answered: &[],
    bad: (1, 1),
}];

#[test]
fn an_order_of_another_acquirer_is_refused(rt: HostRuntime) -> Result<(), Fail> {
    let allowed = Allowed {
        skip: 5,
        acquirer: Some(99_999),
        ..USUAL
    };
    check_rows(rt.alloc(), FOREIGN, &allowed)
}

const BEHIND: &[Row] = &[
    Row {
        name: "bytes before a message, and a frame in two pieces",
        parts: &[Part {
            link: 0,
            sends: Sends::BehindBoth,
            gives: 60,
            takes: 80,
            gets: Gets::GrantedBehind,
        }],
        turns: &[1, 2, 3, 4],
        stops: false,
        closed: &[],
        refused: &[],
        answered: &[(200, 0, 1)],
        bad: (0, 0),
    },
    Row {
        name: "a body that ends before its message",
        parts: &[part!(0, Sends::GarbageEchoBehind, Gets::EchoedBehind)],
        turns: &[1],
        stops: false,
        closed: &[],
        refused: &[],
        answered: &[],
        bad: (1, 0),
    },
];

#[test]
fn bytes_before_a_message_come_back(rt: HostRuntime) -> Result<(), Fail> {
    let allowed = Allowed {
        skip: 5,
        acquirer: Some(12_345),
        ..USUAL
    };
    check_rows(rt.alloc(), BEHIND, &allowed)
}
