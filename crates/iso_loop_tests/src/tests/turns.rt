//! Turns in which peers come and go.

use super::frames::{Gets, Sends};
use super::running::{ALL, Allowed, Part, Row, USUAL, check_rows};
use iso_lines::Closing;
use std::test::Fail;

const TURNS: &[Row] = &[
    Row {
        name: "two peers in one turn",
        parts: &[
            part!(0, Sends::Echo, Gets::Echoed),
            part!(0, Sends::Purchase, Gets::Granted),
        ],
        turns: &[1],
        stops: false,
        closed: &[],
        refused: &[],
        answered: &[(200, 0, 1)],
        bad: (0, 0),
    },
    Row {
        name: "a silent peer",
        parts: &[part!(0, Sends::Nothing, Gets::Nothing)],
        turns: &[1, 599_999, 600_000],
        stops: false,
        closed: &[(1, 600_000, Closing::Idle)],
        refused: &[],
        answered: &[],
        bad: (0, 0),
    },
    Row {
        name: "a peer of twenty bytes a turn",
        parts: &[Part {
            link: 0,
            sends: Sends::Echo,
            gives: 20,
            takes: 25,
            gets: Gets::Echoed,
        }],
        turns: &[1, 2, 3, 4, 5],
        stops: false,
        closed: &[],
        refused: &[],
        answered: &[],
        bad: (0, 0),
    },
    Row {
        name: "a byte now and then",
        parts: &[Part {
            link: 0,
            sends: Sends::Echo,
            gives: 1,
            takes: ALL,
            gets: Gets::Nothing,
        }],
        turns: &[1, 10_001, 20_001, 30_000, 30_201],
        stops: false,
        closed: &[(1, 30_201, Closing::UnfinishedFrame)],
        refused: &[],
        answered: &[],
        bad: (0, 0),
    },
    Row {
        name: "half a frame and gone",
        parts: &[
            part!(0, Sends::HalfEnd, Gets::Nothing),
            part!(0, Sends::Purchase, Gets::Granted),
        ],
        turns: &[1],
        stops: false,
        closed: &[(1, 1, Closing::CutFrame)],
        refused: &[],
        answered: &[(200, 0, 1)],
        bad: (0, 0),
    },
    Row {
        name: "a frame and gone",
        parts: &[part!(0, Sends::EchoEnd, Gets::Echoed)],
        turns: &[1],
        stops: false,
        closed: &[(1, 1, Closing::Ended)],
        refused: &[],
        answered: &[],
        bad: (0, 0),
    },
    Row {
        name: "a connection that fails",
        parts: &[
            part!(0, Sends::HalfFailure, Gets::Nothing),
            part!(0, Sends::Echo, Gets::Echoed),
        ],
        turns: &[1],
        stops: false,
        closed: &[(1, 1, Closing::Failed)],
        refused: &[],
        answered: &[],
        bad: (0, 0),
    },
    Row {
        name: "garbage, and then an echo test",
        parts: &[part!(0, Sends::GarbageEcho, Gets::Echoed)],
        turns: &[1],
        stops: false,
        closed: &[],
        refused: &[],
        answered: &[],
        bad: (1, 0),
    },
    Row {
        name: "a header that isn't of digits",
        parts: &[
            part!(0, Sends::EchoBadHeader, Gets::Echoed),
            part!(0, Sends::Purchase, Gets::Granted),
        ],
        turns: &[1],
        stops: false,
        closed: &[(1, 1, Closing::BadHeader)],
        refused: &[],
        answered: &[(200, 0, 1)],
        bad: (0, 0),
    },
    Row {
        name: "a reversal of another network's purchase",
        parts: &[
            part!(1, Sends::BcdPurchase, Gets::BcdGranted),
            part!(0, Sends::ReversalLater, Gets::Reversed),
        ],
        turns: &[1, 2],
        stops: false,
        closed: &[],
        refused: &[],
        answered: &[(200, 0, 1), (420, 0, 2)],
        bad: (0, 0),
    },
    Row {
        name: "a stop",
        parts: &[
            part!(0, Sends::Echo, Gets::Echoed),
            part!(0, Sends::Nothing, Gets::Nothing),
        ],
        turns: &[1],
        stops: true,
        closed: &[(1, 1, Closing::Stopped), (2, 1, Closing::Stopped)],
        refused: &[],
        answered: &[],
        bad: (0, 0),
    },
];

#[test]
fn turns_are_taken(rt: HostRuntime) -> Result<(), Fail> {
    check_rows(rt.alloc(), TURNS, &USUAL)
}

const TOGETHER: &[Row] = &[Row {
    name: "the orders of two peers",
    parts: &[
        part!(0, Sends::Purchase, Gets::Granted),
        part!(1, Sends::BcdPurchase, Gets::BcdGrantedSecond),
    ],
    turns: &[1],
    stops: false,
    closed: &[],
    refused: &[],
    answered: &[(200, 0, 1), (200, 0, 2)],
    bad: (0, 0),
}];

#[test]
fn the_orders_of_a_turn_are_kept_with_one_sync(rt: HostRuntime) -> Result<(), Fail> {
    let allowed = Allowed { syncs: 1, ..USUAL };
    check_rows(rt.alloc(), TOGETHER, &allowed)
}

const SHORT: &[Row] = &[
    Row {
        name: "bytes behind a short read wait for an event",
        parts: &[part!(0, Sends::EchoPurchase, Gets::Echoed)],
        turns: &[1],
        stops: false,
        closed: &[],
        refused: &[],
        answered: &[],
        bad: (0, 0),
    },
    Row {
        name: "an end behind a short read waits for an event",
        parts: &[part!(0, Sends::EchoEnd, Gets::Echoed)],
        turns: &[1, 2],
        stops: false,
        closed: &[(1, 2, Closing::Ended)],
        refused: &[],
        answered: &[],
        bad: (0, 0),
    },
];

#[test]
fn a_short_read_empties_a_stream(rt: HostRuntime) -> Result<(), Fail> {
    let allowed = Allowed {
        ends: false,
        ..USUAL
    };
    check_rows(rt.alloc(), SHORT, &allowed)
}

const FAILING: &[Row] = &[Row {
    name: "a log that fails",
    parts: &[
        part!(0, Sends::Purchase, Gets::Nothing),
        part!(0, Sends::Echo, Gets::Nothing),
    ],
    turns: &[1, 2],
    stops: false,
    closed: &[],
    refused: &[],
    answered: &[(200, 0, 1)],
    bad: (0, 0),
}];

#[test]
fn nothing_is_written_where_the_log_fails(rt: HostRuntime) -> Result<(), Fail> {
    let allowed = Allowed { syncs: 0, ..USUAL };
    check_rows(rt.alloc(), FAILING, &allowed)
}
