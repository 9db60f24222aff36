//! What happens at a front, and what is to be so.

use super::frames::{
    ECHO, ECHOED, GARBAGE, NAMELESS, NO_FRAME, NO_REQUEST, NORTH, NORTH_GRANTED, NOWHERE, OTHERS,
    REFUSED, REVERSAL, REVERSED, SOUTH, SOUTH_GRANTED,
};

/// What happens, and what is to be so.
#[derive(Clone, Copy)]
pub(super) enum Step {
    /// The acquirer sends bytes.
    Asks(&'static [u8]),
    /// A shard sends bytes.
    Says(usize, &'static [u8]),
    /// A shard's connection ends.
    Ends(usize),
    /// The acquirer got these bytes, behind those that it had.
    Gets(&'static [u8]),
    /// A shard got these, over the connection that is open now.
    Got(usize, &'static [u8]),
    /// There is no connection to a shard.
    Lost(usize),
    /// So many milliseconds pass.
    Pass(u64),
    /// So many connections were opened until now.
    Opened(usize),
    /// The acquirer is connected or not.
    Connected(bool),
    /// The acquirer takes bytes or not.
    Takes(bool),
}

/// A name, and what happens.
pub(super) struct Row {
    pub name: &'static str,
    pub steps: &'static [Step],
}

/// Days of a front of one acquirer and two shards.
pub(super) const ROWS: &[Row] = &[
    Row {
        name: "each purchase goes to its shard",
        steps: &[
            Step::Asks(NORTH),
            Step::Got(0, NORTH),
            Step::Lost(1),
            Step::Opened(1),
            Step::Asks(SOUTH),
            Step::Got(1, SOUTH),
            Step::Got(0, b""),
            Step::Opened(2),
            Step::Says(1, SOUTH_GRANTED),
            Step::Gets(SOUTH_GRANTED),
            Step::Says(0, NORTH_GRANTED),
            Step::Gets(NORTH_GRANTED),
        ],
    },
    Row {
        name: "an account of nobody and an echo test go to the first",
        steps: &[
            Step::Asks(NOWHERE),
            Step::Got(0, NOWHERE),
            Step::Asks(ECHO),
            Step::Got(0, ECHO),
            Step::Says(0, ECHOED),
            Step::Gets(ECHOED),
            Step::Opened(1),
        ],
    },
    Row {
        name: "what wants no answer goes nowhere",
        steps: &[
            Step::Asks(NO_REQUEST),
            Step::Asks(GARBAGE),
            Step::Opened(0),
            Step::Connected(true),
        ],
    },
    Row {
        name: "a reversal goes to all, and is answered once all say the same",
        steps: &[
            Step::Asks(REVERSAL),
            Step::Got(0, REVERSAL),
            Step::Got(1, REVERSAL),
            Step::Says(0, REVERSED),
            Step::Gets(b""),
            Step::Says(1, REVERSED),
            Step::Gets(REVERSED),
            Step::Says(1, REVERSED),
            Step::Gets(b""),
        ],
    },
    Row {
        name: "a reversal that shards answer differently is not answered",
        steps: &[
            Step::Asks(REVERSAL),
            Step::Says(0, REVERSED),
            Step::Says(1, OTHERS),
            Step::Gets(b""),
            Step::Asks(REVERSAL),
            Step::Says(1, REVERSED),
            Step::Gets(b""),
            Step::Says(0, REVERSED),
            Step::Gets(REVERSED),
        ],
    },
    Row {
        name: "what was said before a repeat does not count",
        steps: &[
            Step::Asks(REVERSAL),
            Step::Says(0, REVERSED),
            Step::Asks(REVERSAL),
            Step::Says(1, REVERSED),
            Step::Gets(b""),
            Step::Says(0, REVERSED),
            Step::Gets(REVERSED),
        ],
    },
    Row {
        name: "the last answer of a shard counts",
        steps: &[
            Step::Asks(REVERSAL),
            Step::Says(0, OTHERS),
            Step::Says(0, REVERSED),
            Step::Says(1, REVERSED),
            Step::Gets(REVERSED),
        ],
    },
    Row {
        name: "an answer to no reversal is not passed on",
        steps: &[
            Step::Asks(SOUTH),
            Step::Says(1, REVERSED),
            Step::Gets(b""),
            Step::Says(1, SOUTH_GRANTED),
            Step::Gets(SOUTH_GRANTED),
        ],
    },
    Row {
        name: "a reversal that names no payment has the first one's answer",
        steps: &[
            Step::Asks(NAMELESS),
            Step::Got(0, NAMELESS),
            Step::Lost(1),
            Step::Says(0, REFUSED),
            Step::Gets(REFUSED),
        ],
    },
    Row {
        name: "a shard that is lost is tried again after a second",
        steps: &[
            Step::Asks(SOUTH),
            Step::Opened(1),
            Step::Ends(1),
            Step::Lost(1),
            Step::Asks(SOUTH),
            Step::Opened(1),
            Step::Connected(true),
            Step::Pass(1_000),
            Step::Asks(SOUTH),
            Step::Opened(2),
            Step::Got(1, SOUTH),
        ],
    },
    Row {
        name: "what came before the end of a shard is passed on",
        steps: &[
            Step::Asks(SOUTH),
            Step::Says(1, SOUTH_GRANTED),
            Step::Ends(1),
            Step::Gets(SOUTH_GRANTED),
            Step::Lost(1),
        ],
    },
    Row {
        name: "an acquirer that sends no frames is closed",
        steps: &[Step::Asks(NO_FRAME), Step::Connected(false)],
    },
    Row {
        name: "a shard that sends no frames is let go",
        steps: &[
            Step::Asks(SOUTH),
            Step::Says(1, NO_FRAME),
            Step::Lost(1),
            Step::Gets(b""),
            Step::Connected(true),
        ],
    },
    Row {
        name: "half a frame waits for the rest",
        steps: &[
            Step::Asks(b"0055080082200000000000000400"),
            Step::Opened(0),
            Step::Asks(b"0000000000000102030405000001301"),
            Step::Got(0, ECHO),
        ],
    },
    Row {
        name: "an acquirer that is silent for long is closed",
        steps: &[
            Step::Pass(59_999),
            Step::Connected(true),
            Step::Pass(1),
            Step::Connected(false),
        ],
    },
    Row {
        name: "an acquirer that takes nothing is not answered further",
        steps: &[
            Step::Takes(false),
            Step::Asks(SOUTH),
            Step::Says(1, SOUTH_GRANTED),
            Step::Says(1, SOUTH_GRANTED),
            Step::Says(1, SOUTH_GRANTED),
            Step::Gets(b""),
            Step::Takes(true),
            Step::Gets(SOUTH_GRANTED),
            Step::Gets(SOUTH_GRANTED),
            Step::Gets(SOUTH_GRANTED),
        ],
    },
];
