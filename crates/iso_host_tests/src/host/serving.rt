//! Sessions whose bytes are known from outside.

use super::frames::{
    ECHO, ECHOED, FIVE_ANSWERED, FIVE_FRAMES, GRANTED, PURCHASE, THREE_PURCHASES, TWO_ECHOED,
    TWO_ECHOES, TWO_GRANTED,
};
use super::sessions::{NO_FRAMES, NOTHING, ONE_ANSWERED, Session, TWO_ANSWERED};
use iso_host::{Report, ServeFault};

/// Two echo tests, in reads of one frame.
const ECHO_TWICE: Session = Session {
    sent: TWO_ECHOES,
    moves: &[(59, 5000)],
    reads: 9,
    writes: 9,
    ended: Err(ServeFault::TooManyTurns),
    ..NOTHING
};

/// Nothing, in nine reads and nine writes at most.
const IN_NINE: Session = Session {
    moves: &[(200, 200)],
    reads: 9,
    writes: 9,
    turns: 99,
    ..NOTHING
};

/// A purchase that is entered before serving ends with a fault.
const ENTERED: Session = Session {
    sent: PURCHASE,
    ended: Err(ServeFault::Write),
    ledger: 4000,
    entries: 1,
    ..IN_NINE
};

/// A purchase whose answer is whole, by an issuer to which it was sent before.
const SENT_AGAIN: Session = Session {
    name: "a purchase whose answer was cut, sent again",
    sent: PURCHASE,
    ended: Ok(ONE_ANSWERED),
    written: GRANTED,
    flushes: 1,
    ledger: 4000,
    entries: 1,
    ..NOTHING
};

/// The sessions, each under a name that says what it is about.
pub const SESSIONS: &[Session] = &[
    // frames that are answered, one after the other
    Session {
        name: "five frames, one of them silent and one unreadable",
        sent: FIVE_FRAMES,
        moves: &[(1, 1), (7, 7), (86, 86), (5000, 5000)],
        ended: Ok(Report {
            frames: 5,
            answered: 3,
            silent: 1,
            unreadable: 1,
        }),
        written: FIVE_ANSWERED,
        flushes: 3,
        ledger: 4000,
        entries: 1,
        ..NOTHING
    },
    Session {
        name: "a response is written at once",
        sent: ECHO,
        reads: 2,
        writes: 1,
        turns: 3,
        ended: Ok(ONE_ANSWERED),
        written: ECHOED,
        left: Some(0),
        flushes: 1,
        ..NOTHING
    },
    Session {
        name: "interruptions take no turn",
        sent: ECHO,
        interruptions: 2,
        reads: 2,
        writes: 1,
        turns: 3,
        ended: Ok(ONE_ANSWERED),
        written: ECHOED,
        flushes: 1,
        ..NOTHING
    },
    Session {
        name: "nothing, in one read",
        reads: 1,
        writes: 0,
        turns: 1,
        ..NOTHING
    },
    Session {
        name: "a full journal answers 96",
        sent: THREE_PURCHASES,
        moves: &[(4096, 4096)],
        is_small: true,
        ended: Ok(Report {
            frames: 4,
            answered: 4,
            ..NO_FRAMES
        }),
        written: TWO_GRANTED,
        flushes: 4,
        ledger: 3000,
        entries: 2,
        ..IN_NINE
    },
    // faults
    Session {
        name: "a failing read",
        reads: 1,
        ended: Err(ServeFault::Read),
        written: GRANTED,
        flushes: 1,
        ..ENTERED
    },
    Session {
        name: "a failing write",
        moves: &[(200, 10)],
        writes: 1,
        written: b"0090021072",
        ..ENTERED
    },
    Session {
        name: "an answer that is cut and comes again",
        moves: &[(10, 10)],
        reads: 1000,
        writes: 1,
        turns: 1000,
        written: b"0090021072",
        then: Some(&SENT_AGAIN),
        ..ENTERED
    },
    Session {
        name: "a writer that takes nothing",
        moves: &[(200, 0)],
        ..ENTERED
    },
    Session {
        name: "a turn too few",
        turns: 1,
        ended: Err(ServeFault::TooManyTurns),
        ..ENTERED
    },
    Session {
        name: "no turn",
        turns: 0,
        ended: Err(ServeFault::TooManyTurns),
        ..IN_NINE
    },
    Session {
        name: "a failing flush is a failing write",
        sent: ECHO,
        moves: &[(5000, 5000)],
        fails_to_flush: true,
        ended: Err(ServeFault::Write),
        written: ECHOED,
        flushes: 1,
        ..IN_NINE
    },
    // a frame is answered before the next is read
    Session {
        name: "a read",
        turns: 1,
        ..ECHO_TWICE
    },
    Session {
        name: "a read and a write",
        turns: 2,
        written: ECHOED,
        flushes: 1,
        ..ECHO_TWICE
    },
    Session {
        name: "two reads and a write",
        turns: 3,
        written: ECHOED,
        flushes: 1,
        ..ECHO_TWICE
    },
    Session {
        name: "two reads and two writes",
        turns: 4,
        written: TWO_ECHOED,
        flushes: 2,
        ..ECHO_TWICE
    },
    Session {
        name: "and the read at the end",
        turns: 5,
        ended: Ok(TWO_ANSWERED),
        written: TWO_ECHOED,
        flushes: 2,
        ..ECHO_TWICE
    },
];
