//! What happens between both ends.
use super::*;
use Happens::{Answer, Begin, Deliver, Other, Timeout};

/// An event, as tables have it: a debit of an amount, a timeout of a transaction, what is delivered from a place of a list, or
/// an order of another acquirer.
#[derive(Clone, Copy)]
pub enum Happens {
    Begin(u64),
    Timeout(u32),
    Deliver(usize),
    Answer(usize),
    Other(u64),
}

/// A name, an event, what comes of it, what is then held of a transaction, the code that was given last, and what is then on
/// the account.
pub type Step = (
    &'static str,
    Happens,
    Result<(), StepFault>,
    Held,
    Option<u8>,
    i64,
);

/// What happens between both ends behind so many debits of 1000, and by its end how many orders were sent, how many answers
/// were given, and how many orders the issuer entered, which takes no more than its limit.
#[derive(Clone, Copy)]
pub struct Schedule {
    pub name: &'static str,
    pub limit: u32,
    pub begun: u32,
    pub steps: &'static [Step],
    pub sent: usize,
    pub given: usize,
    pub entered: u32,
}

const ASKED: Held = (1, Some(State::Waiting(1)));

const AGAIN: Held = (1, Some(State::Waiting(2)));

const REVERSING: Held = (1, Some(State::Reversing));

/// One transaction, which is approved.
pub const APPROVED: Held = (1, Some(State::Approved));

const REVERSED: Held = (1, Some(State::Reversed));

const NONE: Held = (1, None);

const OTHER_ASKED: Held = (2, Some(State::Waiting(1)));

const OTHER_DECLINED: Held = (2, Some(State::Declined(51)));

/// Schedules of one account with 50.00, and how the transaction stands after each step.
pub const SCHEDULES: &[Schedule] = &[
    Schedule {
        name: "reversed before it came",
        limit: 10,
        begun: 0,
        steps: &[
            ("a debit", Begin(1000), Ok(()), ASKED, None, 5000),
            ("no answer in time", Timeout(1), Ok(()), AGAIN, None, 5000),
            (
                "no answer to the repeat",
                Timeout(1),
                Ok(()),
                REVERSING,
                None,
                5000,
            ),
            (
                "the reversal comes first",
                Deliver(2),
                Ok(()),
                REVERSING,
                Some(0),
                5000,
            ),
            (
                "the reversal's answer",
                Answer(0),
                Ok(()),
                REVERSED,
                Some(0),
                5000,
            ),
            (
                "the debit comes late",
                Deliver(0),
                Ok(()),
                REVERSED,
                Some(21),
                5000,
            ),
            (
                "the debit's answer",
                Answer(1),
                Ok(()),
                REVERSED,
                Some(21),
                5000,
            ),
            (
                "a timeout once reversed",
                Timeout(1),
                Err(StepFault::Acquirer(AcqFault::Closed)),
                REVERSED,
                Some(21),
                5000,
            ),
            (
                "a timeout of none",
                Timeout(5),
                Err(StepFault::Acquirer(AcqFault::NoSuch)),
                REVERSED,
                Some(21),
                5000,
            ),
            (
                "no such order",
                Deliver(9),
                Err(StepFault::NoSuch),
                REVERSED,
                Some(21),
                5000,
            ),
            (
                "no such answer",
                Answer(2),
                Err(StepFault::NoSuch),
                REVERSED,
                Some(21),
                5000,
            ),
        ],
        given: 2,
        sent: 3,
        entered: 2,
    },
    Schedule {
        name: "a late approval while it is reversed",
        limit: 10,
        begun: 0,
        steps: &[
            ("a debit", Begin(1000), Ok(()), ASKED, None, 5000),
            ("the debit comes", Deliver(0), Ok(()), ASKED, Some(0), 4000),
            (
                "no answer in time",
                Timeout(1),
                Ok(()),
                AGAIN,
                Some(0),
                4000,
            ),
            (
                "no answer to the repeat",
                Timeout(1),
                Ok(()),
                REVERSING,
                Some(0),
                4000,
            ),
            (
                "a late approval",
                Answer(0),
                Ok(()),
                REVERSING,
                Some(0),
                4000,
            ),
            (
                "the reversal comes",
                Deliver(2),
                Ok(()),
                REVERSING,
                Some(0),
                5000,
            ),
            (
                "the reversal's answer",
                Answer(1),
                Ok(()),
                REVERSED,
                Some(0),
                5000,
            ),
        ],
        given: 2,
        sent: 3,
        entered: 2,
    },
    Schedule {
        name: "approved by the answer to the repeat",
        limit: 10,
        begun: 0,
        steps: &[
            ("a debit", Begin(1000), Ok(()), ASKED, None, 5000),
            ("the debit comes", Deliver(0), Ok(()), ASKED, Some(0), 4000),
            (
                "the debit comes again",
                Deliver(0),
                Ok(()),
                ASKED,
                Some(0),
                4000,
            ),
            (
                "the answer to the repeat",
                Answer(1),
                Ok(()),
                APPROVED,
                Some(0),
                4000,
            ),
            (
                "a debit over the rest",
                Begin(9000),
                Ok(()),
                OTHER_ASKED,
                Some(0),
                4000,
            ),
            ("it comes", Deliver(1), Ok(()), OTHER_ASKED, Some(51), 4000),
            (
                "its answer",
                Answer(2),
                Ok(()),
                OTHER_DECLINED,
                Some(51),
                4000,
            ),
        ],
        given: 3,
        sent: 2,
        entered: 2,
    },
    Schedule {
        name: "a full journal",
        limit: 1,
        begun: 0,
        steps: &[
            ("a debit", Begin(1000), Ok(()), ASKED, None, 5000),
            ("another debit", Begin(1000), Ok(()), ASKED, None, 5000),
            (
                "the first one comes",
                Deliver(0),
                Ok(()),
                ASKED,
                Some(0),
                4000,
            ),
            (
                "the other one comes",
                Deliver(1),
                Err(StepFault::Issuer(Refused::Full)),
                ASKED,
                Some(0),
                4000,
            ),
        ],
        given: 1,
        sent: 2,
        entered: 1,
    },
    Schedule {
        name: "orders of others",
        limit: 2,
        begun: 0,
        steps: &[
            (
                "an order in its name",
                Other(12_345),
                Err(StepFault::OwnKey),
                NONE,
                None,
                5000,
            ),
            ("an order of another", Other(777), Ok(()), NONE, None, 4300),
            ("a debit", Begin(1000), Ok(()), ASKED, None, 4300),
            ("the debit comes", Deliver(0), Ok(()), ASKED, Some(0), 3300),
            (
                "the other's order again",
                Other(777),
                Ok(()),
                ASKED,
                Some(0),
                3300,
            ),
            (
                "an order of a third one",
                Other(778),
                Err(StepFault::Issuer(Refused::Full)),
                ASKED,
                Some(0),
                3300,
            ),
        ],
        given: 1,
        sent: 1,
        entered: 2,
    },
    Schedule {
        name: "no trace number is left",
        limit: 10,
        begun: 999_999,
        steps: &[
            (
                "one more debit",
                Begin(1000),
                Err(StepFault::Acquirer(AcqFault::NoMoreTrace)),
                ASKED,
                None,
                5000,
            ),
            ("no answer in time", Timeout(1), Ok(()), AGAIN, None, 5000),
            (
                "no answer to the repeat",
                Timeout(1),
                Err(StepFault::Acquirer(AcqFault::NoMoreTrace)),
                AGAIN,
                None,
                5000,
            ),
        ],
        sent: 1_000_000,
        given: 0,
        entered: 0,
    },
];
