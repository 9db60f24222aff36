//! The laws of journals at work, on lists of orders.
use super::*;
use iso_issuer::laws::*;

const DAYS: &[Day] = &[
    Day {
        name: "a granted payment counts whole",
        limit: MOST_ORDERS,
        accounts: OF_5000,
        steps: &[
            (
                "a payment",
                Debit(200, 1, 700),
                granted!(1),
                (1, 4300, 4300),
            ),
            (
                "over the available",
                Debit(200, 2, 9000),
                declined!(51, 2),
                (2, 4300, 4300),
            ),
            (
                "all that is available",
                Debit(200, 3, 4300),
                granted!(3),
                (3, 0, 0),
            ),
        ],
    },
    Day {
        name: "the first reversal stays",
        limit: MOST_ORDERS,
        accounts: OF_5000,
        steps: &[
            (
                "a payment",
                Debit(200, 1, 700),
                granted!(1),
                (1, 4300, 4300),
            ),
            (
                "another key reversed",
                Undo(2, 200, 9, 0),
                granted!(2),
                (2, 4300, 4300),
            ),
            (
                "a reversal that leaves 400",
                Undo(3, 200, 1, 400),
                granted!(3),
                (3, 4600, 4600),
            ),
            (
                "a second reversal",
                Undo(4, 200, 1, 0),
                granted!(4),
                (4, 4600, 4600),
            ),
            (
                "a third reversal",
                Undo(5, 200, 1, 700),
                granted!(5),
                (5, 4600, 4600),
            ),
        ],
    },
    Day {
        name: "a declined payment never stands",
        limit: MOST_ORDERS,
        accounts: OF_5000,
        steps: &[
            (
                "over the available",
                Debit(200, 1, 9000),
                declined!(51, 1),
                (1, 5000, 5000),
            ),
            (
                "a credit",
                Credit(2, 8000),
                granted!(2),
                (2, 13_000, 13_000),
            ),
            (
                "the payment again",
                Debit(200, 1, 9000),
                declined!(51, 1),
                (2, 13_000, 13_000),
            ),
            (
                "its reversal",
                Undo(3, 200, 1, 9000),
                granted!(3),
                (3, 13_000, 13_000),
            ),
            (
                "the payment once more",
                Debit(200, 1, 9000),
                declined!(51, 1),
                (3, 13_000, 13_000),
            ),
        ],
    },
    Day {
        name: "a reversed payment never stands",
        limit: MOST_ORDERS,
        accounts: OF_5000,
        steps: &[
            (
                "a payment",
                Debit(200, 1, 700),
                granted!(1),
                (1, 4300, 4300),
            ),
            (
                "its reversal",
                Undo(2, 200, 1, 0),
                granted!(2),
                (2, 5000, 5000),
            ),
            (
                "the payment again",
                Debit(200, 1, 700),
                granted!(1),
                (2, 5000, 5000),
            ),
            (
                "a second reversal",
                Undo(3, 200, 1, 700),
                granted!(3),
                (3, 5000, 5000),
            ),
        ],
    },
    Day {
        name: "a late payment never stands",
        limit: MOST_ORDERS,
        accounts: OF_5000,
        steps: &[
            (
                "the reversal",
                Undo(1, 200, 2, 0),
                granted!(1),
                (1, 5000, 5000),
            ),
            (
                "its payment",
                Debit(200, 2, 700),
                declined!(21, 2),
                (2, 5000, 5000),
            ),
            (
                "a second reversal",
                Undo(3, 200, 2, 700),
                granted!(3),
                (3, 5000, 5000),
            ),
            (
                "the payment again",
                Debit(200, 2, 700),
                declined!(21, 2),
                (3, 5000, 5000),
            ),
            ("a credit", Credit(4, 300), granted!(4), (4, 5300, 5300)),
        ],
    },
    Day {
        name: "a hold can stand again",
        limit: MOST_ORDERS,
        accounts: OF_5000,
        steps: &[
            ("a hold", Debit(100, 1, 1000), granted!(1), (1, 5000, 4000)),
            (
                "its completion",
                Complete(2, 1, 800),
                granted!(2),
                (2, 4200, 4200),
            ),
            (
                "the completion is reversed",
                Undo(3, 220, 2, 0),
                granted!(3),
                (3, 5000, 4000),
            ),
        ],
    },
    Day {
        name: "known keys enter once",
        limit: 100,
        accounts: OF_5000,
        steps: &[
            (
                "a payment",
                Debit(200, 1, 700),
                granted!(1),
                (1, 4300, 4300),
            ),
            (
                "another payment",
                Debit(200, 2, 100),
                granted!(2),
                (2, 4200, 4200),
            ),
            (
                "the first again",
                Debit(200, 1, 700),
                granted!(1),
                (2, 4200, 4200),
            ),
            (
                "another amount",
                Debit(200, 1, 900),
                declined!(94, 0),
                (2, 4200, 4200),
            ),
            ("a credit", Credit(3, 50), granted!(3), (3, 4250, 4250)),
        ],
    },
    Day {
        name: "a repeat gets the first answer",
        limit: 100,
        accounts: OF_5000,
        steps: &[
            (
                "a payment",
                Debit(200, 1, 700),
                granted!(1),
                (1, 4300, 4300),
            ),
            (
                "another amount",
                Debit(200, 1, 900),
                declined!(94, 0),
                (1, 4300, 4300),
            ),
            (
                "its reversal",
                Undo(2, 200, 1, 0),
                granted!(2),
                (2, 5000, 5000),
            ),
            (
                "the payment again",
                Debit(200, 1, 700),
                granted!(1),
                (2, 5000, 5000),
            ),
        ],
    },
];

/// What holds of every journal, and so of those of the days.
fn laws_hold() {
    granted_stands();
    reversals_stay();
    stands_no_more();
    reversed_never_stands();
    late_never_stands();
    journals_grow();
    entries_are_found();
    keys_stay_distinct();
    firsts_go_on();
    firsts_stay();
    answers_are_kept();
    repeats_are_answered();
    answers_are_entered();
    reordered();
}

#[test]
fn laws_hold_of_days(rt: HostRuntime) -> Result<(), Fail> {
    laws_hold();
    play(rt.alloc(), DAYS)
}
