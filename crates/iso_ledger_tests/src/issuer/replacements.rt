//! Partial reversals: of an original all but the replacement amount is taken back, once.
use super::*;

const DAYS: &[Day] = &[
    Day {
        name: "partial reversal of a payment",
        limit: MOST_ORDERS,
        accounts: OF_5000,
        steps: &[
            (
                "a payment",
                Debit(200, 7, 1000),
                granted!(1),
                (1, 4000, 4000),
            ),
            (
                "its partial reversal",
                Undo(8, 200, 7, 400),
                granted!(2),
                (2, 4600, 4600),
            ),
            (
                "a later one",
                Undo(9, 200, 7, 0),
                granted!(3),
                (3, 4600, 4600),
            ),
        ],
    },
    Day {
        name: "early on 5000",
        limit: MOST_ORDERS,
        accounts: OF_5000,
        steps: &[
            (
                "a reversal on 5000",
                Undo(8, 200, 7, 400),
                granted!(1),
                (1, 5000, 5000),
            ),
            (
                "its payment out of 5000",
                Debit(200, 7, 1000),
                granted!(2),
                (2, 4600, 4600),
            ),
        ],
    },
    Day {
        name: "early on 500",
        limit: MOST_ORDERS,
        accounts: OF_500,
        steps: &[
            (
                "a reversal on 500",
                Undo(8, 200, 7, 400),
                granted!(1),
                (1, 500, 500),
            ),
            (
                "its payment out of 500",
                Debit(200, 7, 1000),
                granted!(2),
                (2, 100, 100),
            ),
        ],
    },
    Day {
        name: "early on 300",
        limit: MOST_ORDERS,
        accounts: OF_300,
        steps: &[
            (
                "a reversal on 300",
                Undo(8, 200, 7, 400),
                granted!(1),
                (1, 300, 300),
            ),
            (
                "its payment out of 300",
                Debit(200, 7, 1000),
                declined!(51, 2),
                (2, 300, 300),
            ),
        ],
    },
];

#[test]
fn reversals_leave_what_they_say(rt: HostRuntime) -> Result<(), Fail> {
    play(rt.alloc(), DAYS)
}
