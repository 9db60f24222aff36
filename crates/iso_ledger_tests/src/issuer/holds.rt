//! The life of a hold: completions, their reversals, and what comes late.
use super::*;

const DAYS: &[Day] = &[
    Day {
        name: "completions and their reversals",
        limit: MOST_ORDERS,
        accounts: OF_5000,
        steps: &[
            ("a hold", Debit(100, 10, 1000), granted!(1), (1, 5000, 4000)),
            (
                "its completion",
                Complete(11, 10, 700),
                granted!(2),
                (2, 4300, 4300),
            ),
            (
                "the same again",
                Complete(11, 10, 700),
                granted!(2),
                (2, 4300, 4300),
            ),
            (
                "another completion",
                Complete(12, 10, 200),
                granted!(3),
                (3, 4100, 4100),
            ),
            (
                "the reversal of the first",
                Undo(20, 220, 11, 0),
                granted!(4),
                (4, 4800, 4800),
            ),
            (
                "the reversal of the second",
                Undo(21, 220, 12, 0),
                granted!(5),
                (5, 5000, 4000),
            ),
        ],
    },
    Day {
        name: "late holds",
        limit: MOST_ORDERS,
        accounts: OF_5000,
        steps: &[
            (
                "the completion",
                Complete(11, 10, 700),
                granted!(1),
                (1, 4300, 4300),
            ),
            (
                "its hold",
                Debit(100, 10, 1000),
                granted!(2),
                (2, 4300, 4300),
            ),
            (
                "the reversal of the hold",
                Undo(20, 100, 10, 0),
                granted!(3),
                (3, 4300, 4300),
            ),
        ],
    },
    Day {
        name: "partly reversed completions",
        limit: MOST_ORDERS,
        accounts: OF_5000,
        steps: &[
            ("a hold", Debit(100, 10, 1000), granted!(1), (1, 5000, 4000)),
            (
                "a reversal of it that leaves 600",
                Undo(19, 100, 10, 600),
                granted!(2),
                (2, 5000, 4400),
            ),
            (
                "its completion",
                Complete(11, 10, 700),
                granted!(3),
                (3, 4300, 4300),
            ),
            (
                "a reversal of that which leaves 100",
                Undo(20, 220, 11, 100),
                granted!(4),
                (4, 4900, 4900),
            ),
            (
                "a second reversal of that",
                Undo(21, 220, 11, 0),
                granted!(5),
                (5, 4900, 4900),
            ),
        ],
    },
];

#[test]
fn a_hold_ends_by_its_completion(rt: HostRuntime) -> Result<(), Fail> {
    play(rt.alloc(), DAYS)
}
