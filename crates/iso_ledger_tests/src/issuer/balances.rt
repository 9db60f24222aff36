//! Days at the ends of what is shown, bought and opened with.
use super::*;

const MOST: i64 = 9_000_000_000_000_000;

const AMOUNT: u64 = 999_999_999_999;

/// Balances at the ends of what is shown, and of what an account opens with.
const WIDE_BALANCES: &[Day] = &[
    Day {
        name: "the most that is shown",
        limit: MOST_ORDERS,
        accounts: OF_999999999999,
        steps: &[(
            "an inquiry",
            Inquiry(1),
            shows!(1, 999_999_999_999),
            (1, 999_999_999_999, 999_999_999_999),
        )],
    },
    Day {
        name: "the largest purchase",
        limit: MOST_ORDERS,
        accounts: OF_999999999999,
        steps: &[
            (
                "a purchase of all that is there",
                Debit(200, 7, AMOUNT),
                granted!(1),
                (1, 0, 0),
            ),
            (
                "its reversal",
                Undo(8, 200, 7, 0),
                granted!(2),
                (2, 999_999_999_999, 999_999_999_999),
            ),
        ],
    },
    Day {
        name: "one more",
        limit: MOST_ORDERS,
        accounts: OF_1000000000000,
        steps: &[(
            "an inquiry",
            Inquiry(1),
            declined!(96, 1),
            (1, 1_000_000_000_000, 1_000_000_000_000),
        )],
    },
    Day {
        name: "below zero",
        limit: MOST_ORDERS,
        accounts: OF_MINUS_50,
        steps: &[("an inquiry", Inquiry(1), shows!(1, -50), (1, -50, -50))],
    },
    Day {
        name: "the least that is shown",
        limit: MOST_ORDERS,
        accounts: OF_MINUS_999999999999,
        steps: &[(
            "an inquiry",
            Inquiry(1),
            shows!(1, -999_999_999_999),
            (1, -999_999_999_999, -999_999_999_999),
        )],
    },
    Day {
        name: "one less",
        limit: MOST_ORDERS,
        accounts: OF_MINUS_1000000000000,
        steps: &[(
            "an inquiry",
            Inquiry(1),
            declined!(96, 1),
            (1, -1_000_000_000_000, -1_000_000_000_000),
        )],
    },
    Day {
        name: "the most",
        limit: MOST_ORDERS,
        accounts: OF_9000000000000000,
        steps: &[
            (
                "an advice on the most",
                Debit(220, 1, AMOUNT),
                granted!(1),
                (1, 8_999_000_000_000_001, 8_999_000_000_000_001),
            ),
            (
                "a refund up to the most",
                Credit(2, AMOUNT),
                granted!(2),
                (2, MOST, MOST),
            ),
        ],
    },
    Day {
        name: "the least",
        limit: MOST_ORDERS,
        accounts: OF_MINUS_9000000000000000,
        steps: &[
            (
                "an advice on the least",
                Debit(220, 1, AMOUNT),
                granted!(1),
                (1, -9_000_999_999_999_999, -9_000_999_999_999_999),
            ),
            (
                "a refund up to the least",
                Credit(2, AMOUNT),
                granted!(2),
                (2, -MOST, -MOST),
            ),
        ],
    },
];

#[test]
fn the_widest_balances_are_shown(rt: HostRuntime) -> Result<(), Fail> {
    play(rt.alloc(), WIDE_BALANCES)
}
