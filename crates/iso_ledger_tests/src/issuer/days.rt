//! Days of one account, order by order.
use super::*;

const PURCHASE: Asked = Debit(200, 7, 1000);

/// Another amount under the purchase's key.
const CHANGED: Asked = Debit(200, 7, 2000);

const INQUIRY: Asked = Inquiry(9);

/// The reversal of the purchase.
const REVERSAL: Asked = Undo(8, 200, 7, 0);

const HOLD: Asked = Debit(100, 1, 70);

/// More than is available beside the hold.
const ABOVE: Asked = Debit(200, 2, 40);

/// A purchase that is reversed before it comes.
const UNDONE: Asked = Debit(200, 12, 1000);

/// A purchase of more than is available beside the hold of that day.
const DEAR: Asked = Debit(200, 21, 4500);

/// A debit in another currency.
const IN_DOLLARS: Asked = Other(Plain {
    amount: 1,
    currency: *b"USD",
    ..USUAL
});

/// A debit of no account.
const OF_NONE: Asked = Other(Plain {
    key: TxKey {
        stan: 8,
        ..USUAL_KEY
    },
    amount: 1,
    digits: b"4000000000000002",
    ..USUAL
});

/// The key of the first debit at another time.
const LATER_KEY: TxKey = TxKey {
    stan: 1,
    sent: 102_030_406,
    ..USUAL_KEY
};

const UNDO_LATER: Asked = Other(Plain {
    key: TxKey {
        base: 420,
        stan: 2,
        ..USUAL_KEY
    },
    does: Does::Undo,
    amount: 0,
    of: LATER_KEY,
    ..USUAL
});

/// Repeats, codes, reversals, and a day that has them all.
const DAYS: &[Day] = &[
    Day {
        name: "repeats",
        limit: MOST_ORDERS,
        accounts: OF_5000,
        steps: &[
            ("a purchase", PURCHASE, granted!(1), (1, 4000, 4000)),
            ("its repeat", PURCHASE, granted!(1), (1, 4000, 4000)),
            ("another amount", CHANGED, declined!(94, 0), (1, 4000, 4000)),
            ("an inquiry", INQUIRY, shows!(2, 4000), (2, 4000, 4000)),
            (
                "another purchase",
                Debit(200, 10, 500),
                granted!(3),
                (3, 3500, 3500),
            ),
            (
                "the inquiry again",
                INQUIRY,
                shows!(2, 4000),
                (3, 3500, 3500),
            ),
        ],
    },
    Day {
        name: "codes",
        limit: MOST_ORDERS,
        accounts: OF_100,
        steps: &[
            ("a hold", HOLD, granted!(1), (1, 100, 30)),
            (
                "over the available",
                Debit(200, 2, 31),
                declined!(51, 2),
                (2, 100, 30),
            ),
            (
                "all that is available",
                Debit(200, 3, 30),
                granted!(3),
                (3, 70, 0),
            ),
            ("an advice", Debit(220, 4, 150), granted!(4), (4, -80, -150)),
            ("below zero", Inquiry(5), shows!(5, -150), (5, -80, -150)),
            ("a refund", Credit(6, 200), granted!(6), (6, 120, 50)),
            (
                "another currency",
                IN_DOLLARS,
                declined!(12, 7),
                (7, 120, 50),
            ),
            ("no account", OF_NONE, declined!(14, 8), (8, 120, 50)),
            ("the hold again", HOLD, granted!(1), (8, 120, 50)),
        ],
    },
    Day {
        name: "advice over a hold",
        limit: MOST_ORDERS,
        accounts: OF_100,
        steps: &[
            ("a hold", HOLD, granted!(1), (1, 100, 30)),
            ("over the available", ABOVE, declined!(51, 2), (2, 100, 30)),
            ("an advice", Debit(220, 3, 150), granted!(3), (3, -50, -120)),
            ("an inquiry", Inquiry(4), shows!(4, -120), (4, -50, -120)),
        ],
    },
    Day {
        name: "late reversals",
        limit: MOST_ORDERS,
        accounts: OF_5000,
        steps: &[
            ("a purchase", PURCHASE, granted!(1), (1, 4000, 4000)),
            ("its reversal", REVERSAL, granted!(2), (2, 5000, 5000)),
            ("the purchase again", PURCHASE, granted!(1), (2, 5000, 5000)),
            (
                "a second reversal",
                Undo(9, 200, 7, 0),
                granted!(3),
                (3, 5000, 5000),
            ),
            ("the reversal again", REVERSAL, granted!(2), (3, 5000, 5000)),
        ],
    },
    Day {
        name: "reversed hold",
        limit: MOST_ORDERS,
        accounts: OF_100,
        steps: &[
            ("a hold", HOLD, granted!(1), (1, 100, 30)),
            ("over the available", ABOVE, declined!(51, 2), (2, 100, 30)),
            (
                "the hold is reversed",
                Undo(3, 100, 1, 0),
                granted!(3),
                (3, 100, 100),
            ),
            ("an advice", Debit(220, 4, 150), granted!(4), (4, -50, -50)),
        ],
    },
    Day {
        name: "early reversals",
        limit: MOST_ORDERS,
        accounts: OF_5000,
        steps: &[
            (
                "a reversal comes first",
                REVERSAL,
                granted!(1),
                (1, 5000, 5000),
            ),
            ("its purchase", PURCHASE, declined!(21, 2), (2, 5000, 5000)),
            ("the reversal again", REVERSAL, granted!(1), (2, 5000, 5000)),
            (
                "the purchase again",
                PURCHASE,
                declined!(21, 2),
                (2, 5000, 5000),
            ),
        ],
    },
    Day {
        name: "reversals of what moved nothing",
        limit: MOST_ORDERS,
        accounts: OF_100,
        steps: &[
            ("a purchase", Debit(200, 1, 80), granted!(1), (1, 20, 20)),
            (
                "a declined one",
                Debit(200, 2, 50),
                declined!(51, 2),
                (2, 20, 20),
            ),
            (
                "the first reversed",
                Undo(3, 200, 1, 0),
                granted!(3),
                (3, 100, 100),
            ),
            (
                "the declined one again",
                Debit(200, 2, 50),
                declined!(51, 2),
                (3, 100, 100),
            ),
            (
                "the declined reversed",
                Undo(4, 200, 2, 0),
                granted!(4),
                (4, 100, 100),
            ),
            ("an inquiry", Inquiry(5), shows!(5, 100), (5, 100, 100)),
            (
                "the inquiry reversed",
                Undo(6, 200, 5, 0),
                granted!(6),
                (6, 100, 100),
            ),
        ],
    },
    Day {
        name: "reversals of other keys",
        limit: MOST_ORDERS,
        accounts: OF_100,
        steps: &[
            ("a purchase", Debit(200, 1, 80), granted!(1), (1, 20, 20)),
            ("another time", UNDO_LATER, granted!(2), (2, 20, 20)),
            ("another type", Undo(3, 220, 1, 0), granted!(3), (3, 20, 20)),
            (
                "another trace number",
                Undo(4, 200, 9, 0),
                granted!(4),
                (4, 20, 20),
            ),
            ("its key", Undo(5, 200, 1, 0), granted!(5), (5, 100, 100)),
        ],
    },
    Day {
        name: "a day of one account",
        limit: MOST_ORDERS,
        accounts: OF_5000,
        steps: &[
            ("a purchase", PURCHASE, granted!(1), (1, 4000, 4000)),
            ("its repeat", PURCHASE, granted!(1), (1, 4000, 4000)),
            ("another amount", CHANGED, declined!(94, 0), (1, 4000, 4000)),
            ("an inquiry", INQUIRY, shows!(2, 4000), (2, 4000, 4000)),
            ("a late reversal", REVERSAL, granted!(3), (3, 5000, 5000)),
            ("the purchase again", PURCHASE, granted!(1), (3, 5000, 5000)),
            (
                "the inquiry again",
                INQUIRY,
                shows!(2, 4000),
                (3, 5000, 5000),
            ),
            (
                "an early reversal",
                Undo(13, 200, 12, 0),
                granted!(4),
                (4, 5000, 5000),
            ),
            ("its payment", UNDONE, declined!(21, 5), (5, 5000, 5000)),
            ("a hold", Debit(100, 20, 700), granted!(6), (6, 5000, 4300)),
            (
                "over the available",
                DEAR,
                declined!(51, 7),
                (7, 5000, 4300),
            ),
            (
                "the hold is reversed",
                Undo(22, 100, 20, 0),
                granted!(8),
                (8, 5000, 5000),
            ),
            (
                "the declined one again",
                DEAR,
                declined!(51, 7),
                (8, 5000, 5000),
            ),
        ],
    },
];

#[test]
fn days_are_answered_step_by_step(rt: HostRuntime) -> Result<(), Fail> {
    play(rt.alloc(), DAYS)
}
