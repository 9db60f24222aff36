//! The same orders in four orders.
use super::*;

const PAYMENT: Asked = Debit(200, 1, 700);

/// The reversal of a part of the payment.
const PAYMENT_REVERSED: Asked = Undo(2, 200, 1, 200);

const OTHER_PAYMENT: Asked = Debit(200, 3, 500);

/// The reversal of the whole of the other payment.
const OTHER_REVERSED: Asked = Undo(4, 200, 3, 0);

const HOLD: Asked = Debit(100, 5, 1000);

const COMPLETION: Asked = Complete(6, 5, 800);

/// The reversal of a part of the completion.
const COMPLETION_REVERSED: Asked = Undo(7, 220, 6, 100);

/// A hold that nothing completes.
const HOLD_ALONE: Asked = Debit(100, 8, 40);

const CREDIT: Asked = Credit(9, 350);

/// The same orders in four orders. Each leaves the same on the account: 5000 less 200 and 100, with 350 more, of which 40
/// are held. None is declined for want of money.
const REORDERED: &[Day] = &[
    Day {
        name: "a day in order",
        limit: 100,
        accounts: OF_5000,
        steps: &[
            ("a payment", PAYMENT, granted!(1), (1, 4300, 4300)),
            (
                "its partial reversal",
                PAYMENT_REVERSED,
                granted!(2),
                (2, 4800, 4800),
            ),
            (
                "another payment",
                OTHER_PAYMENT,
                granted!(3),
                (3, 4300, 4300),
            ),
            ("its reversal", OTHER_REVERSED, granted!(4), (4, 4800, 4800)),
            ("a hold", HOLD, granted!(5), (5, 4800, 3800)),
            ("its completion", COMPLETION, granted!(6), (6, 4000, 4000)),
            (
                "the completion's partial reversal",
                COMPLETION_REVERSED,
                granted!(7),
                (7, 4700, 4700),
            ),
            ("a hold alone", HOLD_ALONE, granted!(8), (8, 4700, 4660)),
            ("a credit", CREDIT, granted!(9), (9, 5050, 5010)),
        ],
    },
    Day {
        name: "a day backwards",
        limit: 100,
        accounts: OF_5000,
        steps: &[
            ("a credit", CREDIT, granted!(1), (1, 5350, 5350)),
            ("a hold alone", HOLD_ALONE, granted!(2), (2, 5350, 5310)),
            (
                "the completion's partial reversal",
                COMPLETION_REVERSED,
                granted!(3),
                (3, 5350, 5310),
            ),
            ("its completion", COMPLETION, granted!(4), (4, 5250, 5210)),
            ("a hold", HOLD, granted!(5), (5, 5250, 5210)),
            ("its reversal", OTHER_REVERSED, granted!(6), (6, 5250, 5210)),
            (
                "another payment",
                OTHER_PAYMENT,
                declined!(21, 7),
                (7, 5250, 5210),
            ),
            (
                "its partial reversal",
                PAYMENT_REVERSED,
                granted!(8),
                (8, 5250, 5210),
            ),
            ("a payment", PAYMENT, granted!(9), (9, 5050, 5010)),
        ],
    },
    Day {
        name: "a day mixed",
        limit: 100,
        accounts: OF_5000,
        steps: &[
            ("its reversal", OTHER_REVERSED, granted!(1), (1, 5000, 5000)),
            (
                "the completion's partial reversal",
                COMPLETION_REVERSED,
                granted!(2),
                (2, 5000, 5000),
            ),
            (
                "its partial reversal",
                PAYMENT_REVERSED,
                granted!(3),
                (3, 5000, 5000),
            ),
            ("a hold", HOLD, granted!(4), (4, 5000, 4000)),
            ("a payment", PAYMENT, granted!(5), (5, 4800, 3800)),
            ("a credit", CREDIT, granted!(6), (6, 5150, 4150)),
            ("its completion", COMPLETION, granted!(7), (7, 5050, 5050)),
            (
                "another payment",
                OTHER_PAYMENT,
                declined!(21, 8),
                (8, 5050, 5050),
            ),
            ("a hold alone", HOLD_ALONE, granted!(9), (9, 5050, 5010)),
        ],
    },
    Day {
        name: "a day mixed again",
        limit: 100,
        accounts: OF_5000,
        steps: &[
            ("its completion", COMPLETION, granted!(1), (1, 4200, 4200)),
            (
                "another payment",
                OTHER_PAYMENT,
                granted!(2),
                (2, 3700, 3700),
            ),
            ("a hold alone", HOLD_ALONE, granted!(3), (3, 3700, 3660)),
            ("a payment", PAYMENT, granted!(4), (4, 3000, 2960)),
            (
                "the completion's partial reversal",
                COMPLETION_REVERSED,
                granted!(5),
                (5, 3700, 3660),
            ),
            ("its reversal", OTHER_REVERSED, granted!(6), (6, 4200, 4160)),
            ("a credit", CREDIT, granted!(7), (7, 4550, 4510)),
            (
                "its partial reversal",
                PAYMENT_REVERSED,
                granted!(8),
                (8, 5050, 5010),
            ),
            ("a hold", HOLD, granted!(9), (9, 5050, 5010)),
        ],
    },
];

#[test]
fn the_order_of_orders_leaves_the_same(rt: HostRuntime) -> Result<(), Fail> {
    play(rt.alloc(), REORDERED)
}
