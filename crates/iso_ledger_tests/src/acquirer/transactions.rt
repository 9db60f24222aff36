//! The acquirer alone.
use super::*;
use crate::plain::Does;
use Heard::{Answer, Begin, BeginOther, Timeout};

/// What an acquirer hears: that a debit of 1000 begins, or one of 1 in another currency, that a transaction got no answer in
/// time, or the key and the code of an answer.
#[derive(Clone, Copy)]
enum Heard {
    Begin,
    BeginOther,
    Timeout(u32),
    Answer(TxKey, u8),
}

/// What it sends then: the debit of a trace number, an amount and a currency, or the reversal under the second trace number of
/// the first transaction.
#[derive(Clone, Copy)]
enum Sends {
    Debit(u32, u64, [u8; 3]),
    Undone,
    Nothing,
    Refusal(AcqFault),
}

/// The debit of a trace number, an amount and a currency.
fn debit(stan: u32, amount: u64, currency: [u8; 3]) -> Plain {
    Plain {
        key: key!(200, stan, ID),
        amount,
        currency,
        ..USUAL
    }
}

/// The reversal of the first transaction.
const REVERSAL: Plain = Plain {
    key: key!(420, 2, ID),
    does: Does::Undo,
    of: key!(200, 1, ID),
    amount: 0,
    ..USUAL
};

/// Tells an acquirer what it hears, and gives the order that it sends.
fn hear(acquirer: &mut Acquirer, heard: Heard) -> Option<Result<Order, AcqFault>> {
    match Pan::from_digits(ACCOUNT) {
        Some(pan) => match heard {
            Begin => Some(acquirer.begin(pan, 1000, *b"840", SENT)),
            BeginOther => Some(acquirer.begin(pan, 1, *b"978", SENT)),
            Timeout(stan) => Some(acquirer.timeout(stan)),
            Answer(key, code) => {
                acquirer.answer(key, code);
                None
            }
        },
        None => None,
    }
}

/// Whether that is what an acquirer should send.
fn is_sent(sent: Option<Result<Order, AcqFault>>, sends: &Sends) -> bool {
    match (sent, sends) {
        (Some(Ok(sent)), Sends::Debit(stan, amount, currency)) => {
            order(&debit(*stan, *amount, *currency)) == Some(sent)
        }
        (Some(Ok(sent)), Sends::Undone) => order(&REVERSAL) == Some(sent),
        (Some(Err(fault)), Sends::Refusal(wanted)) => fault == *wanted,
        (None, Sends::Nothing) => true,
        _ => false,
    }
}

/// A name, what an acquirer hears and sends, and what it then holds of a transaction.
type Step = (&'static str, Heard, Sends, Held);

const DEBIT: Sends = Sends::Debit(1, 1000, *b"840");

/// The key of the debit.
const KEY: TxKey = key!(200, 1, ID);

/// The key of its reversal.
const REVERSAL_KEY: TxKey = key!(420, 2, ID);

const CLOSED: Sends = Sends::Refusal(AcqFault::Closed);

const NO_SUCH: Sends = Sends::Refusal(AcqFault::NoSuch);

const NO_MORE_TRACE: Sends = Sends::Refusal(AcqFault::NoMoreTrace);

const ASKED: Held = (1, Some(State::Waiting(1)));

const AGAIN: Held = (1, Some(State::Waiting(2)));

const REVERSING: Held = (1, Some(State::Reversing));

const APPROVED: Held = (1, Some(State::Approved));

const DECLINED: Held = (1, Some(State::Declined(51)));

/// Names, how many debits of 1000 are begun before, and what is heard then.
const LISTS: &[(&'static str, u32, &'static [Step])] = &[
    (
        "asks again, and reverses",
        0,
        &[
            ("a debit", Begin, DEBIT, ASKED),
            ("the repeat", Timeout(1), DEBIT, AGAIN),
            ("the reversal", Timeout(1), Sends::Undone, REVERSING),
            ("its repeat", Timeout(1), Sends::Undone, REVERSING),
            ("its next repeat", Timeout(1), Sends::Undone, REVERSING),
        ],
    ),
    (
        "knows transactions by their own numbers",
        1,
        &[
            ("the repeat", Timeout(1), DEBIT, AGAIN),
            ("the reversal", Timeout(1), Sends::Undone, REVERSING),
            ("the number zero", Timeout(0), NO_SUCH, (0, None)),
            ("the reversal's number", Timeout(2), NO_SUCH, (2, None)),
            ("the next number", Timeout(3), NO_SUCH, (3, None)),
            (
                "the highest number",
                Timeout(4_294_967_295),
                NO_SUCH,
                (4_294_967_295, None),
            ),
            (
                "the next debit",
                BeginOther,
                Sends::Debit(3, 1, *b"978"),
                (3, Some(State::Waiting(1))),
            ),
        ],
    ),
    (
        "is approved for good",
        1,
        &[
            ("code 94", Answer(KEY, 94), Sends::Nothing, ASKED),
            ("code 96", Answer(KEY, 96), Sends::Nothing, ASKED),
            (
                "another type",
                Answer(key!(420, 1, ID), 0),
                Sends::Nothing,
                ASKED,
            ),
            (
                "another number",
                Answer(key!(200, 2, ID), 0),
                Sends::Nothing,
                ASKED,
            ),
            (
                "the number zero",
                Answer(key!(200, 0, ID), 0),
                Sends::Nothing,
                ASKED,
            ),
            (
                "another acquirer",
                Answer(key!(200, 1, 777), 0),
                Sends::Nothing,
                ASKED,
            ),
            (
                "another time",
                Answer(TxKey { sent: 1, ..KEY }, 0),
                Sends::Nothing,
                ASKED,
            ),
            ("granted", Answer(KEY, 0), Sends::Nothing, APPROVED),
            ("granted again", Answer(KEY, 0), Sends::Nothing, APPROVED),
            ("a later 21", Answer(KEY, 21), Sends::Nothing, APPROVED),
            ("a later 51", Answer(KEY, 51), Sends::Nothing, APPROVED),
            ("a later 94", Answer(KEY, 94), Sends::Nothing, APPROVED),
            ("a later 96", Answer(KEY, 96), Sends::Nothing, APPROVED),
            ("a timeout", Timeout(1), CLOSED, APPROVED),
        ],
    ),
    (
        "is declined for good",
        1,
        &[
            ("declined", Answer(KEY, 51), Sends::Nothing, DECLINED),
            ("a later 0", Answer(KEY, 0), Sends::Nothing, DECLINED),
            ("a later 21", Answer(KEY, 21), Sends::Nothing, DECLINED),
            ("declined again", Answer(KEY, 51), Sends::Nothing, DECLINED),
            ("a later 94", Answer(KEY, 94), Sends::Nothing, DECLINED),
            ("a later 96", Answer(KEY, 96), Sends::Nothing, DECLINED),
            ("a timeout", Timeout(1), CLOSED, DECLINED),
        ],
    ),
    (
        "is declined by the highest code",
        1,
        &[(
            "declined",
            Answer(KEY, 255),
            Sends::Nothing,
            (1, Some(State::Declined(255))),
        )],
    ),
    (
        "is reversed by the reversal's answer alone",
        1,
        &[
            ("the repeat", Timeout(1), DEBIT, AGAIN),
            ("the reversal", Timeout(1), Sends::Undone, REVERSING),
            (
                "96 to the reversal",
                Answer(REVERSAL_KEY, 96),
                Sends::Nothing,
                REVERSING,
            ),
            (
                "21 to the reversal",
                Answer(REVERSAL_KEY, 21),
                Sends::Nothing,
                REVERSING,
            ),
            ("0 to the debit", Answer(KEY, 0), Sends::Nothing, REVERSING),
            (
                "51 to the debit",
                Answer(KEY, 51),
                Sends::Nothing,
                REVERSING,
            ),
            (
                "0 to another acquirer",
                Answer(key!(420, 2, 777), 0),
                Sends::Nothing,
                REVERSING,
            ),
            (
                "0 to the reversal",
                Answer(REVERSAL_KEY, 0),
                Sends::Nothing,
                (1, Some(State::Reversed)),
            ),
        ],
    ),
    (
        "has no more trace numbers",
        999_999,
        &[
            (
                "one more debit",
                Begin,
                NO_MORE_TRACE,
                (999_999, Some(State::Waiting(1))),
            ),
            ("the repeat", Timeout(1), DEBIT, AGAIN),
            ("the reversal", Timeout(1), NO_MORE_TRACE, AGAIN),
        ],
    ),
];

/// Begins debits of 1000, and tells whether all are begun.
fn begin_all(acquirer: &mut Acquirer, count: u32) -> bool {
    let mut is_begun = true;
    for _ in 0..count {
        is_begun &= matches!(hear(acquirer, Begin), Some(Ok(_)));
    }
    is_begun
}

/// Whether an acquirer sends what it should, and then holds that.
fn is_step(acquirer: &mut Acquirer, step: &Step) -> bool {
    let (_, heard, sends, (stan, state)) = step;
    is_sent(hear(acquirer, *heard), sends) && acquirer.state(*stan) == *state
}

/// The name of the first step that isn't so.
fn wrong_step(acquirer: &mut Acquirer, steps: &[Step]) -> Option<&'static str> {
    for step in steps {
        if !is_step(acquirer, step) {
            let (name, _, _, _) = step;
            return Some(*name);
        }
    }
    None
}

/// The name of the first step that isn't so, of a new acquirer behind so many debits.
fn wrong_behind(alloc: Global, count: u32, steps: &[Step]) -> Option<&'static str> {
    let mut acquirer = Acquirer::new(alloc, ID);
    if begin_all(&mut acquirer, count) {
        wrong_step(&mut acquirer, steps)
    } else {
        Some("the debits before")
    }
}

#[test]
fn an_acquirer_asks_again_and_reverses(rt: HostRuntime) -> Result<(), Fail> {
    for (name, count, steps) in LISTS {
        let wrong = wrong_behind(rt.alloc(), *count, *steps);
        check_of(wrong.is_none(), *name, wrong.unwrap_or(""))?;
    }
    Ok(())
}
