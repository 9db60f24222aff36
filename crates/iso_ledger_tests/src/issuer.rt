//! What an issuer answers to orders, and what is on its accounts then.
use crate::plain::{ACCOUNT, Does, Plain, USUAL, USUAL_KEY, order};
use Asked::{Complete, Credit, Debit, Inquiry, Other, Undo};
use iso_fakes::{check, check_of};
use iso_issuer::{Accounts, Issuer, Refused};
use iso_order::{Answer, Order, Pan, TxKey};
use std::alloc::Global;
use std::test::*;

/// The answer of code 0 at a place in the journal.
macro_rules! granted {
    ($seq:expr) => {
        Some((0, $seq, None))
    };
}

macro_rules! declined {
    ($code:expr, $seq:expr) => {
        Some(($code, $seq, None))
    };
}

/// The answer to an inquiry at a place in the journal, which shows that.
macro_rules! shows {
    ($seq:expr, $shown:expr) => {
        Some((0, $seq, Some($shown)))
    };
}

mod balances;
mod crowded;
mod days;
mod documents;
mod holds;
mod laws;
mod reordered;
mod replacements;

/// An order of the account, as tables have it: a debit by the type of its message, its trace number and its amount, a credit by
/// its trace number and its amount, an inquiry by its trace number, a completion by its trace number, that of its hold and its
/// amount, a reversal by its trace number, the type and the trace number of its original and how much it leaves, or another.
#[derive(Clone, Copy)]
enum Asked {
    Debit(u16, u32, u64),
    Credit(u32, u64),
    Inquiry(u32),
    Complete(u32, u32, u64),
    Undo(u32, u16, u32, u64),
    Other(Plain),
}

/// The key of a type and a trace number.
fn key(base: u16, stan: u32) -> TxKey {
    TxKey {
        base,
        stan,
        ..USUAL_KEY
    }
}

/// An order of the account: what it does, its key, its amount, and the key of its hold or its original.
fn plain(does: Does, key: TxKey, amount: u64, of: TxKey) -> Plain {
    Plain {
        key,
        does,
        amount,
        of,
        ..USUAL
    }
}

/// The order that a table asks, in plain words.
fn plain_of(asked: &Asked) -> Plain {
    match *asked {
        Debit(base, stan, amount) => plain(Does::Debit, key(base, stan), amount, USUAL_KEY),
        Credit(stan, amount) => plain(Does::Credit, key(200, stan), amount, USUAL_KEY),
        Inquiry(stan) => plain(Does::Inquiry, key(200, stan), 0, USUAL_KEY),
        Complete(stan, hold, amount) => {
            plain(Does::Complete, key(220, stan), amount, key(100, hold))
        }
        Undo(stan, base, original, left) => {
            plain(Does::Undo, key(420, stan), left, key(base, original))
        }
        Other(plain) => plain,
    }
}

/// A code, a place in the journal, and what is shown; none where the journal is full.
type Told = Option<(u8, u32, Option<i64>)>;

const FULL: Told = None;

/// How many orders are entered, the ledger of the account, and what is available.
type Books = (u32, i64, i64);

/// A name, what is asked, what is told, and the books after it.
type Step = (&'static str, Asked, Told, Books);

/// A day of the account: how many orders the journal takes, the document of the account, and what is asked.
#[derive(Clone, Copy)]
struct Day {
    name: &'static str,
    limit: u32,
    accounts: &'static [u8],
    steps: &'static [Step],
}

/// How many orders a journal can take at most.
const MOST_ORDERS: u32 = 999_999;

/// Whether so many orders are entered, and that is on the account of these digits, and available.
fn has_books(
    issuer: &Issuer,
    digits: &[u8],
    entries: u32,
    ledger: Option<i64>,
    available: Option<i64>,
) -> bool {
    match Pan::from_digits(digits) {
        Some(pan) => {
            (issuer.len(), issuer.ledger(pan), issuer.available(pan))
                == (entries, ledger, available)
        }
        None => false,
    }
}

/// What is told of an order. Apart from what looks at it: the contract says much.
fn told_of(issuer: &mut Issuer, order: Order) -> Result<Answer, Refused> {
    issuer.handle(order)
}

fn is_told(told: Result<Answer, Refused>, expected: Told) -> bool {
    match told {
        Ok(answer) => expected == Some((answer.code, answer.seq, answer.shown)),
        Err(fault) => fault == Refused::Full && expected.is_none(),
    }
}

/// Whether a step is told what it should be, and leaves those books.
fn is_step(issuer: &mut Issuer, step: &Step) -> bool {
    let (_, asked, told, (entries, ledger, available)) = step;
    match order(&plain_of(asked)) {
        Some(order) => {
            is_told(told_of(issuer, order), *told)
                && has_books(issuer, ACCOUNT, *entries, Some(*ledger), Some(*available))
        }
        None => false,
    }
}

/// The name of the first step that isn't so.
fn wrong_step(issuer: &mut Issuer, steps: &[Step]) -> Option<&'static str> {
    for step in steps {
        if !is_step(issuer, step) {
            let (name, _, _, _) = step;
            return Some(*name);
        }
    }
    None
}

/// An issuer of the accounts of a document, whose journal takes so many orders.
fn issuer(alloc: Global, accounts: &[u8], limit: u32) -> Option<Issuer> {
    match Accounts::from_json(alloc, accounts) {
        Ok(accounts) => Some(Issuer::new(accounts, limit.max(1).min(MOST_ORDERS))),
        Err(_) => None,
    }
}

/// The name of the first step of a day that isn't so.
fn wrong_in(alloc: Global, day: &Day) -> Option<&'static str> {
    match issuer(alloc, day.accounts, day.limit) {
        Some(mut issuer) => wrong_step(&mut issuer, day.steps),
        None => Some("the account"),
    }
}

/// Plays days, each on an issuer that never was asked before.
fn play(alloc: Global, days: &[Day]) -> Result<(), Fail> {
    for day in days {
        if let Some(step) = wrong_in(alloc, day) {
            return check_of(false, day.name, step);
        }
    }
    Ok(())
}

const OF_5000: &[u8] =
    br#"{"accounts":[{"currency":"840","opening":5000,"pan":"4111111111111111"}]}"#;

const OF_500: &[u8] =
    br#"{"accounts":[{"currency":"840","opening":500,"pan":"4111111111111111"}]}"#;

const OF_300: &[u8] =
    br#"{"accounts":[{"currency":"840","opening":300,"pan":"4111111111111111"}]}"#;

const OF_100: &[u8] =
    br#"{"accounts":[{"currency":"840","opening":100,"pan":"4111111111111111"}]}"#;

const OF_MINUS_50: &[u8] =
    br#"{"accounts":[{"currency":"840","opening":-50,"pan":"4111111111111111"}]}"#;

const OF_999999999999: &[u8] =
    br#"{"accounts":[{"currency":"840","opening":999999999999,"pan":"4111111111111111"}]}"#;

const OF_1000000000000: &[u8] =
    br#"{"accounts":[{"currency":"840","opening":1000000000000,"pan":"4111111111111111"}]}"#;

const OF_MINUS_999999999999: &[u8] =
    br#"{"accounts":[{"currency":"840","opening":-999999999999,"pan":"4111111111111111"}]}"#;

const OF_MINUS_1000000000000: &[u8] =
    br#"{"accounts":[{"currency":"840","opening":-1000000000000,"pan":"4111111111111111"}]}"#;

const OF_9000000000000000: &[u8] =
    br#"{"accounts":[{"currency":"840","opening":9000000000000000,"pan":"4111111111111111"}]}"#;

const OF_MINUS_9000000000000000: &[u8] =
    br#"{"accounts":[{"currency":"840","opening":-9000000000000000,"pan":"4111111111111111"}]}"#;

const LIMITS: &[Day] = &[
    Day {
        name: "a limit of one",
        limit: 1,
        accounts: OF_100,
        steps: &[
            ("a purchase", Debit(200, 1, 10), granted!(1), (1, 90, 90)),
            ("one above the limit", Debit(200, 2, 10), FULL, (1, 90, 90)),
            (
                "the purchase again",
                Debit(200, 1, 10),
                granted!(1),
                (1, 90, 90),
            ),
        ],
    },
    Day {
        name: "a limit of two",
        limit: 2,
        accounts: OF_100,
        steps: &[
            ("a purchase", Debit(200, 1, 10), granted!(1), (1, 90, 90)),
            (
                "another purchase",
                Debit(200, 2, 10),
                granted!(2),
                (2, 80, 80),
            ),
            ("one above the limit", Debit(200, 3, 10), FULL, (2, 80, 80)),
            (
                "the first again",
                Debit(200, 1, 10),
                granted!(1),
                (2, 80, 80),
            ),
        ],
    },
    Day {
        name: "the greatest limit",
        limit: MOST_ORDERS,
        accounts: OF_100,
        steps: &[("a purchase", Debit(200, 3, 10), granted!(1), (1, 90, 90))],
    },
];

#[test]
fn a_full_journal_takes_no_more(rt: HostRuntime) -> Result<(), Fail> {
    play(rt.alloc(), LIMITS)
}

/// Whether a list of orders gets an answer, that answer again, and none for want of room.
fn runs(alloc: Global, issuer: &mut Issuer, orders: &[Order]) -> bool {
    let answer = Answer {
        code: 0,
        seq: 1,
        shown: None,
    };
    match issuer.run(alloc, orders) {
        Ok(answers) => {
            answers.as_slice() == [Ok(answer), Ok(answer), Err(Refused::Full)].as_slice()
        }
        Err(_) => false,
    }
}

/// Whether a purchase, its repeat and another one are answered as a list, where the journal takes one order.
fn runs_three(alloc: Global, issuer: &mut Issuer) -> bool {
    let purchase = plain_of(&Debit(200, 7, 1000));
    let other = plain_of(&Debit(200, 8, 1000));
    match (order(&purchase), order(&other)) {
        (Some(purchase), Some(other)) => runs(alloc, issuer, &[purchase, purchase, other]),
        _ => false,
    }
}

#[test]
fn a_list_is_run(rt: HostRuntime) -> Result<(), Fail> {
    let is_run = match issuer(rt.alloc(), OF_5000, 1) {
        Some(mut issuer) => {
            runs_three(rt.alloc(), &mut issuer)
                && has_books(&issuer, ACCOUNT, 1, Some(4000), Some(4000))
        }
        None => false,
    };
    check(is_run, "the answers to the list, and the books at the end")
}
