use iso_acquirer::{AcqFault, State};
use iso_fakes::check;
use iso_order::{Act, Order, Pan, TxKey};
use iso_restarts::{DurableAcquirer, Fault, MemoryNotes, Note, replay};
use std::alloc::Global;
use std::test::Fail;

const SENT: u64 = 1126120000;

/// What is done with an acquirer, and what is so then. An order is named by its place among all that were kept.
#[derive(Clone, Copy)]
enum Step {
    /// A purchase of an amount begins, with that trace number.
    Begins(u16, u32),
    /// So many orders are kept.
    Keeps(usize),
    /// How far the first purchase is.
    IsIn(Result<Option<State>, Fault>),
    /// The order is granted.
    IsTold(usize),
    /// The first purchase waited for too long.
    TimesOut(Result<(), Fault>),
    /// Both orders are the same.
    AreSame(usize, usize),
    /// The order has that trace number.
    HasStan(usize, u32),
    /// The log keeps so many notes.
    HasNotes(usize),
    /// The acquirer crashes, and starts again from its notes.
    Restarts,
}

/// An acquirer over these notes.
fn start(alloc: Global, notes: &[Note], log: MemoryNotes) -> Option<DurableAcquirer<MemoryNotes>> {
    DurableAcquirer::start(alloc, 7, notes, log).ok()
}

/// A purchase of an amount begins with that trace number.
fn begins(acquirer: &mut DurableAcquirer<MemoryNotes>, amount: u16, stan: u32) -> Option<bool> {
    let pan = Pan::from_digits(b"4111111111111111")?;
    Some(acquirer.begin(pan, u64::from(amount).max(1), *b"840", SENT) == Ok(stan))
}

/// So many orders are kept, behind the others.
fn keeps(
    acquirer: &mut DurableAcquirer<MemoryNotes>,
    sent: &mut Vec<Order>,
    count: usize,
) -> Option<bool> {
    let kept = acquirer.keep().ok()?;
    sent.extend_from_slice(kept.as_slice()).ok()?;
    Some(kept.len() == count)
}

/// The order is granted.
fn is_told(acquirer: &mut DurableAcquirer<MemoryNotes>, order: Option<&Order>) -> Option<bool> {
    Some(acquirer.told(order?.key(), 0).is_ok())
}

/// What the log of the acquirer keeps.
fn kept_of(alloc: Global, acquirer: &DurableAcquirer<MemoryNotes>) -> Option<MemoryNotes> {
    let mut log = MemoryNotes::new(alloc);
    log.kept = acquirer.log().kept.clone().ok()?;
    Some(log)
}

/// The acquirer as it starts from what its log keeps.
fn started_again(
    alloc: Global,
    acquirer: &DurableAcquirer<MemoryNotes>,
) -> Option<DurableAcquirer<MemoryNotes>> {
    start(
        alloc,
        acquirer.log().kept.as_slice(),
        kept_of(alloc, acquirer)?,
    )
}

/// The acquirer crashes, and starts again.
fn restarts(alloc: Global, acquirer: &mut DurableAcquirer<MemoryNotes>) -> Option<bool> {
    *acquirer = started_again(alloc, acquirer)?;
    Some(true)
}

/// Both are orders, and the same.
fn are_same(one: Option<&Order>, other: Option<&Order>) -> bool {
    one.is_some() && one == other
}

/// Whether the step goes as it says.
fn goes(
    alloc: Global,
    acquirer: &mut DurableAcquirer<MemoryNotes>,
    sent: &mut Vec<Order>,
    step: Step,
) -> Option<bool> {
    match step {
        Step::Begins(amount, stan) => begins(acquirer, amount, stan),
        Step::Keeps(count) => keeps(acquirer, sent, count),
        Step::IsIn(wanted) => Some(acquirer.state(1) == wanted),
        Step::IsTold(place) => is_told(acquirer, sent.get(place)),
        Step::TimesOut(wanted) => Some(acquirer.timed_out(1) == wanted),
        Step::AreSame(one, other) => Some(are_same(sent.get(one), sent.get(other))),
        Step::HasStan(place, stan) => Some(sent.get(place)?.key().stan == stan),
        Step::HasNotes(count) => Some(acquirer.log().kept.len() == count),
        Step::Restarts => restarts(alloc, acquirer),
    }
}

/// Ends the test unless each step goes as it says.
fn check_steps(
    alloc: Global,
    acquirer: &mut DurableAcquirer<MemoryNotes>,
    sent: &mut Vec<Order>,
    steps: &[(&str, Step)],
) -> Result<(), Fail> {
    for (name, step) in steps {
        check(goes(alloc, acquirer, sent, *step) == Some(true), name)?;
    }
    Ok(())
}

const CRASHES: &[(&str, Step)] = &[
    ("the first begins", Step::Begins(3000, 1)),
    ("it isn't kept yet", Step::IsIn(Err(Fault::Unkept))),
    ("one is sent", Step::Keeps(1)),
    ("it waits", Step::IsIn(Ok(Some(State::Waiting(1))))),
    ("an answer that isn't kept", Step::IsTold(0)),
    ("one note is kept", Step::HasNotes(1)),
    ("the acquirer starts again", Step::Restarts),
    (
        "the answer is lost",
        Step::IsIn(Ok(Some(State::Waiting(1)))),
    ),
    ("it asks again", Step::TimesOut(Ok(()))),
    ("it reverses", Step::TimesOut(Ok(()))),
    ("two are sent", Step::Keeps(2)),
    ("the first is sent again", Step::AreSame(1, 0)),
    ("the reversal is the second", Step::HasStan(2, 2)),
    ("the reversal is answered", Step::IsTold(2)),
    ("none is sent", Step::Keeps(0)),
    (
        "the first is reversed",
        Step::IsIn(Ok(Some(State::Reversed))),
    ),
    (
        "it's closed",
        Step::TimesOut(Err(Fault::Refused(AcqFault::Closed))),
    ),
    ("the third begins", Step::Begins(500, 3)),
];

#[test]
fn an_acquirer_goes_on_after_a_crash(rt: HostRuntime) -> Result<(), Fail> {
    let alloc = rt.alloc();
    match start(alloc, &[], MemoryNotes::new(alloc)) {
        Some(mut acquirer) => check_steps(alloc, &mut acquirer, &mut Vec::new(alloc), CRASHES),
        None => Err(Fail::new("an acquirer starts")),
    }
}

/// A reversal of a payment that no note tells of.
fn reversal_of_none() -> Option<Order> {
    let key = TxKey {
        base: 420,
        stan: 2,
        sent: SENT,
        acquirer: 7,
    };
    let original = TxKey {
        base: 200,
        stan: 1,
        ..key
    };
    Order::new(key, Act::Undo { original, left: 0 })
}

/// Whether such a note is damaged.
fn is_damaged(alloc: Global, note: Note) -> bool {
    match replay(alloc, 7, &[note]) {
        Ok(_) => false,
        Err(fault) => fault == Fault::Damaged,
    }
}

#[test]
fn notes_that_no_acquirer_wrote_are_damaged(rt: HostRuntime) -> Result<(), Fail> {
    let Some(skips) = reversal_of_none() else {
        return Err(Fail::new("an order"));
    };
    let begun = is_damaged(rt.alloc(), Note::Begun(skips));
    check(begun, "a payment that is none")?;
    let timed_out = is_damaged(rt.alloc(), Note::TimedOut(1));
    check(timed_out, "a time-out of none")
}
