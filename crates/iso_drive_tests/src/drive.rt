use iso_acquirer::State;
use iso_drive::{Counts, Draw, Driver, Heard};
use iso_fakes::check;
use iso_order::{Money, Order, Pan, Told};
use iso_restarts::{MemoryNotes, Note};
use std::alloc::Global;
use std::test::Fail;

const SENT: u64 = 1126120000;

/// How long the driver of these tests waits, in milliseconds.
const PATIENCE: u64 = 1000;

/// What is done with a driver, and what is so then. An order is named by its place among all that were sent.
#[derive(Clone, Copy)]
enum Step {
    /// A purchase of an amount begins at a moment, with that trace number.
    Begins(u16, u64, u32),
    /// So many orders are kept, and sent.
    Keeps(usize),
    /// The next moment at which something is due.
    IsDue(Option<u64>),
    /// The order is answered with a code, which comes to that.
    Hears(usize, u8, Heard),
    /// At that moment so many orders are due.
    Wakes(u64, usize),
    /// Both orders are the same.
    AreSame(usize, usize),
    /// The order has that base.
    HasBase(usize, u16),
    /// So many purchases are open.
    AreOpen(usize),
    /// Whether all are closed.
    IsClosed(bool),
    /// So much was spent.
    IsSpent(u128),
    /// How far the purchases got.
    Counts(Counts),
    /// The driver is killed, and starts again from its notes.
    Restarts,
}

/// A driver over these notes.
fn start(alloc: Global, notes: &[Note], log: MemoryNotes) -> Option<Driver<MemoryNotes>> {
    Driver::start(alloc, 7, notes, log, PATIENCE).ok()
}

/// A purchase of an amount begins with that trace number.
fn begins(driver: &mut Driver<MemoryNotes>, amount: u16, now: u64, stan: u32) -> Option<bool> {
    let money = Money {
        pan: Pan::from_digits(b"4111111111111111")?,
        amount: u64::from(amount).max(1),
        currency: *b"840",
    };
    Some(driver.begin(&money, SENT, now) == Ok(stan))
}

/// So many orders are kept, and are sent behind the others.
fn keeps(driver: &mut Driver<MemoryNotes>, sent: &mut Vec<Order>, count: usize) -> Option<bool> {
    let kept = driver.keep().ok()?;
    sent.extend_from_slice(kept.as_slice()).ok()?;
    Some(kept.len() == count)
}

/// The answer to the order, with a code, comes to that.
fn hears(
    driver: &mut Driver<MemoryNotes>,
    order: Option<&Order>,
    code: u8,
    wanted: Heard,
) -> Option<bool> {
    let key = order?.key();
    Some(driver.heard(&Told { key, code }) == Ok(wanted))
}

/// So much was spent of the account.
fn is_spent(driver: &Driver<MemoryNotes>, wanted: u128) -> Option<bool> {
    let pan = Pan::from_digits(b"4111111111111111")?;
    Some(driver.spent(&pan) == wanted)
}

/// What the log of the driver keeps.
fn kept_of(alloc: Global, driver: &Driver<MemoryNotes>) -> Option<MemoryNotes> {
    let mut log = MemoryNotes::new(alloc);
    log.kept = driver.log().kept.clone().ok()?;
    Some(log)
}

/// The driver as it starts from what its log keeps.
fn started_again(alloc: Global, driver: &Driver<MemoryNotes>) -> Option<Driver<MemoryNotes>> {
    start(alloc, driver.log().kept.as_slice(), kept_of(alloc, driver)?)
}

/// The driver is killed, and starts again.
fn restarts(alloc: Global, driver: &mut Driver<MemoryNotes>) -> Option<bool> {
    *driver = started_again(alloc, driver)?;
    Some(true)
}

/// The order has that base.
fn has_base(order: Option<&Order>, base: u16) -> bool {
    match order {
        Some(order) => order.key().base == base,
        None => false,
    }
}

/// Both are orders, and the same.
fn are_same(one: Option<&Order>, other: Option<&Order>) -> bool {
    one.is_some() && one == other
}

/// Whether the step goes as it says.
fn goes(
    alloc: Global,
    driver: &mut Driver<MemoryNotes>,
    sent: &mut Vec<Order>,
    step: Step,
) -> Option<bool> {
    match step {
        Step::Begins(amount, now, stan) => begins(driver, amount, now, stan),
        Step::Keeps(count) => keeps(driver, sent, count),
        Step::IsDue(wanted) => Some(driver.next_due() == wanted),
        Step::Hears(place, code, wanted) => hears(driver, sent.get(place), code, wanted),
        Step::Wakes(now, count) => Some(driver.wake(now) == Ok(count)),
        Step::AreSame(one, other) => Some(are_same(sent.get(one), sent.get(other))),
        Step::HasBase(place, base) => Some(has_base(sent.get(place), base)),
        Step::AreOpen(count) => Some(driver.open() == count),
        Step::IsClosed(wanted) => Some(driver.is_closed() == wanted),
        Step::IsSpent(wanted) => is_spent(driver, wanted),
        Step::Counts(wanted) => Some(driver.counts() == wanted),
        Step::Restarts => restarts(alloc, driver),
    }
}

/// Ends the test unless each step goes as it says.
fn check_steps(
    alloc: Global,
    driver: &mut Driver<MemoryNotes>,
    sent: &mut Vec<Order>,
    steps: &[(&str, Step)],
) -> Result<(), Fail> {
    for (name, step) in steps {
        check(goes(alloc, driver, sent, *step) == Some(true), name)?;
    }
    Ok(())
}

/// Ends the test unless each step of a new driver goes as it says.
fn check_run(alloc: Global, steps: &[(&str, Step)]) -> Result<(), Fail> {
    match start(alloc, &[], MemoryNotes::new(alloc)) {
        Some(mut driver) => check_steps(alloc, &mut driver, &mut Vec::new(alloc), steps),
        None => Err(Fail::new("a driver starts")),
    }
}

const FIRST: Heard = Heard::Closed {
    stan: 1,
    state: State::Approved,
};

const SECOND: Heard = Heard::Closed {
    stan: 2,
    state: State::Declined(51),
};

const THIRD: Heard = Heard::Closed {
    stan: 3,
    state: State::Reversed,
};

const ENDED: Counts = Counts {
    waiting: 0,
    reversing: 0,
    approved: 1,
    declined: 1,
    reversed: 1,
};

const THREE: &[(&str, Step)] = &[
    ("the first begins", Step::Begins(3000, 100, 1)),
    ("the second begins", Step::Begins(500, 150, 2)),
    ("the third begins", Step::Begins(20, 200, 3)),
    ("three are sent", Step::Keeps(3)),
    ("the first is due", Step::IsDue(Some(1100))),
    ("the first is answered", Step::Hears(0, 0, FIRST)),
    ("the same again", Step::Hears(0, 0, Heard::Known)),
    ("the second is due", Step::IsDue(Some(1150))),
    ("none before its moment", Step::Wakes(1149, 0)),
    ("two are due", Step::Wakes(1200, 2)),
    ("two are sent again", Step::Keeps(2)),
    ("the second is sent again", Step::AreSame(3, 1)),
    ("the second is declined", Step::Hears(3, 51, SECOND)),
    ("the third is due", Step::Wakes(2200, 1)),
    ("one is sent", Step::Keeps(1)),
    ("it's a reversal", Step::HasBase(5, 420)),
    ("an answer that is late", Step::Hears(2, 0, Heard::Known)),
    ("the third isn't closed", Step::IsClosed(false)),
    ("the third is reversed", Step::Hears(5, 0, THIRD)),
    ("all are closed", Step::IsClosed(true)),
    ("the first alone is spent", Step::IsSpent(3000)),
    ("one of each", Step::Counts(ENDED)),
];

#[test]
fn one_is_answered_one_asked_again_and_one_reversed(rt: HostRuntime) -> Result<(), Fail> {
    check_run(rt.alloc(), THREE)
}

const KILLED: &[(&str, Step)] = &[
    ("the first begins", Step::Begins(3000, 100, 1)),
    ("the second begins", Step::Begins(500, 150, 2)),
    ("two are sent", Step::Keeps(2)),
    ("the first is answered", Step::Hears(0, 0, FIRST)),
    ("its answer is kept", Step::Keeps(0)),
    ("the driver starts again", Step::Restarts),
    ("one is open", Step::AreOpen(1)),
    ("it's due at once", Step::IsDue(Some(0))),
    ("it's asked again", Step::Wakes(5, 1)),
    ("it's due later", Step::IsDue(Some(1005))),
    ("it's sent again", Step::Keeps(1)),
    ("it's the second", Step::AreSame(2, 1)),
];

#[test]
fn a_killed_driver_goes_on(rt: HostRuntime) -> Result<(), Fail> {
    check_run(rt.alloc(), KILLED)
}

/// Whether both draw the same amount and place, which are in their ranges.
fn draw_in_range(draw: &mut Draw, same: &mut Draw) -> bool {
    let amount = draw.amount(5, 9);
    let is_same = amount == same.amount(5, 9);
    let place = draw.place(3);
    same.place(3);
    is_same && amount >= 5 && amount <= 9 && place < 3
}

/// Ends the test unless both draw the same twenty times.
fn check_draws(draw: &mut Draw, same: &mut Draw) -> Result<(), Fail> {
    for _ in 0..20 {
        check(draw_in_range(draw, same), "a draw")?;
    }
    Ok(())
}

#[test]
fn draws_stay_in_range(_rt: HostRuntime) -> Result<(), Fail> {
    check_draws(&mut Draw::new(7), &mut Draw::new(7))
}
