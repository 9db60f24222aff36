use iso_fakes::check;
use iso_mix::{Counts, Draft, Hearing, Kind, Mix, Sides};
use iso_order::{Act, Money, Order, Pan, Told};
use std::alloc::Global;
use std::test::Fail;

const SENT: u64 = 1126120000;

const MIX: Mix = Mix {
    hold: 20,
    complete: 10,
    inquiry: 5,
    undo: 5,
};

/// What is drawn of 100, and what that asks.
const DRAWS: &[(u32, Kind)] = &[
    (19, Kind::Hold),
    (20, Kind::Complete),
    (34, Kind::Inquiry),
    (39, Kind::Undo),
    (40, Kind::Purchase),
];

#[test]
fn a_draw_is_of_the_kind_of_its_range(_rt: HostRuntime) -> Result<(), Fail> {
    check(MIX.is_fair(), "it is fair")?;
    check(!MIX.is_none(), "it is a mix")?;
    check(Mix::NONE.is_none(), "it is none")?;
    for (draw, kind) in DRAWS {
        check(MIX.kind_of(*draw) == *kind, "the kind of a draw")?;
    }
    Ok(())
}

/// What is done with the orders beside purchases, and what is so then. An order is named by its place among all that began.
#[derive(Clone, Copy)]
enum Step {
    /// An order of that kind begins, of an amount or with a share, at a moment.
    Begins(Kind, u64, u64, u64),
    /// A hold begins or doesn't, where purchases have that highest number.
    BeginsAbove(u32, bool),
    /// The order has that base.
    HasBase(usize, u16),
    /// The order has that trace number.
    HasStan(usize, u32),
    /// The first order is a reversal of the second that leaves so much.
    Undoes(usize, usize, u64),
    /// The next moment at which an order is due.
    IsDue(Option<u64>),
    /// The order that is due at that moment.
    Next(u64, Option<usize>),
    /// The order is answered with a code, which comes to that.
    Hears(usize, u8, Hearing),
    /// So much was moved at a place.
    IsMoved(usize, u128),
    /// So many are open.
    AreOpen(usize),
    /// All are closed.
    IsClosed,
    /// The lowest trace number.
    IsLowest(u32),
    /// How far the orders of that kind got.
    Counts(Kind, Counts),
    /// So many of that kind wait.
    AreWaiting(Kind, usize),
}

/// What an order is made of.
fn draft(amount: u64, share: u64, highest: u32) -> Option<Draft> {
    let money = Money {
        pan: Pan::from_digits(b"4111111111111111")?,
        amount,
        currency: *b"840",
    };
    Some(Draft {
        place: 3,
        money,
        share,
        sent: SENT,
        acquirer: 7,
        highest,
    })
}

/// An order begins, behind the others.
fn begins(
    sides: &mut Sides,
    begun: &mut Vec<Order>,
    kind: Kind,
    draft: Option<Draft>,
    now: u64,
) -> Option<bool> {
    let order = sides.begin(kind, &draft?, now).ok()?;
    begun.push(order?).ok()?;
    Some(true)
}

/// No hold begins, though there is memory.
fn none_begins(sides: &mut Sides, draft: Option<Draft>) -> Option<bool> {
    Some(sides.begin(Kind::Hold, &draft?, 0) == Ok(None))
}

/// A hold begins or doesn't, where purchases have that highest number.
fn begins_above(
    sides: &mut Sides,
    begun: &mut Vec<Order>,
    highest: u32,
    does: bool,
) -> Option<bool> {
    let draft = draft(100, 0, highest);
    if does {
        begins(sides, begun, Kind::Hold, draft, 0)
    } else {
        none_begins(sides, draft)
    }
}

/// The first order is a reversal of the second that leaves so much.
fn undoes(undo: Option<&Order>, original: Option<&Order>, left: u64) -> Option<bool> {
    let original = original?.key();
    Some(undo?.act() == Act::Undo { original, left })
}

/// The order that is due at that moment is that one, or none is.
fn is_next(sides: &mut Sides, begun: &[Order], now: u64, place: Option<usize>) -> Option<bool> {
    let wanted = match place {
        Some(place) => Some(*begun.get(place)?),
        None => None,
    };
    Some(sides.next(now) == wanted)
}

/// The answer to the order, with a code, comes to that.
fn hears(sides: &mut Sides, order: Option<&Order>, code: u8, wanted: Hearing) -> Option<bool> {
    let key = order?.key();
    Some(sides.hear(&Told { key, code }) == Ok(wanted))
}

/// Whether the step goes as it says.
fn goes(sides: &mut Sides, begun: &mut Vec<Order>, step: Step) -> Option<bool> {
    match step {
        Step::Begins(kind, amount, share, now) => {
            begins(sides, begun, kind, draft(amount, share, 10), now)
        }
        Step::BeginsAbove(highest, does) => begins_above(sides, begun, highest, does),
        Step::HasBase(place, base) => Some(begun.get(place)?.key().base == base),
        Step::HasStan(place, stan) => Some(begun.get(place)?.key().stan == stan),
        Step::Undoes(undo, original, left) => undoes(begun.get(undo), begun.get(original), left),
        Step::IsDue(wanted) => Some(sides.next_due() == wanted),
        Step::Next(now, place) => is_next(sides, begun, now, place),
        Step::Hears(place, code, wanted) => hears(sides, begun.get(place), code, wanted),
        Step::IsMoved(place, wanted) => Some(sides.moved(place) == wanted),
        Step::AreOpen(count) => Some(sides.open() == count),
        Step::IsClosed => Some(sides.is_closed()),
        Step::IsLowest(stan) => Some(sides.lowest() == stan),
        Step::Counts(kind, wanted) => Some(sides.counts(kind) == wanted),
        Step::AreWaiting(kind, count) => Some(sides.counts(kind).waiting == count),
    }
}

/// Ends the test unless each step goes as it says.
fn check_steps(
    sides: &mut Sides,
    begun: &mut Vec<Order>,
    steps: &[(&str, Step)],
) -> Result<(), Fail> {
    for (name, step) in steps {
        check(goes(sides, begun, *step) == Some(true), name)?;
    }
    Ok(())
}

/// Ends the test unless each step from nothing goes as it says.
fn check_run(alloc: Global, steps: &[(&str, Step)]) -> Result<(), Fail> {
    check_steps(&mut Sides::new(alloc, 1000), &mut Vec::new(alloc), steps)
}

const COMPLETED: Counts = Counts {
    waiting: 0,
    granted: 1,
    refused: 0,
};

const COMPLETION: &[(&str, Step)] = &[
    ("a hold begins", Step::Begins(Kind::Hold, 3000, 0, 100)),
    ("it's a hold", Step::HasBase(0, 100)),
    ("it has the last number", Step::HasStan(0, 999_999)),
    ("it's due", Step::IsDue(Some(1100))),
    ("not before its moment", Step::Next(1099, None)),
    ("at its moment", Step::Next(1100, Some(0))),
    ("no answer to keep", Step::Hears(0, 96, Hearing::Known)),
    ("nothing is moved", Step::IsMoved(3, 0)),
    ("its answer", Step::Hears(0, 0, Hearing::First)),
    ("the same again", Step::Hears(0, 0, Hearing::Known)),
    ("another answer", Step::Hears(0, 51, Hearing::Differs)),
    ("the hold is moved", Step::IsMoved(3, 3000)),
    ("nothing elsewhere", Step::IsMoved(2, 0)),
    (
        "a completion begins",
        Step::Begins(Kind::Complete, 1, 2799, 1200),
    ),
    ("it's a completion", Step::HasBase(1, 220)),
    ("it has the number before", Step::HasStan(1, 999_998)),
    ("it's open", Step::AreOpen(1)),
    ("its answer", Step::Hears(1, 0, Hearing::First)),
    ("less is moved", Step::IsMoved(3, 2800)),
    ("all are closed", Step::IsClosed),
    ("one is granted", Step::Counts(Kind::Complete, COMPLETED)),
];

#[test]
fn a_hold_is_completed(rt: HostRuntime) -> Result<(), Fail> {
    check_run(rt.alloc(), COMPLETION)
}

const REVERSAL: &[(&str, Step)] = &[
    ("a hold begins", Step::Begins(Kind::Undo, 3000, 0, 100)),
    ("it's a hold", Step::HasBase(0, 100)),
    ("its answer", Step::Hears(0, 0, Hearing::First)),
    ("an inquiry begins", Step::Begins(Kind::Inquiry, 5, 0, 150)),
    ("it leaves a number", Step::HasStan(1, 999_997)),
    ("a reversal begins", Step::Begins(Kind::Undo, 5, 699, 200)),
    ("it leaves a part", Step::Undoes(2, 0, 700)),
    ("it's refused", Step::Hears(2, 25, Hearing::First)),
    ("all stays moved", Step::IsMoved(3, 3000)),
    ("the lowest number", Step::IsLowest(999_996)),
    ("the inquiry waits", Step::AreWaiting(Kind::Inquiry, 1)),
    ("another hold begins", Step::Begins(Kind::Undo, 5, 699, 200)),
    ("it has the number before", Step::HasStan(3, 999_995)),
];

#[test]
fn a_hold_is_reversed_in_part(rt: HostRuntime) -> Result<(), Fail> {
    check_run(rt.alloc(), REVERSAL)
}

const TIGHT: &[(&str, Step)] = &[
    ("no room for both", Step::BeginsAbove(999_998, false)),
    ("room for one", Step::BeginsAbove(999_997, true)),
    ("it has the last number", Step::HasStan(0, 999_999)),
    ("no room for another", Step::BeginsAbove(999_997, false)),
];

#[test]
fn none_begins_at_the_numbers_of_others(rt: HostRuntime) -> Result<(), Fail> {
    check_run(rt.alloc(), TIGHT)
}
