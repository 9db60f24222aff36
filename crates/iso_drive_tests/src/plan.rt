use iso_fakes::check;
use iso_order::{Pan, Told, TxKey};
use iso_plan::{
    Buyer, CERTAIN, Came, Comes, Fate, Fates, Faults, Held, Inquiries, Late, Pace, Sendings, Stage,
    Standing, closing_moment, due_purchases, left_of_second, next_moment, next_stage, stamp,
};
use std::alloc::{AllocError, Global};
use std::test::Fail;

const KEY: TxKey = TxKey {
    base: 200,
    stan: 1,
    sent: 1128055759,
    acquirer: 7,
};

/// Faults that are certain or never happen, and what becomes of each frame then.
const FATES: &[(&str, Faults, Fate)] = &[
    (
        "no faults",
        Faults::NONE,
        Fate {
            comes: Comes::Once(0),
            cuts: false,
        },
    ),
    (
        "all are lost",
        Faults {
            lose: CERTAIN,
            repeat: CERTAIN,
            cut: CERTAIN,
            delay: (0, 0),
        },
        Fate {
            comes: Comes::Never,
            cuts: true,
        },
    ),
    (
        "all come twice",
        Faults {
            lose: 0,
            repeat: CERTAIN,
            cut: 0,
            delay: (5, 5),
        },
        Fate {
            comes: Comes::Twice(5, 5),
            cuts: false,
        },
    ),
];

/// Whether that becomes of twenty frames.
fn are_all(fates: &mut Fates, wanted: Fate) -> bool {
    for _ in 0..20 {
        if fates.next() != wanted {
            return false;
        }
    }
    true
}

#[test]
fn fates_of_none_and_of_certainty(_rt: HostRuntime) -> Result<(), Fail> {
    for (name, faults, wanted) in FATES {
        check(are_all(&mut Fates::new(7, 1, *faults), *wanted), name)?;
    }
    Ok(())
}

const SOME: Faults = Faults {
    lose: 200_000,
    repeat: 300_000,
    cut: 100_000,
    delay: (50, 200),
};

/// How many of a thousand frames are lost, unless the fates differ.
fn lost_of_both(one: &mut Fates, same: &mut Fates) -> Option<u32> {
    let mut lost = 0u32;
    for _ in 0..1_000 {
        let fate = one.next();
        if fate != same.next() {
            return None;
        }
        if fate.comes == Comes::Never {
            lost = lost.saturating_add(1);
        }
    }
    Some(lost)
}

#[test]
fn fates_by_a_seed(_rt: HostRuntime) -> Result<(), Fail> {
    let mut one = Fates::new(42, 1, SOME);
    let mut same = Fates::new(42, 1, SOME);
    match lost_of_both(&mut one, &mut same) {
        Some(lost) => check(150 < lost && lost < 250, "how many are lost"),
        None => Err(Fail::new("the fates of one seed")),
    }
}

/// An answer of that code.
fn came(code: u8) -> Held {
    Held::Came(Came {
        told: Told { key: KEY, code },
        digest: 1,
    })
}

/// Answers that are held back: until when, and their codes.
const LATE: &[(u64, u8)] = &[(30, 1), (10, 2), (30, 3), (20, 4)];

/// All of them are held back.
fn hold_all(late: &mut Late) -> Result<(), AllocError> {
    for (at, code) in LATE {
        late.hold(*at, came(*code))?;
    }
    Ok(())
}

/// Whether an answer of that code is due at that moment.
fn is_due(late: &mut Late, now: u64, code: u8) -> bool {
    late.take_due(now) == Some(came(code))
}

/// Whether nothing is due at that moment.
fn none_is_due(late: &mut Late, now: u64) -> bool {
    late.take_due(now).is_none()
}

/// Ends the test unless all that is held back comes by its moment.
fn check_late(late: &mut Late) -> Result<(), Fail> {
    check(late.next_due() == Some(10), "the first moment")?;
    check(none_is_due(late, 9), "nothing before it")?;
    for code in &[2, 4, 1, 3] {
        check(is_due(late, 30, *code), "an answer by its moment")?;
    }
    check(none_is_due(late, 30), "nothing more")?;
    check(late.next_due().is_none(), "no moment")
}

#[test]
fn what_is_held_back_comes_by_its_moment(rt: HostRuntime) -> Result<(), Fail> {
    let mut late = Late::new(rt.alloc());
    hold_all(&mut late)?;
    check_late(&mut late)
}

const PACE: Pace = Pace {
    rate: Some(30),
    count: 100,
    most_open: 16,
    opening: 1_000,
    closing: 11_000,
};

/// A moment, how many purchases began and are open then, and how many are due.
const PURCHASES: &[(u64, u64, usize, u64)] = &[
    (1_000, 0, 0, 0),
    (1_033, 0, 0, 0),
    (1_034, 0, 0, 1),
    (1_500, 3, 2, 12),
    (1_500, 3, 10, 6),
    (1_500, 3, 20, 0),
    (10_999, 99, 0, 1),
    (10_999, 100, 0, 0),
    (11_000, 99, 0, 0),
    (999, 0, 0, 0),
];

/// A rate, how many began, and when the next one begins.
const MOMENTS: &[(Option<u32>, u64, Option<u64>)] = &[
    (Some(30), 0, Some(34)),
    (Some(1_000), 7, Some(8)),
    (None, 7, None),
];

/// How long a run takes, how long it waits for an answer, and until when purchases begin.
const CLOSINGS: &[(u64, u64, u64)] = &[(600, 2_000, 592_000), (10, 2_000, 5_000), (0, 2_000, 0)];

/// Ends the test unless so many purchases are due.
fn check_due() -> Result<(), Fail> {
    for (elapsed, begun, opened, due) in PURCHASES {
        let is_so = due_purchases(&PACE, *elapsed, *begun, *opened) == *due;
        check(is_so, "how many are due")?;
    }
    Ok(())
}

/// Ends the test unless the next purchases begin then.
fn check_moments() -> Result<(), Fail> {
    for (rate, begun, next) in MOMENTS {
        check(next_moment(*rate, *begun) == *next, "the next moment")?;
    }
    Ok(())
}

#[test]
fn purchases_by_the_rate(_rt: HostRuntime) -> Result<(), Fail> {
    check_due()?;
    check_moments()?;
    for (seconds, patience, closing) in CLOSINGS {
        let is_so = closing_moment(*seconds, *patience) == *closing;
        check(is_so, "the last moment")?;
    }
    Ok(())
}

/// A moment, and how messages have it.
const STAMPS: &[(u64, Option<u64>)] = &[
    (0, Some(101_000_000)),
    (1_795_845_479_000, Some(1_128_055_759)),
    (1_795_845_479_999, Some(1_128_055_759)),
    (u64::MAX, None),
];

/// A moment, and what is left of its second.
const WAITS: &[(u64, u64)] = &[(0, 1_000), (1_795_845_479_001, 999), (1_795_845_479_999, 1)];

#[test]
fn the_time_as_messages_have_it(_rt: HostRuntime) -> Result<(), Fail> {
    for (since, sent) in STAMPS {
        check(stamp(*since) == *sent, "a moment")?;
    }
    check_waits()
}

/// Ends the test unless so much is left of each second.
fn check_waits() -> Result<(), Fail> {
    for (since, wait) in WAITS {
        check(left_of_second(*since) == *wait, "what is left")?;
    }
    Ok(())
}

/// Ends the test unless an order that is sent again is told from the others.
fn check_sendings(sendings: &mut Sendings) -> Result<(), Fail> {
    check(sendings.send(4, 1_000) == Ok(true), "it's sent")?;
    check(sendings.send(3, 1_000) == Ok(false), "an earlier one")?;
    check(sendings.latency(3, 3_000).is_none(), "it has no latency")?;
    check(sendings.latency(4, 3_000) == Some(2_000), "its latency")?;
    check(sendings.latency(5, 3_000).is_none(), "none is sent")?;
    sendings.close(4, 0);
    check(!sendings.differs(4, 0), "the same answer")?;
    check(sendings.differs(4, 94), "another answer")?;
    check(!sendings.differs(5, 94), "the answer to none")?;
    check(sendings.send(4, 5_000) == Ok(false), "it's sent again")?;
    check(sendings.latency(4, 9_000).is_none(), "it has none now")
}

#[test]
fn an_order_that_is_sent_again(rt: HostRuntime) -> Result<(), Fail> {
    let mut sendings = Sendings::new(rt.alloc(), 3)?;
    check_sendings(&mut sendings)
}

/// Two inquiries about one account.
fn ask(inquiries: &mut Inquiries) -> Option<bool> {
    let buyer = Buyer {
        pan: Pan::from_digits(b"4111111111111111")?,
        currency: *b"840",
    };
    let asked = inquiries.ask(&[buyer, buyer], 7, 1_128_055_759, 2);
    Some(asked.is_ok())
}

/// Ends the test unless both are sent at once, and the first is answered.
fn check_first(inquiries: &mut Inquiries) -> Result<(), Fail> {
    let Some(first) = inquiries.next(0) else {
        return Err(Fail::new("the first is sent"));
    };
    let key = first.key();
    check(key.stan == 3, "the number of the first")?;
    check(inquiries.next(0).is_some(), "the second is sent")?;
    check(inquiries.next(99).is_none(), "none is sent again yet")?;
    let told = Told { key, code: 0 };
    check(inquiries.hear(&told, Some(5_000)), "its answer")?;
    check(inquiries.hear(&told, Some(1)), "another answer")
}

/// Ends the test unless the second is sent four times more.
fn check_second(inquiries: &mut Inquiries) -> Result<(), Fail> {
    for at in &[100, 200, 300, 400] {
        check(inquiries.next(*at).is_some(), "it's sent again")?;
    }
    check(!inquiries.are_done(), "it may be answered")?;
    check(inquiries.next(500).is_none(), "it isn't sent again")?;
    check(inquiries.are_done(), "all are done")
}

/// Whether these balances were told.
fn is_told(alloc: Global, inquiries: &Inquiries, wanted: &[Option<i64>]) -> Option<bool> {
    let balances = inquiries.balances(alloc).ok()?;
    Some(balances.as_slice() == wanted)
}

/// Ends the test unless the inquiries of a run go as they are to go.
fn check_inquiries(alloc: Global, inquiries: &mut Inquiries) -> Result<(), Fail> {
    check(inquiries.are_done(), "none is asked")?;
    check(ask(inquiries) == Some(true), "two are asked")?;
    check_first(inquiries)?;
    check_second(inquiries)?;
    let told = is_told(alloc, inquiries, &[Some(5_000), None]);
    check(told == Some(true), "the balances")?;
    let other = Told { key: KEY, code: 0 };
    check(!inquiries.hear(&other, None), "the answer to another")
}

#[test]
fn inquiries_are_sent_five_times(rt: HostRuntime) -> Result<(), Fail> {
    check_inquiries(rt.alloc(), &mut Inquiries::none(rt.alloc(), 100))
}

/// Where a run is, whether all is closed, is to be checked and is done, and what comes next.
const STAGES: &[(Stage, bool, bool, bool, Stage)] = &[
    (Stage::Opening, true, true, true, Stage::Buying),
    (Stage::Opening, false, true, false, Stage::Opening),
    (Stage::Buying, false, true, false, Stage::Buying),
    (Stage::Buying, true, true, false, Stage::Asking),
    (Stage::Asking, true, true, false, Stage::Asking),
    (Stage::Asking, true, true, true, Stage::Over),
    (Stage::Buying, true, false, true, Stage::Over),
];

#[test]
fn a_run_asks_once_all_is_closed(_rt: HostRuntime) -> Result<(), Fail> {
    for (stage, is_closed, checks, are_done, next) in STAGES {
        let stands = Standing {
            is_closing: true,
            is_closed: *is_closed,
            checks: *checks,
            are_done: *are_done,
        };
        check(next_stage(*stage, &stands) == *next, "what comes next")?;
    }
    Ok(())
}
