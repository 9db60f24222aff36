//! The engine of a run: what is done with what came, and what goes out.

use crate::fault::TrafficFault;
use crate::lines::Lines;
use iso_drive::{Counts, Draw, Driver};
use iso_frames::Taken;
use iso_mix::Sides;
use iso_order::{MOST_STAN, Order};
use iso_plan::{Fates, Inquiries, Late, Pace, Plan, Sendings, closing_moment};
use iso_restarts::NoteLog;
use iso_tally::{Latencies, Tally};
use std::alloc::Global;
use std::io::{Read, Write};

/// What a run draws by chance.
#[derive(Drop)]
pub(crate) struct Chance {
    /// What becomes of frames that go out.
    pub going: Fates,
    /// What becomes of answers that come in.
    pub coming: Fates,
    /// Accounts, amounts and kinds of transactions.
    pub draw: Draw,
}

impl Chance {
    /// What a plan's seed draws.
    fn of(plan: &Plan<'_>) -> Chance {
        Chance {
            going: Fates::new(plan.seed, 1, plan.faults),
            coming: Fates::new(plan.seed, 2, plan.faults),
            draw: Draw::new(plan.seed),
        }
    }
}

/// The engine of a run, over connections on any streams. Its driver is handed in, and so are moments.
#[derive(Drop)]
pub(crate) struct Engine<'p, S> {
    pub alloc: Global,
    pub plan: Plan<'p>,
    pub pace: Pace,
    pub lines: Lines<S>,
    /// Room for a text that is read.
    pub text: Vec<u8>,
    pub chance: Chance,
    pub late: Late,
    pub sendings: Sendings,
    pub inquiries: Inquiries,
    /// What is asked beside purchases.
    pub sides: Sides,
    /// What of it began, and wasn't sent yet.
    pub fresh: Vec<Order>,
    /// The largest trace number of the driver's orders.
    pub highest: u32,
    /// What the host told of each account before the first purchase.
    pub before: Vec<Option<i64>>,
    /// The frame that goes out.
    pub frame: Vec<u8>,
    /// The frames that came.
    pub taken: Taken,
    pub tally: Tally,
    pub latencies: Latencies,
}

/// How many orders were made for these transactions: one each, and one for each that was or is being reversed.
pub(crate) fn orders_of(counts: &Counts) -> usize {
    let begun = counts
        .waiting
        .saturating_add(counts.approved)
        .saturating_add(counts.declined);
    let reversals = counts.reversing.saturating_add(counts.reversed);
    begun.saturating_add(reversals.saturating_mul(2))
}

/// How a plan's transactions begin.
fn pace_of(plan: &Plan<'_>) -> Pace {
    Pace {
        rate: plan.rate,
        count: plan.count,
        most_open: plan.most_open,
        opening: 0,
        closing: closing_moment(plan.seconds, plan.patience),
    }
}

/// The counts of a run that goes on with so many open transactions.
fn tally_of(open: usize) -> Tally {
    let mut tally = Tally::NONE;
    tally.resumed = open as u64;
    tally
}

impl<'p, S: Read + Write + Drop> Engine<'p, S> {
    /// The engine of a plan, at the beginning of a run that goes on with what its driver has.
    pub fn new<L: NoteLog>(
        alloc: Global,
        plan: &Plan<'p>,
        driver: &Driver<L>,
    ) -> Result<Engine<'p, S>, TrafficFault> {
        let earlier = orders_of(&driver.counts());
        Ok(Engine {
            alloc,
            plan: *plan,
            pace: pace_of(plan),
            lines: Lines::new(alloc, plan.peers)?,
            text: Vec::new(alloc),
            chance: Chance::of(plan),
            late: Late::new(alloc),
            sendings: Sendings::new(alloc, earlier)?,
            inquiries: Inquiries::none(alloc, plan.patience),
            sides: Sides::new(alloc, plan.patience),
            fresh: Vec::new(alloc),
            highest: earlier.min(MOST_STAN as usize) as u32,
            before: Vec::new(alloc),
            frame: Vec::new(alloc),
            taken: Taken::new(alloc),
            tally: tally_of(driver.open()),
            latencies: Latencies::new(alloc),
        })
    }
}
