//! The loop of a run.

use crate::edge::Edge;
use crate::engine::{Engine, orders_of};
use crate::fault::TrafficFault;
use crate::moment::Moment;
use crate::outcome::Outcome;
use crate::watch::Watch;
use iso_drive::Driver;
use iso_plan::{Plan, Stage, Standing, left_of_second, next_stage, stamp};
use iso_restarts::NoteLog;
use iso_tally::{Latencies, Tally};
use mio::net::TcpStream;
use std::alloc::Global;
use std::net::Net;
use std::time::{Clock, Duration};

/// How long it takes until those who watch are told again, in milliseconds.
const TELLS: u64 = 200;

/// How often the next second is waited for, where waiting is interrupted.
const WAITS: u32 = 100;

/// The microseconds of a duration.
fn micros_of(time: Duration) -> u64 {
    time.as_secs()
        .saturating_mul(1_000_000)
        .saturating_add(time.subsec_micros() as u64)
}

/// The microseconds of the clock that never goes back.
fn clock<R: Clock>(rt: &R) -> Result<u64, TrafficFault> {
    match rt.monotonic() {
        Ok(time) => Ok(micros_of(time)),
        Err(_) => Err(TrafficFault::Wait),
    }
}

/// The moment now, of a run that began at so many microseconds of that clock.
fn moment<R: Clock>(rt: &R, began: u64) -> Result<Moment, TrafficFault> {
    let Ok(date) = rt.since_1970() else {
        return Err(TrafficFault::Wait);
    };
    let Some(sent) = stamp(micros_of(date) / 1_000) else {
        return Err(TrafficFault::Wait);
    };
    Ok(Moment {
        micros: clock(rt)?.saturating_sub(began),
        sent,
    })
}

/// How a run stands at a moment.
fn standing_of_run<L: NoteLog>(
    engine: &Engine<'_, TcpStream>,
    driver: &Driver<L>,
    goes: Moment,
) -> Standing {
    Standing {
        is_closing: engine.is_closing(goes),
        is_closed: driver.is_closed() && engine.sides.is_closed(),
        checks: engine.plan.checks,
        are_done: engine.inquiries.are_done(),
    }
}

/// A run on its way.
#[derive(Clone, Copy)]
struct Course {
    /// When it began, in microseconds of the clock that never goes back.
    began: u64,
    stage: Stage,
    /// When those who watch were told last, in milliseconds.
    told: u64,
}

impl Course {
    /// A turn of the run: what came is heard, and what is due goes out. Gives how long the next one waits for events.
    fn turn<R: Net + Clock, L: NoteLog>(
        &mut self,
        rt: &R,
        edge: &Edge,
        engine: &mut Engine<'_, TcpStream>,
        driver: &mut Driver<L>,
    ) -> Result<u64, TrafficFault> {
        let came = moment(rt, self.began)?;
        edge.dial_due(rt, &mut engine.lines, &mut engine.tally, came.millis());
        engine.hear_all(driver, came)?;
        let goes = moment(rt, self.began)?;
        engine.send_due(driver, goes)?;
        let before = self.stage;
        self.stage = next_stage(before, &standing_of_run(engine, driver, goes));
        if before == self.stage {
            return Ok(engine.pause(driver, goes));
        }
        match self.stage {
            Stage::Buying => engine.open(goes)?,
            Stage::Asking => engine.ask_after(goes)?,
            Stage::Opening | Stage::Over => {}
        }
        Ok(0)
    }

    /// Tells those who watch, a few times a second.
    fn tell<R: Clock, L: NoteLog, W: Watch>(
        &mut self,
        rt: &R,
        engine: &Engine<'_, TcpStream>,
        driver: &Driver<L>,
        watch: &mut W,
    ) -> Result<Moment, TrafficFault> {
        let now = moment(rt, self.began)?;
        if now.millis().saturating_sub(self.told) >= TELLS {
            self.told = now.millis();
            let at = self.began / 1_000;
            watch.moment(
                at.saturating_add(now.millis()),
                &engine.progress(driver, now),
            );
        }
        Ok(now)
    }

    /// Takes one turn after the other until the run is over, or so many milliseconds are: how many microseconds it took.
    fn go_on<R: Net + Clock, L: NoteLog, W: Watch>(
        &mut self,
        rt: &R,
        edge: &mut Edge,
        engine: &mut Engine<'_, TcpStream>,
        driver: &mut Driver<L>,
        watch: &mut W,
        whole: u64,
    ) -> Result<u64, TrafficFault> {
        let mut micros = 0;
        for _ in 0..u64::MAX {
            let pause = self.turn(rt, edge, engine, driver)?;
            let now = self.tell(rt, engine, driver, watch)?;
            let millis = now.millis();
            micros = now.micros;
            if self.stage == Stage::Over || millis >= whole {
                break;
            }
            let pause = pause.min(whole.saturating_sub(millis));
            edge.wait(pause, &mut engine.lines, &mut engine.tally, millis)?;
        }
        Ok(micros)
    }
}

/// How many milliseconds it takes until the next second of the system's clock.
fn until_second<R: Clock>(rt: &R) -> Result<u64, TrafficFault> {
    match rt.since_1970() {
        Ok(date) => Ok(left_of_second(micros_of(date) / 1_000)),
        Err(_) => Err(TrafficFault::Wait),
    }
}

/// Waits for the next second of the system's clock, if the driver has no transaction: so no key of a run before this one
/// comes again. Gives how long it waited, in milliseconds.
fn wait_for_second<R: Net + Clock, L: NoteLog>(
    rt: &R,
    edge: &mut Edge,
    engine: &mut Engine<'_, TcpStream>,
    driver: &Driver<L>,
) -> Result<u64, TrafficFault> {
    if orders_of(&driver.counts()) > 0 {
        return Ok(0);
    }
    let from = clock(rt)?;
    let first = moment(rt, from)?;
    for _ in 0..WAITS {
        if moment(rt, from)?.sent != first.sent {
            break;
        }
        let left = until_second(rt)?;
        edge.wait(left, &mut engine.lines, &mut engine.tally, 0)?;
    }
    Ok(moment(rt, from)?.millis())
}

/// A run at its beginning: it asks for balances first, if it checks and its driver has no transaction.
fn begin<R: Clock, L: NoteLog>(
    rt: &R,
    engine: &mut Engine<'_, TcpStream>,
    driver: &Driver<L>,
) -> Result<Course, TrafficFault> {
    let began = clock(rt)?;
    let asks = engine.plan.checks && orders_of(&driver.counts()) == 0;
    if asks {
        engine.ask_before(moment(rt, began)?)?;
    }
    Ok(Course {
        began,
        stage: if asks { Stage::Opening } else { Stage::Buying },
        told: 0,
    })
}

/// What came of a run of so many microseconds, which ended at a stage.
fn outcome_of<L: NoteLog>(
    alloc: Global,
    engine: &mut Engine<'_, TcpStream>,
    driver: &Driver<L>,
    stage: Stage,
    micros: u64,
) -> Result<Outcome, TrafficFault> {
    Ok(Outcome {
        all_closed: driver.is_closed() && engine.sides.is_closed(),
        moved: engine.moved()?,
        mixed: engine.mixed(),
        before: std::mem::replace(&mut engine.before, Vec::new(alloc)),
        balances: match stage {
            Stage::Opening | Stage::Buying => Vec::new(alloc),
            Stage::Asking | Stage::Over => engine.inquiries.balances(alloc)?,
        },
        micros,
    })
}

/// Runs until it is over, or its time is up.
fn run<R: Net + Clock, L: NoteLog, W: Watch>(
    rt: &R,
    alloc: Global,
    engine: &mut Engine<'_, TcpStream>,
    driver: &mut Driver<L>,
    watch: &mut W,
) -> Result<Outcome, TrafficFault> {
    let mut edge = Edge::open(rt, alloc, engine.plan.address)?;
    let waited = wait_for_second(rt, &mut edge, engine, driver)?;
    let time = engine.plan.seconds.saturating_mul(1_000);
    let mut course = begin(rt, engine, driver)?;
    let whole = time.saturating_sub(waited);
    let micros = course.go_on(rt, &mut edge, engine, driver, watch, whole)?;
    outcome_of(alloc, engine, driver, course.stage, micros)
}

/// Has a driver buy from a host as a plan says, over many connections, until all that it began is closed, or the time of the
/// plan is up: it never takes longer. What its notes left open is asked for again first. A driver without any transaction
/// begins with the next second of the system's clock, so that it asks under no key of a run before it. An order goes out once
/// its note is kept, and its answer counts once.
///
/// The tally and the latencies are those of this run, after an `Err` too.
pub fn drive<R: Net + Clock, L: NoteLog, W: Watch>(
    rt: &R,
    alloc: Global,
    plan: &Plan<'_>,
    driver: &mut Driver<L>,
    watch: &mut W,
    tally: &mut Tally,
    latencies: &mut Latencies,
) -> Result<Outcome, TrafficFault> {
    if let Some(fault) = plan.fault() {
        return Err(TrafficFault::Plan(fault));
    }
    let mut engine = Engine::new(alloc, plan, driver)?;
    let ended = run(rt, alloc, &mut engine, driver, watch);
    *tally = engine.tally;
    *latencies = engine.latencies;
    ended
}
