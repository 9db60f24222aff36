//! Orders and answers that are lost, late, repeated and out of order.
ghost use Rattle.std.specs.Prelude.{IfSome};
ghost use Rattle.iso_acquirer.specs.World.{IsFairEvent};

use super::cases::Happens::{Answer, Begin, Deliver, Other, Timeout};
use super::cases::{APPROVED, Happens, SCHEDULES, Schedule, Step};
use super::*;

/// Two accounts with 5000 on each.
const ACCOUNTS: &[u8] =
    b"{\"accounts\":[{\"currency\":\"840\",\"opening\":5000,\"pan\":\"4111111111111111\"},
        {\"currency\":\"840\",\"opening\":5000,\"pan\":\"01\"}]}";

/// An acquirer, and an issuer whose journal takes so many orders.
fn world(alloc: Global, limit: u32) -> Option<World> {
    match Accounts::from_json(alloc, ACCOUNTS) {
        Ok(accounts) => Some(World::new(
            Acquirer::new(alloc, ID),
            Issuer::new(accounts, limit.max(1).min(999_999)),
        )),
        Err(_) => None,
    }
}

/// The acquirer begins a debit of the account.
fn begin(amount: u64) -> Option<Event>
    ensures { IfSome result IsFairEvent }
{
    let pan = Pan::from_digits(ACCOUNT)?;
    if amount < 1 || 999_999_999_999 < amount {
        return None;
    }
    Some(Event::Begin {
        pan,
        amount,
        currency: *b"840",
        sent: SENT,
    })
}

/// An order of an acquirer, for 700.
fn other(acquirer: u64) -> Option<Order> {
    order(&Plain {
        key: key!(200, 1, acquirer),
        amount: 700,
        ..USUAL
    })
}

fn event(happens: Happens) -> Option<Event>
    ensures { IfSome result IsFairEvent }
{
    match happens {
        Begin(amount) => begin(amount),
        Timeout(stan) => Some(Event::Timeout(stan)),
        Deliver(place) => Some(Event::Deliver(place)),
        Answer(place) => Some(Event::Answer(place)),
        Other(acquirer) => match other(acquirer) {
            Some(order) => Some(Event::Other(order)),
            None => None,
        },
    }
}

/// Makes an event, and tells what comes of it, where there is such an event.
fn come_of(world: &mut World, happens: Happens) -> Option<Result<(), StepFault>> {
    match event(happens) {
        Some(event) => Some(world.step(event)),
        None => None,
    }
}

/// The code of the answer that was given last.
fn last_code(world: &World) -> Option<u8> {
    match world.given().last() {
        Some(given) => Some(given.answer.code),
        None => None,
    }
}

/// Whether that is held of a transaction, that code was given last, and so much is on the account and available.
fn leaves(world: &World, held: Held, code: Option<u8>, left: i64) -> bool {
    let (stan, state) = held;
    match Pan::from_digits(ACCOUNT) {
        Some(account) => {
            let issuer = world.issuer();
            (issuer.ledger(account), issuer.available(account)) == (Some(left), Some(left))
                && (world.acquirer().state(stan), last_code(world)) == (state, code)
        }
        None => false,
    }
}

/// Whether an event comes to what it should, and leaves that.
fn is_step(world: &mut World, step: &Step) -> bool {
    let (_, happens, told, held, code, left) = step;
    come_of(world, *happens) == Some(*told) && leaves(world, *held, *code, *left)
}

/// The name of the first step that isn't so.
fn wrong_step(world: &mut World, steps: &[Step]) -> Option<&'static str> {
    for step in steps {
        if !is_step(world, step) {
            let (name, _, _, _, _, _) = step;
            return Some(*name);
        }
    }
    None
}

/// Whether so much was sent, given and entered by the end of a schedule.
fn is_ended(world: &World, schedule: &Schedule) -> bool {
    (
        world.sent().len(),
        world.given().len(),
        world.issuer().len(),
    ) == (schedule.sent, schedule.given, schedule.entered)
}

/// The name of what isn't so first, where a schedule is played in a world.
fn wrong_in(world: &mut World, schedule: &Schedule) -> Option<&'static str> {
    match wrong_step(world, schedule.steps) {
        None => {
            if is_ended(world, schedule) {
                None
            } else {
                Some("the end")
            }
        }
        wrong => wrong,
    }
}

/// Begins debits of 1000, and tells whether all are begun.
fn begin_all(world: &mut World, count: u32) -> bool {
    let mut is_begun = true;
    for _ in 0..count {
        is_begun &= come_of(world, Begin(1000)) == Some(Ok(()));
    }
    is_begun
}

/// The name of what isn't so first, where a schedule is played behind its debits.
fn wrong_behind(world: &mut World, schedule: &Schedule) -> Option<&'static str> {
    if begin_all(world, schedule.begun) {
        wrong_in(world, schedule)
    } else {
        Some("the debits before")
    }
}

/// The name of what isn't so first, where a schedule is played where nothing has happened.
fn wrong_of(alloc: Global, schedule: &Schedule) -> Option<&'static str> {
    match world(alloc, schedule.limit) {
        Some(mut world) => wrong_behind(&mut world, schedule),
        None => Some("the accounts"),
    }
}

/// Hands over a list of events, and tells how many were refused.
fn refused_count(world: &mut World) -> Option<u32> {
    let begun = begin(1000)?;
    Some(world.run(&[
        begun,
        Event::Deliver(1),
        Event::Deliver(0),
        Event::Answer(0),
        Event::Timeout(1),
        Event::Answer(1),
    ]))
}

/// What both ends agree on.
fn ends_agree(world: &World) {
    world.both_agree();
    world.books_agree();
}

/// Hands over a list of events, and tells whether that comes of it which should.
fn is_run(alloc: Global) -> bool {
    match world(alloc, 10) {
        Some(mut world) => {
            let refused = refused_count(&mut world);
            ends_agree(&world);
            refused == Some(3) && leaves(&world, APPROVED, Some(0), 4000)
        }
        None => false,
    }
}

#[test]
fn both_ends_agree_event_by_event(rt: HostRuntime) -> Result<(), Fail> {
    for schedule in SCHEDULES {
        let wrong = wrong_of(rt.alloc(), schedule);
        check_of(wrong.is_none(), schedule.name, wrong.unwrap_or(""))?;
    }
    check(is_run(rt.alloc()), "what a list of events leaves")
}
