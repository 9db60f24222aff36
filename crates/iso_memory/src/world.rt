//! The calls on an acquirer, and on both ends.

ghost use Rattle.std.specs.Prelude.{IfSome};
ghost use Rattle.iso_acquirer.specs.World.{IsFairEvent};

use crate::ended::Ended;
use crate::known::{ACQUIRER, SENT, account, balances, issuer, key, money};
use iso_acquirer::{AcqFault, Acquirer, Event, State, StepFault, World};
use iso_issuer::Refused;
use iso_order::{Act, Order, TxKey};
use std::alloc::Global;

/// The acquirer begins a purchase of 10.00.
fn begin() -> Option<Event>
    ensures { IfSome result IsFairEvent }
{
    Some(Event::Begin {
        pan: account()?,
        amount: 1000,
        currency: *b"840",
        sent: SENT,
    })
}

fn world(alloc: Global) -> Option<World> {
    Some(World::new(Acquirer::new(alloc, ACQUIRER), issuer(alloc)?))
}

/// Begins six purchases, each again where it was refused and not begun.
fn begins(alloc: Global) -> Ended {
    let mut acquirer = Acquirer::new(alloc, ACQUIRER);
    let Some(pan) = account() else {
        return Ended::Wrong;
    };
    let mut was_refused = false;
    for stan in 1..7u32 {
        let mut told = acquirer.begin(pan, 1000, *b"840", SENT);
        if told == Err(AcqFault::Memory) {
            was_refused = true;
            if acquirer.state(stan).is_some() {
                return Ended::Wrong;
            }
            told = acquirer.begin(pan, 1000, *b"840", SENT);
        }
        let is_right = matches!(told, Ok(order) if order.key().stan == stan);
        if !is_right || acquirer.state(stan) != Some(State::Waiting(1)) {
            return Ended::Wrong;
        }
    }
    Ended::of(was_refused, acquirer.state(7).is_none())
}

/// Whether a step was refused for want of memory.
fn wants_memory(told: &Result<(), StepFault>) -> bool {
    matches!(
        told,
        Err(
            StepFault::Memory
                | StepFault::Acquirer(AcqFault::Memory)
                | StepFault::Issuer(Refused::Memory)
        )
    )
}

/// What shows of both ends.
fn both_ends(world: &World) -> (Option<State>, u32, Option<(i64, i64)>, usize, usize) {
    let state = world.acquirer().state(1);
    let (sent, given) = (world.sent().len(), world.given().len());
    (
        state,
        world.issuer().len(),
        balances(world.issuer()),
        sent,
        given,
    )
}

/// Makes an event, and makes it again where it was refused and nothing changed.
fn steps_one(world: &mut World, event: Event) -> (bool, bool)
    requires { IsFairEvent event }
{
    let before = both_ends(world);
    let told = world.step(event);
    if wants_memory(&told) {
        return (
            true,
            both_ends(world) == before && world.step(event).is_ok(),
        );
    }
    (false, told.is_ok())
}

/// A purchase is begun, sent again after a time, delivered twice, and answered.
fn steps(alloc: Global) -> Ended {
    let (Some(mut world), Some(begin)) = (world(alloc), begin()) else {
        return Ended::Unready;
    };
    let (first, was_begun) = steps_one(&mut world, begin);
    let (second, was_sent) = steps_one(&mut world, Event::Timeout(1));
    let (third, was_delivered) = steps_one(&mut world, Event::Deliver(0));
    let (fourth, was_repeated) = steps_one(&mut world, Event::Deliver(1));
    let (fifth, was_answered) = steps_one(&mut world, Event::Answer(0));
    let are_made = was_begun && was_sent && was_delivered && was_repeated && was_answered;
    let wanted = (Some(State::Approved), 1, Some((4000, 4000)), 2, 2);
    let was_refused = first || second || third || fourth || fifth;
    Ended::of(was_refused, are_made && both_ends(&world) == wanted)
}

/// A purchase of 10.00 of another acquirer.
fn order_of_another() -> Option<Order> {
    let another = TxKey {
        acquirer: 777,
        ..key(200, 9)
    };
    Order::new(another, Act::Debit(money(1000)?))
}

/// No answer comes to a purchase, twice: its reversal is sent, delivered and answered. Then an order of another acquirer
/// comes.
fn steps_to_a_reversal(alloc: Global) -> Ended {
    let (Some(mut world), Some(begin), Some(other)) = (world(alloc), begin(), order_of_another())
    else {
        return Ended::Unready;
    };
    let (first, was_begun) = steps_one(&mut world, begin);
    let (second, was_sent) = steps_one(&mut world, Event::Timeout(1));
    let (third, was_reversed) = steps_one(&mut world, Event::Timeout(1));
    let (fourth, was_delivered) = steps_one(&mut world, Event::Deliver(2));
    let (fifth, was_answered) = steps_one(&mut world, Event::Answer(0));
    let (sixth, was_entered) = steps_one(&mut world, Event::Other(other));
    let are_sent = was_begun && was_sent && was_reversed;
    let are_made = are_sent && was_delivered && was_answered && was_entered;
    let wanted = (Some(State::Reversed), 2, Some((4000, 4000)), 3, 1);
    let was_refused = first || second || third || fourth || fifth || sixth;
    Ended::of(was_refused, are_made && both_ends(&world) == wanted)
}

/// Runs a purchase and its answer: how many events were refused.
fn run_purchase(world: &mut World, begin: Event) -> u32
    requires { IsFairEvent begin }
{
    world.run(&[begin, Event::Deliver(0), Event::Answer(0)])
}

/// Whether the first purchase is approved, and entered once.
fn is_approved(world: &World) -> bool {
    let issuer = world.issuer();
    let is_posted = issuer.len() == 1 && balances(issuer) == Some((4000, 4000));
    is_posted && world.acquirer().state(1) == Some(State::Approved)
}

/// Runs a purchase and its answer, and runs them again where one was refused: then the purchase is approved, and so is
/// a second one that was begun meanwhile.
fn runs(alloc: Global) -> Ended {
    let (Some(mut world), Some(begin)) = (world(alloc), begin()) else {
        return Ended::Unready;
    };
    let refused = run_purchase(&mut world, begin);
    if refused == 0 {
        return Ended::of(false, is_approved(&world));
    }
    let is_kept = world.issuer().len() <= 1;
    let is_whole = run_purchase(&mut world, begin) == 0;
    Ended::of(true, is_kept && is_whole && is_approved(&world))
}

/// These calls by name, and how each ended.
pub fn rows(alloc: Global) -> [(&'static str, Ended); 4] {
    [
        ("Acquirer::begin", begins(alloc)),
        ("World::step", steps(alloc)),
        ("World::step", steps_to_a_reversal(alloc)),
        ("World::run", runs(alloc)),
    ]
}
