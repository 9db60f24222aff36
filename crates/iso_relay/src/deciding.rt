//! Where a frame goes, and whether an answer is passed on.

ghost use Rattle.std.specs.Prelude.{◌≡◌, IfOk, OnErr, OnOk, Some, ℕ, List, ◌∷◌};
ghost use Rattle.iso_front.specs.Routing.{route_of, asked_in};
ghost use Rattle.iso_order.specs.declared.told.Told.{Told};
ghost use Rattle.iso_exchange.specs.Answer.{told_in};
ghost use Rattle.iso_order.specs.declared.key.TxKey.{TxKey};
ghost use Rattle.iso_relay.specs.Entries.{asked};
ghost use Rattle.iso_relay.specs.History.{Event, entries_after, IsSaidByAll};
ghost use Rattle.iso_relay.specs.History.Event.{Says};
ghost use Rattle.iso_order.specs.Key.{class_digit};
ghost use Rattle.iso_relay.specs.Deciding.{sending_of, taken_told, taken};

use crate::decision::Decision;
use crate::pending::Pending;
use iso_exchange::answer_in;
use iso_front::{Route, Shards};
use iso_order::{NoMemory, Told, TxKey};
use iso_parts::Mti;
use iso_table::Table;
use iso_wire::{Message, number_in};

/// Where a frame goes.
#[derive(Clone, Copy, Debug, PartialEq, Eq)]
pub enum Sending {
    /// To none: it wants no answer, or isn't read.
    Nowhere,
    /// To the shard at this place.
    One(usize),
    /// To all shards.
    All,
}

/// Where a frame of this route goes. What is on no shard's account, and what asks for no order, goes to the first one.
fn sending_of(route: &Route) -> Sending
    ensures { result ≡ sending_of route.now }
{
    match route {
        Route::One { shard, .. } => Sending::One(*shard),
        Route::All { .. } => Sending::All,
        Route::Nobody { .. } | Route::Any { .. } => Sending::One(0),
        Route::Unanswered | Route::Unreadable => Sending::Nowhere,
    }
}

/// The value of an element, nothing where it is missing.
fn text(message: &Message, n: u8) -> &[u8] {
    match message.get(n) {
        Some(value) => value,
        None => &[],
    }
}

/// Whether it is the type of a reversal.
fn is_reversal(mti: Mti) -> bool {
    mti.version == 0 && mti.class == 4
}

/// The key of a reversal, where it has one.
fn reversal_key(message: &Message) -> Option<TxKey> {
    let mti = message.mti();
    if !is_reversal(mti) {
        return None;
    }
    let sent = number_in(text(message, 7), 10, 10)?;
    let stan = number_in(text(message, 11), 6, 6)?;
    let acquirer = number_in(text(message, 32), 1, 11)?;
    Some(TxKey {
        base: mti.base().number(),
        stan: stan as u32,
        sent,
        acquirer,
    })
}

/// The route under which a request is noted. A reversal that asks for no order has an answer of the first shard alone.
fn noted(route: &Route, message: &Message) -> Option<Route>
    ensures all { (key : TxKey) → route.now ≡ Route.All key
        → result ≡ Some (Route.All key) }
{
    match route {
        Route::All { .. } => Some(*route),
        Route::Any { .. } => match reversal_key(message) {
            Some(key) => Some(Route::One { shard: 0, key }),
            None => None,
        },
        Route::One { .. } | Route::Nobody { .. } | Route::Unanswered | Route::Unreadable => None,
    }
}

/// Where the body of an acquirer's frame goes. One that goes to all shards is noted. The message is read into the room that is
/// lent. Refuses only for want of memory.
pub fn send(
    pending: &mut Pending,
    shards: &Shards,
    table: &Table,
    body: &[u8],
    room: &mut Message,
) -> Result<Sending, NoMemory>
    // Memory aside, an order goes to its account's shard, a reversal to all, what asks for no order
    // or is on no shard's account to the first, and nowhere what wants no answer or isn't read.
    ensures goes { IfOk result (λ s.
        s ≡ sending_of (route_of shards.now (asked_in table.now body.now))) }
    // A reversal is noted before it goes to all.
    ensures noted { OnOk result ((key : TxKey)
        → route_of shards.now (asked_in table.now body.now) ≡ Route.All key
        → pending.new ≡ record {
          count = pending.old.count;
          entries = asked (Route.All key) pending.old.count pending.old.entries;
        }) }
    // For want of memory nothing changes in what waits.
    ensures unchanged { OnErr result (pending.new ≡ pending.old) }
{
    let route = shards.route(table, body, room)?;
    if let Some(noted) = noted(&route, room) {
        pending.ask(&noted)?;
    }
    Ok(sending_of(&route))
}

/// Whether what an answer tells is passed on.
fn heard(pending: &mut Pending, shard: usize, told: &Told) -> Decision
    ensures taken { result ≡ taken_told shard told.now pending.old.entries }
    ensures said { (events : List Event) → result ≡ Decision.PassOn
        → class_digit told.now.key ≡ 4
        → pending.old.entries ≡ entries_after pending.old.count events
        → IsSaidByAll pending.old.count shard told.now.key told.now.code
        (Says shard told.now.key told.now.code ∷ events) }
{
    if told.key.class() == 4 {
        pending.hear(shard, &told.key, told.code)
    } else {
        Decision::PassOn
    }
}

/// Whether an answer of a shard is passed on: one to a reversal by what all shards say, any other as it comes. The texts are
/// read in the room that is lent.
pub fn take(
    pending: &mut Pending,
    shard: usize,
    table: &Table,
    body: &[u8],
    room: &mut Vec<u8>,
) -> Result<Decision, NoMemory>
    // Memory aside, an answer to a reversal is decided by what all shards say, and any other is
    // passed on as it comes.
    ensures taken { IfOk result (λ d.
        d ≡ taken shard (told_in table.now body.now) pending.old.entries) }
    // What is passed on to a reversal was said by every shard that was asked.
    ensures said { IfOk result (λ d. (told : Told) (events : List Event)
        → d ≡ Decision.PassOn
        → told_in table.now body.now ≡ Some told → class_digit told.key ≡ 4
        → pending.old.entries ≡ entries_after pending.old.count events
        → IsSaidByAll pending.old.count shard told.key told.code
        (Says shard told.key told.code ∷ events)) }
    // For want of memory nothing changes in what waits.
    ensures unchanged { OnErr result (pending.new ≡ pending.old) }
{
    match answer_in(table, body, room) {
        Ok(Some(told)) => Ok(heard(pending, shard, &told)),
        Ok(None) => Ok(Decision::PassOn),
        Err(_) => Err(NoMemory),
    }
}
