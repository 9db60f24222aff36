//! The orders that are made.
ghost use Rattle.std.specs.Prelude.{◌≡◌, ◌≤◌, ◌<◌, ℕ, IfSome};
ghost use Rattle.iso_mix.specs.Orders.{next_stan, opening_act, completion, undoing, follower_by, follower_act};
ghost use Rattle.iso_mix.specs.Orders.{opening_order, follower_base, follower_stan, IsFollower};
ghost use Rattle.iso_mix.specs.Begun.{Follows};

use crate::asked::{Side, is_free_at, side_at};
use crate::draft::Draft;
use crate::mix::Kind;
use iso_order::{Act, MOST_STAN, Money, Order, TxKey};

/// The trace number of the next hold or inquiry, where so many were made: it and that of its follower are above others'.
fn next_stan(count: usize, highest: u32) -> Option<u32>
    ensures { result ≡ next_stan count highest }
{
    let left = MOST_STAN.saturating_sub(highest);
    if count < left as usize / 2 {
        Some(MOST_STAN - 2 * count as u32)
    } else {
        None
    }
}

/// What a hold or an inquiry asks.
fn opening_act(kind: Kind, money: &Money) -> Act
    ensures { result ≡ opening_act kind money.now }
{
    match kind {
        Kind::Inquiry => Act::Inquiry(Money {
            pan: money.pan,
            amount: 0,
            currency: money.currency,
        }),
        Kind::Hold | Kind::Purchase | Kind::Complete | Kind::Undo => Act::Debit(*money),
    }
}

/// The order of a hold or an inquiry, where so many were made. `None` where no trace number is left, or what is asked is
/// no order.
pub(crate) fn opening_order(kind: Kind, draft: &Draft, count: usize) -> Option<Order>
    ensures { result ≡ opening_order kind draft.now count }
{
    let Some(stan) = next_stan(count, draft.highest) else {
        return None;
    };
    let key = TxKey {
        base: 100,
        stan,
        sent: draft.sent,
        acquirer: draft.acquirer,
    };
    Order::new(key, opening_act(kind, &draft.money))
}

/// The completion of a hold by a part of what it holds, or by the whole.
fn completion(held: &Money, hold: TxKey, share: u64) -> Option<Act>
    ensures { result ≡ completion held.now hold share }
{
    if held.amount == 0 {
        return None;
    }
    Some(Act::Complete {
        money: Money {
            pan: held.pan,
            amount: share % held.amount + 1,
            currency: held.currency,
        },
        hold,
    })
}

/// The reversal of a hold that leaves a part of what it holds.
fn undoing(held: &Money, hold: TxKey, share: u64) -> Option<Act>
    ensures { result ≡ undoing held.now hold share }
{
    if held.amount < 2 {
        return None;
    }
    Some(Act::Undo {
        original: hold,
        left: share % (held.amount - 1) + 1,
    })
}

fn follower_by(kind: Kind, held: &Money, hold: TxKey, share: u64) -> Option<Act>
    ensures { result ≡ follower_by kind held.now hold share }
{
    match kind {
        Kind::Complete => completion(held, hold, share),
        Kind::Undo => undoing(held, hold, share),
        Kind::Purchase | Kind::Hold | Kind::Inquiry => None,
    }
}

/// What a completion or a partial reversal of a hold asks.
fn follower_act(kind: Kind, hold: &Order, share: u64) -> Option<Act>
    ensures { result ≡ follower_act kind hold.now share }
{
    match hold.act() {
        Act::Debit(held) => follower_by(kind, &held, hold.key(), share),
        Act::Credit(_) | Act::Inquiry(_) | Act::Undo { .. } | Act::Complete { .. } => None,
    }
}

/// The type of message of a completion or a reversal.
fn follower_base(kind: Kind) -> u16
    ensures { result ≡ follower_base kind }
{
    match kind {
        Kind::Complete => 220,
        Kind::Purchase | Kind::Hold | Kind::Inquiry | Kind::Undo => 420,
    }
}

/// The trace number of the order that follows the hold at a place, if it is above others'.
fn follower_stan(place: usize, highest: u32) -> Option<u32>
    ensures { result ≡ follower_stan place highest }
{
    let left = MOST_STAN.saturating_sub(highest);
    if place < left as usize / 2 {
        Some(MOST_STAN - 1 - 2 * place as u32)
    } else {
        None
    }
}

fn follower_of(kind: Kind, draft: &Draft, hold: &Order, stan: u32) -> Option<Order>
    ensures { IfSome result (λ o. IsFollower kind draft.now hold.now stan o) }
{
    let act = follower_act(kind, hold, draft.share)?;
    let key = TxKey {
        base: follower_base(kind),
        stan,
        sent: draft.sent,
        acquirer: draft.acquirer,
    };
    Order::new(key, act)
}

/// The order that follows the hold at a place, if one was granted there and nothing follows it.
pub(crate) fn follower_at(sides: &[Side], place: usize, kind: Kind, draft: &Draft) -> Option<Order>
    ensures { IfSome result (λ o. Follows kind draft.now sides.now place o) }
{
    if !is_free_at(sides, place) {
        return None;
    }
    let hold = side_at(sides, place)?;
    let stan = follower_stan(place, draft.highest)?;
    follower_of(kind, draft, &hold.first.order, stan)
}
