//! Orders that were made, and what was answered.
ghost use Rattle.std.specs.Prelude.{◌≡◌, ◌≤◌, ◌<◌, ◌++◌, ◌∷◌, [], ℕ, slice_get, vec_len, vec_capacity};
ghost use Rattle.iso_mix.specs.Asked.{place_of, follows, part_of, asked_at, order_in, answered, sides_answered, is_free};
ghost use Rattle.iso_mix.specs.Asked.{is_free_at, followed, sides_followed, is_hold, is_granted};
ghost use Rattle.iso_mix.specs.Begun.{opened};
ghost use Rattle.iso_order.specs.Order.{amount_of};

use iso_order::{Act, MOST_STAN, Order};

/// An order that was made.
#[derive(Clone, Copy)]
pub(crate) struct Asked {
    pub order: Order,
    /// The code of its first answer.
    pub code: Option<u8>,
}

/// A hold or an inquiry, and what follows the hold.
#[derive(Clone, Copy)]
pub(crate) struct Side {
    /// The place of its account.
    pub place: usize,
    pub first: Asked,
    /// The completion or the partial reversal of the hold.
    pub follower: Option<Asked>,
}

/// The place of the order of a trace number: two in a row lie at one place, the hold and its follower.
pub(crate) fn place_of(stan: u32) -> usize
    ensures { result ≡ place_of stan }
{
    MOST_STAN.saturating_sub(stan) as usize / 2
}

/// Whether a trace number is that of a follower.
pub(crate) fn follows(stan: u32) -> bool
    ensures { result ≡ follows stan }
{
    MOST_STAN.saturating_sub(stan) % 2 == 1
}

pub(crate) fn side_at(sides: &[Side], place: usize) -> Option<Side>
    ensures { result ≡ slice_get sides.now place }
{
    sides.get(place).copied()
}

fn part_of(side: &Side, follows: bool) -> Option<Asked>
    ensures { result ≡ part_of follows side.now }
{
    if follows {
        side.follower
    } else {
        Some(side.first)
    }
}

/// The order of a trace number.
pub(crate) fn asked_at(sides: &[Side], stan: u32) -> Option<Asked>
    ensures { result ≡ asked_at sides.now stan }
{
    if stan > MOST_STAN {
        return None;
    }
    let Some(side) = side_at(sides, place_of(stan)) else {
        return None;
    };
    part_of(&side, follows(stan))
}

/// The amount that an order names.
pub(crate) fn amount_of(order: &Order) -> u64
    ensures value { result ≡ amount_of order.now.act }
    ensures most { result ≤ 999999999999 }
{
    match order.act() {
        Act::Debit(money) | Act::Credit(money) | Act::Inquiry(money) => money.amount,
        Act::Complete { money, .. } => money.amount,
        Act::Undo { left, .. } => left,
    }
}

/// Whether an order is a hold.
pub(crate) fn is_hold(order: &Order) -> bool
    ensures { result ≡ is_hold order.now.act }
{
    matches!(order.act(), Act::Debit(_))
}

/// Whether the code of an answer grants.
pub(crate) fn is_granted(code: Option<u8>) -> bool
    ensures { result ≡ is_granted code }
{
    match code {
        Some(code) => code == 0,
        None => false,
    }
}

/// Whether it is a hold that was granted and that nothing follows.
fn is_free(side: &Side) -> bool
    ensures { result ≡ is_free side.now }
{
    is_hold(&side.first.order) && is_granted(side.first.code) && side.follower.is_none()
}

/// The same of what lies at a place.
pub(crate) fn is_free_at(sides: &[Side], place: usize) -> bool
    ensures { result ≡ is_free_at sides.now place }
{
    match side_at(sides, place) {
        Some(side) => is_free(&side),
        None => false,
    }
}

/// What is kept once the first answer came, of that code.
fn answered(side: &Side, follows: bool, code: u8) -> Side
    ensures { result ≡ answered follows code side.now }
{
    if !follows {
        let first = Asked {
            order: side.first.order,
            code: Some(code),
        };
        return Side {
            place: side.place,
            first,
            follower: side.follower,
        };
    }
    let follower = match side.follower {
        Some(of) => Some(Asked {
            order: of.order,
            code: Some(code),
        }),
        None => None,
    };
    Side {
        place: side.place,
        first: side.first,
        follower,
    }
}

/// The first answer came to the order of a trace number.
pub(crate) fn put_code(sides: &mut [Side], stan: u32, code: u8)
    ensures { sides.new ≡ sides_answered stan code sides.old }
{
    let place = place_of(stan);
    if let Some(side) = side_at(sides, place) {
        sides[place] = answered(&side, follows(stan), code);
    }
}

fn followed(side: &Side, order: &Order) -> Side
    ensures { result ≡ followed order.now side.now }
{
    Side {
        place: side.place,
        first: side.first,
        follower: Some(Asked {
            order: *order,
            code: None,
        }),
    }
}

/// An order follows the hold at a place.
pub(crate) fn put_follower(sides: &mut [Side], place: usize, order: &Order)
    ensures { sides.new ≡ sides_followed place order.now sides.old }
{
    if let Some(side) = side_at(sides, place) {
        sides[place] = followed(&side, order);
    }
}

/// A hold or an inquiry is made. There is room for it.
pub(crate) fn push_opened(sides: &mut Vec<Side>, place: usize, order: &Order)
    requires { vec_len sides.old < vec_capacity sides.old }
    ensures { sides.new.items ≡ sides.old.items ++ opened place order.now ∷ [] }
{
    sides.push_reserved(Side {
        place,
        first: Asked {
            order: *order,
            code: None,
        },
        follower: None,
    });
}

/// The order of a trace number, as it is sent.
pub(crate) fn order_at(sides: &[Side], stan: u32) -> Option<Order>
    ensures { result ≡ order_in (asked_at sides.now stan) }
{
    match asked_at(sides, stan) {
        Some(asked) => Some(asked.order),
        None => None,
    }
}
