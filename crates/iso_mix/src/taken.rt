//! What orders took from an account.
ghost use Rattle.std.specs.Prelude.{◌≡◌, ◌≤◌};
ghost use Rattle.iso_mix.specs.Taken.{left_by, taken_by, taken_at, taken_from};

use crate::asked::{Asked, Side, amount_of, is_granted, is_hold};

/// What is taken of a held amount, once this followed.
fn left_by(follower: &Option<Asked>, held: u64) -> u64
    ensures { result ≡ left_by follower.now held }
{
    match follower {
        Some(of) if is_granted(of.code) => amount_of(&of.order),
        Some(_) | None => held,
    }
}

/// What is taken by a hold.
fn taken_by(side: &Side) -> u64
    ensures { result ≡ taken_by side.now }
{
    if is_hold(&side.first.order) && is_granted(side.first.code) {
        left_by(&side.follower, amount_of(&side.first.order))
    } else {
        0
    }
}

/// The same, if it is of the account of that place.
fn taken_at(side: &Side, place: usize) -> u64
    ensures { result ≡ taken_at place side.now }
{
    if side.place == place {
        taken_by(side)
    } else {
        0
    }
}

/// What is taken from the account of a place.
pub(crate) fn taken_from(sides: &[Side], place: usize) -> u128
    ensures { result ≡ taken_from place sides.now }
{
    let mut total = 0u128;
    for side in sides {
        total += u128::from(taken_at(side, place));
    }
    total
}
