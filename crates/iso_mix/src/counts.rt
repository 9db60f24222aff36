//! How far the orders of a kind got.
ghost use Rattle.std.specs.Prelude.{◌≡◌, count_by};
ghost use Rattle.iso_mix.specs.Counts.{asks, is_such, is_such_side, counts_of, standing_of};

use crate::asked::{Asked, Side};
use crate::mix::Kind;
use iso_order::{Act, Order};

/// How many orders of a kind are in each state. Together they are all that were begun.
#[derive(Clone, Copy, Debug, PartialEq, Eq)]
pub struct Counts {
    /// No answer came.
    pub waiting: usize,
    /// It was granted.
    pub granted: usize,
    /// It was refused.
    pub refused: usize,
}

/// How far an order got.
#[derive(Clone, Copy, PartialEq, Eq)]
pub(crate) enum Standing {
    Waiting,
    Granted,
    Refused,
}

fn standing_of(code: Option<u8>) -> Standing
    ensures { result ≡ standing_of code }
{
    match code {
        None => Standing::Waiting,
        Some(0) => Standing::Granted,
        Some(_) => Standing::Refused,
    }
}

/// Whether an order is of a kind.
fn asks(order: &Order, kind: Kind) -> bool
    ensures { result ≡ asks kind order.now.act }
{
    match order.act() {
        Act::Debit(_) => kind == Kind::Hold,
        Act::Inquiry(_) => kind == Kind::Inquiry,
        Act::Complete { .. } => kind == Kind::Complete,
        Act::Undo { .. } => kind == Kind::Undo,
        Act::Credit(_) => false,
    }
}

fn is_such(asked: &Asked, kind: Kind, state: Standing) -> bool
    ensures { result ≡ is_such kind state asked.now }
{
    asks(&asked.order, kind) && standing_of(asked.code) == state
}

/// Whether what lies at a place has an order of a kind in a state: the order itself, or what follows it.
fn is_such_side(side: &Side, kind: Kind, state: Standing) -> bool
    ensures { result ≡ is_such_side kind state side.now }
{
    match side.follower {
        Some(follower) => { is_such(&side.first, kind, state) || is_such(&follower, kind, state) }
        None => is_such(&side.first, kind, state),
    }
}

fn count_of(sides: &[Side], kind: Kind, state: Standing) -> usize
    ensures { result ≡ count_by (is_such_side kind state) sides.now }
{
    sides
        .iter()
        .filter(|side| is_such_side(side, kind, state))
        .count()
}

/// How far the orders of a kind got.
pub(crate) fn counts_of(sides: &[Side], kind: Kind) -> Counts
    ensures { result ≡ counts_of kind sides.now }
{
    Counts {
        waiting: count_of(sides, kind, Standing::Waiting),
        granted: count_of(sides, kind, Standing::Granted),
        refused: count_of(sides, kind, Standing::Refused),
    }
}
