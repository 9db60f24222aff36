//! What an acquirer's own books say of an account.
ghost use Rattle.std.specs.Prelude.{◌≡◌, List};
ghost use Rattle.iso_order.specs.Order.{same_pan};
ghost use Rattle.iso_acquirer.specs.declared.slot.Slot.{Slot};
ghost use Rattle.iso_acquirer.specs.Agreement.{approved_total};
ghost use Rattle.iso_drive.specs.Books.{spent_by, taken_by};
ghost use Rattle.iso_drive.specs.Made.{IsTabled};

use crate::made::{Made, Role};
use iso_acquirer::State;
use iso_order::{Money, Pan};

/// Whether two account numbers are one: as many digits, and the same.
pub(crate) fn is_same(one: &Pan, other: &Pan) -> bool
    ensures { result ≡ same_pan one.now other.now }
{
    one.digits() == other.digits() && one.len() == other.len()
}

/// What a debit takes from an account: 0, if it is of another.
fn taken(debit: &Option<Money>, pan: &Pan) -> u64
    ensures { result ≡ taken_by debit.now pan.now }
{
    match debit {
        Some(money) if is_same(&money.pan, pan) => money.amount,
        Some(_) | None => 0,
    }
}

/// What an order took from an account: the amount of an approved purchase, else 0.
fn spent_by(made: &Made, pan: &Pan) -> u64
    ensures { result ≡ spent_by pan.now made.now }
{
    match made.role {
        Role::Payment(State::Approved) => taken(&made.debit, pan),
        Role::Payment(State::Waiting(_) | State::Reversing | State::Declined(_) | State::Reversed)
        | Role::Reversal(_) => 0,
    }
}

/// The amounts of the approved purchases of an account, added up.
pub(crate) fn approved_total(made: &[Made], pan: &Pan) -> u128
    ensures { (slots : List Slot) → IsTabled made.now slots
        → result ≡ approved_total pan.now slots }
{
    let mut total = 0u128;
    for of in made {
        total += u128::from(spent_by(of, pan));
    }
    total
}
