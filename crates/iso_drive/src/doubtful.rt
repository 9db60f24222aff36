//! Which transactions to look at where both ends differ on an account.
ghost use Rattle.std.specs.Prelude.{◌≡◌, List, IfOk};
ghost use Rattle.iso_acquirer.specs.declared.slot.Slot.{Slot};
ghost use Rattle.iso_drive.specs.Counts.{role_is};
ghost use Rattle.iso_drive.specs.Doubtful.{debit_is_of, doubtful_in, doubtful_of, is_doubtful, made_is_doubtful};
ghost use Rattle.iso_drive.specs.Made.{IsTabled};

use crate::books::is_same;
use crate::made::{Made, Role};
use iso_acquirer::State;
use iso_order::{Money, Pan};
use std::alloc::{AllocError, Global};

/// Whether a debit takes from an account.
fn is_of(debit: &Option<Money>, pan: &Pan) -> bool
    ensures { result ≡ debit_is_of debit.now pan.now }
{
    match debit {
        Some(money) => is_same(&money.pan, pan),
        None => false,
    }
}

/// Whether an order is of a transaction that is open, or reversed.
fn is_doubtful(role: Role) -> bool
    ensures { result ≡ role_is is_doubtful role }
{
    match role {
        Role::Payment(State::Waiting(_) | State::Reversing | State::Reversed) => true,
        Role::Payment(State::Approved | State::Declined(_)) | Role::Reversal(_) => false,
    }
}

fn is_doubtful_of(made: &Made, pan: &Pan) -> bool
    ensures { result ≡ made_is_doubtful pan.now made.now }
{
    is_doubtful(made.role) && is_of(&made.debit, pan)
}

fn doubtful_in(alloc: Global, made: &[Made], pan: &Pan) -> Result<Vec<u32>, AllocError>
    ensures { IfOk result (λ stans. stans.items ≡ doubtful_in pan.now made.now) }
{
    let mut stans = Vec::new(alloc);
    for of in made {
        if is_doubtful_of(of, pan) {
            stans.push(of.key.stan)?;
        }
    }
    Ok(stans)
}

/// The trace numbers of an account's transactions that no answer to their own orders decided.
pub(crate) fn doubtful_of(alloc: Global, made: &[Made], pan: &Pan) -> Result<Vec<u32>, AllocError>
    ensures { IfOk result (λ stans. (slots : List Slot) → IsTabled made.now slots
        → stans.items ≡ doubtful_of pan.now slots) }
{
    doubtful_in(alloc, made, pan)
}
