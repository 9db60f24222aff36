//! The stages of a transaction: what is told of them, what an answer brings, and which reversals are left.

ghost use Rattle.std.specs.Prelude.{◌≡◌};
ghost use Rattle.iso_acquirer.specs.Acquirer.{state_at_stage, stage_after, stage_after_undo};
ghost use Rattle.iso_acquirer.specs.Room.{reversals_at, reversals_of};

use crate::slot::{Role, Stage};
use crate::state::State;
use iso_order::codes::{APPROVED, DUPLICATE_TRANSMISSION, SYSTEM_MALFUNCTION};

/// The state of a transaction at that stage.
pub(crate) fn state_at_stage(stage: Stage) -> State
    ensures { result ≡ state_at_stage stage }
{
    match stage {
        Stage::Waiting(count) => State::Waiting(count),
        Stage::Reversing(_) => State::Reversing,
        Stage::Approved => State::Approved,
        Stage::Declined(code) => State::Declined(code),
        Stage::Reversed(_) => State::Reversed,
    }
}

/// How many reversals of a transaction at that stage may still be made: one or none.
pub(crate) fn reversals_at(stage: &Stage) -> usize
    ensures { result ≡ reversals_at stage.now }
{
    match stage {
        Stage::Waiting(_) => 1,
        Stage::Reversing(_) | Stage::Approved | Stage::Declined(_) | Stage::Reversed(_) => 0,
    }
}

/// How many reversals of an order may still be made: a reversal isn't reversed.
pub(crate) fn reversals_of(role: &Role) -> usize
    ensures { result ≡ reversals_of role.now }
{
    match role {
        Role::Transaction(stage) => reversals_at(stage),
        Role::Reversal(_) => 0,
    }
}

/// The stage after an answer to the transaction's own order.
pub(crate) fn stage_after(stage: Stage, code: u8) -> Stage
    ensures { result ≡ stage_after code stage }
{
    match stage {
        Stage::Waiting(count) => match code {
            APPROVED => Stage::Approved,
            DUPLICATE_TRANSMISSION | SYSTEM_MALFUNCTION => Stage::Waiting(count),
            _ => Stage::Declined(code),
        },
        Stage::Reversing(_) | Stage::Approved | Stage::Declined(_) | Stage::Reversed(_) => stage,
    }
}

/// The stage after an answer to the transaction's reversal.
pub(crate) fn stage_after_undo(stage: Stage, code: u8) -> Stage
    ensures { result ≡ stage_after_undo code stage }
{
    match stage {
        Stage::Reversing(undo) => {
            if code == APPROVED {
                Stage::Reversed(undo)
            } else {
                stage
            }
        }
        Stage::Waiting(_) | Stage::Approved | Stage::Declined(_) | Stage::Reversed(_) => stage,
    }
}
