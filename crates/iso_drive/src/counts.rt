//! How far the transactions of a driver got.
ghost use Rattle.std.specs.Prelude.{◌≡◌, List, count_by};
ghost use Rattle.iso_acquirer.specs.declared.slot.Slot.{Slot};
ghost use Rattle.iso_drive.specs.Counts.{is_waiting, is_reversing, is_approved, is_declined, is_declined_with, is_reversed, count_of, counts_of, role_is};
ghost use Rattle.iso_drive.specs.Made.{IsTabled};

use crate::made::{Made, Role};
use iso_acquirer::State;

/// How many transactions are in each state. Together they are all that were begun.
#[derive(Clone, Copy, Debug, PartialEq, Eq)]
pub struct Counts {
    /// Its order was sent, once or twice, and no answer decided it.
    pub waiting: usize,
    /// Its reversal was sent, and no answer granted it.
    pub reversing: usize,
    /// It was granted.
    pub approved: usize,
    /// It was refused.
    pub declined: usize,
    /// Its reversal was granted.
    pub reversed: usize,
}

fn is_waiting(role: Role) -> bool
    ensures { result ≡ role_is is_waiting role }
{
    matches!(role, Role::Payment(State::Waiting(_)))
}

fn waiting(made: &[Made]) -> usize
    ensures { result ≡ count_by (λ m. role_is is_waiting m.role) made.now }
{
    made.iter().filter(|of| is_waiting(of.role)).count()
}

fn is_reversing(role: Role) -> bool
    ensures { result ≡ role_is is_reversing role }
{
    matches!(role, Role::Payment(State::Reversing))
}

fn reversing(made: &[Made]) -> usize
    ensures { result ≡ count_by (λ m. role_is is_reversing m.role) made.now }
{
    made.iter().filter(|of| is_reversing(of.role)).count()
}

fn is_approved(role: Role) -> bool
    ensures { result ≡ role_is is_approved role }
{
    matches!(role, Role::Payment(State::Approved))
}

fn approved(made: &[Made]) -> usize
    ensures { result ≡ count_by (λ m. role_is is_approved m.role) made.now }
{
    made.iter().filter(|of| is_approved(of.role)).count()
}

fn is_declined(role: Role) -> bool
    ensures { result ≡ role_is is_declined role }
{
    matches!(role, Role::Payment(State::Declined(_)))
}

fn declined(made: &[Made]) -> usize
    ensures { result ≡ count_by (λ m. role_is is_declined m.role) made.now }
{
    made.iter().filter(|of| is_declined(of.role)).count()
}

fn is_declined_with(role: Role, code: u8) -> bool
    ensures { result ≡ role_is (is_declined_with code) role }
{
    match role {
        Role::Payment(State::Declined(other)) => other == code,
        Role::Payment(State::Waiting(_) | State::Reversing | State::Approved | State::Reversed)
        | Role::Reversal(_) => false,
    }
}

fn with_code(made: &[Made], code: u8) -> usize
    ensures { result ≡ count_by (λ m. role_is (is_declined_with code) m.role) made.now }
{
    made.iter()
        .filter(|of| is_declined_with(of.role, code))
        .count()
}

/// How many transactions among these orders were refused with that code.
pub(crate) fn declined_with(made: &[Made], code: u8) -> usize
    ensures { (slots : List Slot) → IsTabled made.now slots
        → result ≡ count_of (is_declined_with code) slots }
{
    with_code(made, code)
}

fn is_reversed(role: Role) -> bool
    ensures { result ≡ role_is is_reversed role }
{
    matches!(role, Role::Payment(State::Reversed))
}

fn reversed(made: &[Made]) -> usize
    ensures { result ≡ count_by (λ m. role_is is_reversed m.role) made.now }
{
    made.iter().filter(|of| is_reversed(of.role)).count()
}

/// How far the transactions among these orders got.
pub(crate) fn count(made: &[Made]) -> Counts
    ensures { (slots : List Slot) → IsTabled made.now slots → result ≡ counts_of slots }
{
    Counts {
        waiting: waiting(made),
        reversing: reversing(made),
        approved: approved(made),
        declined: declined(made),
        reversed: reversed(made),
    }
}
