//! The orders that a driver's acquirer made, by trace number.
ghost use Rattle.std.specs.Prelude.{◌≡◌, ◌<◌, ◌++◌, ◌∷◌, [], List, ℕ, length, Some, option_map, slice_get, vec_len, vec_capacity};
ghost use Rattle.iso_order.specs.declared.key.TxKey.{TxKey};
ghost use Rattle.iso_acquirer.specs.declared.slot.Slot.{Slot};
ghost use Rattle.iso_acquirer.specs.declared.slot.Stage.{Stage};
ghost use Rattle.iso_acquirer.specs.declared.slot.Role.TheVariants.{Transaction};
ghost use Rattle.iso_acquirer.specs.Acquirer.{slot_at, state_at_stage, slots_at_stage, timeout, timeout_at_stage, slots_after_answer, reversal_for, next_reversal, slots_with_reversal};
ghost use Rattle.iso_restarts.specs.Diary.{slots_asked};
ghost use Rattle.iso_drive.specs.Answered.{Closes, ComesTo};
ghost use Rattle.iso_drive.specs.Made.{made_of, IsTabled, own_end, undo_end_in, undo_end_at, told_by};

use crate::heard::Heard;
use iso_acquirer::State;
use iso_order::codes::{APPROVED, DUPLICATE_TRANSMISSION, SYSTEM_MALFUNCTION};
use iso_order::{MOST_STAN, Money, TxKey};

/// What an order is.
#[derive(Clone, Copy)]
pub(crate) enum Role {
    /// A transaction's own order, and how far the transaction got.
    Payment(State),
    /// The reversal of the transaction of that trace number.
    Reversal(u32),
}

/// An order that was made, without what is sent of it.
#[derive(Clone, Copy)]
pub(crate) struct Made {
    pub key: TxKey,
    /// What it takes from an account; nothing, if it is a reversal.
    pub debit: Option<Money>,
    pub role: Role,
}

fn made_in(made: &[Made], place: usize) -> Option<Made>
    ensures { result ≡ slice_get made.now place }
{
    made.get(place).copied()
}

/// The order of a trace number.
pub(crate) fn made_at(made: &[Made], stan: u32) -> Option<Made>
    ensures { (slots : List Slot) → IsTabled made.now slots
        → result ≡ option_map made_of (slot_at slots stan) }
{
    if stan == 0 {
        return None;
    }
    made_in(made, stan as usize - 1)
}

/// Brings the transaction of a trace number to a state.
fn put_state(made: &mut [Made], stan: u32, state: State)
    ensures { (slots : List Slot) (s : Slot) (stage : Stage) (step : Stage → Stage)
        → IsTabled made.old slots
        → slot_at slots stan ≡ Some s → s.role ≡ Transaction stage
        → state_at_stage (step stage) ≡ state
        → IsTabled made.new (slots_at_stage step stan slots) }
{
    if stan == 0 {
        return;
    }
    let place = stan as usize - 1;
    if let Some(of) = made_in(made, place) {
        made[place] = Made {
            key: of.key,
            debit: of.debit,
            role: Role::Payment(state),
        };
    }
}

/// Adds the reversal of a transaction, under the next trace number.
fn push_reversal(made: &mut Vec<Made>, of: &Made)
    requires room { vec_len made.old < vec_capacity made.old }
    requires few { length made.old.items < 999999 }
    ensures { (slots : List Slot) (s : Slot) → length made.old.items ≡ length slots
        → made_of s ≡ of.now
        → made.new.items ≡ made.old.items
        ++ made_of (reversal_for s.order.key.stan (next_reversal slots s.order)) ∷ [] }
{
    let stan = made.len() as u32 + 1;
    made.push_reserved(Made {
        key: TxKey {
            base: 420,
            stan,
            sent: of.key.sent,
            acquirer: of.key.acquirer,
        },
        debit: None,
        role: Role::Reversal(of.key.stan),
    });
}

/// Reverses a transaction. There is room for its reversal, and a trace number is left.
fn reverse(made: &mut Vec<Made>, of: &Made)
    requires room { vec_len made.old < vec_capacity made.old }
    requires few { length made.old.items < 999999 }
    ensures { (slots : List Slot) (s : Slot) (stage : Stage) → IsTabled made.old.items slots
        → slot_at slots of.now.key.stan ≡ Some s → s.role ≡ Transaction stage → made_of s ≡ of.now
        → IsTabled made.new.items
        (slots_with_reversal slots s.order.key.stan (next_reversal slots s.order)) }
{
    put_state(made, of.key.stan, State::Reversing);
    push_reversal(made, of);
}

/// No answer came in time to a transaction in that state.
fn time_out_by(made: &mut Vec<Made>, of: &Made, state: State)
    requires { vec_len made.old < vec_capacity made.old }
    ensures { (slots : List Slot) (s : Slot) (stage : Stage) → IsTabled made.old.items slots
        → slot_at slots of.now.key.stan ≡ Some s → s.role ≡ Transaction stage → made_of s ≡ of.now
        → state_at_stage stage ≡ state
        → IsTabled made.new.items (slots_asked slots (timeout_at_stage slots s.order stage)) }
{
    let State::Waiting(count) = state else {
        return;
    };
    if count == 1 {
        put_state(made, of.key.stan, State::Waiting(2));
        return;
    }
    if made.len() < MOST_STAN as usize {
        reverse(made, of);
    }
}

/// No answer came in time to a transaction: its order is sent again, and after that its reversal is made. There is room
/// for a reversal.
pub(crate) fn time_out(made: &mut Vec<Made>, stan: u32)
    requires { vec_len made.old < vec_capacity made.old }
    ensures { (slots : List Slot) → IsTabled made.old.items slots
        → IsTabled made.new.items (slots_asked slots (timeout slots stan)) }
{
    let Some(of) = made_at(made, stan) else {
        return;
    };
    let Role::Payment(state) = of.role else {
        return;
    };
    time_out_by(made, &of, state);
}

/// The state in which an answer to its own order closes a transaction, if it does.
fn own_end(state: State, code: u8) -> Option<State>
    ensures { result ≡ own_end state code }
{
    match state {
        State::Waiting(_) => match code {
            APPROVED => Some(State::Approved),
            DUPLICATE_TRANSMISSION | SYSTEM_MALFUNCTION => None,
            _ => Some(State::Declined(code)),
        },
        State::Reversing | State::Approved | State::Declined(_) | State::Reversed => None,
    }
}

/// The state in which an answer to its reversal closes a transaction, if it does.
fn undo_end(role: Role, code: u8) -> Option<State>
    ensures { result ≡ undo_end_in role code }
{
    match role {
        Role::Payment(State::Reversing) => {
            if code == APPROVED {
                Some(State::Reversed)
            } else {
                None
            }
        }
        Role::Payment(State::Waiting(_) | State::Approved | State::Declined(_) | State::Reversed)
        | Role::Reversal(_) => None,
    }
}

/// The same of the transaction of a trace number, if there is one.
fn undo_end_at(made: &[Made], stan: u32, code: u8) -> Option<State>
    ensures { (slots : List Slot) → IsTabled made.now slots
        → result ≡ undo_end_at (option_map made_of (slot_at slots stan)) code }
{
    let Some(of) = made_at(made, stan) else {
        return None;
    };
    undo_end(of.role, code)
}

/// The answer of that code to an order of that key closed the transaction of that trace number in that state.
pub(crate) fn close(made: &mut [Made], stan: u32, state: State)
    ensures { (slots : List Slot) (key : TxKey) (code : ℕ) → IsTabled made.old slots
        → Closes slots key code stan state → IsTabled made.new (slots_after_answer slots key code) }
{
    put_state(made, stan, state);
}

/// What an answer came to that closes a transaction in that state, or doesn't.
fn told_by(stan: u32, end: Option<State>) -> Heard
    ensures { result ≡ told_by stan end }
{
    match end {
        Some(state) => Heard::Closed { stan, state },
        None => Heard::Known,
    }
}

/// What an answer comes to.
pub(crate) fn judge(made: &[Made], key: &TxKey, code: u8) -> Heard
    ensures { (slots : List Slot) → IsTabled made.now slots → ComesTo slots key.now code result }
{
    let Some(of) = made_at(made, key.stan) else {
        return Heard::Foreign;
    };
    if !of.key.is_same(key) {
        return Heard::Foreign;
    }
    match of.role {
        Role::Payment(state) => told_by(key.stan, own_end(state, code)),
        Role::Reversal(original) => told_by(original, undo_end_at(made, original, code)),
    }
}
