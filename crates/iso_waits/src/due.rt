//! Which orders wait for an answer, and until when.
ghost use Rattle.std.specs.Prelude.{◌≡◌, ◌<◌, ◌++◌, ◌∷◌, [], ◌↔◌, IsTrue, count_by, slice_get};
ghost use Rattle.std.specs.VecDeque.{deque_len, deque_capacity};
ghost use Rattle.iso_waits.specs.Waits.{moment_after, is_due, is_first, put_off, waits, without};

use std::collections::VecDeque;

/// An order that waits for its answer.
#[derive(Clone, Copy, Debug, PartialEq, Eq)]
pub struct Due {
    /// Its trace number.
    pub stan: u32,
    /// The moment from which on no answer came in time, in milliseconds.
    pub at: u64,
}

/// The moment so long after another, or the last of all: both in milliseconds. Takes no memory.
pub fn moment_after(now: u64, patience: u64) -> u64
    ensures { result ≡ moment_after now patience }
{
    now.saturating_add(patience)
}

/// The order that waits first, if any waits. Takes no memory.
pub fn first_of(waiting: &VecDeque<Due>) -> Option<Due>
    // It stands in front.
    ensures { result ≡ slice_get waiting.now.items 0 }
{
    waiting.get(0).copied()
}

/// Whether none waits. Takes no memory.
pub fn is_empty(waiting: &VecDeque<Due>) -> bool
    ensures { IsTrue result ↔ (waiting.now.items ≡ []) }
{
    waiting.is_empty()
}

/// How many are due by a moment in milliseconds. Takes no memory.
pub fn due_by(waiting: &VecDeque<Due>, now: u64) -> usize
    // Those count that wait until that moment, or until an earlier one.
    ensures { result ≡ count_by (is_due now) waiting.now.items }
{
    waiting.iter().filter(|due| due.at <= now).count()
}

/// The order of a trace number waits until a moment, behind all others. The caller made room for it: takes no memory.
pub fn wait(waiting: &mut VecDeque<Due>, stan: u32, at: u64)
    // There is room for one more.
    requires { deque_len waiting.old < deque_capacity waiting.old }
    ensures { waiting.new.items ≡ waiting.old.items ++ record { stan = stan; at = at } ∷ [] }
{
    waiting.push_back_reserved(Due { stan, at });
}

/// The first one waits until that moment, behind all others. Where none waits, nothing changes. Takes no memory.
pub fn put_off(waiting: &mut VecDeque<Due>, at: u64)
    ensures { waiting.new.items ≡ put_off at waiting.old.items }
{
    if let Some(first) = waiting.pop_front() {
        waiting.push_back_reserved(Due {
            stan: first.stan,
            at,
        });
    }
}

/// Whether the order of that trace number waits first.
fn is_first(waiting: &VecDeque<Due>, stan: u32) -> bool
    ensures { result ≡ is_first stan waiting.now.items }
{
    match waiting.get(0) {
        Some(first) => first.stan == stan,
        None => false,
    }
}

/// The first order waits no longer, if it is of that trace number.
fn leave_first(waiting: &mut VecDeque<Due>, stan: u32)
    ensures { without stan waiting.new.items ≡ without stan waiting.old.items }
{
    if is_first(waiting, stan) {
        waiting.pop_front();
    }
}

/// Whether the order of that trace number waits.
fn waits(waiting: &VecDeque<Due>, stan: u32) -> bool
    ensures { result ≡ waits stan waiting.now.items }
{
    waiting.iter().any(|due| due.stan == stan)
}

/// The order of that trace number waits no longer, and the others stay in their order. Mostly it waited first. Takes no memory.
pub fn leave_out(waiting: &mut VecDeque<Due>, stan: u32)
    // Those are left that have another trace number.
    ensures { waiting.new.items ≡ without stan waiting.old.items }
{
    leave_first(waiting, stan);
    if waits(waiting, stan) {
        waiting.retain(|due| due.stan != stan);
    }
}
