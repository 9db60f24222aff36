//! What a driver has of its acquirer: the orders that were made, and which transactions wait for an answer.
ghost use Rattle.std.specs.Prelude.{◌≡◌, ◌<◌, ◌++◌, ◌∷◌, [], List, ℕ, Some, OnOk, OnErr, IfOk, IsErrOf, vec_len, vec_capacity};
ghost use Rattle.std.specs.VecDeque.{deque_len, deque_capacity};
ghost use Rattle.iso_order.specs.declared.key.TxKey.{TxKey};
ghost use Rattle.iso_acquirer.specs.declared.slot.Slot.{Slot};
ghost use Rattle.iso_acquirer.specs.declared.state.State.TheVariants.{Waiting};
ghost use Rattle.iso_acquirer.specs.Acquirer.{Party, slots_with, slots_after_answer};
ghost use Rattle.iso_restarts.specs.declared.note.Note.TheVariants.{Begun};
ghost use Rattle.iso_restarts.specs.Diary.{slots_noted, slots_after, party_after};
ghost use Rattle.iso_restarts.specs.Replayed.{CanNote, CanBeWritten};
ghost use Rattle.iso_drive.specs.declared.made.Role.TheVariants.{Payment};
ghost use Rattle.iso_drive.specs.Answered.{Closes};
ghost use Rattle.iso_drive.specs.Board.{IsBoard};
ghost use Rattle.iso_waits.specs.Waits.{without, AreInTime};
ghost use Rattle.iso_drive.specs.Made.{IsTabled};

use crate::heard::Heard;
use crate::made::{Made, Role, close, judge, time_out};
use iso_acquirer::State;
use iso_order::{Act, MOST_STAN, Money, Order, TxKey};
use iso_restarts::{Fault, Note};
use iso_waits::{Due, leave_out, wait};
use std::alloc::{AllocError, Global};
use std::collections::VecDeque;

/// The orders of an acquirer by trace number, and its open transactions in the order in which they become due.
#[derive(Drop)]
pub(crate) struct Board {
    pub made: Vec<Made>,
    pub waiting: VecDeque<Due>,
}

/// Takes the room for another order and another transaction that waits.
pub(crate) fn make_room(board: &mut Board) -> Result<(), AllocError>
    ensures made { board.new.made.items ≡ board.old.made.items }
    ensures waiting { board.new.waiting.items ≡ board.old.waiting.items }
    ensures room { OnOk result (vec_len board.new.made < vec_capacity board.new.made) }
    ensures place { OnOk result (deque_len board.new.waiting < deque_capacity board.new.waiting) }
{
    board.made.reserve(1)?;
    board.waiting.reserve(1)?;
    Ok(())
}

/// A purchase begins by that order, and waits until that moment. There is room for it.
pub(crate) fn begin(board: &mut Board, key: TxKey, money: Money, at: u64)
    requires room { vec_len board.old.made < vec_capacity board.old.made }
    requires place { deque_len board.old.waiting < deque_capacity board.old.waiting }
    ensures made { board.new.made.items ≡ board.old.made.items
        ++ record { key = key; debit = Some money; role = Payment (Waiting 1) } ∷ [] }
    ensures waiting { board.new.waiting.items ≡ board.old.waiting.items
        ++ record { stan = key.stan; at = at } ∷ [] }
{
    board.made.push_reserved(Made {
        key,
        debit: Some(money),
        role: Role::Payment(State::Waiting(1)),
    });
    wait(&mut board.waiting, key.stan, at);
}

/// Begins a purchase again, as it began when its order was written down. It is due at once.
fn begin_again(board: &mut Board, order: &Order) -> Result<(), Fault>
    requires room { vec_len board.old.made < vec_capacity board.old.made }
    requires place { deque_len board.old.waiting < deque_capacity board.old.waiting }
    ensures board { OnOk result ((slots : List Slot) → IsBoard board.old slots
        → IsBoard board.new (slots_with slots order.now)) }
    ensures time { OnOk result (AreInTime 0 board.old.waiting.items
        → AreInTime 0 board.new.waiting.items) }
    ensures damaged { OnErr result ((p : Party) → IsTabled board.old.made.items p.slots
        → CanNote p (Begun order.now) → ⊥) }
{
    // the laws of those who wait, for the prover
    iso_waits::laws::who_waits();
    let Act::Debit(money) = order.act() else {
        return Err(Fault::Damaged);
    };
    let key = order.key();
    let made = board.made.len();
    if made >= MOST_STAN as usize || key.stan as usize != made + 1 {
        return Err(Fault::Damaged);
    }
    begin(board, key, money, 0);
    Ok(())
}

/// A transaction was closed in that state.
pub(crate) fn settle(board: &mut Board, stan: u32, state: State)
    ensures board { (slots : List Slot) (key : TxKey) (code : ℕ) → IsBoard board.old slots
        → Closes slots key code stan state → IsBoard board.new (slots_after_answer slots key code) }
    ensures waiting { board.new.waiting.items ≡ without stan board.old.waiting.items }
{
    // the laws of those who wait, for the prover
    iso_waits::laws::who_waits();
    close(&mut board.made, stan, state);
    leave_out(&mut board.waiting, stan);
}

/// An answer came.
fn hear(board: &mut Board, key: &TxKey, code: u8)
    ensures board { (slots : List Slot) → IsBoard board.old slots
        → IsBoard board.new (slots_after_answer slots key.now code) }
    ensures time { AreInTime 0 board.old.waiting.items → AreInTime 0 board.new.waiting.items }
{
    // the laws of those who wait, for the prover
    iso_waits::laws::who_waits();
    match judge(&board.made, key, code) {
        Heard::Closed { stan, state } => settle(board, stan, state),
        Heard::Known | Heard::Foreign => {}
    }
}

/// Goes through what the acquirer wrote down.
fn go_through(board: &mut Board, note: &Note) -> Result<(), Fault>
    ensures board { OnOk result ((slots : List Slot) → IsBoard board.old slots
        → IsBoard board.new (slots_noted slots note.now)) }
    ensures time { OnOk result (AreInTime 0 board.old.waiting.items
        → AreInTime 0 board.new.waiting.items) }
    ensures damaged { IsErrOf result Fault.Damaged → (p : Party)
        → IsTabled board.old.made.items p.slots → CanNote p note.now → ⊥ }
{
    make_room(board)?;
    match note {
        Note::Begun(order) => begin_again(board, order)?,
        Note::TimedOut(stan) => time_out(&mut board.made, *stan),
        Note::Told(key, code) => hear(board, key, *code),
    }
    Ok(())
}

/// What notes leave: the orders, and the open transactions, each of which is due at once. `Damaged` where no acquirer can
/// have written the notes.
pub(crate) fn board_after(alloc: Global, notes: &[Note]) -> Result<Board, Fault>
    ensures board { IfOk result (λ b. IsBoard b (slots_after [] notes.now)) }
    ensures time { IfOk result (λ b. AreInTime 0 b.waiting.items) }
    ensures damaged { IsErrOf result Fault.Damaged → (id : ℕ)
        → CanBeWritten (party_after id []) notes.now → ⊥ }
{
    // the laws of notes, for the prover
    iso_restarts::laws::notes();
    let mut board = Board {
        made: Vec::new(alloc),
        waiting: VecDeque::new(alloc),
    };
    for note in notes {
        go_through(&mut board, note)?;
    }
    Ok(board)
}
