//! What a start does with the notes that a log holds.
ghost use Rattle.std.specs.Prelude.{◌≡◌, ◌≤◌, [], OnOk, IfOk, IsErrOf};
ghost use Rattle.iso_order.specs.Order.{Instruction};
ghost use Rattle.iso_acquirer.specs.Acquirer.{Party};
ghost use Rattle.iso_restarts.specs.Diary.{party_after};
ghost use Rattle.iso_restarts.specs.declared.note.Note.TheVariants.{Begun};
ghost use Rattle.iso_restarts.specs.Replayed.{CanNote, CanBeWritten, party_noted};

use crate::durable::Fault;
use crate::note::Note;
use iso_acquirer::{AcqFault, Acquirer};
use iso_order::{Act, Order};
use std::alloc::Global;

/// Begins a payment again, as it began when its order was written down.
fn begin_again(acquirer: &mut Acquirer, order: Order) -> Result<(), Fault>
    ensures begun { OnOk result (acquirer.new ≡ party_noted acquirer.old (Begun order)) }
    ensures damaged { IsErrOf result Fault.Damaged → CanNote acquirer.old (Begun order) → ⊥ }
{
    let Act::Debit(money) = order.act() else {
        return Err(Fault::Damaged);
    };
    let sent = order.key().sent;
    match acquirer.begin(money.pan, money.amount, money.currency, sent) {
        Ok(again) => {
            if again.is_same(&order) {
                Ok(())
            } else {
                Err(Fault::Damaged)
            }
        }
        Err(AcqFault::Memory) => Err(Fault::Memory),
        Err(AcqFault::NoMoreTrace | AcqFault::NoSuch | AcqFault::Closed) => Err(Fault::Damaged),
    }
}

/// Has the acquirer go through what it wrote down.
fn go_through(acquirer: &mut Acquirer, note: Note) -> Result<(), Fault>
    ensures after { OnOk result (acquirer.new ≡ party_noted acquirer.old note) }
    ensures damaged { IsErrOf result Fault.Damaged → CanNote acquirer.old note → ⊥ }
{
    match note {
        Note::Begun(order) => begin_again(acquirer, order),
        Note::TimedOut(stan) => match acquirer.timeout(stan) {
            Ok(_) => Ok(()),
            Err(_) => Err(Fault::Damaged),
        },
        Note::Told(key, code) => {
            acquirer.answer(key, code);
            Ok(())
        }
    }
}

/// The acquirer of that number to whom all this happened, as a log that is opened gives it. `Damaged` where no acquirer
/// can have written it.
pub fn replay(alloc: Global, id: u64, notes: &[Note]) -> Result<Acquirer, Fault>
    // The acquirer's number (element 32) has at most eleven digits.
    requires { id ≤ 99999999999 }
    // The acquirer that is got is the one of that number to whom all of
    // this happened, in this order.
    ensures acquirer { IfOk result (λ acquirer. acquirer ≡ party_after id notes.now) }
    // `Damaged` is told only of notes that no acquirer of that number can have written.
    ensures damaged { IsErrOf result Fault.Damaged
        → CanBeWritten (party_after id []) notes.now → ⊥ }
{
    let mut acquirer = Acquirer::new(alloc, id);
    for note in notes {
        go_through(&mut acquirer, *note)?;
    }
    Ok(acquirer)
}
