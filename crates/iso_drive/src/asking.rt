//! Asking again where no answer came in time.
ghost use Rattle.std.specs.Prelude.{◌≡◌, ◌≢◌, ◌⊎◌, List, OnOk, IfErr};
ghost use Rattle.iso_restarts.specs.declared.note.Note.{Note};
ghost use Rattle.iso_restarts.specs.Diary.{MayLeave, times_out};
ghost use Rattle.iso_restarts.specs.Durable.{diary_of, IsConsistent};
ghost use Rattle.iso_restarts.specs.Durable.{Stays as Same};

use iso_restarts::{DurableAcquirer, Fault, NoteLog};

/// No answer came in time to a transaction. Where no trace number is left for its reversal, it goes on to wait.
pub(crate) fn ask<L: NoteLog>(acquirer: &mut DurableAcquirer<L>, stan: u32) -> Result<(), Fault>
    ensures consistent { OnOk result (IsConsistent L.is_ready L.synced L.pending acquirer.old
        → IsConsistent L.is_ready L.synced L.pending acquirer.new) }
    ensures times_out { OnOk result (IsConsistent L.is_ready L.synced L.pending acquirer.old
        → diary_of L.synced L.pending acquirer.new
        ≡ times_out (diary_of L.synced L.pending acquirer.old) stan) }
    ensures crash { IsConsistent L.is_ready L.synced L.pending acquirer.old
        → (c : List Note) → L.may_leave acquirer.new.log c
        → MayLeave (times_out (diary_of L.synced L.pending acquirer.old) stan) c }
    ensures unchanged { IfErr result (λ e. e ≢ Fault.Log
        → Same L.is_ready L.synced L.pending acquirer.old acquirer.new) }
    ensures fault { IfErr result (λ e. (e ≡ Fault.Memory) ⊎ (e ≡ Fault.Log)) }
{
    match acquirer.timed_out(stan) {
        Ok(()) | Err(Fault::Refused(_)) => Ok(()),
        Err(Fault::Log) => Err(Fault::Log),
        Err(Fault::Memory | Fault::Unkept | Fault::Damaged) => Err(Fault::Memory),
    }
}
