//! An acquirer over the log of its notes.
ghost use Rattle.std.specs.Prelude.{◌≡◌, ◌≢◌, ◌≤◌, ◌<◌, ◌+◌, ℕ, List, [], ◌∷◌, ◌++◌, OnOk, IfOk, IfErr, length, true, false};
ghost use Rattle.std.specs.Prelude.{is_err};
ghost use Rattle.iso_acquirer.specs.Acquirer.{IsFair, debit_of, timeout, state_of};
ghost use Rattle.iso_restarts.specs.declared.durable.Fault.TheVariants as fault;
ghost use Rattle.iso_restarts.specs.declared.note.Note.{Note};
ghost use Rattle.iso_restarts.specs.Diary.{MayLeave, party_after, on_disk, in_memory, unsent, begins, times_out, hears, keeps};
ghost use Rattle.iso_restarts.specs.Durable.{diary_of, IsConsistent, IsOpened, IsUntold, IsRefusedBegin, IsRefusedTimeout, Stays, Stops};
ghost use Rattle.iso_restarts.specs.Front.{LeavesFront};
ghost use Rattle.iso_restarts.specs.Replayed.{CanBeWritten};

use crate::log::{LogFailed, NoteLog};
use crate::note::Note;
use crate::replaying::replay;
use iso_acquirer::{AcqFault, Acquirer, State};
use iso_order::{Order, Pan, TxKey};
use std::alloc::{AllocError, Global};
use std::mem;
use thiserror::Error;

/// Why a call failed.
#[derive(Clone, Copy, Debug, PartialEq, Eq, Drop, Error)]
pub enum Fault {
    /// The acquirer refused: nothing changed.
    #[error("the acquirer refused")]
    Refused(AcqFault),
    /// Memory ran out: nothing changed.
    #[error("memory ran out")]
    Memory,
    /// What was written isn't kept yet: nothing is told of it.
    #[error("what was written is not kept yet")]
    Unkept,
    /// The log failed. It is to be opened again, and no order that waits is sent.
    #[error("the log failed")]
    Log,
    /// The log holds notes that no acquirer can have written.
    #[error("the log holds what no acquirer can have written")]
    Damaged,
}

impl From<LogFailed> for Fault {
    ghost from_gives = { λ _ e. e ≡ fault.Log };

    fn from(_: LogFailed) -> Fault {
        Fault::Log
    }
}

impl From<AllocError> for Fault {
    ghost from_gives = { λ _ e. e ≡ fault.Memory };

    fn from(_: AllocError) -> Fault {
        Fault::Memory
    }
}

/// An acquirer, and the log of its notes. What it has to send, and what it knows, is handed out once its notes are kept.
#[derive(Drop)]
pub struct DurableAcquirer<L: NoteLog> {
    /// It is as all its notes make it, those that wait for a sync too.
    acquirer: Acquirer,
    /// The notes that are kept.
    log: L,
    /// The orders that are sent once the notes are kept.
    unsent: Vec<Order>,
    /// Notes wait for a sync.
    waits: bool,
    /// The log failed: nothing is written any more, until it is opened again.
    has_failed: bool,
}

impl<L: NoteLog> DurableAcquirer<L> {
    /// The acquirer of that number (element 32), of at most 11 digits, over a log that was opened, with the notes that it
    /// holds: it goes on with its open transactions. An `Err` hands the log back.
    pub fn start(
        alloc: Global,
        id: u64,
        notes: &[Note],
        log: L,
    ) -> Result<DurableAcquirer<L>, (Fault, L)>
        // The acquirer's number (element 32) has at most eleven digits.
        requires { id ≤ 99999999999 }
        // Over a log that was opened with these notes, the acquirer is in step with it: the log is
        // ready, and the notes make the acquirer and what it has to send.
        ensures consistent { IfOk result (λ a. IsOpened L.is_ready L.synced L.pending log notes.now
            → IsConsistent L.is_ready L.synced L.pending a) }
        // Over a log that was opened with these notes, the acquirer has that number, these notes on
        // the disk, and none that waits for a sync.
        ensures diary { IfOk result (λ a. IsOpened L.is_ready L.synced L.pending log notes.now
            → diary_of L.synced L.pending a
            ≡ record { id = id; synced = notes.now; pending = [] }) }
        // An acquirer that starts knows of no failure of its log.
        ensures ready { IfOk result (λ a. a.has_failed ≡ false) }
        // An `Err` hands back the very log that was given.
        ensures log { IfErr result (λ e. e.1 ≡ log) }
        // `Damaged` comes only where no acquirer can have written these notes.
        ensures damaged { IfErr result (λ e. e.0 ≡ Fault.Damaged
            → CanBeWritten (party_after id []) notes.now → ⊥) }
    {
        match replay(alloc, id, notes) {
            Ok(acquirer) => Ok(DurableAcquirer {
                acquirer,
                log,
                unsent: Vec::new(alloc),
                waits: false,
                has_failed: false,
            }),
            Err(fault) => Err((fault, log)),
        }
    }

    /// Its log. Takes no memory.
    pub fn log(&self) -> &L
        ensures { result.now ≡ self.now.log }
    {
        &self.log
    }

    /// The state of the transaction of that trace number, where there is one, by what is kept: a start after a crash
    /// tells the same, if nothing comes between. `Unkept` where something was written since the last `keep`.
    pub fn state(&self, stan: u32) -> Result<Option<State>, Fault>
        // An acquirer in step with its log tells the state by the notes on the disk, and none where
        // these have no such transaction.
        ensures kept { IfOk result (λ state. IsConsistent L.is_ready L.synced L.pending self.now
            → state ≡ state_of (on_disk (diary_of L.synced L.pending self.now)).slots stan) }
        // An acquirer in step with its log tells `Unkept` only where a note waits for a sync, `Log`
        // only after a failure of the log, and no other fault.
        ensures fault { IfErr result (λ e. IsConsistent L.is_ready L.synced L.pending self.now
            → IsUntold (diary_of L.synced L.pending self.now) self.now.has_failed e) }
    {
        if self.has_failed {
            return Err(Fault::Log);
        }
        if self.waits {
            return Err(Fault::Unkept);
        }
        Ok(self.acquirer.state(stan))
    }

    /// Writes down what happened, or fails for good.
    fn write(&mut self, note: Note) -> Result<(), Fault>
        ensures acquirer { self.new.acquirer ≡ self.old.acquirer }
        ensures unsent { self.new.unsent ≡ self.old.unsent }
        ensures waits { self.new.waits ≡ true }
        ensures ready { OnOk result (L.is_ready self.old.log → L.is_ready self.new.log) }
        ensures synced { OnOk result (L.is_ready self.old.log
            → L.synced self.new.log ≡ L.synced self.old.log) }
        ensures pending { OnOk result (L.is_ready self.old.log
            → L.pending self.new.log ≡ L.pending self.old.log ++ note ∷ []) }
        ensures crash { L.is_ready self.old.log → LeavesFront (L.may_leave self.new.log)
            (L.synced self.old.log) (L.pending self.old.log ++ note ∷ []) }
        ensures fault { IfErr result (λ e. e ≡ Fault.Log) }
        ensures failed { self.new.has_failed ≡ is_err result }
    {
        self.waits = true;
        self.has_failed = true;
        match self.log.append(note) {
            Ok(()) => {
                self.has_failed = false;
                Ok(())
            }
            Err(_) => Err(Fault::Log),
        }
    }

    /// Begins a payment, as `Acquirer::begin` does, and writes it down: gives its trace number. Its order is given by the
    /// next `keep`.
    pub fn begin(
        &mut self,
        pan: Pan,
        amount: u64,
        currency: [u8; 3],
        sent: u64,
    ) -> Result<u32, Fault>
        // The amount is 1 to 999,999,999,999 minor units, the currency three letters or digits, and
        // the time has at most ten digits.
        requires { IsFair amount currency sent }
        // An acquirer in step with its log gives the next trace number: one more
        // than the orders that it made.
        ensures trace { IfOk result (λ stan. IsConsistent L.is_ready L.synced L.pending self.old
            → stan ≡ length (in_memory (diary_of L.synced L.pending self.old)).slots + 1) }
        // Where it succeeds, an acquirer that was in step with its log stays so: the log is ready,
        // and the notes make the acquirer and what it has to send.
        ensures consistent { OnOk result (IsConsistent L.is_ready L.synced L.pending self.old
            → IsConsistent L.is_ready L.synced L.pending self.new) }
        // Where it succeeds, an acquirer in step with its log has one note more, which waits for a
        // sync: this debit began under the next trace number.
        ensures begins { OnOk result (IsConsistent L.is_ready L.synced L.pending self.old
            → let old = diary_of L.synced L.pending self.old in
            diary_of L.synced L.pending self.new
            ≡ begins old (debit_of (in_memory old) pan amount currency sent)) }
        // However it ends, a crash leaves what it may leave once the payment has begun.
        ensures crash { IsConsistent L.is_ready L.synced L.pending self.old
            → (c : List Note) → L.may_leave self.new.log c
            → let old = diary_of L.synced L.pending self.old in
            MayLeave (begins old (debit_of (in_memory old) pan amount currency sent)) c }
        // An acquirer in step with its log tells `Refused` only as `NoMoreTrace`, after 999,999
        // orders, and never `Unkept` or `Damaged`.
        ensures refused { IfErr result (λ e. IsConsistent L.is_ready L.synced L.pending self.old
            → IsRefusedBegin (in_memory (diary_of L.synced L.pending self.old)) e) }
        // Any fault but `Log` leaves the notes as they were, and the acquirer in
        // step with its log, if it was.
        ensures unchanged { IfErr result (λ e. e ≢ Fault.Log
            → Stays L.is_ready L.synced L.pending self.old self.new) }
        // After a failure of the log each call fails.
        ensures stops { Stops self.old.has_failed self.new.has_failed result }
    {
        if self.has_failed {
            return Err(Fault::Log);
        }
        self.unsent.reserve(1)?;
        let order = match self.acquirer.begin(pan, amount, currency, sent) {
            Ok(order) => order,
            Err(AcqFault::NoMoreTrace) => return Err(Fault::Refused(AcqFault::NoMoreTrace)),
            Err(AcqFault::Memory | AcqFault::NoSuch | AcqFault::Closed) => return Err(
                Fault::Memory,
            ),
        };
        self.write(Note::Begun(order))?;
        self.unsent.push_reserved(order);
        Ok(order.key().stan)
    }

    /// Takes that no answer came in time to the transaction of that trace number, as `Acquirer::timeout` does, and writes
    /// it down. The order to send is given by the next `keep`.
    pub fn timed_out(&mut self, stan: u32) -> Result<(), Fault>
        // Where it succeeds, an acquirer that was in step with its log stays so: the log is ready,
        // and the notes make the acquirer and what it has to send.
        ensures consistent { OnOk result (IsConsistent L.is_ready L.synced L.pending self.old
            → IsConsistent L.is_ready L.synced L.pending self.new) }
        // Where it succeeds, an acquirer in step with its log has one note more, which waits for a
        // sync: no answer came in time to this transaction.
        ensures times_out { OnOk result (IsConsistent L.is_ready L.synced L.pending self.old
            → diary_of L.synced L.pending self.new
            ≡ times_out (diary_of L.synced L.pending self.old) stan) }
        // However it ends, a crash leaves what it may leave once the time-out is written.
        ensures crash { IsConsistent L.is_ready L.synced L.pending self.old
            → (c : List Note) → L.may_leave self.new.log c
            → MayLeave (times_out (diary_of L.synced L.pending self.old) stan) c }
        // An acquirer in step with its log tells `Refused` only as `Acquirer::timeout` refuses, and
        // never `Unkept` or `Damaged`.
        ensures refused { IfErr result (λ e. IsConsistent L.is_ready L.synced L.pending self.old
            → IsRefusedTimeout (in_memory (diary_of L.synced L.pending self.old)) stan e) }
        // Any fault but `Log` leaves the notes as they were, and the acquirer in
        // step with its log, if it was.
        ensures unchanged { IfErr result (λ e. e ≢ Fault.Log
            → Stays L.is_ready L.synced L.pending self.old self.new) }
        // After a failure of the log each call fails.
        ensures stops { Stops self.old.has_failed self.new.has_failed result }
    {
        if self.has_failed {
            return Err(Fault::Log);
        }
        self.unsent.reserve(1)?;
        let order = match self.acquirer.timeout(stan) {
            Ok(order) => order,
            Err(fault) => return Err(Fault::Refused(fault)),
        };
        self.write(Note::TimedOut(stan))?;
        self.unsent.push_reserved(order);
        Ok(())
    }

    /// Takes an answer, as `Acquirer::answer` does, and writes it down. It counts once it is kept.
    pub fn told(&mut self, key: TxKey, code: u8) -> Result<(), Fault>
        // Where it succeeds, an acquirer that was in step with its log stays so: the log is ready,
        // and the notes make the acquirer and what it has to send.
        ensures consistent { OnOk result (IsConsistent L.is_ready L.synced L.pending self.old
            → IsConsistent L.is_ready L.synced L.pending self.new) }
        // Where it succeeds, an acquirer in step with its log has one note more, which waits for a
        // sync: an order of this key got this code.
        ensures hears { OnOk result (IsConsistent L.is_ready L.synced L.pending self.old
            → diary_of L.synced L.pending self.new
            ≡ hears (diary_of L.synced L.pending self.old) key code) }
        // However it ends, a crash leaves what it may leave once the answer is written.
        ensures crash { IsConsistent L.is_ready L.synced L.pending self.old
            → (c : List Note) → L.may_leave self.new.log c
            → MayLeave (hears (diary_of L.synced L.pending self.old) key code) c }
        // The only fault is `Log`.
        ensures fault { IfErr result (λ e. e ≡ Fault.Log) }
        // After a failure of the log each call fails.
        ensures stops { Stops self.old.has_failed self.new.has_failed result }
    {
        if self.has_failed {
            return Err(Fault::Log);
        }
        self.acquirer.answer(key, code);
        self.write(Note::Told(key, code))?;
        Ok(())
    }

    /// Has all that was written kept, with one sync, and gives the orders that may be sent now, in their order.
    pub fn keep(&mut self) -> Result<Vec<Order>, Fault>
        // An acquirer in step with its log gives the orders of the notes that waited,
        // each once, in their order.
        ensures orders { IfOk result (λ orders. IsConsistent L.is_ready L.synced L.pending self.old
            → orders.items ≡ unsent (diary_of L.synced L.pending self.old)) }
        // Where it succeeds, an acquirer that was in step with its log stays so: the log is ready,
        // and the notes make the acquirer and what it has to send.
        ensures consistent { OnOk result (IsConsistent L.is_ready L.synced L.pending self.old
            → IsConsistent L.is_ready L.synced L.pending self.new) }
        // Where it succeeds, an acquirer in step with its log has all its notes on the disk,
        // and none waits for a sync.
        ensures keeps { OnOk result (IsConsistent L.is_ready L.synced L.pending self.old
            → diary_of L.synced L.pending self.new
            ≡ keeps (diary_of L.synced L.pending self.old)) }
        // However it ends, a crash leaves what it may leave before.
        ensures crash { IsConsistent L.is_ready L.synced L.pending self.old
            → (c : List Note) → L.may_leave self.new.log c
            → MayLeave (diary_of L.synced L.pending self.old) c }
        // The only fault is `Log`.
        ensures fault { IfErr result (λ e. e ≡ Fault.Log) }
        // After a failure of the log each call fails.
        ensures stops { Stops self.old.has_failed self.new.has_failed result }
    {
        if self.has_failed {
            return Err(Fault::Log);
        }
        self.has_failed = true;
        self.log.sync()?;
        self.has_failed = false;
        self.waits = false;
        let alloc = *self.unsent.allocator();
        Ok(mem::replace(&mut self.unsent, Vec::new(alloc)))
    }
}
