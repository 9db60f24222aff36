//! An acquirer that is driven by the clock.
ghost use Rattle.std.specs.Prelude.{◌≡◌, ◌≢◌, ◌≤◌, ◌⊎◌, ◌↔◌, ◌+◌, ℕ, List, [], OnOk, IfOk, IfErr, IfSome, IsTrue, length, option_map, slice_get};
ghost use Rattle.std.specs.List.{AllByRecursion};
ghost use Rattle.iso_acquirer.specs.Acquirer.{IsFair, debit_of, slot_at};
ghost use Rattle.iso_acquirer.specs.Agreement.{approved_total};
ghost use Rattle.iso_restarts.specs.declared.note.Note.{Note};
ghost use Rattle.iso_restarts.specs.Diary.{MayLeave, party_after, in_memory, unsent, begins, hears, times_out};
ghost use Rattle.iso_restarts.specs.Durable.{diary_of, IsConsistent, IsOpened, IsRefusedBegin};
ghost use Rattle.iso_restarts.specs.Durable.{Stays as Same};
ghost use Rattle.iso_restarts.specs.Replayed.{CanBeWritten};
ghost use Rattle.iso_drive.specs.Answered.{ComesTo};
ghost use Rattle.iso_drive.specs.Counts.{count_of, counts_of, is_declined_with};
ghost use Rattle.iso_drive.specs.Driving.{Driving, slots_in, at_moment, begins_now, wakes_first, wakes, hears_new, keeps_all};
ghost use Rattle.iso_drive.specs.Driving.{driving_of, log_of, is_stopped, IsDriving, Remains, Stops, IsStarted, WakesSome, MayLeaveSome};
ghost use Rattle.iso_drive.specs.Doubtful.{doubtful_of};
ghost use Rattle.iso_waits.specs.Waits.{due_by};
ghost use Rattle.iso_drive.specs.Entries.{entry_of};
ghost use Rattle.iso_drive.specs.Open.{AreAllClosed};

use crate::asking::ask;
use crate::board::{Board, begin, board_after, make_room, settle};
use crate::books::approved_total;
use crate::counts::{Counts, count, declined_with};
use crate::doubtful::doubtful_of;
use crate::entry::{Entry, entry_at};
use crate::heard::Heard;
use crate::made::{judge, time_out};
use iso_acquirer::AcqFault;
use iso_order::{MOST_STAN, Money, Order, Pan, Told, TxKey};
use iso_restarts::{DurableAcquirer, Fault, Note, NoteLog};
use iso_waits::{due_by, first_of, is_empty, moment_after, put_off};
use std::alloc::{AllocError, Global};

/// An acquirer over the log of its notes, and when each of its open transactions is due. Moments are in milliseconds, of
/// any clock that goes on; one before the latest that was told counts as the latest.
#[derive(Drop)]
pub struct Driver<L: NoteLog> {
    acquirer: DurableAcquirer<L>,
    /// Its number (element 32).
    id: u64,
    board: Board,
    /// How long it waits for an answer.
    patience: u64,
    /// The latest moment that it was told.
    clock: u64,
}

impl<L: NoteLog> Driver<L> {
    /// The driver of the acquirer of that number (element 32), of at most 11 digits, over a log that was opened, with the
    /// notes that it holds. It waits that long for each answer, in milliseconds. The transactions that the notes leave
    /// open are due at once. An `Err` hands the log back.
    pub fn start(
        alloc: Global,
        id: u64,
        notes: &[Note],
        log: L,
        patience: u64,
    ) -> Result<Driver<L>, (Fault, L)>
        // The acquirer's number (element 32) has at most eleven digits.
        requires { id ≤ 99999999999 }
        // Over a log that was opened with these notes, the driver has the orders of its acquirer,
        // and each open transaction waits once.
        ensures driving { IfOk result (λ d. IsOpened L.is_ready L.synced L.pending log notes.now
            → IsDriving L.is_ready L.synced L.pending d) }
        // Over a log that was opened with these notes, they are all on the disk, the clock stands
        // at 0, and each transaction that they leave open is due at once.
        ensures started { IfOk result (λ d. IsOpened L.is_ready L.synced L.pending log notes.now
            → IsStarted id notes.now patience (driving_of L.synced L.pending d)) }
        // An `Err` hands the log back as it was.
        ensures log { IfErr result (λ e. e.1 ≡ log) }
        // `Damaged` comes only where no acquirer can have written these notes.
        ensures damaged { IfErr result (λ e. e.0 ≡ Fault.Damaged
            → CanBeWritten (party_after id []) notes.now → ⊥) }
    {
        // the laws of those who wait, for the prover
        iso_waits::laws::who_waits();
        let board = match board_after(alloc, notes) {
            Ok(board) => board,
            Err(fault) => return Err((fault, log)),
        };
        match DurableAcquirer::start(alloc, id, notes, log) {
            Ok(acquirer) => Ok(Driver {
                acquirer,
                id,
                board,
                patience,
                clock: 0,
            }),
            Err(back) => Err(back),
        }
    }

    /// Begins a purchase at a moment, as `Acquirer::begin` does, and writes it down: gives its trace number. Its order is
    /// given by the next `keep`. It is due once it waited as long as the driver waits.
    pub fn begin(&mut self, money: &Money, sent: u64, now: u64) -> Result<u32, Fault>
        // The amount is 1 to 999,999,999,999 (element 4), the currency three letters or digits
        // (element 49), and the time at most ten digits (element 7).
        requires { IsFair money.now.amount money.now.currency sent }
        // Over a log that was opened well, the trace number (element 11) is the next one, behind
        // those of all the acquirer's orders.
        ensures trace { IfOk result (λ stan. IsDriving L.is_ready L.synced L.pending self.old
            → stan ≡ length (slots_in (driving_of L.synced L.pending self.old)) + 1) }
        // At `Ok` the driver has the orders of its acquirer, and each open transaction waits once.
        ensures driving { OnOk result (IsDriving L.is_ready L.synced L.pending self.old
            → IsDriving L.is_ready L.synced L.pending self.new) }
        // At `Ok`, over a log that was opened well, the purchase's debit is noted; the purchase
        // waits behind the others, and is due after the driver's patience.
        ensures begins { OnOk result (IsDriving L.is_ready L.synced L.pending self.old
            → let old = at_moment now (driving_of L.synced L.pending self.old) in
            driving_of L.synced L.pending self.new
            ≡ begins_now old (debit_of (in_memory old.diary)
            money.now.pan money.now.amount money.now.currency sent)) }
        // However it ends, a crash leaves what it may leave once the purchase has begun.
        ensures crash { IsDriving L.is_ready L.synced L.pending self.old
            → (c : List Note) → L.may_leave (log_of self.new) c
            → let old = (driving_of L.synced L.pending self.old).diary in
            MayLeave (begins old (debit_of (in_memory old)
            money.now.pan money.now.amount money.now.currency sent)) c }
        // Over a log that was opened well, the acquirer refuses only where no trace number is left.
        // Any other `Err` is want of memory or a failure of the log.
        ensures refused { IfErr result (λ e. IsDriving L.is_ready L.synced L.pending self.old
            → IsRefusedBegin (in_memory (driving_of L.synced L.pending self.old).diary) e) }
        // A refusal and want of memory leave the driver, what waits and what is noted as they were.
        ensures unchanged { IfErr result (λ e. e ≢ Fault.Log
            → Remains L.is_ready L.synced L.pending self.old self.new) }
        // After a failure of the log no call succeeds; one that succeeds leaves the driver running.
        ensures stops { Stops (is_stopped self.old) (is_stopped self.new) result }
    {
        // the laws of notes and of those who wait, for the prover
        iso_restarts::laws::notes();
        iso_waits::laws::who_waits();
        if self.board.made.len() >= MOST_STAN as usize {
            return Err(Fault::Refused(AcqFault::NoMoreTrace));
        }
        make_room(&mut self.board)?;
        let stan = self
            .acquirer
            .begin(money.pan, money.amount, money.currency, sent)?;
        self.clock = self.clock.max(now);
        let key = TxKey {
            base: 200,
            stan,
            sent,
            acquirer: self.id,
        };
        let at = moment_after(self.clock, self.patience);
        begin(&mut self.board, key, *money, at);
        Ok(stan)
    }

    /// The first that waits is timed out, and waits again.
    fn wake_first(&mut self) -> Result<(), Fault>
        ensures driving { OnOk result (IsDriving L.is_ready L.synced L.pending self.old
            → IsDriving L.is_ready L.synced L.pending self.new) }
        ensures wakes { OnOk result (IsDriving L.is_ready L.synced L.pending self.old
            → driving_of L.synced L.pending self.new
            ≡ wakes_first 1 (driving_of L.synced L.pending self.old)) }
        ensures crash { IsDriving L.is_ready L.synced L.pending self.old
            → (c : List Note) → L.may_leave (log_of self.new) c
            → MayLeave (wakes_first 1 (driving_of L.synced L.pending self.old)).diary c }
        ensures unchanged { IfErr result (λ e. e ≢ Fault.Log
            → Remains L.is_ready L.synced L.pending self.old self.new) }
        ensures fault { IfErr result (λ e. (e ≡ Fault.Memory) ⊎ (e ≡ Fault.Log)) }
    {
        // the laws of notes and of those who wait, for the prover
        iso_restarts::laws::notes();
        iso_waits::laws::who_waits();
        let Some(first) = first_of(&self.board.waiting) else {
            return Ok(());
        };
        make_room(&mut self.board)?;
        ask(&mut self.acquirer, first.stan)?;
        time_out(&mut self.board.made, first.stan);
        put_off(
            &mut self.board.waiting,
            moment_after(self.clock, self.patience),
        );
        Ok(())
    }

    /// Times out each transaction that is due by a moment, in the order in which they became due, and writes it down: how
    /// many there were. Its order is sent again, then its reversal, and then that again and again: the next `keep` gives
    /// the orders. Each waits again from now on. One for whose reversal no trace number is left just waits again. After an
    /// `Err` some from the front are timed out, and the others are due as before.
    pub fn wake(&mut self, now: u64) -> Result<usize, Fault>
        // It counts the transactions that are due by the latest moment that the driver was told.
        ensures count { IfOk result (λ n.
            let old = at_moment now (driving_of L.synced L.pending self.old) in
            n ≡ length (due_by old.clock old.waiting)) }
        // At `Ok` the driver has the orders of its acquirer, and each open transaction waits once.
        ensures driving { OnOk result (IsDriving L.is_ready L.synced L.pending self.old
            → IsDriving L.is_ready L.synced L.pending self.new) }
        // At `Ok`, over a log that was opened well, exactly the due ones are timed out, in the
        // order in which they became due, and each is due again after the driver's patience.
        ensures wakes { OnOk result (IsDriving L.is_ready L.synced L.pending self.old
            → driving_of L.synced L.pending self.new
            ≡ wakes (at_moment now (driving_of L.synced L.pending self.old))) }
        // After want of memory, over a log that was opened well, some of the due ones from the
        // front are timed out and wait again, and no other is.
        ensures partly { IfErr result (λ e. e ≢ Fault.Log
            → IsDriving L.is_ready L.synced L.pending self.old
            → IsDriving L.is_ready L.synced L.pending self.new
            × WakesSome (at_moment now (driving_of L.synced L.pending self.old))
            (driving_of L.synced L.pending self.new)) }
        // However it ends, a crash leaves what it may leave once some of them are timed out.
        ensures crash { IsDriving L.is_ready L.synced L.pending self.old
            → (c : List Note) → L.may_leave (log_of self.new) c
            → MayLeaveSome (at_moment now (driving_of L.synced L.pending self.old)) c }
        // Only want of memory and a failure of the log are told as faults.
        ensures fault { IfErr result (λ e. (e ≡ Fault.Memory) ⊎ (e ≡ Fault.Log)) }
    {
        // the laws of those who wait, for the prover
        iso_waits::laws::who_waits();
        self.clock = self.clock.max(now);
        let count = due_by(&self.board.waiting, self.clock);
        for woken in 0..count {
            self.wake_first()?;
        }
        Ok(count)
    }

    /// Takes an answer: the key and code of a response. One that closes a transaction is written down, and the transaction
    /// waits no longer. Any other writes nothing: it tells nothing new, or isn't to this acquirer's order.
    pub fn heard(&mut self, told: &Told) -> Result<Heard, Fault>
        // `Closed` names the open transaction that the answer closes, and its state. `Known`, to an
        // order of this acquirer, and `Foreign`, to none, change nothing.
        ensures comes { IfOk result (λ heard. IsDriving L.is_ready L.synced L.pending self.old
            → ComesTo (slots_in (driving_of L.synced L.pending self.old))
            told.now.key told.now.code heard) }
        // At `Ok` the driver has the orders of its acquirer, and each open transaction waits once.
        ensures driving { OnOk result (IsDriving L.is_ready L.synced L.pending self.old
            → IsDriving L.is_ready L.synced L.pending self.new) }
        // At `Ok`, over a log that was opened well, an answer that closes a transaction is noted,
        // and the transaction waits no longer; any other changes nothing.
        ensures hears { IfOk result (λ heard. IsDriving L.is_ready L.synced L.pending self.old
            → driving_of L.synced L.pending self.new
            ≡ hears_new (driving_of L.synced L.pending self.old) told.now.key told.now.code heard) }
        // However it ends, a crash leaves what it may leave once the answer is written.
        ensures crash { IsDriving L.is_ready L.synced L.pending self.old
            → (c : List Note) → L.may_leave (log_of self.new) c
            → MayLeave (hears (driving_of L.synced L.pending self.old).diary
            told.now.key told.now.code) c }
        // Only a failure of the log is told as a fault.
        ensures fault { IfErr result (λ e. e ≡ Fault.Log) }
    {
        // the laws of notes and of those who wait, for the prover
        iso_restarts::laws::notes();
        iso_waits::laws::who_waits();
        match judge(&self.board.made, &told.key, told.code) {
            Heard::Closed { stan, state } => {
                self.acquirer.told(told.key, told.code)?;
                settle(&mut self.board, stan, state);
                Ok(Heard::Closed { stan, state })
            }
            Heard::Known => Ok(Heard::Known),
            Heard::Foreign => Ok(Heard::Foreign),
        }
    }

    /// Has all that was written kept, with one sync, and gives the orders that may be sent now, in their order.
    pub fn keep(&mut self) -> Result<Vec<Order>, Fault>
        // At `Ok`, over a log that was opened well, it gives all the orders that waited
        // to be sent, in their order.
        ensures orders { IfOk result (λ orders. IsDriving L.is_ready L.synced L.pending self.old
            → orders.items ≡ unsent (driving_of L.synced L.pending self.old).diary) }
        // At `Ok` the driver has the orders of its acquirer, and each open transaction waits once.
        ensures driving { OnOk result (IsDriving L.is_ready L.synced L.pending self.old
            → IsDriving L.is_ready L.synced L.pending self.new) }
        // At `Ok`, over a log that was opened well, all notes are on the disk, and the
        // transactions wait as before.
        ensures keeps { OnOk result (IsDriving L.is_ready L.synced L.pending self.old
            → driving_of L.synced L.pending self.new
            ≡ keeps_all (driving_of L.synced L.pending self.old)) }
        // However it ends, a crash leaves what it may leave before.
        ensures crash { IsDriving L.is_ready L.synced L.pending self.old
            → (c : List Note) → L.may_leave (log_of self.new) c
            → MayLeave (driving_of L.synced L.pending self.old).diary c }
        // Only a failure of the log is told as a fault.
        ensures fault { IfErr result (λ e. e ≡ Fault.Log) }
        // After a failure of the log no call succeeds; one that succeeds leaves the driver running.
        ensures stops { Stops (is_stopped self.old) (is_stopped self.new) result }
    {
        self.acquirer.keep()
    }

    /// Its log. Takes no memory.
    pub fn log(&self) -> &L
        ensures { result.now ≡ log_of self.now }
    {
        self.acquirer.log()
    }

    /// The moment at which the next transaction is due: no other is due before. `None` where none is open. Takes no memory.
    pub fn next_due(&self) -> Option<u64>
        // It is the moment at which the first that waits is due, and `None` where none waits.
        ensures first { result ≡ option_map (λ d. d.at)
            (slice_get (driving_of L.synced L.pending self.now).waiting 0) }
        // Over a log that was opened well, no transaction is due before that moment.
        ensures none_before { IfSome result (λ at. IsDriving L.is_ready L.synced L.pending self.now
            → AllByRecursion (λ d. at ≤ d.at) (driving_of L.synced L.pending self.now).waiting) }
    {
        // the law that no other is due before the one in front, for the prover
        iso_waits::laws::who_waits();
        match first_of(&self.board.waiting) {
            Some(first) => Some(first.at),
            None => None,
        }
    }

    /// How many transactions are open. Takes no memory.
    pub fn open(&self) -> usize
        ensures { result ≡ length (driving_of L.synced L.pending self.now).waiting }
    {
        self.board.waiting.len()
    }

    /// Whether all transactions are closed. Takes no memory.
    pub fn is_closed(&self) -> bool
        // It is true exactly where no transaction waits for its answer.
        ensures none { IsTrue result ↔ ((driving_of L.synced L.pending self.now).waiting ≡ []) }
        // Over a log that was opened well, it is true exactly where each of the acquirer's
        // transactions is approved, declined or reversed.
        ensures closed { IsDriving L.is_ready L.synced L.pending self.now
            → (IsTrue result ↔ AreAllClosed (slots_in (driving_of L.synced L.pending self.now))) }
    {
        // the law that none waits where no order does, for the prover
        iso_waits::laws::who_waits();
        is_empty(&self.board.waiting)
    }

    /// How far its transactions got. Takes no memory, and time by how many there are.
    pub fn counts(&self) -> Counts
        // Over a log that was opened well, it is how many of the acquirer's
        // transactions are in each state.
        ensures { IsDriving L.is_ready L.synced L.pending self.now
            → result ≡ counts_of (slots_in (driving_of L.synced L.pending self.now)) }
    {
        count(&self.board.made)
    }

    /// How many of its transactions were refused with that code. Takes no memory, and time by how many there are.
    pub fn declined_with(&self, code: u8) -> usize
        // Over a log that was opened well, it is how many of the acquirer's transactions
        // are declined with that code.
        ensures { IsDriving L.is_ready L.synced L.pending self.now
            → result ≡ count_of (is_declined_with code)
            (slots_in (driving_of L.synced L.pending self.now)) }
    {
        declined_with(&self.board.made, code)
    }

    /// What its own books say of an account: the amounts of its approved purchases, added up. Takes no memory, and time by
    /// how many there are.
    pub fn spent(&self, pan: &Pan) -> u128
        // Over a log that was opened well, it is the sum of the account's approved debits.
        ensures { IsDriving L.is_ready L.synced L.pending self.now
            → result ≡ approved_total pan.now (slots_in (driving_of L.synced L.pending self.now)) }
    {
        approved_total(&self.board.made, pan)
    }

    /// The order of a trace number, where its acquirer made one. Takes no memory.
    pub fn entry(&self, stan: u32) -> Option<Entry>
        // Over a log that was opened well, it tells the order's key, what it takes from an account,
        // and which transaction it takes back; `None` exactly where none was made.
        ensures { IsDriving L.is_ready L.synced L.pending self.now
            → result ≡ option_map entry_of
            (slot_at (slots_in (driving_of L.synced L.pending self.now)) stan) }
    {
        entry_at(&self.board.made, stan)
    }

    /// The trace numbers of an account's transactions that no answer to their own orders decided: those that are open, and
    /// those that were reversed. They are the ones to look at where both ends differ on the account.
    pub fn doubtful(&self, alloc: Global, pan: &Pan) -> Result<Vec<u32>, AllocError>
        // Memory aside, over a log that was opened well, these are the trace numbers of the
        // account's debits that are open or reversed, in their order.
        ensures { IfOk result (λ stans. IsDriving L.is_ready L.synced L.pending self.now
            → stans.items
            ≡ doubtful_of pan.now (slots_in (driving_of L.synced L.pending self.now))) }
    {
        doubtful_of(alloc, &self.board.made, pan)
    }
}
