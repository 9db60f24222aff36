//! A host over the log of its orders.
ghost use Rattle.std.specs.Prelude.{◌≡◌, ◌-◌, ◌↔◌, [], true, false, List, length, IfOk, IfErr, OnOk, OnErr, IfSome, IsSome};
ghost use Rattle.iso_order.specs.Order.{Instruction};
ghost use Rattle.iso_issuer.specs.Laws.{books_after};
ghost use Rattle.iso_durable.specs.Durable.{MayLeave, come_all, syncs};
ghost use Rattle.iso_durable.specs.Host.{IsConsistent, Stops, state_of};
ghost use Rattle.iso_peers.specs.Host.{durable_of, IsInStep, IsKept};
ghost use Rattle.iso_peers.specs.Turn.{TakesOf, RefusesTurn, TakesAll, at_books, books_change};

use crate::connection::Connection;
use crate::fault::TurnFault;
use crate::keeping::keep_from;
use crate::taking::{take_piece, take_pieces};
use crate::turn::Turned;
use iso_durable::laws::orders_enter;
use iso_durable::{DurableIssuer, Log, LogFailed};
use iso_host::{Host, PeerFault, Taken};
use iso_issuer::Issuer;
use std::alloc::Global;

/// A host, and the log of its orders. The orders that came since the last `keep` are decided and not yet kept.
#[derive(Drop)]
pub struct DurableHost<L: Log> {
    /// It decides. Its journal has the orders of the log, and then those that wait for the next `keep`.
    pub host: Host,
    /// The orders that are kept.
    pub log: L,
    /// How many orders those are.
    pub kept: usize,
    /// The log failed: nothing is taken, kept or handed out any more, until it is opened again.
    pub has_failed: bool,
}

impl<L: Log> DurableHost<L> {
    /// A host of an issuer whose log was opened. Takes no memory.
    pub fn new(alloc: Global, durable: DurableIssuer<L>) -> DurableHost<L>
        // Its issuer is the one whose log was opened, with its journal.
        ensures host { result.host ≡ durable.issuer }
        // Its log is the one that was opened.
        ensures log { result.log ≡ durable.log }
        // It counts as failed exactly where the log failed before.
        ensures failed { result.has_failed ≡ durable.has_failed }
        // Where no order waits in the log, it is in step with the journal, and nothing waits.
        ensures step { IsConsistent L.is_ready L.synced L.pending durable
            → L.pending durable.log ≡ []
            → IsInStep L.is_ready L.synced L.pending result }
        // Over an opened log in which no order waits, the accounts, the limit and the orders on the
        // disk are those of the issuer, and none waits.
        ensures state { IsConsistent L.is_ready L.synced L.pending durable
            → L.pending durable.log ≡ []
            → durable_of L.synced result ≡ state_of L.synced L.pending durable }
    {
        let kept = durable.issuer.len() as usize;
        DurableHost {
            host: Host::new(alloc, durable.issuer),
            log: durable.log,
            kept,
            has_failed: durable.has_failed,
        }
    }

    /// The issuer. Its journal has the orders that wait too.
    pub fn issuer(&self) -> &Issuer
        ensures { result.now ≡ self.now.host }
    {
        self.host.issuer()
    }

    /// How many orders wait for the next `keep`.
    pub fn waits(&self) -> usize
        ensures { result ≡ length self.now.host.orders - self.now.kept }
    {
        (self.host.issuer().len() as usize).saturating_sub(self.kept)
    }

    /// Takes bytes of a peer, from the front on, up to the end of a frame, as `Peer::take` does. The body of that frame is
    /// decided; its answer waits, and isn't handed out before the next `keep`.
    pub fn take(
        &mut self,
        connection: &mut Connection<'_>,
        bytes: &[u8],
    ) -> Result<Taken, TurnFault>
        // At `Ok` the bytes stay behind those that were held, or they end a frame, whose body is
        // entered, and whose answer waits behind the others.
        ensures took { IfOk result (TakesOf (at_books connection.old self.old.host)
            (at_books connection.new self.new.host) bytes.now) }
        // It succeeds only where the log didn't fail before.
        ensures sound { OnOk result (self.old.has_failed ≡ false) }
        // A refusal is a log that failed before, a header that isn't of digits, or want of memory,
        // where the order of a frame's body may be entered.
        ensures refused { IfErr result (RefusesTurn self.old.has_failed connection.old.peer
            (books_change self.old.host self.new.host) bytes.now) }
        // A refusal leaves what the connection holds, and what waits for it.
        ensures unchanged { OnErr result (connection.new ≡ connection.old) }
        // The connection's table stays the same.
        ensures table { connection.new.peer.table ≡ connection.old.peer.table }
        // The header of the connection's frames stays the same.
        ensures header { connection.new.peer.header ≡ connection.old.peer.header }
        // The log isn't called: what a crash leaves stays the same.
        ensures log { self.new.log ≡ self.old.log }
        // The count of orders that are kept on the disk stays.
        ensures kept { self.new.kept ≡ self.old.kept }
        // Whether the log failed stays as it was.
        ensures failed { self.new.has_failed ≡ self.old.has_failed }
        // However it ends, a log in step with the journal stays in step.
        ensures step { IsInStep L.is_ready L.synced L.pending self.old
            → IsInStep L.is_ready L.synced L.pending self.new }
        // Over a log in step, whatever orders enter the books come to the host: each new
        // one waits for the next sync.
        ensures comes { IsInStep L.is_ready L.synced L.pending self.old
            → (orders : List Instruction) → self.new.host ≡ books_after self.old.host orders
            → durable_of L.synced self.new ≡ come_all (durable_of L.synced self.old) orders }
    {
        // the law that orders that come are entered, for the prover
        orders_enter();
        let _entered = self.host.issuer().len();
        if self.has_failed {
            return Err(TurnFault::Log);
        }
        match take_piece(&mut self.host, connection, bytes) {
            Ok(taken) => Ok(taken),
            Err(PeerFault::BadHeader) => Err(TurnFault::BadHeader),
            Err(PeerFault::Memory) => Err(TurnFault::Memory),
        }
    }

    /// Takes all bytes of a peer, frame after frame. The bodies are decided; their answers wait, and aren't handed out
    /// before the next `keep`.
    pub fn take_all(
        &mut self,
        connection: &mut Connection<'_>,
        bytes: &[u8],
    ) -> Result<Turned, LogFailed>
        // At `Ok` the bodies of all whole frames are entered, one after the other, and their
        // answers wait in this order, also where a later frame is refused.
        ensures took { IfOk result (TakesAll (at_books connection.old self.old.host)
            (at_books connection.new self.new.host) bytes.now) }
        // It succeeds only where the log didn't fail before.
        ensures sound { OnOk result (self.old.has_failed ≡ false) }
        // It fails only where the log failed before.
        ensures refused { OnErr result (self.old.has_failed ≡ true) }
        // A failure leaves what the connection holds, and what waits for it.
        ensures unchanged { OnErr result (connection.new ≡ connection.old) }
        // The connection's table stays the same.
        ensures table { connection.new.peer.table ≡ connection.old.peer.table }
        // The header of the connection's frames stays the same.
        ensures header { connection.new.peer.header ≡ connection.old.peer.header }
        // The log isn't called: what a crash leaves stays the same.
        ensures log { self.new.log ≡ self.old.log }
        // The count of orders that are kept on the disk stays.
        ensures kept { self.new.kept ≡ self.old.kept }
        // Whether the log failed stays as it was.
        ensures failed { self.new.has_failed ≡ self.old.has_failed }
        // However it ends, a log in step with the journal stays in step.
        ensures step { IsInStep L.is_ready L.synced L.pending self.old
            → IsInStep L.is_ready L.synced L.pending self.new }
        // Over a log in step, whatever orders enter the books come to the host: each new
        // one waits for the next sync.
        ensures comes { IsInStep L.is_ready L.synced L.pending self.old
            → (orders : List Instruction) → self.new.host ≡ books_after self.old.host orders
            → durable_of L.synced self.new ≡ come_all (durable_of L.synced self.old) orders }
    {
        orders_enter();
        let _entered = self.host.issuer().len();
        if self.has_failed {
            return Err(LogFailed);
        }
        Ok(take_pieces(&mut self.host, connection, bytes))
    }

    /// Keeps all orders that wait, with one sync. Where none waits, the log isn't called.
    pub fn keep(&mut self) -> Result<(), LogFailed>
        // At `Ok` the log never failed, and every order of the journal is kept.
        ensures kept { OnOk result (IsKept self.new) }
        // At `Ok` a log in step with the journal stays in step.
        ensures step { OnOk result (IsInStep L.is_ready L.synced L.pending self.old
            → IsInStep L.is_ready L.synced L.pending self.new) }
        // At `Ok`, over a log in step, all orders that waited are on the disk, and none waits.
        ensures synced { OnOk result (IsInStep L.is_ready L.synced L.pending self.old
            → durable_of L.synced self.new ≡ syncs (durable_of L.synced self.old)) }
        // However it ends, a crash leaves what it may leave before.
        ensures crash { IsInStep L.is_ready L.synced L.pending self.old
            → (c : List Instruction) → L.may_leave self.new.log c
            → MayLeave (durable_of L.synced self.old) c }
        // After a failure each call fails, and nothing is handed out.
        ensures stops { Stops self.old.has_failed self.new.has_failed result }
        // However it ends, the issuer and its journal are as before.
        ensures host { self.new.host ≡ self.old.host }
    {
        if self.has_failed {
            return Err(LogFailed);
        }
        let entered = self.host.issuer().len() as usize;
        if self.kept == entered {
            return Ok(());
        }
        self.has_failed = true;
        keep_from(&mut self.log, self.host.issuer(), self.kept)?;
        self.kept = entered;
        self.has_failed = false;
        Ok(())
    }

    /// The bytes that may be written to a peer now: all that wait, where every order is kept. Nothing, where an order waits
    /// for the next `keep`, or the log failed.
    pub fn hand_out<'c>(&self, connection: &'c Connection<'_>) -> Option<&'c [u8]>
        // What it gives are all the bytes that wait for the peer, and nothing else.
        ensures waiting { IfSome result (λ bytes. bytes.now ≡ connection.now.waiting) }
        // Bytes are handed out exactly where the log never failed and every
        // order of the journal is kept.
        ensures kept { IsSome result ↔ IsKept self.now }
        // Where bytes are handed out, every order that came is on the disk.
        ensures synced { IsSome result → (durable_of L.synced self.now).pending ≡ [] }
    {
        if self.has_failed {
            return None;
        }
        if self.host.issuer().len() as usize != self.kept {
            return None;
        }
        Some(connection.bytes())
    }
}
