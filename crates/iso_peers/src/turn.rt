//! A turn for one peer.
ghost use Rattle.std.specs.Prelude.{◌≡◌, List, IfOk, OnOk};
ghost use Rattle.iso_order.specs.Order.{Instruction};
ghost use Rattle.iso_issuer.specs.Laws.{books_after};
ghost use Rattle.iso_durable.specs.Durable.{MayLeave, come_all, syncs};
ghost use Rattle.iso_durable.specs.Host.{Stops};
ghost use Rattle.iso_peers.specs.Host.{durable_of, IsInStep, IsKept};
ghost use Rattle.iso_peers.specs.Turn.{TakesAll, at_books};

use crate::connection::Connection;
use crate::durable_host::DurableHost;
use iso_durable::{Log, LogFailed};
use iso_host::PeerFault;

/// What was taken of a peer's bytes.
#[derive(Clone, Copy, Debug, PartialEq, Eq)]
pub struct Turned {
    /// How many bytes, from the front on: all, where nothing stopped it.
    pub used: usize,
    /// Why no more was taken. After `BadHeader` the peer can't go on; after `Memory` the bytes behind those that were taken
    /// can come again.
    pub stopped: Option<PeerFault>,
}

impl<L: Log> DurableHost<L> {
    /// Takes all bytes of a peer, frame after frame, and keeps the orders. Then `hand_out` gives the answers of all frames
    /// that ended, also where a later one stopped it. After an `Err` nothing is handed out any more.
    pub fn turn(
        &mut self,
        connection: &mut Connection<'_>,
        bytes: &[u8],
    ) -> Result<Turned, LogFailed>
        // At `Ok` the bodies of all whole frames are entered, one after the other, and their
        // answers wait in this order, also where a later frame is refused.
        ensures took { IfOk result (TakesAll (at_books connection.old self.old.host)
            (at_books connection.new self.new.host) bytes.now) }
        // At `Ok` the log never failed, and every order of the journal is kept.
        ensures kept { OnOk result (IsKept self.new) }
        // The connection's table stays the same.
        ensures table { connection.new.peer.table ≡ connection.old.peer.table }
        // The header of the connection's frames stays the same.
        ensures header { connection.new.peer.header ≡ connection.old.peer.header }
        // At `Ok` a log in step with the journal stays in step.
        ensures step { OnOk result (IsInStep L.is_ready L.synced L.pending self.old
            → IsInStep L.is_ready L.synced L.pending self.new) }
        // At `Ok`, over a log in step, the orders that entered the books came to the host, and are
        // synced.
        ensures comes { OnOk result (IsInStep L.is_ready L.synced L.pending self.old
            → (orders : List Instruction) → self.new.host ≡ books_after self.old.host orders
            → durable_of L.synced self.new
            ≡ syncs (come_all (durable_of L.synced self.old) orders)) }
        // However it ends, a crash leaves what it may leave once the orders that entered the books have come.
        ensures crash { IsInStep L.is_ready L.synced L.pending self.old
            → (orders c : List Instruction) → self.new.host ≡ books_after self.old.host orders
            → L.may_leave self.new.log c
            → MayLeave (come_all (durable_of L.synced self.old) orders) c }
        // It succeeds only where no call failed before, and after a failure each call fails.
        ensures stops { Stops self.old.has_failed self.new.has_failed result }
    {
        let turned = self.take_all(connection, bytes)?;
        self.keep()?;
        Ok(turned)
    }
}
