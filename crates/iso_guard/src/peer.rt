//! One peer of a guarded line, and the answers that wait for it.
ghost use Rattle.std.specs.Prelude.{◌≡◌, ◌↔◌, ◌≤◌, [], true, false, length, drop, IfOk, OnOk, OnErr, IfSome, IsSome};
ghost use Rattle.iso_peers.specs.Host.{IsInStep, IsKept};
ghost use Rattle.iso_guard.specs.Guarding.{guard_of, EntersAllowed};
ghost use Rattle.iso_guard.specs.Taking.{TakesGuarded, guarded_at};

use crate::came::Noting;
use crate::guard::Rooms;
use crate::taking::{drop_front, take_held};
use iso_durable::{Log, LogFailed};
use iso_host::Link;
use iso_host::laws::one_journal;
use iso_links::Terms;
use iso_peers::laws::stays_in_step;
use iso_peers::{DurableHost, Turned};
use std::alloc::Global;
use std::marker::Model;

/// One peer of a guarded line, and the bytes of its answers that aren't written yet. A contract sees its line, the bytes of
/// the frame that isn't whole, and the bytes that wait.
#[derive(Drop)]
pub struct GuardedPeer<'l> {
    link: &'l Link,
    terms: &'l Terms,
    held: Vec<u8>,
    waiting: Vec<u8>,
}

impl<'l> Model for GuardedPeer<'l> {
    ghost use Rattle.iso_guard.specs.Guarding.{GuardedState, guard_of};

    ghost Value = { GuardedState };

    ghost view = { λ p. record {
      guard = guard_of p.link.now p.terms.now;
      held = p.held.items;
      waiting = p.waiting.items;
    } };
}

impl<'l> GuardedPeer<'l> {
    /// A peer of that line, before its first byte. Takes no memory.
    pub fn new(alloc: Global, link: &'l Link, terms: &'l Terms) -> GuardedPeer<'l>
        ensures { result ≡ record { guard = guard_of link.now terms.now; held = []; waiting = [] } }
    {
        GuardedPeer {
            link,
            terms,
            held: Vec::new(alloc),
            waiting: Vec::new(alloc),
        }
    }

    /// Whether the input may end here: no frame is unfinished.
    pub fn may_end(&self) -> bool
        ensures { (result ≡ true) ↔ (self.now.held ≡ []) }
    {
        self.held.is_empty()
    }

    /// How many bytes of answers wait to be written.
    pub fn waiting(&self) -> usize
        ensures { result ≡ length self.now.waiting }
    {
        self.waiting.len()
    }

    /// Takes all bytes of a peer, frame after frame. The bytes that stand before a message are passed over, and stand before
    /// that of the answer. The messages are decided, but for those that ask an order of an acquirer that may not be spoken
    /// for, which are answered 12; the answers wait, and aren't handed out before the next `keep`.
    pub fn take_all<L: Log, N: Noting>(
        &mut self,
        host: &mut DurableHost<L>,
        bytes: &[u8],
        rooms: &mut Rooms,
        noting: &mut N,
    ) -> Result<Turned, LogFailed>
        // At `Ok` the messages of all whole frames enter the books, but for those that may not be
        // spoken for, and the answers wait in the order of the frames.
        ensures took { IfOk result (TakesGuarded self.old.guard
            (guarded_at self.old host.old.host) (guarded_at self.new host.new.host) bytes.now) }
        // Only orders of acquirers that may be spoken for enter the books.
        ensures allowed { EntersAllowed self.old.guard.acquirers self.old.guard.table
            host.old.host host.new.host }
        // It succeeds only where the log didn't fail before.
        ensures sound { OnOk result (host.old.has_failed ≡ false) }
        // It fails only where the log failed before.
        ensures refused { OnErr result (host.old.has_failed ≡ true) }
        // A failure leaves what the peer holds, and what waits for it.
        ensures unchanged { OnErr result (self.new ≡ self.old) }
        // The table, the header, the acquirers and the count of bytes
        // before a message stay the same.
        ensures guard { self.new.guard ≡ self.old.guard }
        // The log isn't called: what a crash leaves stays the same.
        ensures log { host.new.log ≡ host.old.log }
        // The count of orders that are kept on the disk stays.
        ensures kept { host.new.kept ≡ host.old.kept }
        // Whether the log failed stays as it was.
        ensures failed { host.new.has_failed ≡ host.old.has_failed }
        // A log in step with the journal stays in step.
        ensures step { IsInStep L.is_ready L.synced L.pending host.old
            → IsInStep L.is_ready L.synced L.pending host.new }
    {
        // the laws that a host stays in step with its log, and that bodies have one journal, for the prover
        stays_in_step(host);
        one_journal(host.issuer());
        if host.has_failed {
            return Err(LogFailed);
        }
        Ok(take_held(
            &mut host.host,
            self.link,
            self.terms,
            &mut self.held,
            bytes,
            rooms,
            noting,
            &mut self.waiting,
        ))
    }

    /// The bytes that may be written to the peer now: all that wait, where every order is kept. Nothing, where an order waits
    /// for the next `keep`, or the log failed.
    pub fn hand_out<'p, L: Log>(&'p self, host: &DurableHost<L>) -> Option<&'p [u8]>
        // What it gives are all the bytes that wait for the peer, and nothing else.
        ensures waiting { IfSome result (λ bytes. bytes.now ≡ self.now.waiting) }
        // Bytes are handed out exactly where the log never failed and every
        // order of the journal is kept.
        ensures kept { IsSome result ↔ IsKept host.now }
    {
        if host.has_failed {
            return None;
        }
        if host.issuer().len() as usize != host.kept {
            return None;
        }
        Some(&self.waiting)
    }

    /// So many of the bytes that were handed out are written: they wait no more.
    pub fn written(&mut self, count: usize)
        // At least so many bytes wait to be written.
        requires { count ≤ length self.old.waiting }
        // So many bytes from the front wait no more, and the others wait still.
        ensures waiting { self.new.waiting ≡ drop count self.old.waiting }
        // The bytes that are held of a frame stay.
        ensures held { self.new.held ≡ self.old.held }
        // The table, the header, the acquirers and the count of bytes
        // before a message stay the same.
        ensures guard { self.new.guard ≡ self.old.guard }
    {
        drop_front(&mut self.waiting, count);
    }
}
