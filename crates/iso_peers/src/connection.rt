//! One peer of a host, and the answers that wait for it.
ghost use Rattle.std.specs.Prelude.{◌≡◌, ◌↔◌, ◌≤◌, [], true, length, drop};

use iso_host::{Link, Peer};
use std::alloc::Global;
use std::marker::Model;

/// One peer of a host, and the bytes of its answers that aren't written yet. A contract sees its link, the bytes of the
/// frame that isn't whole, and the bytes that wait.
#[derive(Drop)]
pub struct Connection<'l> {
    pub(crate) peer: Peer<'l>,
    pub(crate) waiting: Vec<u8>,
}

impl<'l> Model for Connection<'l> {
    ghost use Rattle.iso_peers.specs.Connection.{ConnectionState};

    ghost Value = { ConnectionState };

    ghost view = { λ c. record { peer = c.peer; waiting = c.waiting.items } };
}

impl<'l> Connection<'l> {
    /// A peer on that link, before its first byte. Takes no memory.
    pub fn new(alloc: Global, link: &'l Link) -> Connection<'l>
        // It is on that link, and holds no byte of a frame.
        ensures link { result.peer
            ≡ record { table = link.now.table; header = link.now.header; held = [] } }
        // No byte of an answer waits.
        ensures none { result.waiting ≡ [] }
    {
        Connection {
            peer: Peer::new(alloc, link),
            waiting: Vec::new(alloc),
        }
    }

    /// Whether the input may end here: no frame is unfinished.
    pub fn may_end(&self) -> bool
        ensures { (result ≡ true) ↔ (self.now.peer.held ≡ []) }
    {
        self.peer.may_end()
    }

    /// How many bytes of answers wait to be written.
    pub fn waiting(&self) -> usize
        ensures { result ≡ length self.now.waiting }
    {
        self.waiting.len()
    }

    /// So many of the bytes that were handed out are written: they wait no more.
    pub fn written(&mut self, count: usize)
        // At least so many bytes wait to be written.
        requires { count ≤ length self.old.waiting }
        // So many bytes from the front wait no more, and the others wait still.
        ensures waiting { self.new.waiting ≡ drop count self.old.waiting }
        // The link stays, and so do the bytes that are held of a frame.
        ensures peer { self.new.peer ≡ self.old.peer }
    {
        let left = self.waiting.len() - count;
        self.waiting.copy_within(count.., 0);
        self.waiting.truncate(left);
    }

    /// The bytes of answers that wait.
    pub(crate) fn bytes(&self) -> &[u8]
        ensures { result.now ≡ self.now.waiting }
    {
        &self.waiting
    }
}
