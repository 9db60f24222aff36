//! Who is active, by a lease. The lease is for speed alone: two hosts that both take themselves for the active one do no harm,
//! since each batch stands at one place.
ghost use Rattle.std.specs.Prelude.{◌≡◌};
ghost use Rattle.iso_replicas.specs.Waiting.{is_due};

use iso_etcd::{Append, Cluster, Dial, Fault};
use iso_shared::Writer;
use std::alloc::{AllocError, Global};

/// Whether a lease of so many seconds that was kept at a moment is due to be kept again, in milliseconds: after a third of it.
pub(crate) fn is_due(seconds: u32, kept: u64, now: u64) -> bool
    ensures { result ≡ is_due seconds kept now }
{
    let third = u64::from(seconds) * 1_000 / 3;
    kept <= now && third <= now - kept
}

/// How a host stands among those of a journal.
#[derive(Clone, Copy, Debug, PartialEq, Eq, Drop)]
pub enum Standing {
    /// It is the active one, by this lease, which was kept at this moment.
    Active { lease: u64, kept: u64 },
    /// Another one is, or nobody is.
    Waiting,
}

/// A host among those of a journal.
#[derive(Drop)]
pub struct Stand<D: Dial + Drop> {
    alloc: Global,
    cluster: Cluster<D>,
    writer: Writer,
    /// How long a lease lasts that nobody keeps, in seconds.
    seconds: u32,
    standing: Standing,
}

impl<D: Dial + Drop> Stand<D> {
    /// A host that isn't active yet. It asks over a connection of its own, so that a batch that is under way holds no lease up.
    pub fn new(alloc: Global, cluster: Cluster<D>, writer: Writer, seconds: u32) -> Stand<D> {
        Stand {
            alloc,
            cluster,
            writer,
            seconds,
            standing: Standing::Waiting,
        }
    }

    /// How it stands.
    pub fn standing(&self) -> Standing {
        self.standing
    }

    /// What says that it is active: its writer and its lease, which no other start has both.
    fn name(&self, lease: u64) -> Result<Vec<u8>, AllocError> {
        let digits = hex::encode(self.alloc, self.writer.bits)?;
        let text = format!(in self.alloc; "{} {lease}", digits.as_str())?;
        Vec::from_slice(self.alloc, text.as_bytes())
    }

    /// Asks to be the active one, with a new lease: whether it is now. Where another one is, the lease is given back.
    pub fn begin(&mut self, now: u64) -> Result<bool, Fault> {
        let lease = self.cluster.grant(self.seconds)?;
        let name = self.name(lease)?;
        if let Append::Appended = self.cluster.put_active(&name, lease) {
            self.standing = Standing::Active { lease, kept: now };
            return Ok(true);
        }
        self.standing = Standing::Waiting;
        self.cluster.revoke(lease)?;
        Ok(false)
    }

    /// Keeps the lease, if that is due. A lease that is gone is asked for anew.
    pub fn keep(&mut self, now: u64) -> Result<(), Fault> {
        let Standing::Active { lease, kept } = self.standing else {
            return Ok(());
        };
        if !is_due(self.seconds, kept, now) {
            return Ok(());
        }
        match self.cluster.keep(lease)? {
            Some(_) => self.standing = Standing::Active { lease, kept: now },
            None => {
                self.begin(now)?;
            }
        }
        Ok(())
    }

    /// Whether nobody was active, when it was asked.
    pub fn is_free(&mut self) -> Result<bool, Fault> {
        Ok(self.cluster.active()?.is_none())
    }

    /// Ends the lease, so that another one needn't wait for its end.
    pub fn give_up(&mut self) -> Result<(), Fault> {
        let Standing::Active { lease, .. } = self.standing else {
            return Ok(());
        };
        self.standing = Standing::Waiting;
        self.cluster.revoke(lease)
    }
}
