//! What a journal is, and who is active on it.
use crate::append::{Append, Cause};
use crate::cluster::Cluster;
use crate::dial::Dial;
use crate::fault::Fault;
use crate::key::{active_key, heading_key};
use crate::lease::{read_kept, read_lease};
use crate::question::{grant_text, lease_text, put_leased_text, put_text};

/// The bytes of what a journal is.
pub const HEADING_SIZE: usize = 128;

impl<D: Dial + Drop> Cluster<D> {
    /// The key of what the journal is, and the transaction that puts it there.
    fn heading_put(&self, heading: &[u8]) -> Result<(Vec<u8>, String), Cause> {
        let key = heading_key(self.alloc, &self.name)?;
        let text = put_text(self.alloc, key.as_slice(), heading)?;
        Ok((key, text))
    }

    /// Asks once to put what the journal is, where nothing says so yet. `Taken` says what it is.
    pub fn put_heading(&mut self, heading: &[u8; HEADING_SIZE]) -> Append {
        match self.heading_put(heading) {
            Ok((key, text)) => self.put(key.as_slice(), heading, text.as_str()),
            Err(cause) => Append::Unsent(cause),
        }
    }

    /// What the journal is. `None` where nothing said so when it was read.
    pub fn heading(&mut self) -> Result<Option<Vec<u8>>, Fault> {
        let key = heading_key(self.alloc, &self.name)?;
        self.value(key.as_slice())
    }

    /// Asks for a lease of so many seconds.
    pub fn grant(&mut self, seconds: u32) -> Result<u64, Fault> {
        let text = grant_text(self.alloc, seconds)?;
        let body = self.ask_once("/v3/lease/grant", text.as_str())?;
        read_lease(self.alloc, body.as_slice())?.ok_or(Fault::Unreadable)
    }

    /// Asks to keep a lease, and tells for how many seconds it is kept. `None` where it is gone.
    pub fn keep(&mut self, lease: u64) -> Result<Option<u64>, Fault> {
        let text = lease_text(self.alloc, lease)?;
        let body = self.ask_once("/v3/lease/keepalive", text.as_str())?;
        Ok(read_kept(self.alloc, body.as_slice())?)
    }

    /// Asks to end a lease: what was put with it is gone then.
    pub fn revoke(&mut self, lease: u64) -> Result<(), Fault> {
        let text = lease_text(self.alloc, lease)?;
        self.ask_once("/v3/lease/revoke", text.as_str())?;
        Ok(())
    }

    /// The key of who is active, and the transaction that puts it there.
    fn active_put(&self, who: &[u8], lease: u64) -> Result<(Vec<u8>, String), Cause> {
        let key = active_key(self.alloc, &self.name)?;
        let text = put_leased_text(self.alloc, key.as_slice(), who, lease)?;
        Ok((key, text))
    }

    /// Asks once to be the one who is active, for as long as a lease, where nobody is. `Taken` says who is.
    ///
    /// `who` names the lease too, or else what was put with an earlier one passes for this one's.
    pub fn put_active(&mut self, who: &[u8], lease: u64) -> Append {
        match self.active_put(who, lease) {
            Ok((key, text)) => self.put(key.as_slice(), who, text.as_str()),
            Err(cause) => Append::Unsent(cause),
        }
    }

    /// Who is active. `None` where nobody was when it was read.
    pub fn active(&mut self) -> Result<Option<Vec<u8>>, Fault> {
        let key = active_key(self.alloc, &self.name)?;
        self.value(key.as_slice())
    }
}
