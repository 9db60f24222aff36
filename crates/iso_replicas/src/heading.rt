//! What a journal is, in its first key.
ghost use Rattle.std.specs.Prelude.{◌≡◌, None};
ghost use Rattle.iso_record.specs.Heading.{heading_bytes};

use iso_etcd::{Append, Cause, Cluster, Dial, Doubt, FEW, FIRST_PLACE, Fault, HEADING_SIZE};
use iso_record::{Heading, HeadingFault, heading_bytes, heading_fault};
use thiserror::Error;

/// Why there is no such journal, or it isn't the one that is asked for.
#[derive(Clone, Copy, Debug, PartialEq, Eq, Drop, Error)]
pub enum JournalFault {
    /// A journal is to be made whose name is taken.
    #[error("there is a journal of this name already; leave --new out to go on with it, or give the new one another name")]
    Exists,
    /// There are batches of this name, and nothing says what they are.
    #[error("there are batches of this name and no heading, as a copy leaves that was cut off; take them away, or give the new journal another name")]
    Left,
    /// There is none.
    #[error("there is no journal of this name; make one with --new")]
    Missing,
    /// It is another one.
    #[error("{0}")]
    Other(HeadingFault),
    /// Nothing was sent.
    #[error("no member of the cluster could be asked")]
    Unsent(Cause),
    /// It isn't known whether it was made.
    #[error("it is not known whether the journal was made; look at it without --new")]
    InDoubt(Doubt),
    /// Nothing was read.
    #[error("{0}")]
    Unread(Fault),
}

/// What the bytes of a first key tell otherwise than this heading. `None` where they are its record.
pub(crate) fn fault_in(bytes: &[u8], heading: &Heading) -> Option<HeadingFault>
    ensures none { result ≡ None → bytes.now ≡ heading_bytes heading.now }
{
    let mut first = [0u8; HEADING_SIZE];
    if bytes.len() != HEADING_SIZE {
        return Some(HeadingFault::Format);
    }
    first.copy_from_slice(bytes);
    heading_fault(&first, heading)
}

/// Refuses a name that a journal has, or batches without a heading, which a copy leaves that was cut off.
pub fn check_free<D: Dial + Drop>(cluster: &mut Cluster<D>) -> Result<(), JournalFault> {
    match cluster.heading() {
        Ok(None) => {}
        Ok(Some(_)) => return Err(JournalFault::Exists),
        Err(fault) => return Err(JournalFault::Unread(fault)),
    }
    match cluster.page(FIRST_PLACE, FEW) {
        Ok(page) if page.batches.is_empty() => Ok(()),
        // where the first batch is the one that is missing, the others can't be read as those of a journal
        Ok(_) | Err(Fault::Unreadable) => Err(JournalFault::Left),
        Err(fault) => Err(JournalFault::Unread(fault)),
    }
}

/// Makes a journal of these accounts, where none has its name.
pub fn begin_journal<D: Dial + Drop>(
    cluster: &mut Cluster<D>,
    heading: &Heading,
) -> Result<(), JournalFault> {
    check_free(cluster)?;
    match cluster.put_heading(&heading_bytes(heading)) {
        Append::Appended => Ok(()),
        Append::Taken(_) => Err(JournalFault::Exists),
        Append::Unknown(doubt) => Err(JournalFault::InDoubt(doubt)),
        Append::Unsent(cause) => Err(JournalFault::Unsent(cause)),
    }
}

/// Refuses a journal that isn't there, or isn't one of these accounts.
pub fn check_journal<D: Dial + Drop>(
    cluster: &mut Cluster<D>,
    heading: &Heading,
) -> Result<(), JournalFault> {
    let found = match cluster.heading() {
        Ok(Some(found)) => found,
        Ok(None) => return Err(JournalFault::Missing),
        Err(fault) => return Err(JournalFault::Unread(fault)),
    };
    match fault_in(&found, heading) {
        Some(fault) => Err(JournalFault::Other(fault)),
        None => Ok(()),
    }
}
