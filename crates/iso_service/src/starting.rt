//! A host over the journal at a path.

ghost use Rattle.std.specs.Prelude.{◌≡◌, IfOk, IfErr, IfSome, IsTrue};
ghost use Rattle.sqlite_disk.specs.Disk.{Only};
ghost use Rattle.iso_record.specs.Heading.{heading_bytes};
ghost use Rattle.iso_service.specs.Starting.{IsOfDisk, IsStarted, IsWhy};

use crate::device::{FileFault, Journals};
use crate::fault::StartFault;
use crate::front::front_fault;
use iso_durable::DurableIssuer;
use iso_issuer::{Accounts, MOST_ENTRIES};
use iso_journal::{JournalLog, OpenError, Watch, open};
use iso_record::Heading;
use sqlite_disk::Disk;
use std::alloc::Global;

/// The version of the issuer's rules. Whoever changes what an order is answered raises it: a journal under other rules is
/// refused.
pub const RULES: u16 = 1;

/// At least as many orders as are ever answered with one sync: a read of a stream ends no more frames than it has bytes.
pub const LARGEST_GROUP: usize = 65_536;

/// Why a journal isn't opened, of a disk that is given back.
fn not_opened<D: Disk>(error: OpenError, disk: &D) -> StartFault
    ensures { IsOfDisk result }
{
    match error {
        OpenError::Memory => StartFault::File(FileFault::Memory),
        OpenError::Disk if disk.tally().refused > 0 => StartFault::File(FileFault::Full),
        OpenError::Disk => StartFault::File(FileFault::Device),
        OpenError::Unfit => StartFault::Unfit,
        // its heading was right before it was opened, and isn't any more
        OpenError::Other(_) => StartFault::File(FileFault::Device),
        OpenError::Damaged(place) => StartFault::Damaged(place),
    }
}

/// Refuses a file whose first bytes aren't those of a journal under this heading.
#[tactic(auto, using(crate::proofs::Why::why_front, crate::proofs::Why::why_other))]
fn check_front<J: Journals>(
    alloc: Global,
    journals: &J,
    path: &str,
    heading: &Heading,
) -> Result<(), StartFault>
    ensures { IfErr result (λ e. IfSome (J.held_at journals.now path.now)
        (λ held. IsWhy (heading_bytes heading.now) held e)) }
{
    let front = match journals.front(alloc, path, 128) {
        Ok(front) => front,
        Err(fault) => return Err(StartFault::File(fault)),
    };
    if let Some(fault) = front_fault(&front, heading) {
        return Err(StartFault::Front(fault));
    }
    Ok(())
}

/// Opens the journal at a path, under this heading and of these accounts, and starts a host over it, while `watch` is told how
/// far it is. Its first bytes are looked at before anything is opened to be written.
pub fn start<J: Journals, W: Watch>(
    alloc: Global,
    journals: &J,
    path: &str,
    heading: &Heading,
    accounts: Accounts,
    watch: &mut W,
) -> Result<DurableIssuer<JournalLog<J::Disk>>, StartFault>
    // At `Ok` the issuer has the accounts that were given.
    ensures accounts { IfOk result (λ host. host.issuer.accounts ≡ accounts) }
    // At `Ok` the limit of the journal is 999,999 orders.
    ensures limit { IfOk result (λ host. host.issuer.limit ≡ 999999) }
    // At `Ok`, on a disk that didn't lie and shows what is on it, the log is ready, and the host
    // has exactly the orders of its file, of which none waits.
    ensures started { IfOk result (λ host. (disk : J.Disk)
        × (IsTrue (J.Disk.is_clean host.log.log.disk)
        → Only (J.Disk.seen disk) (J.Disk.may_leave disk)
        → IsStarted J.Disk.seen J.Disk.may_leave J.Disk.is_usable (J.Disk.seen disk) host)) }
    // Where the file's bytes are known, a fault about its front is what its first 128 bytes tell.
    ensures fault { IfErr result (λ e. IfSome (J.held_at journals.now path.now)
        (λ held. IsWhy (heading_bytes heading.now) held e)) }
{
    check_front(alloc, journals, path, heading)?;
    let disk = match journals.open(path) {
        Ok(disk) => disk,
        Err(fault) => return Err(StartFault::File(fault)),
    };
    match open(disk, heading, accounts, MOST_ENTRIES, LARGEST_GROUP, watch) {
        Ok(host) if host.log.room() == 0 => Err(StartFault::Cut),
        Ok(host) => Ok(host),
        Err((error, disk)) => Err(not_opened(error, &disk)),
    }
}
