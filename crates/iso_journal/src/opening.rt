//! Opening a journal.
ghost use Rattle.std.specs.Prelude.{◌≡◌, ◌≤◌, ◌<◌, ◌*◌, ◌^◌, [], ℕ, List, length, true, IfOk, OnOk, IfErr, IsTrue};
ghost use Rattle.sqlite_disk.specs.Disk.{Only};
ghost use Rattle.iso_record.specs.Heading.{heading_bytes};
ghost use Rattle.iso_log.specs.Headed.{IsReady};
ghost use Rattle.iso_log.specs.Slots.{records_of};
ghost use Rattle.iso_durable.specs.Host.{IsConsistent};
ghost use Rattle.iso_journal.specs.Orders.{journal_orders, synced_orders, pending_orders};
ghost use Rattle.iso_journal.specs.Written.{IsReplayed};
ghost use Rattle.iso_journal.specs.Why.{IsWhy, IsOther};

use crate::error::OpenError;
use crate::journal::JournalLog;
use crate::replaying::replay_records;
use crate::watching::Watch;
use iso_durable::DurableIssuer;
use iso_issuer::{Accounts, Issuer};
use iso_log::laws::{files, slots};
use iso_log::{RECORD, RecordLog, recover};
use iso_record::{Heading, HeadingFault, heading_fault};
use sqlite_disk::Disk;

/// An issuer, and what its file has.
#[derive(Drop)]
struct Loaded {
    issuer: Issuer,
    slots: usize,
    count: usize,
}

/// Refuses a file whose first record is not the heading. Changes nothing.
fn check_heading<D: Disk>(disk: &mut D, heading: &Heading) -> Result<(), OpenError>
    ensures usable { OnOk result (IsTrue (D.is_usable disk.new)) }
    ensures fault { IfErr result (λ e. IsTrue (D.is_clean disk.new)
        → IsOther (heading_bytes heading.now) (D.seen disk.old) e) }
    ensures clean { IsTrue (D.is_clean disk.new) → IsTrue (D.is_clean disk.old) }
    ensures seen { D.seen disk.new ≡ D.seen disk.old }
    ensures crash { (c : List ℕ) → D.may_leave disk.new c → D.may_leave disk.old c }
{
    slots(); // for the prover: what was read of a file has its records
    if !disk.may_be_used() {
        return Err(OpenError::Disk);
    }
    let Ok(len) = disk.len() else {
        return Err(OpenError::Disk);
    };
    if len < RECORD {
        return Err(OpenError::Other(HeadingFault::Format));
    }
    let mut first = [0; RECORD];
    let Ok(()) = disk.read_at(0, &mut first) else {
        return Err(OpenError::Disk);
    };
    match heading_fault(&first, heading) {
        None => Ok(()),
        Some(fault) => Err(OpenError::Other(fault)),
    }
}

/// As `open`, over a disk that is lent.
fn load<D: Disk, W: Watch>(
    disk: &mut D,
    heading: &Heading,
    accounts: Accounts,
    limit: u32,
    group: usize,
    watch: &mut W,
) -> Result<Loaded, OpenError>
    requires least { 1 ≤ limit }
    requires most { limit ≤ 999999 }
    ensures ready { IfOk result (λ l. IsTrue (D.is_clean disk.new)
        → Only (D.seen disk.old) (D.may_leave disk.old)
        → IsReady D.seen D.may_leave D.is_usable
        (record { disk = disk.new; slots = l.slots; count = l.count; synced = l.count })) }
    ensures accounts { IfOk result (λ l. l.issuer.accounts ≡ accounts) }
    ensures limit { IfOk result (λ l. l.issuer.limit ≡ limit) }
    ensures held { IfOk result (λ l. IsTrue (D.is_clean disk.new)
        → Only (D.seen disk.old) (D.may_leave disk.old)
        → l.issuer.orders ≡ journal_orders (records_of (D.seen disk.old))) }
    ensures written { OnOk result (IsTrue (D.is_clean disk.new)
        → Only (D.seen disk.old) (D.may_leave disk.old)
        → IsReplayed accounts limit (records_of (D.seen disk.old))) }
    ensures records { OnOk result (IsTrue (D.is_clean disk.new)
        → Only (D.seen disk.old) (D.may_leave disk.old)
        → records_of (D.seen disk.new) ≡ records_of (D.seen disk.old)) }
    ensures fault { IfErr result (λ e. IsTrue (D.is_clean disk.new)
        → Only (D.seen disk.old) (D.may_leave disk.old)
        → IsWhy accounts limit (heading_bytes heading.now) (D.seen disk.old) e) }
    ensures any_moment { IsTrue (D.is_clean disk.new)
        → Only (D.seen disk.old) (D.may_leave disk.old)
        → (c : List ℕ) → D.may_leave disk.new c → records_of c ≡ records_of (D.seen disk.old) }
{
    check_heading(disk, heading)?;
    let found = recover(disk, group)?;
    if found.count == 0 {
        return Err(OpenError::Disk);
    }
    let issuer = match replay_records(disk, found.count, accounts, limit, watch) {
        Ok(issuer) => issuer,
        Err(error) => return Err(error),
    };
    Ok(Loaded {
        issuer,
        slots: found.slots,
        count: found.count,
    })
}

/// Opens the journal in a file: cuts off what a crash tore, writes the last `group` records again, syncs, and decides each
/// order again, while `watch` is told how far it is. Let `group` be as many orders as are ever answered together. An `Err`
/// hands the disk back.
///
/// What it says of values has two premises that no code can test: that no wrong answer of the disk was taken as true, and
/// that after a restart a read gives what is on the disk.
pub fn open<D: Disk + Drop, W: Watch>(
    mut disk: D,
    heading: &Heading,
    accounts: Accounts,
    limit: u32,
    group: usize,
    watch: &mut W,
) -> Result<DurableIssuer<JournalLog<D>>, (OpenError, D)>
    // The journal's limit is at least one order.
    requires least { 1 ≤ limit }
    // The journal's limit is at most 999,999 orders.
    requires most { limit ≤ 999999 }
    // At `Ok`, on a disk that didn't lie and shows what is on it, the log is ready, and the issuer
    // has exactly its orders.
    ensures consistent { IfOk result (λ host. IsTrue (D.is_clean host.log.log.disk)
        → Only (D.seen disk) (D.may_leave disk)
        → IsConsistent (λ l. IsReady D.seen D.may_leave D.is_usable l.log)
        (λ l. synced_orders D.seen l.log) (λ l. pending_orders D.seen l.log) host) }
    // At `Ok` the issuer has the accounts that were given.
    ensures accounts { IfOk result (λ host. host.issuer.accounts ≡ accounts) }
    // At `Ok` the issuer has the limit that was given.
    ensures limit { IfOk result (λ host. host.issuer.limit ≡ limit) }
    // At `Ok`, on a disk that didn't lie and shows what is on it, the issuer has exactly the orders
    // of the file, in their order.
    ensures held { IfOk result (λ host. IsTrue (D.is_clean host.log.log.disk)
        → Only (D.seen disk) (D.may_leave disk)
        → host.issuer.orders ≡ journal_orders (records_of (D.seen disk))) }
    // At `Ok`, on a disk that didn't lie and shows what is on it, each record behind the heading is
    // the one that a host of these accounts and this limit writes there.
    ensures written { IfOk result (λ host. IsTrue (D.is_clean host.log.log.disk)
        → Only (D.seen disk) (D.may_leave disk)
        → IsReplayed accounts limit (records_of (D.seen disk))) }
    // At `Ok`, on a disk that didn't lie and shows what is on it, no order waits for a sync.
    ensures none { IfOk result (λ host. IsTrue (D.is_clean host.log.log.disk)
        → Only (D.seen disk) (D.may_leave disk)
        → pending_orders D.seen host.log.log ≡ []) }
    // On a disk that didn't lie and shows what is on it, `Other` tells what the heading has
    // otherwise, and `Damaged` the first record that no host writes there.
    ensures fault { IfErr result (λ e. IsTrue (D.is_clean e.1)
        → Only (D.seen disk) (D.may_leave disk)
        → IsWhy accounts limit (heading_bytes heading.now) (D.seen disk) e.0) }
    // After an `Err`, on a disk that didn't lie and showed what is on it, a crash leaves the
    // records that the file had.
    ensures unchanged { IfErr result (λ e. IsTrue (D.is_clean e.1)
        → Only (D.seen disk) (D.may_leave disk)
        → (c : List ℕ) → D.may_leave e.1 c → records_of c ≡ records_of (D.seen disk)) }
{
    files(); // for the prover: which records stand up to a place
    match load(&mut disk, heading, accounts, limit, group, watch) {
        Ok(loaded) => {
            let log = RecordLog {
                disk,
                slots: loaded.slots,
                count: loaded.count,
                synced: loaded.count,
            };
            Ok(DurableIssuer {
                issuer: loaded.issuer,
                log: JournalLog { log },
                has_failed: false,
            })
        }
        Err(error) => Err((error, disk)),
    }
}
