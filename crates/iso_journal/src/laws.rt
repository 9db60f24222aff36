//! What holds over a crash: a function that does no more than another, and whose contract is a law.
ghost use Rattle.std.specs.Prelude.{◌≡◌, ◌≤◌, ℕ, IfOk, IsTrue};
ghost use Rattle.sqlite_disk.specs.Disk.{Only};
ghost use Rattle.iso_log.specs.Headed.{IsReady};
ghost use Rattle.iso_durable.specs.Durable.{crashes};
ghost use Rattle.iso_durable.specs.Host.{IsConsistent, state_of};
ghost use Rattle.iso_journal.specs.Orders.{synced_orders, pending_orders};

use crate::error::OpenError;
use crate::journal::JournalLog;
use crate::opening::open;
use crate::watching::Watch;
use iso_durable::DurableIssuer;
use iso_issuer::Accounts;
use iso_record::Heading;
use sqlite_disk::Disk;

/// Opens a journal. Where its disk holds what a crash of a host may leave, the host that opens it is the one that crashed:
/// with its synced orders, and of those behind them some from the front.
pub fn open_after_a_crash<D: Disk + Drop, W: Watch>(
    before: &DurableIssuer<JournalLog<D>>,
    disk: D,
    heading: &Heading,
    accounts: Accounts,
    limit: u32,
    group: usize,
    watch: &mut W,
) -> Result<DurableIssuer<JournalLog<D>>, (OpenError, D)>
    // The journal's limit is at least one order.
    requires least { 1 ≤ limit }
    // The journal's limit is at most 999,999 orders.
    requires most { limit ≤ 999999 }
    // At `Ok`, with the accounts and limit of the host that crashed, on a disk that didn't lie and
    // shows what is on it: its synced orders, and of those behind them some from the front.
    ensures crashed { IfOk result (λ host. IsTrue (D.is_clean host.log.log.disk)
        → IsConsistent (λ l. IsReady D.seen D.may_leave D.is_usable l.log) (λ l.
        synced_orders D.seen l.log)
        (λ l. pending_orders D.seen l.log) before.now
        → D.may_leave before.now.log.log.disk (D.seen disk)
        → Only (D.seen disk) (D.may_leave disk)
        → accounts ≡ before.now.issuer.accounts
        → limit ≡ before.now.issuer.limit
        → (n : ℕ)
        × (state_of (λ l. synced_orders D.seen l.log) (λ l. pending_orders D.seen l.log) host
        ≡ crashes n (state_of (λ l. synced_orders D.seen l.log)
        (λ l. pending_orders D.seen l.log) before.now))) }
{
    match open(disk, heading, accounts, limit, group, watch) {
        Ok(host) => Ok(host),
        Err(refused) => Err(refused),
    }
}
