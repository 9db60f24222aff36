//! Keeping the orders of a journal that its log hasn't yet.
ghost use Rattle.std.specs.Prelude.{◌≡◌, ◌++◌, [], drop, OnOk};
ghost use Rattle.iso_durable.specs.Front.{LeavesFront};

use iso_durable::{Log, LogFailed};
use iso_issuer::Issuer;

/// Adds the orders of the journal from a place on to the log, each with its answer.
fn append_from<L: Log>(log: &mut L, issuer: &Issuer, kept: usize) -> Result<(), LogFailed>
    ensures ready { OnOk result (L.is_ready log.old → L.is_ready log.new) }
    ensures synced { OnOk result (L.is_ready log.old → L.synced log.new ≡ L.synced log.old) }
    ensures pending { OnOk result (L.is_ready log.old
        → L.pending log.new ≡ L.pending log.old ++ drop kept issuer.now.orders) }
    // however it ends
    ensures crash { L.is_ready log.old
        → LeavesFront (L.may_leave log.new) (L.synced log.old)
        (L.pending log.old ++ drop kept issuer.now.orders) }
{
    let orders = issuer.orders();
    let mut place = kept;
    while place < orders.len() {
        let Some(answer) = issuer.answer_of_entry(place) else {
            return Err(LogFailed);
        };
        log.append(orders[place], answer)?;
        place += 1;
    }
    Ok(())
}

/// Adds the orders of the journal from a place on to the log, each with its answer, and has all of them synced.
pub(crate) fn keep_from<L: Log>(log: &mut L, issuer: &Issuer, kept: usize) -> Result<(), LogFailed>
    ensures ready { OnOk result (L.is_ready log.old → L.is_ready log.new) }
    ensures synced { OnOk result (L.is_ready log.old
        → L.synced log.new ≡ L.synced log.old ++ L.pending log.old ++ drop kept issuer.now.orders) }
    ensures none { OnOk result (L.is_ready log.old → L.pending log.new ≡ []) }
    // however it ends
    ensures crash { L.is_ready log.old
        → LeavesFront (L.may_leave log.new) (L.synced log.old)
        (L.pending log.old ++ drop kept issuer.now.orders) }
{
    let more = issuer.orders().len().saturating_sub(kept);
    log.make_room(more)?;
    append_from(log, issuer, kept)?;
    log.sync()
}
