//! Answers, once their orders are kept.
ghost use Rattle.std.specs.Prelude.{◌≡◌, ◌++◌, [], List, OnOk};
ghost use Rattle.iso_order.specs.Order.{Instruction};
ghost use Rattle.iso_peers.specs.Host.{IsInStep, IsKept};
ghost use Rattle.iso_host.specs.Writing.{WritesFront};
ghost use Rattle.iso_service.specs.Serving.{Hands, Stay, StayBehind, UnlessLog};

use crate::fault::ServiceFault;
use iso_durable::Log;
use iso_host::{Failed, Outlet, write_all};
use iso_peers::{Connection, DurableHost};

/// Where all orders are kept, each crash leaves them: a law of the log.
pub(crate) fn kept_outlive<L: Log>(host: &DurableHost<L>)
    ensures { IsInStep L.is_ready L.synced L.pending host.now → IsKept host.now
        → Stay (L.may_leave host.now.log) host.now.host }
{
    let _waits = host.waits();
}

/// Writes what waits, where there is anything.
fn write_some<W: Outlet>(writer: &mut W, bytes: &[u8]) -> Result<(), Failed>
    ensures { WritesFront (W.contents writer.old) (W.contents writer.new) bytes.now result }
{
    if bytes.is_empty() {
        return Ok(());
    }
    write_all(writer, bytes)
}

/// Keeps all orders that were decided, and only then writes the answers that wait.
pub(crate) fn keep_and_answer<L: Log, W: Outlet>(
    host: &mut DurableHost<L>,
    connection: &mut Connection<'_>,
    writer: &mut W,
) -> Result<(), ServiceFault>
    ensures written { Hands
        (W.contents writer.old) (W.contents writer.new) connection.old.waiting result }
    ensures waiting { OnOk result (connection.new.waiting ≡ []) }
    ensures peer { connection.new.peer ≡ connection.old.peer }
    ensures host { host.new.host ≡ host.old.host }
    ensures kept { UnlessLog result (IsKept host.new) }
    ensures step { UnlessLog result (IsInStep L.is_ready L.synced L.pending host.old
        → IsInStep L.is_ready L.synced L.pending host.new) }
    // However it ends, each crash leaves the orders that were kept before, and all of them unless the log failed.
    ensures behind { IsInStep L.is_ready L.synced L.pending host.old
        → StayBehind (L.may_leave host.new.log) (L.synced host.old.log) }
    ensures stay { UnlessLog result (IsInStep L.is_ready L.synced L.pending host.old
        → Stay (L.may_leave host.new.log) host.old.host) }
{
    if host.keep().is_err() {
        return Err(ServiceFault::Log);
    }
    kept_outlive(host);
    let Some(answers) = host.hand_out(connection) else {
        return Err(ServiceFault::Log);
    };
    let count = answers.len();
    match write_some(writer, answers) {
        Ok(()) => {
            connection.written(count);
            Ok(())
        }
        Err(_) => Err(ServiceFault::Write),
    }
}
