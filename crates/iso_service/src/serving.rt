//! A stream of frames, at a host that keeps each order before it is answered.
ghost use Rattle.std.specs.Prelude.{◌≡◌, ◌<◌, ◌≤◌, length, take, None, Some, IfErr, IfOk, OnErr, OnOk};
ghost use Rattle.std.specs.Io.KnownBytes.{Consumes, IsAtEnd, Keeps};
ghost use Rattle.iso_peers.specs.Host.{IsInStep, IsKept};
ghost use Rattle.iso_host.specs.Serving.{standing};
ghost use Rattle.iso_host.specs.declared.peer.PeerFault.{PeerFault};
ghost use Rattle.iso_service.specs.Serving.{Leaves, AreKept, EndsAt, stop_of};
ghost use Rattle.iso_service.specs.declared.fault.ServiceFault.TheVariants.{Memory, Read};

use crate::answering::{keep_and_answer, kept_outlive};
use crate::counting::NO_FRAMES;
use crate::fault::ServiceFault;
use crate::taking::take_counted;
use iso_durable::Log;
use iso_host::laws::{one_journal, output_goes_on};
use iso_host::{Inlet, Link, Outlet, PeerFault, Report};
use iso_peers::{Connection, DurableHost, Turned};
use iso_wire::laws::{frames, splits_once};
use std::alloc::Global;

/// How many bytes are read at once. What one read brings is kept with one sync.
pub const BLOCK: usize = 65_536;

/// What is told where the input ends.
fn told_at_end(connection: &Connection<'_>, report: Report) -> Result<Report, ServiceFault>
    ensures { EndsAt connection.now.peer.held result }
{
    if connection.may_end() {
        Ok(report)
    } else {
        Err(ServiceFault::CutFrame)
    }
}

/// Goes on where a peer takes more; else tells how it ends the serving.
fn goes_on(turned: &Turned) -> Result<(), ServiceFault>
    ensures more { OnOk result (turned.now.stopped ≡ None) }
    ensures stopped { IfErr result (λ e. (fault : PeerFault)
        × (turned.now.stopped ≡ Some fault) × (e ≡ stop_of fault)) }
{
    match turned.stopped {
        None => Ok(()),
        Some(PeerFault::BadHeader) => Err(ServiceFault::BadHeader),
        Some(PeerFault::Memory) => Err(ServiceFault::Memory),
    }
}

/// A block for what one read brings.
fn new_block(alloc: Global) -> Result<Vec<u8>, ServiceFault>
    ensures size { IfOk result (λ block. length block.items ≡ 65536) }
    ensures fault { IfErr result (λ e. e ≡ Memory) }
{
    let mut block = Vec::new(alloc);
    match block.resize(BLOCK, 0) {
        Ok(()) => Ok(block),
        Err(_) => Err(ServiceFault::Memory),
    }
}

/// Reads the next bytes into the front of a block.
fn fill<R: Inlet>(reader: &mut R, block: &mut Vec<u8>) -> Result<usize, ServiceFault>
    ensures bound { IfOk result (λ n. n ≤ length block.new.items) }
    ensures room { length block.new.items ≡ length block.old.items }
    ensures read { IfOk result
        (λ n. Consumes (R.remaining reader.old) (R.remaining reader.new) (take n block.new.items)) }
    ensures end { IfOk result
        (λ n. n ≡ 0 → 0 < length block.old.items → IsAtEnd (R.remaining reader.new)) }
    ensures failed { OnErr result (Keeps (R.remaining reader.old) (R.remaining reader.new)) }
    ensures fault { IfErr result (λ e. e ≡ Read) }
{
    match reader.read(block) {
        Ok(count) => Ok(count),
        Err(_) => Err(ServiceFault::Read),
    }
}

/// Reads frames to the end of the input, and writes each answer once its order is kept. What one read brings is decided, and
/// kept with one sync; then its answers are written and flushed.
///
/// At `Ok`, `Read`, `BadHeader` and `CutFrame` all whole frames are entered, kept and answered. At `Log` no order that waited
/// is answered. At `Write` the last answers may be missing or cut short, though their orders are kept: sent again, they get
/// those answers.
pub fn serve_kept<L: Log, R: Inlet, W: Outlet>(
    alloc: Global,
    host: &mut DurableHost<L>,
    link: &Link,
    reader: &mut R,
    writer: &mut W,
) -> Result<Report, ServiceFault>
    // Nothing is written that isn't kept: however it ends, each crash leaves the orders of all that was answered.
    ensures kept { IsInStep L.is_ready L.synced L.pending host.old → IsKept host.old
        → AreKept link.now (W.contents writer.old) (W.contents writer.new) host.old.host
        (L.may_leave host.new.log) }
    // At `Ok`, `Read`, `BadHeader` and `CutFrame` all whole frames are entered and answered, at
    // `Memory` those in front; of `Write` and `Log` it says nothing.
    ensures leaves { Leaves link.now
        (standing (R.remaining reader.old) (W.contents writer.old) host.old.host)
        (standing (R.remaining reader.new) (W.contents writer.new) host.new.host) result }
{
    one_journal(host.issuer()); // for the prover, as the next four: a journal goes on,
    output_goes_on(); // as an output does,
    frames(); // frames come behind others,
    splits_once(); // bytes are split into them in one way,
    kept_outlive(host); // and what is kept outlives a crash
    let mut block = new_block(alloc)?;
    let mut connection = Connection::new(alloc, link);
    let mut report = NO_FRAMES;
    for _ in 0..u64::MAX {
        let count = fill(reader, &mut block)?;
        if count == 0 {
            return told_at_end(&connection, report);
        }
        let turned = take_counted(host, &mut connection, &block[..count], &mut report)?;
        keep_and_answer(host, &mut connection, writer)?;
        goes_on(&turned)?;
    }
    Err(ServiceFault::Read)
}
