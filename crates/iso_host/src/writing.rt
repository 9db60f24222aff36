//! Whole bytes to a writer that takes them a few at a time.
ghost use Rattle.iso_host.specs.Writing.{CountsWhole, WritesFront};

use crate::streams::{Failed, Outlet};

/// Writes the bytes whole, in as many writes as the writer needs, and flushes.
///
/// At `Failed` a write or the flush failed, and only the front of the bytes may be written.
pub fn write_all<W: Outlet>(writer: &mut W, bytes: &[u8]) -> Result<(), Failed>
    // At `Ok` all the bytes are written. At a failure a front of them is, from none to all.
    ensures written { WritesFront (W.contents writer.old) (W.contents writer.new) bytes.now result }
    // At `Ok` no call failed, the writes took exactly these bytes, at least one each time, and none
    // waits for a flush. Else exactly one more failure is counted.
    ensures counts { CountsWhole (W.counts writer.old) (W.counts writer.new) bytes.now result }
{
    let mut at = 0;
    while at < bytes.len() {
        let Ok(count) = writer.write(&bytes[at..]) else {
            return Err(Failed);
        };
        at += count;
    }
    writer.flush()
}
