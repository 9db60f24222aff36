//! Answers into the caller's room.

ghost use Rattle.std.specs.Prelude.{◌≡◌, ◌≤◌, pos, negsuc, length};
ghost use Rattle.iso_c.specs.Answers.{RepliesTo, KeepsFault};
ghost use Rattle.iso_c.specs.Results.{bytes_of};

use crate::fault::{RumpadolFault, SHORT_ROOM};

/// Leaves a fault, and answers -1.
pub(crate) fn refuse(reason: RumpadolFault, fault: &mut RumpadolFault) -> i64
    ensures answer { result ≡ negsuc 0 }
    ensures fault { fault.new ≡ reason }
{
    *fault = reason;
    -1
}

/// How many bytes a front of the bytes has, as C is told.
pub(crate) fn length_of(front: usize, bytes: &[u8]) -> i64
    requires { front ≤ length bytes.now }
    ensures { result ≡ pos front }
{
    // The split only helps the prover: of a slice it knows that an `i64` can count its bytes.
    let (taken, _) = bytes.split_at(front);
    match i64::try_from(taken.len()) {
        Ok(n) => n,
        Err(_) => unreachable!(),
    }
}

/// Copies the bytes to the front of the room, and answers how many they are; -1 where the room is short.
pub(crate) fn answer_bytes(bytes: &[u8], room: &mut [u8], fault: &mut RumpadolFault) -> i64
    ensures reply { RepliesTo (Ok bytes.now) result
        (record { old = room.old; new = room.new }) fault.new }
    ensures kept { KeepsFault result fault.old fault.new }
{
    if room.len() < bytes.len() {
        return refuse(RumpadolFault::at_offset(SHORT_ROOM, bytes.len()), fault);
    }
    let (front, _) = room.split_at_mut(bytes.len());
    front.copy_from_slice(bytes);
    length_of(bytes.len(), bytes)
}

/// Answers what was made, or why it wasn't.
pub(crate) fn answer(
    made: Result<Vec<u8>, RumpadolFault>,
    room: &mut [u8],
    fault: &mut RumpadolFault,
) -> i64
    ensures reply { RepliesTo (bytes_of made) result
        (record { old = room.old; new = room.new }) fault.new }
    ensures kept { KeepsFault result fault.old fault.new }
{
    match made {
        Ok(bytes) => answer_bytes(&bytes, room, fault),
        Err(reason) => refuse(reason, fault),
    }
}
