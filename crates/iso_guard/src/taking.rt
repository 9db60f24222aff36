//! What a peer of a guarded line sends, frame after frame.
ghost use Rattle.std.specs.Prelude.{◌≡◌, ◌≤◌, length, drop};
ghost use Rattle.iso_host.specs.Hosting.{replying};
ghost use Rattle.iso_host.specs.Peers.{one_peer};
ghost use Rattle.iso_guard.specs.Guarding.{guard_of, EntersAllowed};
ghost use Rattle.iso_guard.specs.Taking.{TakesFrames, TakesGuarded};

use crate::came::Noting;
use crate::guard::{Rooms, answer_guarded};
use iso_host::laws::one_journal;
use iso_host::{Host, Link, PeerFault};
use iso_links::Terms;
use iso_peers::Turned;
use iso_wire::laws::frames;
use iso_wire::{Framed, unframe};

/// Takes so many bytes away from the front.
pub(crate) fn drop_front(bytes: &mut Vec<u8>, count: usize)
    requires { count ≤ length bytes.old.items }
    ensures { bytes.new.items ≡ drop count bytes.old.items }
{
    let left = bytes.len() - count;
    bytes.copy_within(count.., 0);
    bytes.truncate(left);
}

/// So many bytes were taken, and why no more.
fn turned(used: usize, stopped: Option<PeerFault>) -> Turned
    ensures { result ≡ record { used = used; stopped = stopped } }
{
    Turned { used, stopped }
}

/// Answers the whole frames of some bytes.
fn take_frames<N: Noting>(
    host: &mut Host,
    link: &Link,
    terms: &Terms,
    bytes: &[u8],
    rooms: &mut Rooms,
    noting: &mut N,
    waiting: &mut Vec<u8>,
) -> Turned
    ensures took { TakesFrames (guard_of link.now terms.now)
        (replying host.old waiting.old.items) (replying host.new waiting.new.items)
        bytes.now result }
{
    one_journal(host.issuer()); // for the prover: bodies have one journal
    frames(); // for the prover: frames come behind others
    let mut used = 0;
    'frames: loop {
        match unframe(link.header(), &bytes[used..]) {
            Err(_) => return turned(used, Some(PeerFault::BadHeader)),
            Ok(Framed::More) => return turned(used, None),
            Ok(Framed::Got { body, used: size }) => {
                let Ok(came) = answer_guarded(host, link, terms, body, rooms, waiting) else {
                    return turned(used, Some(PeerFault::Memory));
                };
                noting.note(link, body.get(terms.skip..), came);
                used += size;
            }
        }
    }
}

/// Answers the whole frames of the bytes that are held and some more, and holds the rest.
pub(crate) fn take_held<N: Noting>(
    host: &mut Host,
    link: &Link,
    terms: &Terms,
    held: &mut Vec<u8>,
    bytes: &[u8],
    rooms: &mut Rooms,
    noting: &mut N,
    waiting: &mut Vec<u8>,
) -> Turned
    ensures took { TakesGuarded (guard_of link.now terms.now)
        (one_peer held.old.items host.old waiting.old.items)
        (one_peer held.new.items host.new waiting.new.items) bytes.now result }
    // Only orders of acquirers that may be spoken for enter the books.
    ensures allowed { EntersAllowed terms.now.acquirers.items link.now.table host.old host.new }
{
    one_journal(host.issuer());
    if held.extend_from_slice(bytes).is_err() {
        return turned(0, Some(PeerFault::Memory));
    }
    let taken = take_frames(host, link, terms, held, rooms, noting, waiting);
    drop_front(held, taken.used);
    turned(bytes.len(), taken.stopped)
}
