//! Asking until it is known.
ghost use Rattle.iso_shared.specs.Store.{Grows, IsSettled, AreSent};

use crate::patience::Patience;
use crate::store::{Asked, Store};
use crate::why::Why;

/// Asks for a batch at a place, the same each time, until it is known what stands there, as long as `patience` lasts.
pub fn settle<S: Store, P: Patience>(
    store: &mut S,
    patience: &mut P,
    place: u64,
    bytes: &[u8],
) -> Result<(), Why>
    // What the store kept is kept, each batch at its place; others may have put more behind it.
    ensures grows { Grows (S.kept store.old) (S.kept store.new) }
    // Nothing but this batch was sent, however often, and nothing at all where the call fails as
    // `Away`.
    ensures sent { AreSent (S.sent store.old) (S.sent store.new) bytes.now result }
    // Where it succeeds, this batch stands at the place; where it fails as `Fenced`, other bytes
    // do. It fails else as `InDoubt` or `Away` alone, and these say nothing of the place.
    ensures settled { IsSettled (S.kept store.new) place bytes.now result }
{
    patience.begin();
    let mut is_sent = false;
    for _ in 0..u64::MAX {
        match store.ask(place, bytes) {
            Asked::Stands => return Ok(()),
            Asked::Other(_) => return Err(Why::Fenced),
            Asked::Unknown => is_sent = true,
            Asked::Unsent => {}
        }
        if !patience.may_go_on() {
            break;
        }
    }
    if is_sent {
        Err(Why::InDoubt)
    } else {
        Err(Why::Away)
    }
}
