//! When the answer to a message goes out.

ghost use Rattle.std.specs.Prelude.{◌≡◌};
ghost use Rattle.iso_script_peers.specs.Going.{going, going_by};

use iso_script::{Behaviour, Deed};

/// When what was written for a message goes out.
#[derive(Clone, Copy, Debug, PartialEq, Eq)]
pub enum Going {
    /// At once.
    Now,
    /// At this moment, in milliseconds.
    At(u64),
    /// Never: the connection is closed, once what waited before is written.
    Cut,
}

/// When it goes out, by a rule that decided.
fn going_by(deed: &Deed, now: u64) -> Going
    ensures { result ≡ going_by deed.now now }
{
    match deed {
        Deed::Answer(_) | Deed::Silent | Deed::Garbage => Going::Now,
        Deed::Delay(delay) => Going::At(now.saturating_add(u64::from(*delay))),
        Deed::Cut => Going::Cut,
    }
}

/// When what was written for a message goes out, that came at a moment in milliseconds.
pub fn going_of(behaviour: &Behaviour, now: u64) -> Going
    // It goes out at once, or after the rule's delay. A rule that cuts closes
    // the connection in its place.
    ensures { result ≡ going behaviour.now now }
{
    match behaviour {
        Behaviour::Honest => Going::Now,
        Behaviour::Ruled { deed, .. } => going_by(deed, now),
    }
}
