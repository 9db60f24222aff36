//! How long a turn waits for events.

ghost use Rattle.std.specs.Prelude.{◌≡◌};
ghost use Rattle.iso_script_peers.specs.Pausing.{pause_of};

/// The longest that a turn waits for events, in milliseconds: so often a stop file is looked for.
pub const PAUSE: u64 = 200;

/// How long the next turn may wait for events, in milliseconds: not at all where a peer goes on without one, and no longer
/// than until an answer is due that is held back.
pub fn pause_of(goes_on: bool, due: Option<u64>, now: u64) -> u64
    // It is 0 where a peer goes on; else 200, or less where an answer that
    // is held back is due before.
    ensures { result ≡ pause_of goes_on due now }
{
    if goes_on {
        return 0;
    }
    match due {
        Some(at) => at.saturating_sub(now).min(PAUSE),
        None => PAUSE,
    }
}
