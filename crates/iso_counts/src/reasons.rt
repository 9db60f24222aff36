//! The places of the reasons for which peers are refused and closed.
ghost use Rattle.std.specs.Prelude.{◌≡◌};
ghost use Rattle.iso_counts.specs.Reasons.{refusal_place, closing_place};

use iso_lines::{Closing, Refusal};

/// The reasons to refuse a peer, by their places.
pub const REFUSALS: [&str; 3] = ["peers", "network", "memory"];

/// The reasons to close a connection, by their places.
pub const CLOSINGS: [Closing; 9] = [
    Closing::Ended,
    Closing::CutFrame,
    Closing::Failed,
    Closing::BadHeader,
    Closing::Memory,
    Closing::Idle,
    Closing::UnfinishedFrame,
    Closing::DoesNotRead,
    Closing::Stopped,
];

/// The place of a reason to refuse a peer.
pub fn refusal_place(why: Refusal) -> usize
    // Too many peers 0, an address in no network 1, want of memory 2.
    ensures { result ≡ refusal_place why }
{
    match why {
        Refusal::Peers => 0,
        Refusal::Network => 1,
        Refusal::Memory => 2,
    }
}

/// The place of a reason to close a connection.
pub fn closing_place(why: Closing) -> usize
    // From 0 on: ended, inside a frame, failed, bad header, memory, idle, unfinished frame,
    // doesn't read, host stops.
    ensures { result ≡ closing_place why }
{
    match why {
        Closing::Ended => 0,
        Closing::CutFrame => 1,
        Closing::Failed => 2,
        Closing::BadHeader => 3,
        Closing::Memory => 4,
        Closing::Idle => 5,
        Closing::UnfinishedFrame => 6,
        Closing::DoesNotRead => 7,
        Closing::Stopped => 8,
    }
}
