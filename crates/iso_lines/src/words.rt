//! Why a peer is closed or isn't let in, as a log and metrics write it.

use crate::event::Refusal;
use crate::standing::Closing;

/// The word for why a peer is closed.
pub fn closing_word(why: Closing) -> &'static str {
    match why {
        Closing::Ended => "ended",
        Closing::CutFrame => "cut-frame",
        Closing::Failed => "failed",
        Closing::BadHeader => "bad-header",
        Closing::Memory => "memory",
        Closing::Idle => "idle",
        Closing::UnfinishedFrame => "unfinished-frame",
        Closing::DoesNotRead => "does-not-read",
        Closing::Stopped => "stopped",
    }
}

/// The word for why a peer isn't let in.
pub fn refusal_word(why: Refusal) -> &'static str {
    match why {
        Refusal::Peers => "peers",
        Refusal::Network => "network",
        Refusal::Memory => "memory",
    }
}
