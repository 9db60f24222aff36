//! Guarded lines of a host: bytes stand before each message, or the peers may speak for some acquirers alone.
//!
//! - `GuardedPeer`: one peer's unfinished frame, and the answers that wait for it. `take_all` decides what it sends, as
//!   `DurableHost::take_all` does on other lines, and `hand_out` gives the bytes that may be written.
//! - `Noting`: who is told what came of each frame, which is `Came`.
//! - `Rooms`: where messages are read and answers are made, of all peers.
#![tactic(auto)]

mod came;
mod guard;
mod peer;
mod taking;

pub use came::{Came, Noting};
pub use guard::Rooms;
pub use peer::GuardedPeer;
