//! Frames between a driver and a host: what those tell that came, and an order as one that goes out.
//!
//! - `take_frames`: takes the frames at the front of what came on a connection, and reads each. `read_body`: reads the body
//!   of one. `Read`: what it tells.
//! - `Taken`, `add_digests`: frames that came, and the digests of their bytes.
//! - `balance_told`, `tells_balance`: the balance that a response tells.
//! - `write_frame`: the frame of an order.
//! - `FramesFault`: why a frame isn't written or read.
#![tactic(auto)]

mod balance;
mod fault;
mod framing;
mod reading;
mod taken;

pub use balance::{balance_told, tells_balance};
pub use fault::FramesFault;
pub use framing::write_frame;
pub use reading::{Read, read_body, take_frames};
pub use taken::{Taken, add_digests};
