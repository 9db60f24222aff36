//! What came of the frames of a guarded line, and who is told.

use iso_host::{Handled, Link};
use iso_order::TxKey;

/// What came of a frame.
#[derive(Clone, Copy, Debug)]
pub enum Came {
    /// The host was given its message.
    Handled(Handled),
    /// It asks an order of an acquirer that the line may not speak for, and is answered so.
    Foreign(TxKey),
}

/// Who is told what came of each frame.
pub trait Noting {
    /// A frame was taken, which has this message, or ends before one.
    fn note(&mut self, link: &Link, message: Option<&[u8]>, came: Came);
}
