//! What came of a body, as a log may tell it.

use iso_order::TxKey;
use iso_wire::UnpackFault;

/// Why a body is not one whole message.
#[derive(Clone, Copy, Debug, PartialEq, Eq)]
pub enum BodyFault {
    /// No message: the fault that unpacking the body tells.
    Stops(UnpackFault),
    /// A message that ends here, before the body does.
    Behind(usize),
}

/// What came of a body. No number of a card is in it.
#[derive(Clone, Copy, Debug, PartialEq, Eq)]
pub enum Handled {
    /// It is not one whole message.
    Unreadable(BodyFault),
    /// Its message is not answered.
    Silent,
    /// Its message asks nothing of the issuer, and is answered with this response code.
    Replied { code: u8 },
    /// It asks an order of this key, which is answered with this response code. `seq` is the place of the order in the
    /// journal, 0 where it has none: the journal was full, or the key has another order.
    Ordered { key: TxKey, code: u8, seq: u32 },
}
