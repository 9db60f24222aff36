//! The messages that are read and written.

use anyhow::{Context, Result};
use iso_parts::Mti;
use iso_wire::Message;
use std::alloc::Global;

/// A payment of 82 bytes.
pub const PAYMENT: &[u8] =
    b"0200722000010000800016411111111111111100000000000000100001020304050000070512345840";

/// The elements of the large message: each takes 999 characters in ASCII.
const LARGE: [u8; 30] = [
    56, 57, 58, 59, 60, 61, 62, 63, 105, 106, 107, 108, 109, 110, 111, 112, 113, 114, 115, 116,
    117, 118, 119, 120, 121, 122, 123, 124, 125, 126,
];

/// A message with thirty elements of 999 characters.
pub fn large_message(alloc: Global) -> Result<Message> {
    let mti = Mti::from_digits(200).context("four digits")?;
    let mut message = Message::new(alloc, mti);
    for n in LARGE {
        message.set(n, &[b'A'; 999])?;
    }
    Ok(message)
}
