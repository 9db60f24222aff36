//! The message type of a frame, seen in its first bytes.

use iso_host::Link;
use iso_parts::raw::four_digits_in;

/// The longest header, with the longest message type behind it.
const MOST: usize = 8;

/// The first bytes of a frame, as they come.
#[derive(Clone, Copy, PartialEq, Eq)]
pub(crate) struct Front {
    bytes: [u8; MOST],
    len: usize,
}

impl Front {
    /// No byte yet.
    pub const NONE: Front = Front {
        bytes: [0; MOST],
        len: 0,
    };

    /// Some bytes more of the frame.
    pub fn see(&mut self, piece: &[u8]) {
        let room = MOST.saturating_sub(self.len);
        for byte in piece.iter().take(room) {
            if let Some(place) = self.bytes.get_mut(self.len) {
                *place = *byte;
                self.len = self.len.saturating_add(1);
            }
        }
    }

    /// The message type behind the header, where so much came and it is of digits.
    pub fn kind(&self, link: &Link) -> Option<u16> {
        let start = link.header().size();
        let seen = self.bytes.get(start..self.len)?;
        kind_of(link, seen)
    }
}

/// The message type that a message begins with, where it is of digits.
pub(crate) fn kind_of(link: &Link, message: &[u8]) -> Option<u16> {
    let digits = link.table().table().mti();
    four_digits_in(digits, message.get(..digits.mti_size())?)
}
