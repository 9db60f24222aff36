//! What stops a host from outside.

use std::io::Read;

/// What stops a host from outside.
pub trait Control {
    /// Whether what is to stop the host is there, as a stop file. It is asked a few times a second.
    fn is_called_off(&mut self) -> bool;

    /// Whether standard input has ended. It is asked when something came of it, or it ended.
    fn is_at_end(&mut self) -> bool;
}

/// Whether nothing more comes of a reader. What comes says nothing.
pub fn is_at_end<I: Read>(input: &mut I) -> bool {
    let mut bytes = [0u8; 256];
    match input.read(&mut bytes) {
        Ok(count) => count == 0,
        Err(_) => false,
    }
}
