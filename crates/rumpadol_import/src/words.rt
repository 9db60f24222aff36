//! The words about a table of another program.

use iso_import::Bytes;

/// The words about a table of another program.
#[derive(Clone, Copy, Debug)]
pub struct ImportWords<'a> {
    /// The path of its file; `-` is standard input.
    pub path: &'a str,
    /// The first digit of its message types.
    pub version: u8,
    /// How bytes behind lengths in ASCII stand there.
    pub bytes: Bytes,
}
