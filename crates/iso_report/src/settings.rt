//! What a run was to do, as it is told.

/// What a run was to do. Chances are in millionths, times in milliseconds where nothing else is said.
#[derive(Clone, Copy, Debug)]
pub struct Settings<'a> {
    /// Where the host listens.
    pub address: &'a str,
    /// The table's name or path.
    pub table: &'a str,
    /// The header of frames, as its word.
    pub header: &'a str,
    /// The acquirer's number (element 32).
    pub acquirer: u64,
    /// How many connections there were.
    pub peers: usize,
    /// How many transactions might be open at once.
    pub most_open: usize,
    /// How many purchases were to begin in a second, if that was asked.
    pub rate: Option<u32>,
    /// How long an answer was waited for.
    pub patience: u64,
    /// How likely a frame was lost.
    pub lose: u32,
    /// How likely a frame came twice.
    pub repeat: u32,
    /// How likely a connection was cut behind a frame.
    pub cut: u32,
    /// How long a frame was held back: the least and the most.
    pub delay: (u32, u32),
    /// From it all was drawn.
    pub seed: u64,
}
