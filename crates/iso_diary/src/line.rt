//! What a record holds.

use iso_restarts::Note;

/// A note, and its place in the diary: the first one has place 1.
#[derive(Clone, Copy, Debug)]
pub struct Line {
    pub place: u64,
    pub note: Note,
}
