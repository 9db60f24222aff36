//! Where a message stands.

use std::fmt;

/// Where a message stands: in which input, and in which of its frames, counted from 1.
#[derive(Clone, Copy, Debug, PartialEq, Eq)]
pub(crate) struct Place<'a> {
    /// The name of the input.
    pub(crate) input: &'a str,
    /// The frame's number, if it stands in one.
    pub(crate) frame: Option<u64>,
}

impl fmt::Display for Place<'_> {
    fn fmt<W: fmt::Write>(&self, f: &mut fmt::Formatter<W>) -> fmt::Result {
        match self.frame {
            Some(frame) => write!(f, "{}: frame {frame}", self.input),
            None => write!(f, "{}", self.input),
        }
    }
}
