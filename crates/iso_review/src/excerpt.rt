//! The beginning of what stands in a document.

use std::fmt;
use std::fmt::InlineText;

/// At most so many bytes of what stands at a place are told.
const EXCERPT_SIZE: usize = 40;

/// The first 40 bytes of a text, the last three of them dots where more stands there. It takes no memory.
#[derive(Clone, Copy)]
pub struct Excerpt {
    text: InlineText<EXCERPT_SIZE>,
}

impl Excerpt {
    /// No text.
    pub(crate) fn none() -> Excerpt {
        Excerpt {
            text: InlineText::new(),
        }
    }

    /// The beginning of what a value shows.
    pub(crate) fn of<D: fmt::Display + Drop>(value: D) -> Excerpt {
        Excerpt {
            text: InlineText::of(value),
        }
    }

    /// The text.
    pub fn as_str(&self) -> &str {
        self.text.as_str()
    }
}

impl fmt::Display for Excerpt {
    fn fmt<W: fmt::Write>(&self, f: &mut fmt::Formatter<W>) -> fmt::Result {
        f.write_str(self.as_str())
    }
}

impl fmt::Debug for Excerpt {
    fn fmt<W: fmt::Write>(&self, f: &mut fmt::Formatter<W>) -> fmt::Result {
        f.write_str(self.as_str())
    }
}
