//! Lines of JSON on what happens.

use std::alloc::{AllocError, Global};
use std::io::Write;

/// What is told as a line of JSON.
pub trait Told {
    /// Adds its line of JSON, with the newline. Where memory runs out, what it added is dropped.
    fn add_to(&self, line: &mut String) -> Result<(), AllocError>;
}

/// Writes each event as a line. One that can't be made or written now is dropped: nobody waits for who reads them.
#[derive(Drop)]
pub struct Telling<W> {
    out: W,
    line: String,
    /// Whether a line was cut off: the next one begins behind a newline.
    is_torn: bool,
}

impl<W: Write> Telling<W> {
    /// Lines to this writer. Takes no memory.
    pub fn new(alloc: Global, out: W) -> Telling<W> {
        Telling {
            out,
            line: String::new(alloc),
            is_torn: false,
        }
    }

    /// Makes the line of an event.
    fn make<E: Told>(&mut self, event: &E) -> Result<(), AllocError> {
        self.line.clear();
        if self.is_torn {
            self.line.push('\n')?;
        }
        event.add_to(&mut self.line)
    }

    /// Tells an event, with one write. Of a line that the writer doesn't take whole the rest is dropped.
    pub fn tell<E: Told>(&mut self, event: &E) {
        if self.make(event).is_err() {
            return;
        }
        match self.out.write(self.line.as_bytes()) {
            Ok(count) => self.is_torn = count < self.line.len(),
            Err(_) => {}
        }
    }
}
