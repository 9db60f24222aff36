//! Lines of JSON to a writer.
ghost use Rattle.std.specs.Prelude.{◌≡◌, ◌≤◌, length, drop};

use crate::json::{add_line, has_line};
use iso_lines::{Event, Line, Lines, Pages};
use std::alloc::Global;
use std::io::{ErrorKind, Write};

/// From so many bytes on lines are written at once.
const AT_ONCE: usize = 65_536;

/// At so many bytes that wait for the writer further lines are dropped.
const MOST_HELD: usize = 1_048_576;

/// How many writes are tried at once.
const WRITES: usize = 64;

/// Writes each event as a line of JSON, those of a turn together. A line that can't be made or written is dropped and
/// counted. A writer that takes nothing now (`WouldBlock`) is given the lines later, up to so many bytes of them.
#[derive(Drop)]
pub struct LogLines<'l, W> {
    lines: &'l [Line<'l>],
    out: W,
    line: String,
    held: Vec<u8>,
    /// Whether a line was cut off: the next one begins behind a newline.
    is_torn: bool,
    /// Whether the writer takes nothing more in this turn.
    waits: bool,
    /// How many lines were dropped.
    pub dropped: u64,
}

impl<'l, W: Write> LogLines<'l, W> {
    /// Lines to this writer, of a host on these lines. Takes no memory.
    pub fn new(alloc: Global, lines: &'l [Line<'l>], out: W) -> LogLines<'l, W> {
        LogLines {
            lines,
            out,
            line: String::new(alloc),
            held: Vec::new(alloc),
            is_torn: false,
            waits: false,
            dropped: 0,
        }
    }

    /// Drops what wasn't written of the lines that are held.
    fn drop_rest(&mut self, written: usize) {
        if let Some(last) = written.checked_sub(1) {
            self.is_torn = self.held.get(last).copied() != Some(b'\n');
        }
        if let Some(rest) = self.held.get(written..) {
            self.dropped = self.dropped.saturating_add(lines_in(rest));
        }
        self.held.clear();
    }

    /// Writes what is held, as far as it is taken now.
    fn write_held(&mut self) {
        let mut written = 0usize;
        for _ in 0..WRITES {
            let Some(rest) = self.held.get(written..) else {
                break;
            };
            if rest.is_empty() {
                break;
            }
            match self.out.write(rest) {
                Ok(count) if count > 0 => written = written.saturating_add(count),
                Err(error) if error.kind() == ErrorKind::Interrupted => {}
                Err(error) if error.kind() == ErrorKind::WouldBlock => {
                    self.waits = true;
                    break;
                }
                Ok(_) | Err(_) => {
                    self.drop_rest(written);
                    return;
                }
            }
        }
        drop_front(&mut self.held, written);
    }

    /// Holds the line that was made, behind the others, where there is room for it.
    fn hold(&mut self) -> bool {
        if self.held.len() >= MOST_HELD
            || self
                .held
                .reserve(self.line.len().saturating_add(1))
                .is_err()
        {
            return false;
        }
        if self.is_torn && self.held.push(b'\n').is_ok() {
            self.is_torn = false;
        }
        self.held.extend_from_slice(self.line.as_bytes()).is_ok()
    }
}

/// Takes bytes away from the front: all, where there are no more than so many.
fn drop_front(bytes: &mut Vec<u8>, count: usize)
    ensures { count ≤ length bytes.old.items → bytes.new.items ≡ drop count bytes.old.items }
{
    let count = count.min(bytes.len());
    let left = bytes.len() - count;
    bytes.copy_within(count.., 0);
    bytes.truncate(left);
}

/// How many lines end in these bytes.
fn lines_in(bytes: &[u8]) -> u64 {
    let mut count = 0u64;
    for byte in bytes {
        if *byte == b'\n' {
            count = count.saturating_add(1);
        }
    }
    count
}

impl<W: Write> Lines for LogLines<'_, W> {
    fn tell(&mut self, at: u64, event: &Event) {
        if !has_line(event) {
            return;
        }
        self.line.clear();
        let made = add_line(&mut self.line, self.lines, at, event);
        if made.is_err() || !self.hold() {
            self.dropped = self.dropped.saturating_add(1);
            return;
        }
        if self.held.len() >= AT_ONCE && !self.waits {
            self.write_held();
        }
    }

    fn flush(&mut self) {
        self.waits = false;
        self.write_held();
    }

    fn dropped(&self) -> u64 {
        self.dropped
    }
}

impl<W: Write> Pages for LogLines<'_, W> {
    fn answer(&mut self, _request: &[u8], _out: &mut Vec<u8>) -> bool {
        true
    }
}
