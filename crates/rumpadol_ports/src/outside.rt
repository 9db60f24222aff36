//! What a host on ports has outside: what stops it, and the log that it writes to.

use iso_lines::{Control, is_at_end};
use rumpadol_tables::{Stop, failed, refused};
use std::alloc::Global;
use std::fs;
use std::fs::OpenOptions;
use std::io::Read;
use std::os::unix::fs::FileTypeExt;
use std::rt::Files;

/// What stops a host or a front on ports: a file, or the end of standard input. A terminal is never read: a host in the background would
/// be suspended by it.
#[derive(Drop)]
pub struct Outside<'r, 'w, 'i, R, I> {
    /// What files are looked for with.
    pub runtime: &'r R,
    /// The path of the file that stops it, if one may.
    pub stop_file: Option<&'w str>,
    /// Standard input.
    pub input: &'i mut I,
    /// Whether standard input is a terminal.
    pub is_terminal: bool,
    /// Whether the file stops the host. One that was there all along, as that of a standby, doesn't, until it has gone.
    pub is_armed: bool,
}

impl<'r, 'w, 'i, R, I> Outside<'r, 'w, 'i, R, I> {
    /// What stops a host or a front that no file stopped so far.
    pub fn new(
        runtime: &'r R,
        stop_file: Option<&'w str>,
        input: &'i mut I,
        is_terminal: bool,
    ) -> Outside<'r, 'w, 'i, R, I> {
        Outside {
            runtime,
            stop_file,
            input,
            is_terminal,
            is_armed: true,
        }
    }
}

impl<'r, 'w, 'i, R: Files, I: Read> Control for Outside<'r, 'w, 'i, R, I> {
    fn is_called_off(&mut self) -> bool {
        let is_there = is_there(self.runtime, self.stop_file);
        self.is_armed = self.is_armed || !is_there;
        self.is_armed && is_there
    }

    fn is_at_end(&mut self) -> bool {
        !self.is_terminal && is_at_end(self.input)
    }
}

/// Whether a file is named, and is there.
fn is_there<R: Files>(runtime: &R, path: Option<&str>) -> bool {
    match path {
        Some(path) => matches!(fs::exists(runtime, path), Ok(true)),
        None => false,
    }
}

/// Refuses to start where the stop file is there.
pub fn check_stop_file<R: Files>(
    alloc: Global,
    runtime: &R,
    what: &str,
    stop_file: Option<&str>,
) -> Result<(), Stop> {
    match stop_file {
        Some(path) if is_there(runtime, stop_file) => Err(refused(format!(in alloc;
            "rumpadol: {path}: the stop file is there, so the {what} would stop at once; take it away first\n"
        ))),
        _ => Ok(()),
    }
}

/// Whether something has that path that makes its writers wait for a reader.
fn is_pipe<R: Files>(runtime: &R, path: &str) -> bool {
    match fs::metadata(runtime, path) {
        Ok(found) => found.file_type().is_fifo(),
        Err(_) => false,
    }
}

/// The log at a path, which goes on behind what is there.
fn open_log<R: Files>(alloc: Global, runtime: &R, path: &str) -> Result<R::File, Stop> {
    if is_pipe(runtime, path) {
        return Err(failed(format!(in alloc;
            "rumpadol: {path}: this is a pipe, whose reader could hold up the host; name a file, or leave --log out and send the error stream to a program\n"
        )));
    }
    match OpenOptions::new()
        .append(true)
        .create(true)
        .open(runtime, path)
    {
        Ok(file) => Ok(file),
        Err(_) => Err(failed(format!(in alloc;
            "rumpadol: {path}: the log can't be written there; name a file in a folder that this user may write to\n"
        ))),
    }
}

/// The log at a path, where one is named.
pub fn log_asked<R: Files>(
    alloc: Global,
    runtime: &R,
    path: Option<&str>,
) -> Result<Option<R::File>, Stop> {
    match path {
        Some(path) => Ok(Some(open_log(alloc, runtime, path)?)),
        None => Ok(None),
    }
}
