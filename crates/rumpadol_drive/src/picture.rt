//! The file of the picture.

use rumpadol_tables::{Stop, failed};
use std::alloc::Global;
use std::fs::OpenOptions;
use std::io::Write;
use std::rt::Files;

/// How the program stops where the picture can't be written.
fn not_drawn(alloc: Global, path: &str) -> Stop {
    failed(format!(in alloc;
        "rumpadol: {path}: the picture can't be written there; name a file in a folder that this user may write to, with room\n"
    ))
}

/// Opens the file of the picture, if one is asked, and empties it: what may be refused comes before the run.
pub(crate) fn picture_asked<R: Files>(
    alloc: Global,
    runtime: &R,
    path: Option<&str>,
) -> Result<Option<R::File>, Stop> {
    let Some(path) = path else {
        return Ok(None);
    };
    match OpenOptions::new()
        .write(true)
        .create(true)
        .truncate(true)
        .open(runtime, path)
    {
        Ok(file) => Ok(Some(file)),
        Err(_) => Err(not_drawn(alloc, path)),
    }
}

/// Writes the picture.
pub(crate) fn draw<P: Write>(
    alloc: Global,
    path: &str,
    file: &mut P,
    text: &str,
) -> Result<(), Stop> {
    if file.write_all(text.as_bytes()).is_err() || file.flush().is_err() {
        return Err(not_drawn(alloc, path));
    }
    Ok(())
}
