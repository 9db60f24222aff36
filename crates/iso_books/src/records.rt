//! The records of a journal's file, one after another.

ghost use Rattle.std.specs.Prelude.{◌≡◌, ◌≤◌, ◌<◌, length, true, false, IfOk, IfErr, IfSome};
ghost use Rattle.std.specs.List.{list_all};
ghost use Rattle.std.specs.Io.KnownBytes.{Keeps};
ghost use Rattle.iso_input.specs.Window.{Grows};
ghost use Rattle.iso_books.specs.Fault.{IsPlain};
ghost use Rattle.iso_books.specs.Records.{FrontIs, first_of, is_zero};

use crate::fault::BooksFault;
use iso_input::{InputFault, Window};
use iso_log::{RECORD, is_whole};
use std::io::Read;

/// Reads a block more behind the held bytes; false where the file has ended.
fn read_more<R: Read + Drop>(window: &mut Window<R>) -> Result<bool, BooksFault>
    ensures grown { IfOk result (Grows window.old.held window.new.held) }
    ensures kept { Keeps window.old.ahead window.new.ahead }
    ensures end { IfOk result
        (λ more. more ≡ false → IfSome window.new.ahead (λ all. all ≡ window.new.held)) }
    ensures fault { IfErr result IsPlain }
{
    match window.read_more() {
        Ok(more) => Ok(more),
        Err(InputFault::Memory) => Err(BooksFault::Memory),
        Err(_) => Err(BooksFault::Read),
    }
}

/// Has the bytes of a record held, where there are so many; false where there aren't.
fn fill<R: Read + Drop>(window: &mut Window<R>) -> Result<bool, BooksFault>
    ensures kept { Keeps window.old.ahead window.new.ahead }
    ensures full { IfOk result (λ full. full ≡ true → 128 ≤ length window.new.held) }
    ensures short { IfOk result
        (λ full. full ≡ false → IfSome window.new.ahead (λ all. length all < 128)) }
    ensures fault { IfErr result IsPlain }
{
    for _ in 0..RECORD {
        if window.held().len() >= RECORD {
            return Ok(true);
        }
        if !read_more(window)? {
            return Ok(window.held().len() >= RECORD);
        }
    }
    // each read gives a byte at least
    Err(BooksFault::Read)
}

/// The first bytes, if they are a record.
fn record_of(bytes: &[u8]) -> Option<[u8; RECORD]>
    requires { 128 ≤ length bytes.now }
    ensures { result ≡ first_of bytes.now }
{
    let mut first = [0; RECORD];
    first.copy_from_slice(&bytes[..RECORD]);
    if is_whole(&first) { Some(first) } else { None }
}

/// The record at the front of what is left of a file, if a whole one is there. Its bytes are held.
pub(crate) fn first_record<R: Read + Drop>(
    window: &mut Window<R>,
) -> Result<Option<[u8; RECORD]>, BooksFault>
    ensures kept { Keeps window.old.ahead window.new.ahead }
    ensures front { IfOk result (λ found. IfSome window.new.ahead (FrontIs found)) }
    ensures held { IfOk result (λ found. IfSome found (λ bytes. 128 ≤ length window.new.held)) }
    ensures fault { IfErr result IsPlain }
{
    if !fill(window)? {
        return Ok(None);
    }
    Ok(record_of(window.held()))
}

/// Whether all bytes are zeros.
fn are_zeros(bytes: &[u8]) -> bool
    ensures { result ≡ list_all is_zero bytes.now }
{
    bytes.iter().all(|byte| *byte == 0)
}

/// Whether all that is left of a file is zeros.
pub(crate) fn is_clear<R: Read + Drop>(window: &mut Window<R>) -> Result<bool, BooksFault>
    ensures clear { IfOk result
        (λ clear. IfSome window.old.ahead (λ all. clear ≡ list_all is_zero all)) }
    ensures fault { IfErr result IsPlain }
{
    for _ in 0..u64::MAX {
        let held = window.held();
        let count = held.len();
        if !are_zeros(held) {
            return Ok(false);
        }
        window.drop_front(count);
        if !read_more(window)? {
            return Ok(true);
        }
    }
    // no file has so many bytes
    Err(BooksFault::Read)
}
