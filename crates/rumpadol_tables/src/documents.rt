//! The documents that the command line names.

ghost use Rattle.std.specs.Prelude.{◌≡◌, ◌<◌, ◌≤◌, IfErr, IfOk, IfSome, length};
ghost use Rattle.rumpadol_tables.specs.Source.{IfHeld};
ghost use Rattle.rumpadol_tables.specs.Stop.{status_of};

use crate::source::{MOST_BYTES, Source, SourceFault, read_front};
use crate::stop::{Stop, failed, refused};
use std::alloc::Global;
use std::io::Read;

/// The word for standard input.
pub const STANDARD_INPUT: &str = "-";

/// The bytes of a document, if they aren't more than one may have.
fn short_enough(alloc: Global, word: &str, text: Vec<u8>) -> Result<Vec<u8>, Stop>
    ensures text { IfOk result (λ same. (same ≡ text) × (length text.items ≤ 1048576)) }
    ensures stop { IfErr result (λ stop. status_of stop ≡ 1 → 1048576 < length text.items) }
{
    if text.len() > MOST_BYTES as usize {
        return Err(refused(format!(in alloc;
            "rumpadol: {word}: a document has at most {MOST_BYTES} bytes, and this one has more; name another one\n"
        )));
    }
    Ok(text)
}

/// Why a document isn't read, with what is wanted in its place.
fn unread(alloc: Global, word: &str, fault: SourceFault, wanted: &str) -> Stop
    ensures { status_of result ≡ 3 }
{
    match fault {
        SourceFault::Memory => Stop::Memory,
        SourceFault::Unread => failed(format!(in alloc; "rumpadol: {word}: {wanted}\n")),
    }
}

/// The bytes of the document at a path.
pub fn document_at<S: Source>(
    alloc: Global,
    source: &S,
    path: &str,
    wanted: &str,
) -> Result<Vec<u8>, Stop>
    // At `Ok` the text is what the file holds, where that is known.
    ensures text { IfOk result
        (λ text. IfSome (S.file source.now path.now) (λ held. held ≡ text.items)) }
    // The status is 1 only where the file is longer than 1,048,576 bytes, as far as that is known.
    ensures stop { IfErr result (λ stop. status_of stop ≡ 1
        → IfSome (S.file source.now path.now) (λ held. 1048576 < length held)) }
{
    match source.read(alloc, path) {
        Ok(text) => short_enough(alloc, path, text),
        Err(fault) => Err(unread(alloc, path, fault, wanted)),
    }
}

/// The bytes of the document on the input.
fn document_on<I: Read>(alloc: Global, input: &mut I, wanted: &str) -> Result<Vec<u8>, Stop>
    ensures text { IfOk result
        (λ text. IfSome (I.remaining input.old) (λ held. held ≡ text.items)) }
    ensures stop { IfErr result (λ stop. status_of stop ≡ 1
        → IfSome (I.remaining input.old) (λ held. 1048576 < length held)) }
{
    match read_front(alloc, input) {
        Ok(text) => short_enough(alloc, STANDARD_INPUT, text),
        Err(fault) => Err(unread(alloc, STANDARD_INPUT, fault, wanted)),
    }
}

/// The bytes of the document that a word names: `-` names the input, and every other word a file.
pub fn document_named<S: Source, I: Read>(
    alloc: Global,
    source: &S,
    input: &mut I,
    word: &str,
    wanted: &str,
) -> Result<Vec<u8>, Stop>
    // At `Ok` the text is what the file holds, or the input for the word `-`, where that is known.
    ensures text { IfOk result (λ text.
        IfHeld (S.file source.now) (I.remaining input.old) word.now (λ held. held ≡ text.items)) }
    // The status is 1 only where the document is longer than 1,048,576
    // bytes, as far as that is known.
    ensures stop { IfErr result (λ stop. status_of stop ≡ 1
        → IfHeld (S.file source.now) (I.remaining input.old) word.now (λ held. 1048576
        < length held)) }
{
    if word == "-" {
        return document_on(alloc, input, wanted);
    }
    document_at(alloc, source, word, wanted)
}
