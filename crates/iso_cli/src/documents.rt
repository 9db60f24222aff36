//! The documents that the command line names.

ghost use Rattle.std.specs.Prelude.{◌≡◌, ◌≢◌, IfErr, IfOk, IfSome};
ghost use Rattle.iso_cli.specs.Stop.{status_of};
ghost use Rattle.iso_cli.specs.Refused.{HoldsNone};
ghost use Rattle.iso_cli.specs.declared.stop.Stop.TheVariants.{TooManyTurns, Words};

use crate::source::{MOST_BYTES, Source};
use crate::stop::Stop;
use std::alloc::Global;

/// The bytes of the document at a path.
pub fn document_at<S: Source>(alloc: Global, source: &S, path: &str) -> Result<Vec<u8>, Stop>
    // Where it succeeds, the bytes are all those of the document at the path.
    ensures text { IfOk result
        (λ text. IfSome (S.file source.now path.now) (λ held. held ≡ text.items)) }
    // A stop of status 1 tells what is wrong with the document at the path: it is too long, is no
    // JSON, or has this first fault as a table.
    ensures stop { IfErr result (λ stop. status_of stop ≡ 1
        → IfSome (S.file source.now path.now) (λ held. HoldsNone held stop)) }
    // No stop says that the command line is refused.
    ensures words { IfErr result (λ stop. stop ≢ Words) }
    // No stop says that there were too many reads and writes.
    ensures turns { IfErr result (λ stop. stop ≢ TooManyTurns) }
{
    let text = source.read(alloc, path)?;
    if text.len() > MOST_BYTES as usize {
        return Err(Stop::InputTooLong);
    }
    Ok(text)
}
