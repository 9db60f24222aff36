//! A host over a journal that outlives it.

ghost use Rattle.std.specs.Prelude.{◌≡◌, IfOk};

use crate::ports::perform_ports;
use crate::stream::perform_stream;
use iso_service::Journals;
use rumpadol_cluster::check_words;
use rumpadol_ports::{HostWords, Place, System};
use rumpadol_script::perform_by_script;
use rumpadol_tables::{Source, Stop};
use rumpadol_terminals::Terminals;
use std::alloc::Global;
use std::io::{Read, Write};

/// Serves the frames of the input, or those of the peers on ports.
pub fn perform_host<S: Source + Journals + System, I: Read, O: Write, F: Write>(
    alloc: Global,
    words: &HostWords<'_>,
    source: &S,
    terminals: Terminals,
    input: &mut I,
    output: &mut O,
    faults: &mut F,
) -> Result<u8, Stop>
    // A host that served to its end has status 0.
    ensures { IfOk result (λ status. status ≡ 0) }
{
    check_words(alloc, words.kept.journal, &words.replica)?;
    if let Some(path) = words.script {
        return perform_by_script(alloc, words, path, source, terminals, input, faults);
    }
    match words.place {
        Place::Streams(stream) => perform_stream(
            alloc, words, stream, source, terminals, input, output, faults,
        ),
        Place::Listen(_) | Place::Links(_) => {
            perform_ports(alloc, words, source, terminals, input, faults)
        }
    }
}
