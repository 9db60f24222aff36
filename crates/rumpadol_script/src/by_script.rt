//! A host on a port that misbehaves by rules.

ghost use Rattle.std.specs.Prelude.{◌≡◌, IfOk};

use crate::performing::{perform_script, script_at};
use crate::words::ScriptWords;
use iso_links::Terms;
use iso_script_peers::Bounds;
use rumpadol_journals::accounts_at;
use rumpadol_ports::{HostWords, Outside, System, all_agreed, asked_of, check_stop_file};
use rumpadol_tables::{Source, Stop, misused};
use rumpadol_terminals::Terminals;
use std::alloc::Global;
use std::io::{Read, Write};

/// The words of a host that serves by the script at a path, on the port of a link.
fn words_of<'a>(path: &'a str, terms: &Terms) -> ScriptWords<'a> {
    ScriptWords {
        path,
        address: terms.address,
        bounds: Bounds {
            peers: terms.limits.peers,
            waiting: terms.limits.waiting,
        },
    }
}

/// Serves the peers that come on a port by the rules of the document at a path.
pub fn perform_by_script<S: Source + System, I: Read, F: Write>(
    alloc: Global,
    words: &HostWords<'_>,
    path: &str,
    source: &S,
    terminals: Terminals,
    input: &mut I,
    faults: &mut F,
) -> Result<u8, Stop>
    // A host that served to its end has status 0.
    ensures { IfOk result (λ status. status ≡ 0) }
{
    let runtime = source.runtime();
    check_stop_file(alloc, runtime, "host", words.stop_file)?;
    let asked = asked_of(alloc, source, words)?;
    let links = all_agreed(alloc, source, input, &asked.terms)?;
    let (Some(link), Some(terms)) = (links.first(), asked.terms.first()) else {
        return Err(misused(format!(in alloc; "rumpadol: --script needs --listen\n")));
    };
    let (accounts, _heading) = accounts_at(alloc, source, words.kept.accounts)?;
    let script = script_at(alloc, source, path)?;
    let asked = words_of(path, terms);
    let mut stops = Outside::new(runtime, words.stop_file, input, terminals.input);
    perform_script(
        alloc, runtime, asked, script, accounts, link, &mut stops, faults,
    )
}
