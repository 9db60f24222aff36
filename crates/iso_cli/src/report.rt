//! The line that tells what came of the frames.

ghost use Rattle.std.specs.Prelude.{◌≡◌, ◌⊎◌, IfOk, Ok, string_bytes};
ghost use Rattle.iso_host.specs.Counts.{stream};
ghost use Rattle.iso_cli.specs.Connections.{lines, report_text};
ghost use Rattle.iso_cli.specs.OneConnection.{TellsConnectionEnd};
ghost use Rattle.iso_cli.specs.Tells.{TellsReport};

use crate::stop::{Stop, tell, tell_line};
use iso_host::{Failed, Outlet, Report, write_all};
use std::alloc::{AllocError, Global};

/// How many frames came, by kind.
fn report_line(alloc: Global, report: Report) -> Result<String, AllocError>
    ensures { IfOk result (λ line. string_bytes line ≡ report_text report) }
{
    let Report {
        frames,
        answered,
        silent,
        unreadable,
    } = report;
    format!(in alloc;
        "frames={frames} answered={answered} silent={silent} unreadable={unreadable}\n"
    )
}

/// Writes the line, and gives the status: 0, or 3 where there is no memory for it or the fault stream fails.
pub fn tell_report<F: Outlet>(alloc: Global, faults: &mut F, report: Report) -> u8
    // The status is 0 or 3.
    ensures status { (result ≡ 0) ⊎ (result ≡ 3) }
    // The report's line is written, with status 0; or `failed: Memory`, with 3, for want of memory;
    // or a write failed behind no more than a front of such a line, with 3.
    ensures told { TellsReport (stream (F.contents faults.old) (F.counts faults.old))
        (stream (F.contents faults.new) (F.counts faults.new)) report result }
{
    match report_line(alloc, report) {
        Ok(line) => tell_line(faults, &line, 0),
        Err(_) => tell(alloc, faults, Stop::Memory),
    }
}

/// Writes the line to the output, and gives the status: 0, or 3 where there is no memory for it or the output fails. The
/// fault stream is told which.
pub fn write_report<O: Outlet, F: Outlet>(
    alloc: Global,
    report: Report,
    output: &mut O,
    faults: &mut F,
) -> u8
    // With status 0 the output has grown by the line of the report, and the fault stream by
    // nothing. Every other status is 3.
    ensures { TellsConnectionEnd (lines (O.contents output.old) (F.contents faults.old))
        (lines (O.contents output.new) (F.contents faults.new)) (Ok report) result }
{
    let Ok(line) = report_line(alloc, report) else {
        return tell(alloc, faults, Stop::Memory);
    };
    match write_all(output, line.as_bytes()) {
        Ok(()) => 0,
        Err(Failed) => tell(alloc, faults, Stop::Write),
    }
}
