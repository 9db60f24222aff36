//! An input that is worked on.

ghost use Rattle.std.specs.Prelude.{◌≡◌, [], false, ℕ, List, IfOk, IfSome};
ghost use Rattle.std.specs.Io.KnownBytes.{Appends};
ghost use Rattle.iso_jobs.specs.Inputs.{WorksOnBytes, WorksOnInput};
ghost use Rattle.iso_jobs.specs.Work.{Tells, task_of};

use crate::fault::Stop;
use crate::form::Form;
use crate::frames::work_on_frames;
use crate::job::Job;
use crate::opening::{Opened, open_whole};
use crate::pages::Pages;
use crate::refusal::Trouble;
use crate::work::Work;
use std::alloc::Global;
use std::io::{Read, Write};

/// Works on bytes that are one message.
fn work_on_one<O: Write, F: Write>(
    job: Job,
    bytes: &[u8],
    output: &mut O,
    faults: &mut F,
) -> Result<bool, Stop>
    ensures { IfOk result
        (λ good. (text : List ℕ) × Tells (task_of job.entry) bytes.now (good, text)
        × Appends (O.contents output.old) (O.contents output.new) text) }
{
    let mut pages = Pages::new(job.alloc);
    pages.take(job, 1, bytes)?;
    pages.write(output, faults)?;
    Ok(!pages.has_refused)
}

/// Works on bytes that are read: one message, or frames.
fn work_on_bytes<O: Write, F: Write>(
    job: Job,
    bytes: &[u8],
    output: &mut O,
    faults: &mut F,
) -> Result<bool, Stop>
    ensures { IfOk result (WorksOnBytes (task_of job.entry) bytes.now
        (record { old = O.contents output.old; new = O.contents output.new })) }
{
    match job.form.header {
        Some(header) => work_on_frames(job, header, bytes, output, faults),
        None => work_on_one(job, bytes, output, faults),
    }
}

/// Tells why an input isn't read.
fn refuse<O: Write, F: Write>(
    job: Job,
    trouble: Trouble,
    output: &mut O,
    faults: &mut F,
) -> Result<bool, Stop>
    ensures { IfOk result
        (λ good. (good ≡ false) × Appends (O.contents output.old) (O.contents output.new) []) }
{
    let mut pages = Pages::new(job.alloc);
    pages.complain(job.alloc, job.whole(), trouble)?;
    pages.write(output, faults)?;
    Ok(false)
}

/// Works on an input that is read whole before.
fn work_on_whole<R: Read + Drop, O: Write, F: Write>(
    job: Job,
    input: R,
    output: &mut O,
    faults: &mut F,
) -> Result<bool, Stop>
    ensures { IfOk result
        (λ good. IfSome (R.remaining input) (λ all. WorksOnInput (task_of job.entry) all
        (record { old = O.contents output.old; new = O.contents output.new }) good)) }
{
    match open_whole(job.alloc, job.form, input)? {
        Opened::Bytes(bytes) => work_on_bytes(job, &bytes, output, faults),
        Opened::Refused(trouble) => refuse(job, trouble, output, faults),
    }
}

/// Works on the messages of an input, and tells whether all of them are good. The input has a name, which stands in
/// complaints.
///
/// Frames are read block by block, and what is told of them is written before the next block is read. Anything else is
/// read whole: at most 1,048,576 bytes, or 16,777,216 characters of hexadecimal text.
pub fn work_on<R: Read + Drop, O: Write, F: Write>(
    alloc: Global,
    work: Work,
    form: Form,
    name: &str,
    total: Option<u64>,
    input: R,
    output: &mut O,
    faults: &mut F,
) -> Result<bool, Stop>
    // What the output grows by is told of each message of the input, in their order.
    ensures told { IfOk result
        (λ good. IfSome (R.remaining input) (λ all. WorksOnInput
        (record { work = work.entry; form = form }) all
        (record { old = O.contents output.old; new = O.contents output.new }) good)) }
{
    let job = Job {
        alloc,
        work,
        form,
        input: name,
        total,
    };
    match form.header {
        Some(header) if !form.is_hex => work_on_frames(job, header, input, output, faults),
        _ => work_on_whole(job, input, output, faults),
    }
}
