//! The frames of an input that is read block by block.

ghost use Rattle.std.specs.Prelude.{◌≡◌, false, is_some, length, nat_lt, IfOk, IfSome};
ghost use Rattle.std.specs.Io.KnownBytes.{Keeps};
ghost use Rattle.iso_input.specs.Window.{Grows};
ghost use Rattle.iso_jobs.specs.Frames.{Steps, Ends};
ghost use Rattle.iso_jobs.specs.Work.{WorksOn, task_of};

use crate::fault::Stop;
use crate::job::{Job, tell_refused};
use crate::pages::Pages;
use crate::progress::{end_progress, tell_progress};
use crate::refusal::Trouble;
use iso_input::{InputFault, Window};
use iso_wire::laws::splits_once;
use iso_wire::{Framed, Header, unframe};
use std::io::{Read, Write};

/// What stands at the front of the held bytes.
enum Front {
    /// A frame, which was worked on and let go.
    Frame,
    /// The beginning of one, or nothing.
    Part,
    /// No frame.
    Bad,
}

/// Works on the frame at the front of the held bytes, if a whole one is there.
fn step<R: Read + Drop>(
    job: Job,
    header: Header,
    number: u64,
    window: &mut Window<R>,
    pages: &mut Pages,
) -> Result<Front, Stop>
    ensures { IfOk result
        (Steps (task_of job.entry) header (record { window = window.old; pages = pages.old })
        (record { window = window.new; pages = pages.new })) }
{
    splits_once();
    let used = match unframe(header, window.held()) {
        Ok(Framed::Got { body, used }) => {
            pages.take(job, number, body)?;
            used
        }
        Ok(Framed::More) => return Ok(Front::Part),
        Err(_) => return Ok(Front::Bad),
    };
    window.drop_front(used);
    Ok(Front::Frame)
}

/// Reads a block more behind the held bytes; false where the input has ended.
pub(crate) fn read_more<R: Read + Drop>(window: &mut Window<R>) -> Result<bool, Stop>
    ensures grown { IfOk result (Grows window.old.held window.new.held) }
    ensures kept { Keeps window.old.ahead window.new.ahead }
    ensures end { IfOk result
        (λ more. more ≡ false → IfSome window.new.ahead (λ all. all ≡ window.new.held)) }
{
    match window.read_more() {
        Ok(more) => Ok(more),
        Err(InputFault::Memory) => Err(Stop::Memory),
        Err(_) => Err(Stop::Read),
    }
}

/// Tells what is wrong with the rest of the input, if there is one, and writes all that was told.
fn end<O: Write, F: Write>(
    job: Job,
    number: u64,
    rest: Option<Trouble>,
    pages: &mut Pages,
    output: &mut O,
    faults: &mut F,
) -> Result<bool, Stop>
    ensures { IfOk result
        (Ends (is_some rest) (record { old = O.contents output.old; new = O.contents output.new })
        pages.old) }
{
    if let Some(trouble) = rest {
        tell_refused(job, number, trouble, &mut pages.text)?;
        pages.complain(job.alloc, job.place(number), trouble)?;
    }
    end_progress(job, faults)?;
    pages.write(output, faults)?;
    Ok(!pages.has_refused)
}

/// What is wrong with a rest that begins with a header that isn't of digits.
const BAD_HEADER: Option<Trouble> = Some(Trouble::BadHeader);

/// What is wrong with the held bytes, in which no whole frame stands, where no more come.
fn cut<R: Read + Drop>(window: &Window<R>) -> Option<Trouble>
    ensures { is_some result ≡ nat_lt 0 (length window.now.held) }
{
    let rest = window.held().len();
    if rest > 0 {
        Some(Trouble::CutFrame(rest))
    } else {
        None
    }
}

/// Works on each frame of an input, up to its end, or to a header that isn't of digits; tells whether all was good.
///
/// What was told is written before the next block is read.
pub(crate) fn work_on_frames<R: Read + Drop, O: Write, F: Write>(
    job: Job,
    header: Header,
    input: R,
    output: &mut O,
    faults: &mut F,
) -> Result<bool, Stop>
    ensures { IfOk result (λ good. IfSome (R.remaining input)
        (λ all. WorksOn (task_of job.entry) header all
        (record { old = O.contents output.old; new = O.contents output.new }) good)) }
{
    let (mut window, mut pages) = (Window::new(job.alloc, input), Pages::new(job.alloc));
    let (mut number, mut blocks) = (1u64, 0u64);
    for _ in 0..u64::MAX {
        match step(job, header, number, &mut window, &mut pages)? {
            Front::Frame => number = number.saturating_add(1),
            Front::Bad => return end(job, number, BAD_HEADER, &mut pages, output, faults),
            Front::Part => {
                pages.write(output, faults)?;
                tell_progress(job, blocks, number, faults)?;
                blocks = blocks.saturating_add(1);
                if !read_more(&mut window)? {
                    return end(job, number, cut(&window), &mut pages, output, faults);
                }
            }
        }
    }
    // no input has so many bytes
    Err(Stop::Read)
}
