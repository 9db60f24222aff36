//! One body of an input, and what is told of it.

ghost use Rattle.std.specs.Prelude.{◌≡◌, ◌++◌, ℕ, List, OnOk, IfOk, is_none, is_some};
ghost use Rattle.iso_jobs.specs.Work.{TellsBody, TellsNone, Tells, task_of};

use crate::form::Form;
use crate::place::Place;
use crate::refusal::{Refusal, Trouble};
use crate::telling::{convert, explain, explain_json, tell_json, tell_lines};
use crate::texts::append_object;
use crate::whole::behind_skipped;
use crate::work::Work;
use std::alloc::{AllocError, Global};

/// What is done, with messages in which form, of which input.
#[derive(Clone, Copy)]
pub(crate) struct Job<'a> {
    pub(crate) alloc: Global,
    pub(crate) work: Work<'a>,
    pub(crate) form: Form,
    /// The name of the input.
    pub(crate) input: &'a str,
    /// How many bytes the input has, where its progress is to be told.
    pub(crate) total: Option<u64>,
}

impl<'a> Job<'a> {
    /// The input as a whole.
    pub(crate) fn whole(&self) -> Place<'a> {
        Place {
            input: self.input,
            frame: None,
        }
    }

    /// Where the body with this number in its stream stands.
    pub(crate) fn place(&self, number: u64) -> Place<'a> {
        Place {
            input: self.input,
            frame: self.frame(number),
        }
    }

    /// The number, if the input is a stream of frames.
    fn frame(&self, number: u64) -> Option<u64>
        ensures { is_some result ≡ is_some self.now.form.header }
    {
        if self.form.header.is_some() {
            Some(number)
        } else {
            None
        }
    }
}

/// Appends what is told of a body: of the message that its bytes are, behind those that are skipped.
fn tell_body(job: Job, number: u64, body: &[u8], out: &mut Vec<u8>) -> Result<(), Refusal>
    ensures { TellsBody (task_of job.entry) body.now
        (record { old = out.old.items; new = out.new.items }) result }
{
    let (front, bytes) = behind_skipped(job.form.skip, body)?;
    let (alloc, form, frame) = (job.alloc, job.form, job.frame(number));
    match job.work {
        Work::Lines {
            table,
            names,
            is_clear,
        } => tell_lines(alloc, table, names, is_clear, frame.is_some(), bytes, out),
        Work::Json { table, is_clear } => tell_json(alloc, table, is_clear, bytes, out),
        Work::Explain {
            table,
            names,
            style,
        } => explain(alloc, table, names, style, frame, bytes, out),
        Work::ExplainJson {
            table,
            names,
            is_clear,
        } => explain_json(alloc, table, names, is_clear, bytes, out),
        Work::Convert { from, to } => convert(alloc, from, to, form, front, bytes, out),
    }
}

/// Appends what stands for a body that is refused: in a stream of JSON an object, else nothing.
pub(crate) fn tell_refused(
    job: Job,
    number: u64,
    trouble: Trouble,
    out: &mut Vec<u8>,
) -> Result<(), AllocError>
    ensures { OnOk result ((text : List ℕ) × TellsNone job.entry.work job.entry.form text
        × (out.new.items ≡ out.old.items ++ text)) }
{
    match (job.work, job.form.header) {
        (Work::Json { .. }, Some(_)) => append_object(job.alloc, number, trouble, out),
        _ => Ok(()),
    }
}

/// Appends what is told of a body, the one with this number in its stream, and tells what is wrong with it, if anything is.
pub(crate) fn tell(
    job: Job,
    number: u64,
    body: &[u8],
    out: &mut Vec<u8>,
) -> Result<Option<Trouble>, AllocError>
    ensures { IfOk result (λ trouble. (text : List ℕ)
        × Tells (task_of job.entry) body.now (is_none trouble, text)
        × (out.new.items ≡ out.old.items ++ text)) }
{
    match tell_body(job, number, body, out) {
        Ok(()) => Ok(None),
        Err(Refusal::Refused(trouble)) => {
            tell_refused(job, number, trouble, out)?;
            Ok(Some(trouble))
        }
        Err(Refusal::Memory) => Err(AllocError),
    }
}
