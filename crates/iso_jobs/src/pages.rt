//! What is told and isn't written yet: texts for the output, and complaints for the error stream.

ghost use Rattle.std.specs.Prelude.{◌≡◌, ◌++◌, ◌||◌, [], not, true, false, ℕ, List, Bool, OnOk};
ghost use Rattle.std.specs.Io.KnownBytes.{Appends};
ghost use Rattle.iso_jobs.specs.Work.{Tells, task_of};

use crate::fault::Stop;
use crate::job::{Job, tell};
use crate::place::Place;
use crate::refusal::Trouble;
use crate::texts::append_complaint;
use std::alloc::{AllocError, Global};
use std::io::Write;

/// What is told and isn't written yet.
#[derive(Drop)]
pub(crate) struct Pages {
    /// What goes to the output.
    pub(crate) text: Vec<u8>,
    /// What goes to the error stream.
    pub(crate) complaints: Vec<u8>,
    /// Whether anything was refused.
    pub(crate) has_refused: bool,
}

/// Writes bytes, if there are any, and passes them on.
fn put<W: Write>(stream: &mut W, bytes: &[u8]) -> Result<(), ()>
    ensures { OnOk result (Appends (W.contents stream.old) (W.contents stream.new) bytes.now) }
{
    if bytes.is_empty() {
        return Ok(());
    }
    if stream.write_all(bytes).is_err() {
        return Err(());
    }
    match stream.flush() {
        Ok(()) => Ok(()),
        Err(_) => Err(()),
    }
}

impl Pages {
    /// Nothing yet.
    pub(crate) fn new(alloc: Global) -> Pages
        ensures text { result.text.items ≡ [] }
        ensures good { result.has_refused ≡ false }
    {
        Pages {
            text: Vec::new(alloc),
            complaints: Vec::new(alloc),
            has_refused: false,
        }
    }

    /// Adds a complaint.
    pub(crate) fn complain(
        &mut self,
        alloc: Global,
        place: Place,
        trouble: Trouble,
    ) -> Result<(), AllocError>
        ensures text { self.new.text.items ≡ self.old.text.items }
        ensures refused { OnOk result (self.new.has_refused ≡ true) }
    {
        append_complaint(alloc, place, trouble, &mut self.complaints)?;
        self.has_refused = true;
        Ok(())
    }

    /// Adds what is told of a body.
    pub(crate) fn take(&mut self, job: Job, number: u64, body: &[u8]) -> Result<(), AllocError>
        ensures told { OnOk result ((good : Bool) × (text : List ℕ)
            × Tells (task_of job.entry) body.now (good, text)
            × (self.new.text.items ≡ self.old.text.items ++ text)
            × (self.new.has_refused ≡ (self.old.has_refused || not good))) }
    {
        let trouble = tell(job, number, body, &mut self.text)?;
        if let Some(trouble) = trouble {
            self.complain(job.alloc, job.place(number), trouble)?;
        }
        Ok(())
    }

    /// Writes what was told, and then the complaints, and holds nothing any more.
    pub(crate) fn write<O: Write, F: Write>(
        &mut self,
        output: &mut O,
        faults: &mut F,
    ) -> Result<(), Stop>
        ensures written { OnOk result
            (Appends (O.contents output.old) (O.contents output.new) self.old.text.items) }
        ensures empty { OnOk result (self.new.text.items ≡ []) }
        ensures same { self.new.has_refused ≡ self.old.has_refused }
    {
        if put(output, &self.text).is_err() {
            return Err(Stop::Write);
        }
        if put(faults, &self.complaints).is_err() {
            return Err(Stop::Faults);
        }
        self.text.clear();
        self.complaints.clear();
        Ok(())
    }
}
