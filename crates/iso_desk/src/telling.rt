//! What is told of messages, in memory.

ghost use Rattle.std.specs.Prelude.{◌≡◌, [], Some, IfOk};
ghost use Rattle.iso_jobs.specs.Inputs.{WorksOnInput};
ghost use Rattle.iso_jobs.specs.Making.{MakesAll};

use crate::fault::DeskFault;
use iso_jobs::{Form, Stop, Work, make_messages, work_on};
use iso_table::Table;
use std::alloc::Global;

/// What the input is called in a complaint.
const NAME: &str = "the input";

/// What is told of messages.
#[derive(Drop)]
pub struct Told {
    /// Whether all of them are good.
    pub is_good: bool,
    /// What is told of them.
    pub text: Vec<u8>,
    /// What is wrong, a line each.
    pub complaints: Vec<u8>,
}

/// Why a question isn't answered where work on its input stops. Nothing that lies in memory fails otherwise.
fn stopped(stop: Stop) -> DeskFault {
    match stop {
        Stop::TooLong => DeskFault::TooMuch,
        Stop::Read | Stop::Write | Stop::Faults | Stop::Memory => DeskFault::Memory,
    }
}

/// What is told of the messages of an input.
pub fn tell_messages(
    alloc: Global,
    work: Work<'_>,
    form: Form,
    input: &[u8],
) -> Result<Told, DeskFault>
    // What is told is what work on that input tells: of each of its messages, in their order.
    ensures told { IfOk result (λ told. WorksOnInput
        (record { work = work.entry; form = form }) input.now
        (record { old = Some []; new = Some told.text.items }) told.is_good) }
{
    let mut text = Vec::new(alloc);
    let mut complaints = Vec::new(alloc);
    match work_on(
        alloc,
        work,
        form,
        NAME,
        None,
        input,
        &mut text,
        &mut complaints,
    ) {
        Ok(is_good) => Ok(Told {
            is_good,
            text,
            complaints,
        }),
        Err(stop) => Err(stopped(stop)),
    }
}

/// The bytes of the messages that a text says.
pub fn make_bytes(alloc: Global, table: &Table, form: Form, text: &[u8]) -> Result<Told, DeskFault>
    // At `Ok` the bytes are the plain spelling of each message, up to the first text that is
    // refused.
    ensures made { IfOk result (λ told. MakesAll table.now form text.now
        (record { old = Some []; new = Some told.text.items }) told.is_good) }
{
    let mut bytes = Vec::new(alloc);
    let mut complaints = Vec::new(alloc);
    match make_messages(alloc, table, form, NAME, text, &mut bytes, &mut complaints) {
        Ok(is_good) => Ok(Told {
            is_good,
            text: bytes,
            complaints,
        }),
        Err(stop) => Err(stopped(stop)),
    }
}
