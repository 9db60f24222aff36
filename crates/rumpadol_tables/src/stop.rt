//! How the program stops where it doesn't end well: sentences on the error stream, and a status.

ghost use Rattle.std.specs.Prelude.{◌≡◌, ◌≤◌, ◌⊎◌, true, false, OnOk, IfErr};
ghost use Rattle.std.specs.Io.KnownBytes.{Appends};
ghost use Rattle.rumpadol_tables.specs.Stop.{status_of};
ghost use Rattle.rumpadol_tables.specs.declared.stop.Stop.TheVariants.{Memory};

use iso_table::NoMemory;
use std::alloc::{AllocError, AllocFailed};
use std::io::Write;

/// Why the program stops. The texts are sentences, a line each.
#[derive(Debug, Drop)]
pub enum Stop {
    /// An input is refused.
    Refused(String),
    /// The command line is.
    Words(String),
    /// A file or a stream failed.
    Device(String),
    /// The output failed.
    Output,
    /// Memory ran out.
    Memory,
}

impl Stop {
    /// The status: 1 where an input is refused, 2 where the command line is, 3 where a device or memory failed.
    pub fn status(&self) -> u8
        // It is 1 where an input is refused, 2 where the command line is, and 3 where a device,
        // the output or memory failed.
        ensures status { result ≡ status_of self.now }
        // It is 1, 2 or 3.
        ensures range { (1 ≤ result) × (result ≤ 3) }
    {
        match self {
            Stop::Refused(_) => 1,
            Stop::Words(_) => 2,
            Stop::Device(_) | Stop::Output | Stop::Memory => 3,
        }
    }

    /// What the error stream is told.
    fn text(&self) -> &str {
        match self {
            Stop::Refused(text) | Stop::Words(text) | Stop::Device(text) => text.as_str(),
            Stop::Output =>
                "rumpadol: the output can't be written; see that there is room and that its reader goes on\n",
            Stop::Memory => "rumpadol: memory ran out; give the program more, or a shorter input\n",
        }
    }
}

impl From<AllocError> for Stop {
    ghost from_gives = { λ _ stop. stop ≡ Memory };

    fn from(_fault: AllocError) -> Stop {
        Stop::Memory
    }
}

impl<T: Drop> From<AllocFailed<T>> for Stop {
    ghost from_gives = { λ _ stop. stop ≡ Memory };

    fn from(_fault: AllocFailed<T>) -> Stop {
        Stop::Memory
    }
}

impl From<NoMemory> for Stop {
    ghost from_gives = { λ _ stop. stop ≡ Memory };

    fn from(_fault: NoMemory) -> Stop {
        Stop::Memory
    }
}

/// An input is refused with this text, unless there is no memory for it.
pub fn refused(text: Result<String, AllocError>) -> Stop
    // The status is 1, or else 3.
    ensures { (status_of result ≡ 1) ⊎ (status_of result ≡ 3) }
{
    match text {
        Ok(text) => Stop::Refused(text),
        Err(_) => Stop::Memory,
    }
}

/// The command line is refused with this text, unless there is no memory for it.
pub fn misused(text: Result<String, AllocError>) -> Stop
    // The status is 2, or else 3.
    ensures { (status_of result ≡ 2) ⊎ (status_of result ≡ 3) }
{
    match text {
        Ok(text) => Stop::Words(text),
        Err(_) => Stop::Memory,
    }
}

/// A device failed, with this text, unless there is no memory for it.
pub fn failed(text: Result<String, AllocError>) -> Stop
    // The status is 3.
    ensures { status_of result ≡ 3 }
{
    match text {
        Ok(text) => Stop::Device(text),
        Err(_) => Stop::Memory,
    }
}

/// An input is refused, or else a device failed, with this text, unless there is no memory for it.
pub fn refused_or_failed(is_refused: bool, text: Result<String, AllocError>) -> Stop
    // The status is 1 only where an input is refused.
    ensures refused { status_of result ≡ 1 → is_refused ≡ true }
    // Where no input is refused, the status is 3.
    ensures failed { is_refused ≡ false → status_of result ≡ 3 }
{
    if is_refused {
        return refused(text);
    }
    failed(text)
}

/// Tells the error stream why the program stops, and gives the status: 3 where the stream itself fails.
pub fn tell<F: Write>(faults: &mut F, stop: &Stop) -> u8
    // The status is 1, 2 or 3.
    ensures range { (1 ≤ result) × (result ≤ 3) }
    // The status is that of the stop, or 3.
    ensures status { (result ≡ status_of stop.now) ⊎ (result ≡ 3) }
{
    match faults.write_all(stop.text().as_bytes()) {
        Ok(()) => stop.status(),
        Err(_) => 3,
    }
}

/// Writes to the output whole, and flushes it.
pub fn write_output<O: Write>(output: &mut O, bytes: &[u8]) -> Result<(), Stop>
    // At `Ok` the output grew by all the bytes, and by nothing else.
    ensures written { OnOk result
        (Appends (O.contents output.old) (O.contents output.new) bytes.now) }
    // A failure has status 3.
    ensures status { IfErr result (λ stop. status_of stop ≡ 3) }
{
    if output.write_all(bytes).is_err() || output.flush().is_err() {
        return Err(Stop::Output);
    }
    Ok(())
}
