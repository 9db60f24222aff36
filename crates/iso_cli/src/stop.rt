//! How the command stops where it doesn't end well: a line on the fault stream, and a status.
ghost use Rattle.std.specs.Prelude.{◌≡◌, ◌<◌, ◌≤◌, option_map};
ghost use Rattle.iso_host.specs.Counts.{stream};
ghost use Rattle.iso_cli.specs.Stop.{status_of, stop_line, stop_of_accounts, stop_of_input, stop_of_pack};
ghost use Rattle.iso_cli.specs.Stop.{stop_of_serving, stop_of_source, stop_of_table, stop_of_unpack, stop_of_words};
ghost use Rattle.iso_cli.specs.declared.stop.Stop.TheVariants.{Host, Memory};
ghost use Rattle.iso_cli.specs.Tells.{Tells, TellsAs, TellsLine, TellsLineOf, TellsStop};

use crate::refusal::refusal_line;
use crate::source::SourceFault;
use crate::streaming::InputFault;
use crate::words::WordsFault;
use iso_host::{Failed, Outlet, ServeFault, write_all};
use iso_issuer::AccountsFault;
use iso_table::{HostTableFault, NoMemory, TableFault};
use iso_wire::{PackFault, UnpackCause, UnpackFault};
use std::alloc::{AllocError, Global};

/// Why the command stops.
#[derive(Clone, Copy, PartialEq, Eq, Drop)]
pub enum Stop {
    /// The words are no command line.
    Words,
    /// A file isn't there, or can't be read.
    File,
    /// The input failed.
    Read,
    /// The output failed.
    Write,
    /// There is no memory.
    Memory,
    /// The input or the output took too many calls.
    TooManyTurns,
    /// The input has more than 1,048,576 bytes.
    InputTooLong,
    /// Bytes follow the message.
    TrailingBytes,
    /// The header of a frame isn't of digits.
    BadHeader,
    /// The input ends inside a frame.
    CutFrame,
    /// A table is refused.
    Table(TableFault),
    /// An issuer host can't serve under a table.
    Host(HostTableFault),
    /// A document of accounts is refused.
    Accounts(AccountsFault),
    /// The input begins with no message.
    Unpack(UnpackFault),
    /// The message has no bytes under the table.
    Pack(PackFault),
}

impl Stop {
    /// The status: 1 where an input was refused, 2 where the command line was, 3 where a device or memory failed.
    pub fn status(self) -> u8
        // Each stop has its own status: a table, accounts, an input or a message that is refused 1,
        // a refused command line 2, and what failed 3.
        ensures status { result ≡ status_of self }
        // The status is 1 to 3.
        ensures range { (1 ≤ result) × (result ≤ 3) }
    {
        match self {
            Stop::InputTooLong | Stop::TrailingBytes | Stop::BadHeader | Stop::CutFrame => 1,
            Stop::Table(_) | Stop::Host(_) | Stop::Accounts(_) => 1,
            Stop::Unpack(_) | Stop::Pack(_) => 1,
            Stop::Words => 2,
            Stop::File | Stop::Read | Stop::Write | Stop::Memory | Stop::TooManyTurns => 3,
        }
    }

    /// The fault line, which ends with a newline, where it names no further fault.
    fn line(self) -> Option<&'static str>
        ensures { option_map (λ line. line.now) result ≡ stop_line self }
    {
        match self {
            Stop::Words => Some("command line refused\n"),
            Stop::File => Some("failed: File\n"),
            Stop::Read => Some("failed: Read\n"),
            Stop::Write => Some("failed: Write\n"),
            Stop::Memory => Some("failed: Memory\n"),
            Stop::TooManyTurns => Some("failed: TooManyTurns\n"),
            Stop::InputTooLong => Some("refused: InputTooLong\n"),
            Stop::TrailingBytes => Some("refused: TrailingBytes\n"),
            Stop::BadHeader => Some("refused: BadHeader\n"),
            Stop::CutFrame => Some("refused: CutFrame\n"),
            Stop::Table(_) | Stop::Host(_) | Stop::Accounts(_) => None,
            Stop::Unpack(_) | Stop::Pack(_) => None,
        }
    }
}

impl From<InputFault> for Stop {
    ghost from_gives = { λ fault stop. stop ≡ stop_of_input fault };

    fn from(fault: InputFault) -> Stop {
        match fault {
            InputFault::Read => Stop::Read,
            InputFault::TooLong => Stop::InputTooLong,
            InputFault::TooManyTurns => Stop::TooManyTurns,
            InputFault::Memory => Stop::Memory,
        }
    }
}

impl From<SourceFault> for Stop {
    ghost from_gives = { λ fault stop. stop ≡ stop_of_source fault };

    fn from(fault: SourceFault) -> Stop {
        match fault {
            SourceFault::File => Stop::File,
            SourceFault::Memory => Stop::Memory,
        }
    }
}

impl From<WordsFault> for Stop {
    ghost from_gives = { λ fault stop. stop ≡ stop_of_words fault };

    fn from(fault: WordsFault) -> Stop {
        match fault {
            WordsFault::Refused => Stop::Words,
            WordsFault::Memory => Stop::Memory,
        }
    }
}

impl From<ServeFault> for Stop {
    ghost from_gives = { λ fault stop. stop ≡ stop_of_serving fault };

    fn from(fault: ServeFault) -> Stop {
        match fault {
            ServeFault::Read => Stop::Read,
            ServeFault::Write => Stop::Write,
            ServeFault::BadHeader => Stop::BadHeader,
            ServeFault::CutFrame => Stop::CutFrame,
            ServeFault::Memory => Stop::Memory,
            ServeFault::TooManyTurns => Stop::TooManyTurns,
        }
    }
}

impl From<NoMemory> for Stop {
    ghost from_gives = { λ _ stop. stop ≡ Memory };

    fn from(_fault: NoMemory) -> Stop {
        Stop::Memory
    }
}

impl From<AllocError> for Stop {
    ghost from_gives = { λ _ stop. stop ≡ Memory };

    fn from(_fault: AllocError) -> Stop {
        Stop::Memory
    }
}

impl From<TableFault> for Stop {
    ghost from_gives = { λ fault stop. stop ≡ stop_of_table fault };

    fn from(fault: TableFault) -> Stop {
        match fault {
            TableFault::Memory => Stop::Memory,
            other => Stop::Table(other),
        }
    }
}

impl From<HostTableFault> for Stop {
    ghost from_gives = { λ fault stop. stop ≡ Host fault };

    fn from(fault: HostTableFault) -> Stop {
        Stop::Host(fault)
    }
}

impl From<AccountsFault> for Stop {
    ghost from_gives = { λ fault stop. stop ≡ stop_of_accounts fault };

    fn from(fault: AccountsFault) -> Stop {
        match fault {
            AccountsFault::Memory => Stop::Memory,
            other => Stop::Accounts(other),
        }
    }
}

impl From<UnpackFault> for Stop {
    ghost from_gives = { λ fault stop. stop ≡ stop_of_unpack fault fault.cause };

    fn from(fault: UnpackFault) -> Stop {
        match fault.cause {
            UnpackCause::Memory => Stop::Memory,
            _ => Stop::Unpack(fault),
        }
    }
}

impl From<PackFault> for Stop {
    ghost from_gives = { λ fault stop. stop ≡ stop_of_pack fault };

    fn from(fault: PackFault) -> Stop {
        match fault {
            PackFault::Memory => Stop::Memory,
            other => Stop::Pack(other),
        }
    }
}

/// Writes a line, and gives the status. Where the fault stream itself fails nothing more is written, and the
/// status is 3.
pub fn tell_line<F: Outlet>(faults: &mut F, line: &str, status: u8) -> u8
    // The status that is asked for is at most 3.
    requires { status ≤ 3 }
    // The whole line is written and no write failed, with this status; or a write failed behind no
    // more than a front of the line, and the status is 3.
    ensures told { TellsLine (stream (F.contents faults.old) (F.counts faults.old))
        (stream (F.contents faults.new) (F.counts faults.new)) line.now status result }
    // The status is the one that is asked for or a higher one, and at most 3.
    ensures range { (status ≤ result) × (result ≤ 3) }
{
    match write_all(faults, line.as_bytes()) {
        Ok(()) => status,
        Err(Failed) => 3,
    }
}

/// Writes the fault line, and gives this status. Where the fault stream itself fails nothing more is written, and the
/// status is 3.
pub fn tell_as<F: Outlet>(alloc: Global, faults: &mut F, stop: Stop, status: u8) -> u8
    // The status that is asked for is at most 3.
    requires { status ≤ 3 }
    // A line that names no further fault is written whole, with this status; or a write failed
    // behind no more than a front of it, and the status is 3.
    ensures told { TellsAs (stream (F.contents faults.old) (F.counts faults.old))
        (stream (F.contents faults.new) (F.counts faults.new)) stop status result }
    // The stop's own line is written, with this status, or `failed: Memory` with 3 for want of
    // memory; or a write failed behind no more than a front of such a line, with 3.
    ensures line { TellsLineOf (stream (F.contents faults.old) (F.counts faults.old))
        (stream (F.contents faults.new) (F.counts faults.new)) stop status result }
    // The status is the one that is asked for or a higher one, and at most 3.
    ensures range { (status ≤ result) × (result ≤ 3) }
{
    if let Some(line) = stop.line() {
        return tell_line(faults, line, status);
    }
    match refusal_line(alloc, stop) {
        Ok(line) => tell_line(faults, &line, status),
        Err(_) => tell_line(faults, "failed: Memory\n", 3),
    }
}

/// Writes the fault line, and gives the stop's own status. Where the fault stream itself fails nothing more is written,
/// and the status is 3.
pub fn tell<F: Outlet>(alloc: Global, faults: &mut F, stop: Stop) -> u8
    // A line that names no further fault is written whole, with the stop's status; or a write
    // failed behind no more than a front of it, and the status is 3.
    ensures told { Tells (stream (F.contents faults.old) (F.counts faults.old))
        (stream (F.contents faults.new) (F.counts faults.new)) stop result }
    // The stop's own line is written, with its status, or `failed: Memory` with 3 for want of
    // memory; or a write failed behind no more than a front of such a line, with 3.
    ensures line { TellsLineOf (stream (F.contents faults.old) (F.counts faults.old))
        (stream (F.contents faults.new) (F.counts faults.new)) stop (status_of stop) result }
    // What is told is the line of one stop, with the status of that stop; or a write failed, and
    // the status is 3.
    ensures stop { TellsStop (stream (F.contents faults.old) (F.counts faults.old))
        (stream (F.contents faults.new) (F.counts faults.new)) result }
    // The status is 1 to 3.
    ensures range { (1 ≤ result) × (result ≤ 3) }
{
    tell_as(alloc, faults, stop, stop.status())
}
