//! The fault lines that name what is wrong with a table, with accounts, an input or a message.

ghost use Rattle.std.specs.Prelude.{◌≡◌, IfOk, None, string_bytes};
ghost use Rattle.iso_cli.specs.Stop.{stop_line, line_of, named_line, accounts_line, unpack_line};

use crate::stop::Stop;
use iso_issuer::AccountsFault;
use iso_wire::UnpackFault;
use std::alloc::{AllocError, Global};

/// The line of a fault that names an element, or none.
fn named_line(
    alloc: Global,
    what: &str,
    name: &str,
    element: Option<u16>,
) -> Result<String, AllocError>
    ensures { IfOk result (λ line. string_bytes line ≡ named_line what.now name.now element) }
{
    match element {
        Some(n) => format!(in alloc; "refused: {what} {name} element {n}\n"),
        None => format!(in alloc; "refused: {what} {name}\n"),
    }
}

/// The line of a fault that names an account, or none.
fn accounts_line(alloc: Global, fault: AccountsFault) -> Result<String, AllocError>
    ensures { IfOk result (λ line. string_bytes line ≡ accounts_line fault) }
{
    let name = fault.name();
    match fault.account() {
        Some(i) => format!(in alloc; "refused: accounts {name} {i}\n"),
        None => format!(in alloc; "refused: accounts {name}\n"),
    }
}

/// The line of where bytes stop being a message.
fn unpack_line(alloc: Global, fault: UnpackFault) -> Result<String, AllocError>
    ensures { IfOk result (λ line. string_bytes line ≡ unpack_line fault) }
{
    let name = fault.cause.name();
    let (element, at) = (fault.element, fault.at);
    format!(in alloc; "refused: unpack {name} element {element} at {at}\n")
}

/// The same number, where there is one.
fn widened(element: Option<u8>) -> Option<u16>
    ensures { result ≡ element }
{
    match element {
        Some(n) => Some(u16::from(n)),
        None => None,
    }
}

/// The fault line of a stop that names a fault of a table, of accounts, of an input or of a message.
pub fn refusal_line(alloc: Global, stop: Stop) -> Result<String, AllocError>
    ensures { stop_line stop ≡ None → IfOk result (λ line. string_bytes line ≡ line_of stop) }
{
    match stop {
        Stop::Table(fault) => named_line(alloc, "table", fault.name(), fault.element()),
        Stop::Host(fault) => named_line(alloc, "host", fault.name(), widened(fault.element())),
        Stop::Pack(fault) => named_line(alloc, "pack", fault.name(), widened(fault.element())),
        Stop::Accounts(fault) => accounts_line(alloc, fault),
        Stop::Unpack(fault) => unpack_line(alloc, fault),
        _ => String::from_str(alloc, "failed: Memory\n"),
    }
}
