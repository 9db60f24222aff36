//! What moves between an exchange and its host.

ghost use Rattle.std.specs.Prelude.{OnOk};
ghost use Rattle.iso_replay.specs.Moving.{Sends, Hears};

use crate::exchange::Exchange;
use std::alloc::AllocError;
use std::io::{ErrorKind, Read, Write};

/// Sends a front of what is to be sent, and tells whether to go on at once.
pub(crate) fn send<O: Write>(exchange: &mut Exchange<'_>, output: &mut O, now: u64) -> bool
    ensures { Sends (O.contents output.old) (O.contents output.new) exchange.old exchange.new }
{
    let unsent = exchange.unsent();
    if unsent.is_empty() {
        return false;
    }
    match output.write(unsent) {
        Ok(0) => false,
        Ok(count) => {
            exchange.sends(count, now);
            true
        }
        // a connection that failed is heard of where it is read
        Err(error) => error.kind() == ErrorKind::Interrupted,
    }
}

/// Hears a piece of what came, and tells whether to go on at once.
pub(crate) fn hear<I: Read>(
    exchange: &mut Exchange<'_>,
    input: &mut I,
    block: &mut [u8],
    now: u64,
) -> Result<bool, AllocError>
    ensures { OnOk result
        (Hears (I.remaining input.old) (I.remaining input.new) exchange.old exchange.new) }
{
    match input.read(block) {
        Ok(0) => {
            exchange.ends();
            Ok(true)
        }
        Ok(count) => {
            exchange.hears(&block[..count], now)?;
            Ok(true)
        }
        Err(error) => match error.kind() {
            ErrorKind::WouldBlock => Ok(false),
            ErrorKind::Interrupted => Ok(true),
            _ => {
                exchange.ends();
                Ok(true)
            }
        },
    }
}
