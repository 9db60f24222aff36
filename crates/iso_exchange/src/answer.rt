//! What a message tells of a transaction.
ghost use Rattle.std.specs.Prelude.{◌≡◌, IfOk};
ghost use Rattle.iso_exchange.specs.Answer.{told_in};

use crate::viewing::told_of;
use iso_order::Told;
use iso_table::Table;
use iso_wire::view;
use std::alloc::AllocError;

/// What the message tells of a transaction that the bytes are to the last one, as [`iso_order::answer_of`] reads it.
/// `None` where they are no message of the table, or one that tells none. It is left where it lies: only texts are read, in
/// the room that is lent, whose growth alone takes memory.
pub fn answer_in(table: &Table, body: &[u8], text: &mut Vec<u8>) -> Result<Option<Told>, AllocError>
    ensures { IfOk result (λ told. told ≡ told_in table.now body.now) }
{
    let Ok(message) = view(table, body) else {
        return Ok(None);
    };
    if message.used() != body.len() {
        return Ok(None);
    }
    told_of(table, &message, body, text)
}
