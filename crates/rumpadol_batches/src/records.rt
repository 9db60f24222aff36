//! The records of a batch.
ghost use Rattle.std.specs.Prelude.{◌≡◌, ◌++◌, IfOk, IfSome, option_map};
ghost use Rattle.iso_shared.specs.Batch.{rows_bytes, batch_in};
ghost use Rattle.iso_shared.specs.Read.{filed_of};
ghost use Rattle.rumpadol_batches.specs.Numbered.{counted, counted_in, named, records_in};

use iso_record::{Row, row_bytes};
use iso_shared::{Batch, ReadFault, read_batch};
use std::alloc::{AllocError, Global};

/// Adds the records of rows behind those of so many orders, and tells how many there are then. `None` where the answers don't tell
/// the places that come next.
fn add_rows(records: &mut Vec<u8>, orders: u32, rows: &[Row]) -> Result<Option<u32>, AllocError>
    ensures counted { IfOk result (λ o. o ≡ counted orders rows.now) }
    ensures added { IfOk result (λ o. IfSome o (λ n.
        records.new.items ≡ records.old.items ++ rows_bytes rows.now)) }
{
    let mut count = orders;
    let mut rest = rows;
    while let [row, after @ ..] = rest {
        if count.checked_add(1) != Some(row.answer.seq) {
            return Ok(None);
        }
        records.extend_from_slice(&row_bytes(row))?;
        count = row.answer.seq;
        rest = after;
    }
    Ok(Some(count))
}

/// The batch that bytes are, if it names this place.
fn named(alloc: Global, place: u32, bytes: &[u8]) -> Result<Option<Batch>, AllocError>
    ensures { IfOk result (λ o. option_map filed_of o ≡ named place (batch_in bytes.now)) }
{
    match read_batch(alloc, bytes) {
        Ok(batch) if batch.heading.place == place as u64 => Ok(Some(batch)),
        Ok(_) | Err(ReadFault::Format) => Ok(None),
        Err(ReadFault::Memory) => Err(AllocError),
    }
}

/// Adds the records of the batch that bytes are behind those of so many orders, and tells how many there are then. `None` where
/// no host writes these bytes at this place behind so many orders.
pub fn add_batch(
    alloc: Global,
    records: &mut Vec<u8>,
    orders: u32,
    place: u32,
    bytes: &[u8],
) -> Result<Option<u32>, AllocError>
    // Memory aside, there is a count exactly where the bytes are a batch that names this place, and
    // its answers tell the places that come next; it counts all orders then.
    ensures counted { IfOk result (λ o. o ≡ counted_in orders (named place (batch_in bytes.now))) }
    // Memory aside, where there is a count, the records of the batch's orders stand behind the
    // others, and nothing else was added.
    ensures added { IfOk result (λ o. IfSome o (λ n.
        records.new.items ≡ records.old.items ++ records_in (batch_in bytes.now))) }
{
    match named(alloc, place, bytes)? {
        Some(batch) => add_rows(records, orders, &batch.rows),
        None => Ok(None),
    }
}
