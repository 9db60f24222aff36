//! Reading a batch.
ghost use Rattle.std.specs.Prelude.{◌≡◌, ◌≤◌, ◌*◌, ◌+◌, ◌-◌, length, true, Some, None, IfOk, IsErrOf};
ghost use Rattle.iso_log.specs.Slots.{slot};
ghost use Rattle.iso_shared.specs.Batch.{BatchContents, batch_bytes, batch_in, rows_from, is_size, is_filed};
ghost use Rattle.iso_shared.specs.Read.{filed_of};
ghost use Rattle.iso_shared.specs.declared.reading.ReadFault.TheVariants.{Memory};

use crate::batch::MOST_BATCH_BYTES;
use crate::heading::{Heading, read_heading};
use crate::laws::batches_come_back;
use iso_log::RECORD;
use iso_record::{Row, read_row};
use std::alloc::{AllocError, AllocFailed, Global};
use thiserror::Error;

/// A batch: where it stands and who wrote it, and its orders with their answers.
#[derive(Debug, Drop)]
pub struct Batch {
    pub heading: Heading,
    pub rows: Vec<Row>,
}

/// Why bytes are read as no batch.
#[derive(Clone, Copy, Debug, PartialEq, Eq, Drop, Error)]
pub enum ReadFault {
    /// Memory ran out.
    #[error("memory ran out")]
    Memory,
    /// They are no batch.
    #[error("the bytes are no batch of orders")]
    Format,
}

impl From<AllocError> for ReadFault {
    ghost from_gives = { λ _ e. e ≡ Memory };

    fn from(_: AllocError) -> ReadFault {
        ReadFault::Memory
    }
}

impl<T: Drop> From<AllocFailed<T>> for ReadFault {
    ghost from_gives = { λ _ e. e ≡ Memory };

    fn from(_: AllocFailed<T>) -> ReadFault {
        ReadFault::Memory
    }
}

/// The record at a place.
fn record_at(text: &[u8], place: usize) -> [u8; RECORD]
    requires { 128 * place + 128 ≤ length text.now }
    ensures { result ≡ slot text.now place }
{
    let mut record = [0; RECORD];
    record.copy_from_slice(&text[RECORD * place..RECORD * place + RECORD]);
    record
}

/// The rows of the records behind the first.
fn read_rows(alloc: Global, text: &[u8], count: usize) -> Result<Vec<Row>, ReadFault>
    requires long { length text.now ≡ 128 * count }
    requires some { 1 ≤ count }
    ensures rows { IfOk result (λ rows. rows_from (count - 1) 1 text.now ≡ Some rows.items) }
    ensures none { IsErrOf result ReadFault.Format → rows_from (count - 1) 1 text.now ≡ None }
{
    let mut rows = Vec::with_capacity(alloc, count - 1)?;
    for place in 1..count {
        let record = record_at(text, place);
        match read_row(&record) {
            Some(row) => rows.push(row)?,
            None => return Err(ReadFault::Format),
        }
    }
    Ok(rows)
}

/// Whether so many bytes can be a batch.
fn is_size(len: usize) -> bool
    ensures { result ≡ is_size len }
{
    len % RECORD == 0 && RECORD <= len && len <= MOST_BATCH_BYTES
}

/// As `read_batch`, by the parts.
fn batch_in(alloc: Global, text: &[u8]) -> Result<Batch, ReadFault>
    ensures value { IfOk result (λ b. batch_in text.now ≡ Some (filed_of b)) }
    ensures none { IsErrOf result ReadFault.Format → batch_in text.now ≡ None }
{
    if !is_size(text.len()) {
        return Err(ReadFault::Format);
    }
    let Some(heading) = read_heading(&record_at(text, 0)) else {
        return Err(ReadFault::Format);
    };
    let rows = read_rows(alloc, text, text.len() / RECORD)?;
    Ok(Batch { heading, rows })
}

/// The batch that bytes are.
pub fn read_batch(alloc: Global, text: &[u8]) -> Result<Batch, ReadFault>
    // A batch that is read is the one that the bytes are, record by record.
    ensures value { IfOk result (λ b. batch_in text.now ≡ Some (filed_of b)) }
    // Bytes are refused as no batch only where they are none.
    ensures none { IsErrOf result ReadFault.Format → batch_in text.now ≡ None }
    // Of the bytes that are written for a batch, no other batch is read.
    ensures back { (b : BatchContents) → is_filed b ≡ true → batch_bytes b ≡ text.now
        → IfOk result (λ r. filed_of r ≡ b) }
    // Bytes that are read as a batch are those that are written for it.
    ensures only { IfOk result (λ b. batch_bytes (filed_of b) ≡ text.now) }
{
    batches_come_back();
    match batch_in(alloc, text) {
        Ok(batch) => Ok(batch),
        Err(fault) => Err(fault),
    }
}
