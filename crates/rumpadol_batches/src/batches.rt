//! The batches of a copy.
ghost use Rattle.std.specs.Prelude.{◌≡◌, ◌≤◌, ◌+◌, ◌++◌, OnOk, length};
ghost use Rattle.iso_shared.specs.Heading.{heading_bytes};
ghost use Rattle.rumpadol_batches.specs.Batches.{part_at, batches_of};

use iso_log::RECORD;
use iso_shared::{Heading, Writer, heading_bytes};
use std::alloc::AllocError;

/// How many orders a batch of a copy has at most: with its heading 131,200 bytes.
pub const MOST_ORDERS: usize = 1_024;

/// The bytes of their records.
const PART: usize = RECORD * MOST_ORDERS;

/// How many batches a copy of these records has.
pub fn batches_of(records: &[u8]) -> usize
    // They are the fewest batches of 1,024 records that hold all of them.
    ensures { result ≡ batches_of records.now }
{
    records.len().div_ceil(PART)
}

/// The records of a copy's batch, of which so many stand before it.
fn part_at(records: &[u8], before: usize) -> &[u8]
    ensures { result.now ≡ part_at records.now before }
{
    let behind = &records[PART.saturating_mul(before).min(records.len())..];
    &behind[..PART.min(behind.len())]
}

/// Writes the batch of a copy of which so many stand before it, in place of the bytes that are there.
pub fn batch_at(
    batch: &mut Vec<u8>,
    writer: Writer,
    records: &[u8],
    before: u32,
) -> Result<(), AllocError>
    // Memory aside, the batch is the heading of its place and writer, and then its records: the
    // next 1,024 of the journal, or as many as are left.
    ensures { OnOk result (batch.new.items
        ≡ heading_bytes (record { place = before + 1; writer = writer })
        ++ part_at records.now before) }
{
    let heading = Heading {
        place: before as u64 + 1,
        writer,
    };
    batch.clear();
    batch.extend_from_slice(&heading_bytes(&heading))?;
    batch.extend_from_slice(part_at(records, before as usize))?;
    Ok(())
}
