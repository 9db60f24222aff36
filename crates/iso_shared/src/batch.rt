//! A batch of orders as bytes.
ghost use Rattle.std.specs.Prelude.{◌≡◌, ◌++◌, true, OnOk, IfErr};
ghost use Rattle.std.specs.List.{list_all};
ghost use Rattle.iso_record.specs.Row.{is_row};
ghost use Rattle.iso_shared.specs.Batch.{rows_bytes, batch_bytes, is_filed};
ghost use Rattle.iso_shared.specs.Unwritten.{IsUnwritten};

use crate::heading::{Heading, MOST_PLACES, heading_bytes};
use crate::why::Why;
use iso_record::{Row, row_bytes};
use std::alloc::AllocError;

/// The most orders that a batch has: it has at most 1,048,576 bytes.
pub const MOST_ROWS: usize = 8191;

/// The most bytes that a batch has.
pub const MOST_BATCH_BYTES: usize = 1_048_576;

/// Adds the records of rows.
fn add_rows(out: &mut Vec<u8>, rows: &[Row]) -> Result<(), AllocError>
    ensures bytes { OnOk result (out.new.items ≡ out.old.items ++ rows_bytes rows.now) }
    ensures rows { OnOk result (list_all is_row rows.now ≡ true) }
{
    for row in rows {
        out.extend_from_slice(&row_bytes(row))?;
    }
    Ok(())
}

/// Writes a batch as bytes, in place of those that are there.
pub fn write_batch(out: &mut Vec<u8>, heading: &Heading, rows: &[Row]) -> Result<(), Why>
    // Where it succeeds, the bytes are the record of the heading, and then a record of 128 bytes
    // for each order with its answer.
    ensures bytes { OnOk result (out.new.items
        ≡ batch_bytes (record { heading = heading.now; rows = rows.now })) }
    // Where it succeeds, the batch is one that can be written: at most 8,191 orders, and a place of
    // at most ten digits.
    ensures filed { OnOk result
        (is_filed (record { heading = heading.now; rows = rows.now }) ≡ true) }
    // It fails only where the batch has too many orders or names a place behind the last one, or
    // for want of memory.
    ensures fault { IfErr result
        (λ why. IsUnwritten (record { heading = heading.now; rows = rows.now }) why) }
{
    if heading.place > MOST_PLACES || rows.len() > MOST_ROWS {
        return Err(Why::TooLarge);
    }
    out.clear();
    out.extend_from_slice(&heading_bytes(heading))?;
    add_rows(out, rows)?;
    Ok(())
}
