//! The batches of a journal, read many at a time.
ghost use Rattle.std.specs.Prelude.{◌≡◌};
ghost use Rattle.iso_replicas.specs.Pages.{most_after};

use iso_etcd::{Cluster, Dial, FEW, Fault, Page};
use std::alloc::Global;

/// The most batches that are asked for at once.
const MOST_AT_ONCE: u64 = 1_024;

/// About so many bytes of batches are asked for at once, where that is more than a few batches: far fewer than a response may have,
/// since later batches may be larger.
const BYTES_AT_ONCE: u64 = 1_048_576;

/// How many batches to ask for after a page of so many, with so many bytes.
pub fn most_after(batches: u64, bytes: u64) -> u32
    // As many batches of that mean size as make 1,048,576 bytes, but at least 4 and at most 1,024;
    // after an empty page 4.
    ensures { result ≡ most_after batches bytes }
{
    if batches == 0 {
        return FEW;
    }
    let each = (bytes / batches).max(1);
    (BYTES_AT_ONCE / each).max(FEW as u64).min(MOST_AT_ONCE) as u32
}

/// The batch at a place behind which others stand, by itself. None stands there where the page is empty.
fn one_at<D: Dial + Drop>(
    alloc: Global,
    cluster: &mut Cluster<D>,
    place: u32,
) -> Result<Page, Fault> {
    let mut batches = Vec::new(alloc);
    if let Some(batch) = cluster.look(place)?
        && batches.push(batch).is_err()
    {
        return Err(Fault::Memory);
    }
    Ok(Page {
        batches,
        more: true,
    })
}

/// A few batches from a place on, or one, where those behind it can't be read with it.
fn few_from<D: Dial + Drop>(
    alloc: Global,
    cluster: &mut Cluster<D>,
    place: u32,
) -> Result<Page, Fault> {
    match cluster.page(place, FEW) {
        Err(Fault::Unreadable) => one_at(alloc, cluster, place),
        answer => answer,
    }
}

/// The batches from a place on: at most so many, or a few where so many aren't had. A page without a batch, behind which there are
/// more, has a gap at its place.
pub fn next_page<D: Dial + Drop>(
    alloc: Global,
    cluster: &mut Cluster<D>,
    place: u32,
    most: u32,
) -> Result<Page, Fault> {
    if most > FEW
        && let Ok(page) = cluster.page(place, most)
    {
        return Ok(page);
    }
    few_from(alloc, cluster, place)
}
