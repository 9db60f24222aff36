//! A journal on etcd, read whole.
use iso_etcd::{Cluster, Dial, FEW, FIRST_PLACE, Fault, HEADING_SIZE, Page};
use iso_replicas::{most_after, next_page};
use rumpadol_batches::add_batch;
use rumpadol_journals::Progress;
use std::alloc::{AllocError, Global};
use std::io::Write;

/// Why a journal isn't read.
#[derive(Clone, Copy, Debug, PartialEq, Eq, Drop)]
pub enum FetchFault {
    /// Nothing has its name.
    Missing,
    /// Batches have its name, and no heading.
    Left,
    /// Its heading isn't one.
    Foreign,
    /// What stands at this place is no batch that a host writes there, or nothing does and others stand behind it.
    Damaged(u32),
    /// No answer told what stands there.
    Unread(Fault),
    /// Memory ran out.
    Memory,
}

impl From<AllocError> for FetchFault {
    fn from(_: AllocError) -> FetchFault {
        FetchFault::Memory
    }
}

impl From<Fault> for FetchFault {
    fn from(fault: Fault) -> FetchFault {
        match fault {
            Fault::Memory => FetchFault::Memory,
            fault => FetchFault::Unread(fault),
        }
    }
}

/// What was read so far.
#[derive(Drop)]
struct Reading {
    /// The heading, and the records of the orders.
    records: Vec<u8>,
    /// How many orders there are.
    orders: u32,
    /// The place of the next batch.
    place: u32,
    /// How many batches are asked for.
    most: u32,
}

/// What a journal without a heading is.
fn without_heading<D: Dial + Drop>(cluster: &mut Cluster<D>) -> FetchFault {
    match cluster.page(FIRST_PLACE, FEW) {
        Ok(page) if page.batches.is_empty() => FetchFault::Missing,
        Ok(_) | Err(Fault::Unreadable) => FetchFault::Left,
        Err(fault) => FetchFault::from(fault),
    }
}

/// The heading.
fn heading_of<D: Dial + Drop>(cluster: &mut Cluster<D>) -> Result<Vec<u8>, FetchFault> {
    match cluster.heading()? {
        Some(heading) if heading.len() == HEADING_SIZE => Ok(heading),
        Some(_) => Err(FetchFault::Foreign),
        None => Err(without_heading(cluster)),
    }
}

/// Takes the next batch.
fn take_batch(alloc: Global, reading: &mut Reading, batch: &[u8]) -> Result<(), FetchFault> {
    let place = reading.place;
    let added = add_batch(alloc, &mut reading.records, reading.orders, place, batch)?;
    let (Some(orders), Some(next)) = (added, place.checked_add(1)) else {
        return Err(FetchFault::Damaged(place));
    };
    reading.orders = orders;
    reading.place = next;
    Ok(())
}

/// Takes the batches of a page. One that has none, though there are more, has a gap.
fn take_page(alloc: Global, reading: &mut Reading, page: &Page) -> Result<(), FetchFault> {
    if page.batches.is_empty() && page.more {
        return Err(FetchFault::Damaged(reading.place));
    }
    let before = reading.records.len();
    for batch in &page.batches {
        take_batch(alloc, reading, batch)?;
    }
    let bytes = reading.records.len().saturating_sub(before);
    reading.most = most_after(page.batches.len() as u64, bytes as u64);
    Ok(())
}

/// Reads a journal whole: its heading, and the records of its orders, as a file has them. Each batch is one that a host writes at
/// its place, and the orders have the places that follow one another. What comes to stand while it is read may be left out.
pub fn fetch<D: Dial + Drop, F: Write>(
    alloc: Global,
    cluster: &mut Cluster<D>,
    progress: &mut Progress<'_, F>,
) -> Result<Vec<u8>, FetchFault> {
    let mut reading = Reading {
        records: heading_of(cluster)?,
        orders: 0,
        place: FIRST_PLACE,
        most: FEW,
    };
    for _ in 0..u32::MAX {
        let page = next_page(alloc, cluster, reading.place, reading.most)?;
        take_page(alloc, &mut reading, &page)?;
        progress.read(reading.orders as usize);
        if !page.more {
            break;
        }
    }
    Ok(reading.records)
}
