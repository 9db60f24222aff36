//! Records as a journal on etcd.

use iso_etcd::{Append, Cause, Cluster, Dial, Doubt, HEADING_SIZE};
use iso_log::RECORD;
use iso_shared::{Patience, Writer};
use rumpadol_batches::{MOST_ORDERS, batch_at, batches_of};
use rumpadol_journals::Progress;
use std::alloc::AllocError;
use std::io::Write;

/// Why a copy isn't whole.
#[derive(Clone, Copy, Debug, PartialEq, Eq, Drop)]
pub enum SendFault {
    /// Something else stands where a part of the copy was to stand.
    Taken,
    /// Nothing was sent.
    Unsent(Cause),
    /// It isn't known whether a batch stands.
    Doubt(Doubt),
    /// It isn't known whether the heading stands, which makes the copy whole.
    HeadingDoubt(Doubt),
    /// There are more batches than places.
    TooLong,
    /// Memory ran out.
    Memory,
}

impl From<AllocError> for SendFault {
    fn from(_: AllocError) -> SendFault {
        SendFault::Memory
    }
}

/// A part of a copy.
#[derive(Clone, Copy)]
enum Part<'a> {
    /// The batch at a place.
    Batch(u32, &'a [u8]),
    /// The heading.
    Heading(&'a [u8; HEADING_SIZE]),
}

/// Asks once that a part stand.
fn ask<D: Dial + Drop>(cluster: &mut Cluster<D>, part: Part<'_>) -> Append {
    match part {
        Part::Batch(place, batch) => cluster.append_once(place, batch),
        Part::Heading(heading) => cluster.put_heading(heading),
    }
}

/// Whether asking again is of no use.
fn is_final(append: &Append) -> bool {
    match append {
        Append::Appended | Append::Taken(_) => true,
        Append::Unknown(Doubt::NoSpace | Doubt::Denied) => true,
        Append::Unsent(Cause::NotLetIn | Cause::Unwritable | Cause::TooLong) => true,
        Append::Unknown(_) | Append::Unsent(_) => false,
    }
}

/// Why a part doesn't stand, if it doesn't.
fn fault_in(part: Part<'_>, append: Append) -> Result<(), SendFault> {
    match (append, part) {
        (Append::Appended, _) => Ok(()),
        (Append::Taken(_), _) => Err(SendFault::Taken),
        (Append::Unknown(doubt), Part::Batch(_, _)) => Err(SendFault::Doubt(doubt)),
        (Append::Unknown(doubt), Part::Heading(_)) => Err(SendFault::HeadingDoubt(doubt)),
        (Append::Unsent(cause), _) => Err(SendFault::Unsent(cause)),
    }
}

/// Has a part stand, and asks for it as long as `patience` lasts.
fn put<D: Dial + Drop, P: Patience>(
    cluster: &mut Cluster<D>,
    patience: &mut P,
    part: Part<'_>,
) -> Result<(), SendFault> {
    patience.begin();
    let mut append = ask(cluster, part);
    for _ in 0..u64::MAX {
        if is_final(&append) || !patience.may_go_on() {
            break;
        }
        append = append.then(ask(cluster, part));
    }
    fault_in(part, append)
}

/// A copy that is being made.
#[derive(Drop)]
struct Copying<'a, D: Dial + Drop, P: Patience + Drop> {
    cluster: &'a mut Cluster<D>,
    patience: P,
    writer: Writer,
    records: &'a [u8],
    batch: Vec<u8>,
}

impl<'a, D: Dial + Drop, P: Patience + Drop> Copying<'a, D, P> {
    /// Has the batch stand before which so many do.
    fn put_batch(&mut self, before: u32) -> Result<(), SendFault> {
        batch_at(&mut self.batch, self.writer, self.records, before)?;
        let Some(place) = before.checked_add(1) else {
            return Err(SendFault::TooLong);
        };
        put(
            self.cluster,
            &mut self.patience,
            Part::Batch(place, self.batch.as_slice()),
        )
    }

    /// Has the heading stand.
    fn put_heading(&mut self, heading: &[u8; HEADING_SIZE]) -> Result<(), SendFault> {
        put(self.cluster, &mut self.patience, Part::Heading(heading))
    }

    /// Has the batches behind the first stand, of so many.
    fn put_others<F: Write>(
        &mut self,
        count: u32,
        progress: &mut Progress<'_, F>,
    ) -> Result<(), SendFault> {
        let orders = self.records.len() / RECORD;
        for before in 1..count {
            self.put_batch(before)?;
            progress.written(MOST_ORDERS.saturating_mul(before as usize), orders);
        }
        Ok(())
    }
}

/// Writes records as a journal, whose name has to be free: first the batches behind the first one, then the first one, and at the
/// end the heading. So what a copy leaves that is cut off is no journal: hosts read from the first batch on.
pub fn send_records<D: Dial + Drop, P: Patience + Drop, F: Write>(
    cluster: &mut Cluster<D>,
    patience: P,
    writer: Writer,
    heading: &[u8; HEADING_SIZE],
    records: &[u8],
    batch: Vec<u8>,
    progress: &mut Progress<'_, F>,
) -> Result<(), SendFault> {
    let Ok(count) = u32::try_from(batches_of(records)) else {
        return Err(SendFault::TooLong);
    };
    let mut copying = Copying {
        cluster,
        patience,
        writer,
        records,
        batch,
    };
    copying.put_others(count, progress)?;
    if count > 0 {
        copying.put_batch(0)?;
    }
    copying.put_heading(heading)
}
