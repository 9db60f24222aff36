//! The calls of a driver: a request and an answer as bytes, and the times that answers took.

use crate::ended::Ended;
use crate::known::{ACQUIRER, GRANTED, SENT, message, undo};
use crate::orders::REVERSAL;
use iso_exchange::{answer_in, write_request};
use iso_order::{Order, Told, TxKey};
use iso_table::Table;
use iso_tally::{Bucket, Latencies};
use iso_wire::{pack, unpack};
use std::alloc::Global;

/// Writes the request for an order that isn't a purchase, which is those bytes, behind two zeros. One for a purchase that is
/// refused its room is written by a message instead, and tells no want of memory.
fn writes(alloc: Global, order: Option<Order>, wanted: Option<Vec<u8>>) -> Ended {
    let (Ok(table), Some(order), Some(wanted)) = (Table::ascii87(alloc), order, wanted) else {
        return Ended::Unready;
    };
    let mut out = Vec::new(alloc);
    let mut told = write_request(alloc, &table, 2, &order, &mut out);
    let was_refused = told.is_err();
    if was_refused {
        told = write_request(alloc, &table, 2, &order, &mut out);
    }
    let is_right = told.is_ok()
        && out.get(..2) == Some(b"\0\0".as_slice())
        && out.get(2..) == Some(wanted.as_slice());
    Ended::of(was_refused, is_right)
}

/// The bytes of the reversal of the purchase.
fn reversal_bytes(alloc: Global) -> Option<Vec<u8>> {
    let table = Table::ascii87(alloc).ok()?;
    let reversal = message(alloc, 420, &REVERSAL)?;
    pack(alloc, &table, &reversal).ok()
}

/// The response that grants the purchase, in packed digits, and its table.
fn packed_response(alloc: Global) -> Option<(Table, Vec<u8>)> {
    let plain = Table::ascii87(alloc).ok()?;
    let (response, _) = unpack(alloc, &plain, GRANTED).ok()?;
    let packed = Table::bcd87(alloc).ok()?;
    let bytes = pack(alloc, &packed, &response).ok()?;
    Some((packed, bytes))
}

/// Reads that response where it lies. The acquirer's number is decoded in the room that is lent.
fn reads(alloc: Global) -> Ended {
    let Some((table, bytes)) = packed_response(alloc) else {
        return Ended::Unready;
    };
    let key = TxKey {
        base: 200,
        stan: 7,
        sent: SENT,
        acquirer: ACQUIRER,
    };
    let mut text = Vec::new(alloc);
    let mut told = answer_in(&table, &bytes, &mut text);
    let was_refused = told.is_err();
    if was_refused {
        told = answer_in(&table, &bytes, &mut text);
    }
    let is_right = matches!(told, Ok(Some(told)) if told == Told { key, code: 0 });
    Ended::of(was_refused, is_right)
}

fn adds_a_time(alloc: Global) -> Ended {
    let mut latencies = Latencies::new(alloc);
    let mut told = latencies.add(1_500);
    let was_refused = told.is_err();
    if was_refused && !latencies.is_empty() {
        return Ended::Wrong;
    }
    if was_refused {
        told = latencies.add(1_500);
    }
    Ended::of(was_refused, told.is_ok() && latencies.len() == 1)
}

/// Whether these are the buckets of 1.5 ms: the one from 1 to 2 ms has it.
fn are_right(buckets: &[Bucket]) -> bool {
    let right = Bucket {
        from: 1_000,
        below: Some(2_000),
        count: 1,
    };
    buckets.len() == 20 && buckets.get(7) == Some(&right)
}

fn counts_buckets(alloc: Global) -> Ended {
    let mut latencies = Latencies::new(alloc);
    if latencies.add(1_500).is_err() {
        return Ended::Unready;
    }
    let mut told = latencies.buckets(alloc);
    let was_refused = told.is_err();
    if was_refused {
        told = latencies.buckets(alloc);
    }
    let is_right = matches!(&told, Ok(buckets) if are_right(buckets));
    Ended::of(was_refused, is_right)
}

/// These calls by name, and how each ended.
pub fn rows(alloc: Global) -> [(&'static str, Ended); 4] {
    [
        (
            "write_request",
            writes(alloc, undo(8, 7), reversal_bytes(alloc)),
        ),
        ("answer_in", reads(alloc)),
        ("Latencies::add", adds_a_time(alloc)),
        ("Latencies::buckets", counts_buckets(alloc)),
    ]
}
