//! The speed of the codec.

use crate::messages::{PAYMENT, large_message};
use crate::speed::Speed;
use anyhow::{Result, ensure};
use iso_table::Table;
use iso_wire::{Message, pack, unpack, view};
use std::alloc::Global;
use std::rt::Clock;
use std::time::Instant;

/// How many times fewer the large message is read and written.
const FEWER: u32 = 100;

/// Reads the bytes so many times.
fn read_speed(
    rt: &impl Clock,
    alloc: Global,
    table: &Table,
    bytes: &[u8],
    times: u32,
) -> Result<Speed> {
    let start = Instant::now(rt)?;
    for _ in 0..times {
        let (_message, used) = unpack(alloc, table, bytes)?;
        ensure!(used == bytes.len(), "bytes are left");
    }
    Speed::since(rt, start, u64::from(times))
}

/// Writes the message so many times.
fn write_speed(
    rt: &impl Clock,
    alloc: Global,
    table: &Table,
    message: &Message,
    times: u32,
) -> Result<Speed> {
    let start = Instant::now(rt)?;
    for _ in 0..times {
        let bytes = pack(alloc, table, message)?;
        ensure!(!bytes.is_empty(), "nothing is written");
    }
    Speed::since(rt, start, u64::from(times))
}

/// Views the bytes so many times, and reads each time the first byte of a body. The payment has element 2, and the large
/// message element 126.
fn view_speed(rt: &impl Clock, table: &Table, bytes: &[u8], times: u32) -> Result<Speed> {
    let start = Instant::now(rt)?;
    for _ in 0..times {
        let view = view(table, bytes)?;
        ensure!(view.used() == bytes.len(), "bytes are left");
        let body = view.wire(2).or_else(|| view.wire(126));
        let first = body.and_then(|body| body.first());
        ensure!(first.is_some_and(|b| *b != 0), "an element is missing");
    }
    Speed::since(rt, start, u64::from(times))
}

/// Prints what one call took. `bench/instructions.sh` tells one call from the next by it.
#[inline(never)]
fn print(rt: &impl Print, verb: &str, size: usize, speed: Speed) -> Result<()> {
    let nanos = speed.nanos_each();
    let each_second = speed.each_second();
    println!(rt; "{verb} bytes={size} nanoseconds={nanos} messages_per_second={each_second}")?;
    Ok(())
}

/// Measures one message.
fn measure_one(
    rt: &(impl Clock + Print),
    alloc: Global,
    table: &Table,
    bytes: &[u8],
    times: u32,
) -> Result<()> {
    let (message, _used) = unpack(alloc, table, bytes)?;
    let again = pack(alloc, table, &message)?;
    ensure!(again.as_slice() == bytes, "other bytes are written");
    let speed = read_speed(rt, alloc, table, bytes, times)?;
    print(rt, "unpack", bytes.len(), speed)?;
    let speed = write_speed(rt, alloc, table, &message, times)?;
    print(rt, "pack", bytes.len(), speed)?;
    let speed = view_speed(rt, table, bytes, times)?;
    print(rt, "view", bytes.len(), speed)
}

/// Measures the payment so many times, and the large message a hundredth as often.
pub fn measure(rt: &(impl Clock + Print), alloc: Global, times: u32) -> Result<()> {
    let table = Table::ascii87(alloc)?;
    let large = large_message(alloc)?;
    let bytes = pack(alloc, &table, &large)?;
    measure_one(rt, alloc, &table, PAYMENT, times)?;
    measure_one(rt, alloc, &table, &bytes, (times / FEWER).max(1))
}
