//! The speed of a journal in a file.

use crate::orders::{accounts, purchase};
use crate::speed::Speed;
use anyhow::{Result, bail, ensure};
use iso_durable::DurableIssuer;
use iso_gather::GatheredDisk;
use iso_issuer::{Issuer, MOST_ENTRIES};
use iso_journal::{JournalLog, Unwatched, create, open};
use iso_log::LogError;
use iso_order::Order;
use iso_record::Heading;
use sqlite_std_file::{File, Unknown};
use std::alloc::Global;
use std::time::Instant;

/// How many orders may wait for one sync.
const MOST_GROUP: usize = 512;

/// The heading of every journal that is measured.
const HEADING: Heading = Heading {
    rules: 3,
    first: 1,
    second: 2,
    third: 3,
    fourth: 4,
};

/// The file at a path, which is made where there is none, as a host has it: a group is one write.
fn file_at(rt: &HostRuntime, path: &str) -> Result<GatheredDisk<File>> {
    match sqlite_std_file::open(rt, path, Unknown) {
        Ok(files) => Ok(GatheredDisk::new(rt.alloc(), files.db)),
        Err(_) => bail!("the file can't be opened"),
    }
}

/// Makes a journal with room for so many orders.
fn make(rt: &HostRuntime, path: &str, orders: usize) -> Result<()> {
    match create(file_at(rt, path)?, &HEADING, orders.saturating_add(2)) {
        Ok(_) => Ok(()),
        Err(LogError::NotEmpty) => bail!("there is something in the file already"),
        Err(_) => bail!("the journal can't be made"),
    }
}

/// The issuer over the journal in a file.
fn start(
    rt: &HostRuntime,
    alloc: Global,
    path: &str,
) -> Result<DurableIssuer<JournalLog<GatheredDisk<File>>>> {
    let file = file_at(rt, path)?;
    let accounts = accounts(alloc)?;
    match open(
        file,
        &HEADING,
        accounts,
        MOST_ENTRIES,
        MOST_GROUP,
        &mut Unwatched,
    ) {
        Ok(issuer) => Ok(issuer),
        Err(_) => bail!("the journal can't be opened"),
    }
}

/// So many purchases.
fn purchases(alloc: Global, count: u32) -> Result<Vec<Order>> {
    let mut orders = Vec::new(alloc);
    for number in 0..count {
        orders.push(purchase(number)?)?;
    }
    Ok(orders)
}

/// Answers a group, each order of which has to be granted.
fn answer_group(
    alloc: Global,
    issuer: &mut DurableIssuer<JournalLog<GatheredDisk<File>>>,
    orders: &[Order],
) -> Result<()> {
    let Ok(answers) = issuer.answer_all(alloc, orders) else {
        bail!("the journal failed");
    };
    for answer in &answers {
        ensure!(answer.code == 0, "an order isn't granted");
    }
    Ok(())
}

/// Measures so many groups of so many orders, each group with one sync. The orders are there beforehand.
pub fn measure(rt: &HostRuntime, alloc: Global, path: &str, group: u32, groups: u32) -> Result<()> {
    let count = group.saturating_mul(groups);
    make(rt, path, count as usize)?;
    let mut issuer = start(rt, alloc, path)?;
    let orders = purchases(alloc, count)?;
    let begun = Instant::now(rt)?;
    for group in orders.chunks((group as usize).max(1)) {
        answer_group(alloc, &mut issuer, group)?;
    }
    let speed = Speed::since(rt, begun, u64::from(count))?;
    let (nanos, each_second) = (speed.nanos_each(), speed.each_second());
    println!(rt; "journal group={group} nanoseconds={nanos} orders_per_second={each_second}")?;
    Ok(())
}

/// Prints what one order took.
fn print(rt: &HostRuntime, kind: &str, entries: u32, begun: Instant) -> Result<()> {
    let speed = Speed::since(rt, begun, u64::from(entries))?;
    let (nanos, each_second) = (speed.nanos_each(), speed.each_second());
    println!(rt; "{kind} entries={entries} nanoseconds={nanos} orders_per_second={each_second}")?;
    Ok(())
}

/// Hands orders to an issuer without a journal's file.
fn handle_all(alloc: Global, orders: &[Order]) -> Result<()> {
    let mut issuer = Issuer::new(accounts(alloc)?, MOST_ENTRIES);
    for order in orders {
        issuer.handle(*order)?;
    }
    Ok(())
}

/// Measures the start over a journal that was filled, and beside it what handling the same orders takes.
pub fn measure_start(rt: &HostRuntime, alloc: Global, path: &str) -> Result<()> {
    let begun = Instant::now(rt)?;
    let started = start(rt, alloc, path)?;
    print(rt, "start", started.issuer.len(), begun)?;
    let begun = Instant::now(rt)?;
    handle_all(alloc, started.issuer.orders())?;
    print(rt, "handling", started.issuer.len(), begun)
}
