//! The speed of the issuer.

use crate::orders::{ACCOUNTS, AMOUNT, accounts, pan, purchase, reversal};
use crate::speed::Speed;
use anyhow::{Context, Result, ensure};
use iso_issuer::{Issuer, MOST_ENTRIES};
use iso_order::Order;
use std::alloc::Global;
use std::rt::Clock;
use std::time::Instant;

/// How many orders of each kind are measured, unless the journal has fewer entries.
const SAMPLE: u32 = 2000;

/// An issuer, and how many orders of each kind it was handed.
#[derive(Drop)]
struct Load {
    issuer: Issuer,
    purchases: u32,
    reversals: u32,
}

/// Of so many entries that fill the journal one is a reversal, of the first of the purchases before it.
const TENTH: u32 = 10;

/// Hands the orders over, each of which has to be granted. `bench/instructions.sh` counts what is done in here.
#[inline(never)]
fn hand_over(rt: &impl Clock, issuer: &mut Issuer, orders: &[Order]) -> Result<Speed> {
    let start = Instant::now(rt)?;
    for order in orders {
        let answer = issuer.handle(*order)?;
        ensure!(answer.code == 0, "an order isn't granted");
    }
    Speed::since(rt, start, orders.len() as u64)
}

/// The place of the `i`th of `count` that are spread over the places from `from` to `to`.
fn spread_place(from: u32, to: u32, count: u32, i: u32) -> u32 {
    let step = to.saturating_sub(from) / count.max(1);
    from.saturating_add(step.saturating_mul(i))
}

/// Purchases that were handed over, spread over all of them.
fn repeats(alloc: Global, purchases: u32, count: u32) -> Result<Vec<Order>> {
    let mut orders = Vec::new(alloc);
    for i in 0..count {
        orders.push(purchase(spread_place(0, purchases, count, i))?)?;
    }
    Ok(orders)
}

/// The next purchases.
fn purchases(alloc: Global, from: u32, count: u32) -> Result<Vec<Order>> {
    let mut orders = Vec::new(alloc);
    for i in 0..count {
        orders.push(purchase(from.saturating_add(i))?)?;
    }
    Ok(orders)
}

/// The `i`th purchase that filling doesn't reverse: it reverses only those whose number 9 divides.
fn standing_purchase(i: u32) -> u32 {
    i.saturating_add(i / (TENTH - 2)).saturating_add(1)
}

/// How many of so many purchases filling doesn't reverse.
fn standing_count(purchases: u32) -> u32 {
    purchases - purchases.div_ceil(TENTH - 1)
}

/// The next reversals, each of another purchase that stands. They are spread over those from `from` to `to`.
fn reversals(alloc: Global, next: u32, from: u32, to: u32, count: u32) -> Result<Vec<Order>> {
    let (first, behind) = (standing_count(from), standing_count(to));
    let stand = behind.saturating_sub(first);
    ensure!(
        stand >= count,
        "too few purchases came since the size before"
    );
    let mut orders = Vec::new(alloc);
    for i in 0..count {
        let original = standing_purchase(spread_place(first, behind, count, i));
        orders.push(reversal(next.saturating_add(i), original)?)?;
    }
    Ok(orders)
}

impl Load {
    fn new(alloc: Global) -> Result<Load> {
        Ok(Load {
            issuer: Issuer::new(accounts(alloc)?, MOST_ENTRIES),
            purchases: 0,
            reversals: 0,
        })
    }

    /// The next order that fills the journal.
    fn next(&mut self, is_reversal: bool) -> Result<Order> {
        if is_reversal {
            let original = (self.purchases / (TENTH - 1)).saturating_sub(1) * (TENTH - 1);
            let order = reversal(self.reversals, original)?;
            self.reversals = self.reversals.saturating_add(1);
            Ok(order)
        } else {
            let order = purchase(self.purchases)?;
            self.purchases = self.purchases.saturating_add(1);
            Ok(order)
        }
    }

    /// Hands over purchases, and their reversals, until the journal has so many entries.
    fn fill(&mut self, size: u32) -> Result<()> {
        for entries in self.issuer.len()..size {
            let order = self.next(entries % TENTH == TENTH - 1)?;
            self.issuer.handle(order)?;
        }
        Ok(())
    }

    /// Hands over so many new purchases.
    fn hand_new(&mut self, rt: &impl Clock, alloc: Global, count: u32) -> Result<Speed> {
        let orders = purchases(alloc, self.purchases, count)?;
        self.purchases = self.purchases.saturating_add(count);
        hand_over(rt, &mut self.issuer, &orders)
    }

    /// Hands over so many purchases again.
    fn hand_again(&mut self, rt: &impl Clock, alloc: Global, count: u32) -> Result<Speed> {
        let orders = repeats(alloc, self.purchases, count)?;
        hand_over(rt, &mut self.issuer, &orders)
    }

    /// What all accounts have together.
    fn total_ledger(&self) -> Result<i64> {
        let mut held: i64 = 0;
        for n in 0..ACCOUNTS {
            let ledger = self.issuer.ledger(pan(n)?).context("an account")?;
            held = held.saturating_add(ledger);
        }
        Ok(held)
    }

    /// Hands over so many reversals, of purchases behind the first `from`. Each has to give its amount back.
    fn hand_reversals(
        &mut self,
        rt: &impl Clock,
        alloc: Global,
        from: u32,
        count: u32,
    ) -> Result<Speed> {
        let orders = reversals(alloc, self.reversals, from, self.purchases, count)?;
        self.reversals = self.reversals.saturating_add(count);
        let before = self.total_ledger()?;
        let speed = hand_over(rt, &mut self.issuer, &orders)?;
        let given_back = self.total_ledger()?.saturating_sub(before);
        let wanted = i64::from(count) * i64::from(AMOUNT);
        ensure!(given_back == wanted, "a reversed purchase didn't stand");
        Ok(speed)
    }
}

/// Prints what one order took. `bench/instructions.sh` tells one kind from the next by it.
#[inline(never)]
fn print(rt: &impl Print, kind: &str, entries: u32, speed: Speed) -> Result<()> {
    let nanos = speed.nanos_each();
    let each_second = speed.each_second();
    println!(rt; "{kind} entries={entries} nanoseconds={nanos} orders_per_second={each_second}")?;
    Ok(())
}

/// Measures the orders that fill the journal to so many entries.
fn measure_fill(rt: &(impl Clock + Print), load: &mut Load, size: u32) -> Result<()> {
    let entries = load.issuer.len();
    if size <= entries {
        return Ok(());
    }
    let start = Instant::now(rt)?;
    load.fill(size)?;
    let speed = Speed::since(rt, start, u64::from(size - entries))?;
    print(rt, "fill", size, speed)
}

/// Measures orders of each kind at that size. Reversed are purchases that came since the size before.
fn measure_at(rt: &(impl Clock + Print), alloc: Global, load: &mut Load, size: u32) -> Result<()> {
    let from = load.purchases;
    measure_fill(rt, load, size)?;
    let entries = load.issuer.len();
    let count = entries.min(SAMPLE);
    print(rt, "new", entries, load.hand_new(rt, alloc, count)?)?;
    print(rt, "repeat", entries, load.hand_again(rt, alloc, count)?)?;
    let speed = load.hand_reversals(rt, alloc, from, count)?;
    print(rt, "reversal", entries, speed)
}

/// Measures orders of each kind, size by size.
pub fn measure(rt: &(impl Clock + Print), alloc: Global, sizes: &[u32]) -> Result<()> {
    let mut load = Load::new(alloc)?;
    for size in sizes {
        measure_at(rt, alloc, &mut load, *size)?;
    }
    Ok(())
}
