//! Crashes at every byte, and a disk that fails at each call in turn.

use crate::day::{CODES, Keeper, RULES, day, is_answer, left_of, new_keeper, open_with, repeats};
use iso_log::RECORD;
use iso_log_tests::Tear;
use iso_order::Order;
use std::alloc::Global;
use std::test::Fail;

/// An issuer that answered the first two orders, and decided the others, which wait for a sync.
fn half_kept(alloc: Global, orders: &[Order; 4]) -> Option<Keeper> {
    let mut keeper = new_keeper(alloc)?;
    let answered = match keeper.answer_all(alloc, &orders[..2]) {
        Ok(answers) => answers.len() == 2,
        Err(_) => false,
    };
    let waits = keeper.decide(orders[2]).is_ok() && keeper.decide(orders[3]).is_ok();
    if answered && waits {
        Some(keeper)
    } else {
        None
    }
}

/// Whether a start after the crash has so many of the orders, gives them their first answers, and goes on with the others.
fn goes_on(alloc: Global, before: &Keeper, tear: Tear, kept: u32, orders: &[Order]) -> bool {
    let Some(disk) = left_of(alloc, before, tear) else {
        return false;
    };
    let Ok(mut keeper) = open_with(alloc, disk, false, RULES) else {
        return false;
    };
    keeper.issuer.len() == kept && repeats(&mut keeper, orders) && keeper.issuer.len() == 4
}

/// The place at which a torn write leaves too few or too many orders, or changes an answer.
fn wrong_tear(alloc: Global, before: &Keeper, orders: &[Order]) -> Option<usize> {
    for end in 3 * RECORD..5 * RECORD + 1 {
        let kept = (end / RECORD) as u32 - 1;
        if !goes_on(alloc, before, Tear::Front(end), kept, orders) {
            return Some(end);
        }
    }
    None
}

/// The mix of old and new bytes that leaves too few or too many orders, or changes an answer.
fn wrong_mix(alloc: Global, before: &Keeper, orders: &[Order]) -> Option<usize> {
    for number in 0..5 {
        if !goes_on(alloc, before, Tear::Some(number), 2, orders) {
            return Some(number);
        }
    }
    None
}

#[test]
fn answers_outlive_a_crash_at_every_byte(rt: HostRuntime) -> Result<(), Fail> {
    let alloc = rt.alloc();
    let orders = day().ok_or("no day")?;
    let before = half_kept(alloc, &orders).ok_or("no journal")?;
    if let Some(end) = wrong_tear(alloc, &before, &orders) {
        return Err(Fail::new(format_args!("torn at {end}")));
    }
    if let Some(number) = wrong_mix(alloc, &before, &orders) {
        return Err(Fail::new(format_args!("mix {number}")));
    }
    Ok(())
}

/// What a disk that fails after so many calls has answered: all orders with their codes, or none.
fn is_all_or_none(alloc: Global, keeper: &mut Keeper, orders: &[Order]) -> Option<bool> {
    match keeper.answer_all(alloc, orders) {
        Err(_) => Some(false),
        Ok(answers) => {
            let mut all = answers.len() == CODES.len();
            for (number, answer) in answers.iter().enumerate() {
                all = all && is_answer(number, *answer);
            }
            if all { Some(true) } else { None }
        }
    }
}

/// Whether an issuer whose disk fails after so many calls answers all or none, and stays still after a failure; and whether
/// the next start finds all orders where they were answered.
fn outlives_failure(alloc: Global, calls: u64, orders: &[Order]) -> bool {
    let Some(mut keeper) = new_keeper(alloc) else {
        return false;
    };
    keeper.log.log.disk.calls_left = calls;
    let Some(is_answered) = is_all_or_none(alloc, &mut keeper, orders) else {
        return false;
    };
    let is_still = is_answered || keeper.sync().is_err();
    let Some(disk) = left_of(alloc, &keeper, Tear::Some(calls as usize)) else {
        return false;
    };
    let Ok(mut next) = open_with(alloc, disk, false, RULES) else {
        return false;
    };
    let kept = next.issuer.len();
    let is_kept = if is_answered { kept == 4 } else { kept <= 4 };
    is_still && is_kept && repeats(&mut next, orders)
}

#[test]
fn a_disk_may_fail_at_each_call(rt: HostRuntime) -> Result<(), Fail> {
    let alloc = rt.alloc();
    let orders = day().ok_or("no day")?;
    for calls in 0..8 {
        if !outlives_failure(alloc, calls, &orders) {
            return Err(Fail::new(format_args!("{calls} calls")));
        }
    }
    Ok(())
}
