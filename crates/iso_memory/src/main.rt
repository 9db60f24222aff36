//! Makes each call that can want memory, and prints how it ended: `Answered`, `Refused` where a growth was refused in it,
//! `Unready` where one was refused before it, or `Wrong`.
//!
//! A call answers what it is known to answer. Where a growth was refused it answers its want of memory, all that it was lent
//! is as before, and the same call, made again, gives that answer. Some of the calls that take no memory are made too.
//!
//! The word behind the program's name is a number of allocations to make and drop first. A run in which the system refuses
//! one allocation, always at the same count, so refuses it to each growth in turn, as that number goes down
//! (`scripts/memory.sh`).
#![tactic(auto)]

mod accounts;
mod driving;
mod ended;
mod fields;
mod host;
mod known;
mod messages;
mod orders;
mod peers;
mod tables;
mod without;
mod world;

use ended::Ended;
use std::alloc::Global;
use std::{env, io};

/// The number that the first word is: 0 where there is none.
fn burns_of(rt: &HostRuntime) -> io::Result<u32> {
    let mut words = env::args(rt)?.skip(1);
    Ok(words.next().and_then(|word| word.parse().ok()).unwrap_or(0))
}

/// Makes and drops so many allocations.
fn burn(alloc: Global, burns: u32) -> Ended {
    let mut ended = Ended::Answered;
    for _ in 0..burns {
        if Vec::<u8>::with_capacity(alloc, 1).is_err() {
            ended = Ended::Refused;
        }
    }
    ended
}

fn tell(rt: &HostRuntime, rows: &[(&str, Ended)]) -> io::Result<()> {
    for (call, ended) in rows {
        println!(rt; "{ended:?} {call}")?;
    }
    Ok(())
}

fn main(rt: HostRuntime) -> io::Result<()> {
    let alloc = rt.alloc();
    let burns = burns_of(&rt)?;
    tell(&rt, &[("nothing", burn(alloc, burns))])?;
    tell(&rt, &fields::rows(alloc))?;
    tell(&rt, &tables::rows(alloc))?;
    tell(&rt, &messages::rows(alloc))?;
    tell(&rt, &orders::rows(alloc))?;
    tell(&rt, &accounts::rows(alloc))?;
    tell(&rt, &world::rows(alloc))?;
    tell(&rt, &host::rows(alloc))?;
    tell(&rt, &peers::rows(alloc))?;
    tell(&rt, &driving::rows(alloc))?;
    tell(&rt, &without::rows(alloc))
}
