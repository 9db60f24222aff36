//! Plays a schedule between an acquirer and an issuer: what is sent, what gets lost, what comes twice or late.
//!
//! Each line of the input is an event, as `iso_events` reads them, and what both ends hold after it is printed beside it. An empty
//! line, and one that begins with `#`, is printed as it is.
#![tactic(auto)]

ghost use Rattle.iso_acquirer.specs.World.{IsFairEvent};

mod told;

use anyhow::{Context, Result};
use iso_acquirer::{Acquirer, Event, World};
use iso_events::{ScheduleLine, schedule_line};
use iso_issuer::{Accounts, Issuer, MOST_ENTRIES};
use iso_order::Pan;
use std::alloc::Global;
use std::io;
use told::{tell, tell_refused};

/// The acquirer's number.
const ACQUIRER: u64 = 12345;

/// The account of all purchases.
const PAN: &[u8] = b"4111111111111111";

/// What the issuer knows of it.
const ACCOUNTS: &[u8] =
    b"{\"accounts\":[{\"currency\":\"840\",\"opening\":5000,\"pan\":\"4111111111111111\"}]}";

/// Both ends, before anything is sent.
fn new_world(alloc: Global) -> Result<World> {
    let accounts = Accounts::from_json(alloc, ACCOUNTS).context("reading the account")?;
    Ok(World::new(
        Acquirer::new(alloc, ACQUIRER),
        Issuer::new(accounts, MOST_ENTRIES),
    ))
}

/// Plays an event, and prints what came of it.
fn play(rt: &HostRuntime, world: &mut World, pan: Pan, text: &str, event: &Event) -> io::Result<()>
    requires { IsFairEvent event.now }
{
    match world.step(*event) {
        Ok(()) => tell(rt, world, pan, text, event),
        Err(fault) => tell_refused(rt, text, &fault),
    }
}

/// Plays what a line says.
fn play_line(rt: &HostRuntime, world: &mut World, pan: Pan, text: &str) -> io::Result<()> {
    let line = schedule_line(pan, text);
    match &line {
        ScheduleLine::Said => println!(rt; "{text}"),
        ScheduleLine::Unknown => println!(rt; "{text:<12}  no event"),
        ScheduleLine::Event(event) => play(rt, world, pan, text, event),
    }
}

fn main(rt: HostRuntime) -> Result<()> {
    let mut world = new_world(rt.alloc())?;
    let pan = Pan::from_digits(PAN).context("reading the account number")?;
    let text = io::read_to_string(rt.alloc(), rt.stdin()).context("reading the schedule")?;
    for line in text.lines() {
        play_line(&rt, &mut world, pan, line)?;
    }
    Ok(())
}
