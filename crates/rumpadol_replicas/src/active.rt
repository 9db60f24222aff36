//! A host that is the active one of its journal.
use crate::following::{Claim, Follower, Replica};
use crate::progress::Progress;
use crate::sentences::unread;
use iso_etcd::Fault;
use iso_issuer::Accounts;
use iso_record::Heading;
use rumpadol_cluster::{ReplicaWords, has_passed, longest_wait};
use rumpadol_journals::KeptWords;
use rumpadol_members::{now, pause};
use rumpadol_tables::{Source, Stop, write_output};
use std::alloc::Global;
use std::io::Write;
use std::net::Net;
use std::random::RandomSource;
use std::time::Clock;

/// Says why this host isn't active yet, and what it waits for.
fn tell_wait<F: Write>(
    alloc: Global,
    word: &str,
    claim: Claim,
    wait: u64,
    faults: &mut F,
) -> Result<(), Stop> {
    let seconds = wait / 1_000;
    let line = match claim {
        Claim::Away => format!(in alloc;
            "rumpadol: {word}: no member answers in time; this host asks for up to {seconds} seconds to be the active one, and then goes on all the same\n"
        )?,
        _ => format!(in alloc;
            "rumpadol: {word}: another host is active; this one waits up to {seconds} seconds for the end of its lease, and then goes on in its place\n"
        )?,
    };
    write_output(faults, line.as_bytes())
}

/// Whether nobody is active any more, so that this host is.
fn is_turn<N: Net + Clock>(
    alloc: Global,
    word: &str,
    follower: &mut Follower<'_, '_, N>,
) -> Result<bool, Stop> {
    match follower.stand.is_free() {
        Ok(true) => Ok(follower.claim()? == Claim::Active),
        Ok(false) | Err(Fault::Away) => Ok(false),
        Err(fault) => Err(unread(alloc, word, fault)),
    }
}

/// Waits until nobody else is active, or so long.
fn wait_for_turn<N: Net + Clock>(
    alloc: Global,
    net: &N,
    word: &str,
    follower: &mut Follower<'_, '_, N>,
    wait: u64,
) -> Result<(), Stop> {
    let began = now(net);
    for _ in 0..u64::MAX {
        if has_passed(began, now(net), wait) || is_turn(alloc, word, follower)? {
            return Ok(());
        }
        pause(net);
    }
    Ok(())
}

/// Becomes the active host. Where another one is, waits for the end of its lease, and says so.
fn become_active<N: Net + Clock, F: Write>(
    alloc: Global,
    net: &N,
    word: &str,
    follower: &mut Follower<'_, '_, N>,
    wait: u64,
    faults: &mut F,
) -> Result<(), Stop> {
    let claim = follower.claim()?;
    if claim == Claim::Active {
        return Ok(());
    }
    tell_wait(alloc, word, claim, wait, faults)?;
    wait_for_turn(alloc, net, word, follower, wait)
}

/// Reads the whole journal, and tells a terminal how far it is.
fn read_all<N: Net + Clock, F: Write>(
    follower: &mut Follower<'_, '_, N>,
    is_terminal: bool,
    faults: &mut F,
) -> Result<(), Stop> {
    let mut progress = Progress::new(faults, is_terminal);
    let read = follower.catch_up(&mut progress);
    progress.clear();
    read
}

/// Becomes the active host, and reads the whole journal.
fn go_on<N: Net + Clock, F: Write>(
    alloc: Global,
    net: &N,
    word: &str,
    follower: &mut Follower<'_, '_, N>,
    wait: u64,
    is_terminal: bool,
    faults: &mut F,
) -> Result<(), Stop> {
    become_active(alloc, net, word, follower, wait, faults)?;
    let read = read_all(follower, is_terminal, faults);
    if read.is_err() {
        // the next host needn't wait for the end of the lease
        let _ = follower.stand.give_up();
    }
    read
}

/// A host that is the active one of the journal of these accounts, which is begun before where that is asked. Where another
/// host is active, it waits for the end of its lease, at most three leases.
pub fn start_active<'n, N: Net + Clock + RandomSource, S: Source, F: Write>(
    alloc: Global,
    net: &'n N,
    kept: KeptWords<'_>,
    words: &ReplicaWords<'_>,
    accounts: Accounts,
    heading: &Heading,
    source: &S,
    is_terminal: bool,
    faults: &mut F,
) -> Result<Replica<'n, N>, Stop> {
    let mut follower = Follower::find(alloc, net, source, kept, words, accounts, heading)?;
    let wait = longest_wait(words.lease());
    go_on(
        alloc,
        net,
        kept.journal,
        &mut follower,
        wait,
        is_terminal,
        faults,
    )?;
    Ok(follower.started())
}
