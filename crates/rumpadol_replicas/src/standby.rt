//! A host that reads on in a journal on etcd until it is its turn.
use crate::control::Door;
use crate::following::{Claim, Follower, Replica};
use crate::progress::Progress;
use iso_issuer::Accounts;
use iso_record::Heading;
use iso_shared::OpenError;
use rumpadol_cluster::{ReplicaWords, has_passed};
use rumpadol_journals::KeptWords;
use rumpadol_members::{now, pause};
use rumpadol_tables::{Source, Stop, refused, write_output};
use std::alloc::Global;
use std::fs;
use std::io::Write;
use std::net::Net;
use std::random::RandomSource;
use std::rt::Files;
use std::time::Clock;

/// How often it is looked whether anybody is active, in milliseconds.
const LOOKS: u64 = 200;

/// Why a standby takes over.
#[derive(Clone, Copy, PartialEq, Eq)]
pub enum Turn {
    /// Its stop file went.
    File,
    /// It was told to.
    Told,
    /// Nobody was active.
    Free,
}

/// What a standby has outside.
#[derive(Drop)]
struct Outer<'a, 'n, N: Net> {
    net: &'n N,
    stop_file: Option<&'a str>,
    door: Option<Door<N>>,
    /// When it was looked last whether anybody is active.
    looked: u64,
    /// Whether it was said that no member answers.
    is_away: bool,
}

/// Whether a file is there. Where that can't be told, it is.
fn is_there<N: Files>(net: &N, path: &str) -> bool {
    !matches!(fs::exists(net, path), Ok(false))
}

/// Refuses to start where the stop file isn't there.
fn check_stop_file<N: Files>(alloc: Global, net: &N, path: Option<&str>) -> Result<(), Stop> {
    match path {
        Some(path) if !is_there(net, path) => Err(refused(format!(in alloc;
            "rumpadol: {path}: the stop file isn't there, so the standby would take over at once; make it first\n"
        ))),
        _ => Ok(()),
    }
}

/// The address at which the standby is told to take over, where one is named.
fn door_asked<N: Net>(alloc: Global, net: &N, text: Option<&str>) -> Result<Option<Door<N>>, Stop> {
    match text {
        Some(text) => Ok(Some(Door::open(alloc, net, text)?)),
        None => Ok(None),
    }
}

impl<'a, 'n, N: Net> Outer<'a, 'n, N> {
    /// The stop file, and the address at which the standby is told to take over, where they are named.
    fn new(
        alloc: Global,
        net: &'n N,
        stop_file: Option<&'a str>,
        control: Option<&str>,
    ) -> Result<Outer<'a, 'n, N>, Stop> {
        Ok(Outer {
            net,
            stop_file,
            door: door_asked(alloc, net, control)?,
            looked: 0,
            is_away: false,
        })
    }
}

impl<'a, 'n, N: Net + Clock + Files> Outer<'a, 'n, N> {
    /// Whether its stop file went.
    fn has_gone(&self) -> bool {
        match self.stop_file {
            Some(path) => !is_there(self.net, path),
            None => false,
        }
    }

    /// Whether it was told to take over.
    fn is_told(&mut self) -> bool {
        match &mut self.door {
            Some(door) => door.is_told(),
            None => false,
        }
    }

    /// Whether it is time to look whether anybody is active.
    fn is_time(&mut self) -> bool {
        let moment = now(self.net);
        if !has_passed(self.looked, moment, LOOKS) {
            return false;
        }
        self.looked = moment;
        true
    }

    /// Whether nobody was active, and this host is now. Where that can't be told, it is asked again later.
    fn is_free(&mut self, follower: &mut Follower<'_, 'n, N>) -> bool {
        self.is_time()
            && matches!(follower.stand.is_free(), Ok(true))
            && matches!(follower.claim(), Ok(Claim::Active))
    }

    /// Whether it is its turn, and why.
    fn turn(&mut self, follower: &mut Follower<'_, 'n, N>) -> Option<Turn> {
        if self.has_gone() {
            return Some(Turn::File);
        }
        if self.is_told() {
            return Some(Turn::Told);
        }
        if self.is_free(follower) {
            return Some(Turn::Free);
        }
        None
    }

    /// Says once that no member answers.
    fn tell_away<F: Write>(
        &mut self,
        alloc: Global,
        word: &str,
        faults: &mut F,
    ) -> Result<(), Stop> {
        if self.is_away {
            return Ok(());
        }
        self.is_away = true;
        let line = format!(in alloc;
            "rumpadol: {word}: no member of the cluster answers; the standby goes on asking\n"
        )?;
        write_output(faults, line.as_bytes())
    }

    /// Reads one batch, where there is one, and tells whether there was.
    fn read_on<F: Write>(
        &mut self,
        alloc: Global,
        word: &str,
        follower: &mut Follower<'_, 'n, N>,
        faults: &mut F,
    ) -> Result<bool, Stop> {
        match follower.read_on() {
            Ok(is_found) => {
                self.is_away = false;
                Ok(is_found)
            }
            Err(OpenError::Away) => {
                self.tell_away(alloc, word, faults)?;
                Ok(false)
            }
            Err(error) => Err(follower.stopped(error)),
        }
    }

    /// Reads on until it is the standby's turn.
    fn wait<F: Write>(
        &mut self,
        alloc: Global,
        word: &str,
        follower: &mut Follower<'_, 'n, N>,
        faults: &mut F,
    ) -> Result<Turn, Stop> {
        for _ in 0..u64::MAX {
            let is_found = self.read_on(alloc, word, follower, faults)?;
            if let Some(turn) = self.turn(follower) {
                return Ok(turn);
            }
            if !is_found {
                pause(self.net);
            }
        }
        Ok(Turn::Free)
    }

    /// Reads on until it is the standby's turn, and takes over.
    fn stand_by<F: Write>(
        &mut self,
        alloc: Global,
        word: &str,
        follower: &mut Follower<'_, 'n, N>,
        faults: &mut F,
    ) -> Result<(), Stop> {
        let turn = self.wait(alloc, word, follower, faults)?;
        take_over(follower, turn, faults)?;
        tell_turn(alloc, word, turn, follower.orders(), faults)
    }
}

/// Says that the standby takes over, and why.
fn tell_turn<F: Write>(
    alloc: Global,
    word: &str,
    turn: Turn,
    orders: u32,
    faults: &mut F,
) -> Result<(), Stop> {
    let why = match turn {
        Turn::File => "its stop file is gone",
        Turn::Told => "it was told to",
        Turn::Free => "no host was active",
    };
    let line = format!(in alloc;
        "rumpadol: {word}: the standby takes over, since {why}; entries={orders}\n"
    )?;
    write_output(faults, line.as_bytes())
}

/// Takes over: asks to be the active host, and reads what came since.
fn take_over<N: Net + Clock, F: Write>(
    follower: &mut Follower<'_, '_, N>,
    turn: Turn,
    faults: &mut F,
) -> Result<(), Stop> {
    if turn != Turn::Free {
        // where another host is active it is so until it writes: no answer depends on the lease
        let _ = follower.claim();
    }
    let read = follower.catch_up(&mut Progress::new(faults, false));
    if read.is_err() {
        let _ = follower.stand.give_up();
    }
    read
}

/// A host that reads on in the journal of these accounts, and goes on as the active one when it is its turn: when its stop file
/// goes, when it is told, or when nobody is active.
pub fn start_standby<'n, N: Net + Clock + RandomSource + Files, S: Source, F: Write>(
    alloc: Global,
    net: &'n N,
    kept: KeptWords<'_>,
    words: &ReplicaWords<'_>,
    stop_file: Option<&str>,
    accounts: Accounts,
    heading: &Heading,
    source: &S,
    faults: &mut F,
) -> Result<Replica<'n, N>, Stop> {
    check_stop_file(alloc, net, stop_file)?;
    let mut follower = Follower::find(alloc, net, source, kept, words, accounts, heading)?;
    let mut outer = Outer::new(alloc, net, stop_file, words.control)?;
    outer.stand_by(alloc, kept.journal, &mut follower, faults)?;
    Ok(follower.started())
}
