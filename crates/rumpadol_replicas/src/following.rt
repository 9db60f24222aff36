//! A host that reads on in a journal on etcd, and becomes the one that writes.
use crate::progress::Progress;
use crate::sentences::{not_begun, not_opened, unread};
use iso_etcd::{Dial, Fault};
use iso_issuer::{Accounts, MOST_ENTRIES};
use iso_peers::DurableHost;
use iso_record::Heading;
use iso_replicas::{Clocked, EtcdStore, JournalFault, Stand, begin_journal, check_journal};
use iso_shared::{OpenError, Patience, SharedLog, Standby, Writer};
use rumpadol_cluster::{ReplicaWords, lease_timeout};
use rumpadol_journals::KeptWords;
use rumpadol_members::{Members, OneCluster, Way, now};
use rumpadol_tables::{Source, Stop, failed};
use std::alloc::Global;
use std::io::Write;
use std::net::Net;
use std::random::RandomSource;
use std::time::Clock;

/// How long is paused before a batch in doubt is asked for again, in milliseconds.
const PAUSE: u64 = 50;

/// A log of orders in a journal on etcd.
pub type EtcdLog<'n, N> = SharedLog<EtcdStore<OneCluster<'n, N>>, Clocked<'n, N>>;

/// Who is active of the hosts of a journal on etcd.
pub type EtcdStand<'n, N> = Stand<OneCluster<'n, N>>;

/// A host over a journal on etcd, and how it stands among those of the journal.
#[derive(Drop)]
pub struct Replica<'n, N: Net + Clock>
where
    OneCluster<'n, N>: Dial,
{
    /// The host.
    pub host: DurableHost<EtcdLog<'n, N>>,
    /// How it stands.
    pub stand: EtcdStand<'n, N>,
}

/// A host that reads on in a journal.
#[derive(Drop)]
pub struct Follower<'w, 'n, N: Net + Clock>
where
    OneCluster<'n, N>: Dial,
{
    alloc: Global,
    net: &'n N,
    word: &'w str,
    standby: Standby<EtcdStore<OneCluster<'n, N>>>,
    /// How it stands among the hosts of the journal.
    pub stand: EtcdStand<'n, N>,
    patience: Clocked<'n, N>,
    writer: Writer,
}

/// What came of asking to be the active host.
#[derive(Clone, Copy, PartialEq, Eq)]
pub enum Claim {
    /// It is active now.
    Active,
    /// Another host is.
    Taken,
    /// No member answered in time.
    Away,
}

/// Draws who writes.
fn drawn<N: RandomSource>(alloc: Global, net: &N) -> Result<Writer, Stop> {
    let mut bits = [0u8; 16];
    match net.fill_bytes(&mut bits) {
        Ok(()) => Ok(Writer { bits }),
        Err(_) => Err(failed(format!(in alloc;
            "rumpadol: the system gives no random bytes, and each host is to have some of its own\n"
        ))),
    }
}

/// Begins a journal where that is asked, and sees else that it is there and has these accounts.
fn begin<N: Net + Clock>(
    members: &mut Members<'_, N>,
    is_new: bool,
    heading: &Heading,
) -> Result<(), JournalFault> {
    if is_new {
        begin_journal(members, heading)
    } else {
        check_journal(members, heading)
    }
}

/// The members as the store of a journal that is there and has these accounts; it is begun before where that is asked.
fn store_of<'n, N: Net + Clock>(
    alloc: Global,
    way: &Way<'_, 'n, N>,
    words: &ReplicaWords<'_>,
    is_new: bool,
    heading: &Heading,
) -> Result<EtcdStore<OneCluster<'n, N>>, Stop> {
    let mut members = way.members(words.timeout())?;
    match begin(&mut members, is_new, heading) {
        Ok(()) => Ok(EtcdStore::new(alloc, members)),
        Err(fault) => Err(not_begun(alloc, way.word, fault)),
    }
}

/// How a host that writes so stands among those of the journal, over a connection of its own. It isn't active yet.
fn stand_of<'n, N: Net + Clock>(
    alloc: Global,
    way: &Way<'_, 'n, N>,
    words: &ReplicaWords<'_>,
    writer: Writer,
) -> Result<EtcdStand<'n, N>, Stop> {
    let members = way.members(lease_timeout(words.timeout(), words.lease()))?;
    Ok(Stand::new(alloc, members, writer, words.lease()))
}

impl<'w, 'n, N: Net + Clock + RandomSource> Follower<'w, 'n, N> {
    /// One that has read nothing, on this way to a journal.
    fn new(
        alloc: Global,
        net: &'n N,
        way: &Way<'w, 'n, N>,
        words: &ReplicaWords<'_>,
        is_new: bool,
        accounts: Accounts,
        heading: &Heading,
    ) -> Result<Follower<'w, 'n, N>, Stop> {
        let store = store_of(alloc, way, words, is_new, heading)?;
        let standby = Standby::new(accounts, MOST_ENTRIES, store);
        let writer = drawn(alloc, net)?;
        let stand = stand_of(alloc, way, words, writer)?;
        Ok(Follower {
            alloc,
            net,
            word: way.word,
            standby,
            stand,
            patience: Clocked::new(net, words.give_up(), PAUSE),
            writer,
        })
    }

    /// One that has read nothing, of a journal that is there and has these accounts; it is begun before where that is asked.
    pub fn find<S: Source>(
        alloc: Global,
        net: &'n N,
        source: &S,
        kept: KeptWords<'w>,
        words: &ReplicaWords<'_>,
        accounts: Accounts,
        heading: &Heading,
    ) -> Result<Follower<'w, 'n, N>, Stop> {
        let way = Way::find(alloc, net, source, kept.journal, words)?;
        Follower::new(alloc, net, &way, words, kept.is_new, accounts, heading)
    }
}

impl<'w, 'n, N: Net + Clock> Follower<'w, 'n, N> {
    /// How many orders it has read.
    pub fn orders(&self) -> u32 {
        self.standby.issuer.len()
    }

    /// Asks to be the active host. Where no member answers it can be asked again: no answer to a message depends on it.
    pub fn claim(&mut self) -> Result<Claim, Stop> {
        let moment = now(self.net);
        match self.stand.begin(moment) {
            Ok(true) => Ok(Claim::Active),
            Ok(false) => Ok(Claim::Taken),
            Err(Fault::Away) => Ok(Claim::Away),
            Err(fault) => Err(unread(self.alloc, self.word, fault)),
        }
    }

    /// Reads the next batch, if it is there, and tells whether it was.
    pub fn read_on(&mut self) -> Result<bool, OpenError> {
        self.standby.read_on(self.alloc)
    }

    /// How the program stops where it can't read on.
    pub fn stopped(&self, error: OpenError) -> Stop {
        not_opened(self.alloc, self.word, error, self.standby.store.trouble())
    }

    /// Reads the next batch, and tells whether to go on; while no member answers, as long as the patience lasts.
    fn step(&mut self) -> Result<bool, Stop> {
        match self.standby.read_on(self.alloc) {
            Ok(true) => {
                self.patience.begin();
                Ok(true)
            }
            Ok(false) => Ok(false),
            Err(OpenError::Away) if self.patience.may_go_on() => Ok(true),
            Err(error) => Err(self.stopped(error)),
        }
    }

    /// Reads on until no further batch is there, and keeps the lease meanwhile.
    pub fn catch_up<F: Write>(&mut self, progress: &mut Progress<'_, F>) -> Result<(), Stop> {
        self.patience.begin();
        for _ in 0..u64::MAX {
            if !self.step()? {
                return Ok(());
            }
            progress.show(self.orders());
            // a lease that can't be kept now is asked for again later: no answer depends on it
            let _ = self.stand.keep(now(self.net));
        }
        Ok(())
    }

    /// The host that goes on from what was read.
    pub fn started(self) -> Replica<'n, N> {
        let durable = self.standby.start(self.alloc, self.patience, self.writer);
        Replica {
            host: DurableHost::new(self.alloc, durable),
            stand: self.stand,
        }
    }
}
