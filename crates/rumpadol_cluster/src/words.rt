//! The words about a host whose journal is on etcd.
ghost use Rattle.std.specs.Prelude.{◌≡◌, ◌⊎◌, false, true, IsSome, IsNone, OnOk, OnErr, IfErr};
ghost use Rattle.rumpadol_tables.specs.Stop.{status_of};
ghost use Rattle.rumpadol_cluster.specs.Words.{is_on_etcd, lease_of, timeout_of, give_up_of, SaysNothing};

use crate::place::is_on_etcd;
use rumpadol_tables::{Stop, misused};
use std::alloc::Global;

/// How long a lease lasts that nobody keeps, in seconds, where no word tells it.
const LEASE: u32 = 5;

/// How long one call of a member may take, in milliseconds, where no word tells it.
const TIMEOUT: u32 = 1_000;

/// How long a host goes on asking for a batch in doubt, in seconds, where no word tells it.
const GIVE_UP: u32 = 30;

/// The words about a host whose journal is on etcd; `None` where they aren't given.
#[derive(Clone, Copy, Debug)]
pub struct ReplicaWords<'a> {
    /// Whether it reads on, and answers nothing before it is its turn.
    pub is_standby: bool,
    /// The address at which it is told to take over.
    pub control: Option<&'a str>,
    /// How long its lease lasts where it isn't kept, in seconds.
    pub lease: Option<u32>,
    /// How long one call of a member may take, in milliseconds.
    pub timeout: Option<u32>,
    /// How long it goes on asking for a batch in doubt, in seconds.
    pub give_up: Option<u32>,
    /// The name of the user of the cluster.
    pub user: Option<&'a str>,
    /// The path of the file that has the user's password.
    pub password: Option<&'a str>,
}

impl<'a> ReplicaWords<'a> {
    /// How long its lease lasts where it isn't kept, in seconds.
    pub fn lease(&self) -> u32
        // It is what the word says, and 5 seconds without one.
        ensures { result ≡ lease_of self.now.lease }
    {
        self.lease.unwrap_or(LEASE)
    }

    /// How long one call of a member may take, in milliseconds.
    pub fn timeout(&self) -> u64
        // It is what the word says, and 1,000 milliseconds without one.
        ensures { result ≡ timeout_of self.now.timeout }
    {
        u64::from(self.timeout.unwrap_or(TIMEOUT))
    }

    /// How long it goes on asking for a batch in doubt, in milliseconds.
    pub fn give_up(&self) -> u64
        // It is what the word says, and 30,000 milliseconds without one.
        ensures { result ≡ give_up_of self.now.give_up }
    {
        u64::from(self.give_up.unwrap_or(GIVE_UP)) * 1_000
    }

    /// A word that says something of a journal on etcd alone, if there is one.
    pub fn given(&self) -> Option<&'static str>
        // `None` is told only where no word says anything of a journal on etcd.
        ensures none { IsNone result → SaysNothing self.now }
        // A word is told only where one says something of a journal on etcd.
        ensures some { IsSome result → SaysNothing self.now → ⊥ }
    {
        if self.is_standby {
            return Some("standby");
        }
        if self.lease.is_some() {
            return Some("lease");
        }
        if self.timeout.is_some() {
            return Some("etcd-timeout");
        }
        if self.give_up.is_some() {
            return Some("give-up");
        }
        if self.user.is_some() {
            return Some("etcd-user");
        }
        None
    }
}

/// Refuses words about a journal on etcd where the journal is a file, or there is none.
pub fn check_words(alloc: Global, journal: &str, words: &ReplicaWords<'_>) -> Result<(), Stop>
    // At `Ok` the journal is on etcd, or no word says anything of one there.
    ensures fits { OnOk result ((is_on_etcd journal.now ≡ true) ⊎ SaysNothing words.now) }
    // The words are refused only where the journal isn't on etcd.
    ensures file { OnErr result (is_on_etcd journal.now ≡ false) }
    // The words are refused only where one says something of a journal on etcd.
    ensures given { OnErr result (SaysNothing words.now → ⊥) }
    // A refusal has status 2, or else 3.
    ensures status { IfErr result (λ stop. (status_of stop ≡ 2) ⊎ (status_of stop ≡ 3)) }
{
    match words.given() {
        Some(word) if !is_on_etcd(journal) => Err(misused(format!(in alloc;
            "rumpadol: --{word} is for a journal on etcd; leave it out, or name such a journal, as --journal etcd://10.0.0.1:2379,10.0.0.2:2379,10.0.0.3:2379/day\n"
        ))),
        _ => Ok(()),
    }
}
