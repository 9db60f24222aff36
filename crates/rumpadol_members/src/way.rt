//! The way to a journal on etcd.
use crate::dial::OneCluster;
use crate::members::cluster_of;
use crate::password::{copied, user_at};
use iso_etcd::{Cluster, User, Waits};
use rumpadol_cluster::{ReplicaWords, place_of};
use rumpadol_tables::{Source, Stop};
use std::alloc::Global;
use std::net::Net;
use std::time::Clock;

/// The members of the cluster that keeps a journal.
pub type Members<'n, N> = Cluster<OneCluster<'n, N>>;

/// The way to a journal on etcd.
#[derive(Drop)]
pub struct Way<'w, 'n, N> {
    alloc: Global,
    net: &'n N,
    /// The word that names the journal.
    pub word: &'w str,
    user: Option<User>,
    /// The number of the cluster.
    cluster: u64,
}

/// The waits of calls that may take so many milliseconds each.
fn waits_of(timeout: u64) -> Waits {
    Waits {
        connect: timeout,
        each: timeout,
        whole: timeout,
    }
}

impl<'w, 'n, N: Net + Clock> Way<'w, 'n, N> {
    /// The way to the journal that a word names. Its members are asked whether they are of one cluster.
    pub fn find<S: Source>(
        alloc: Global,
        net: &'n N,
        source: &S,
        word: &'w str,
        words: &ReplicaWords<'_>,
    ) -> Result<Way<'w, 'n, N>, Stop> {
        let place = place_of(alloc, word)?;
        let user = user_at(alloc, source, words.user, words.password)?;
        let cluster = cluster_of(alloc, net, word, &place.members, words.timeout())?;
        Ok(Way {
            alloc,
            net,
            word,
            user,
            cluster,
        })
    }

    /// The members, over a connection of their own, each of whose calls may take so many milliseconds.
    pub fn members(&self, timeout: u64) -> Result<Members<'n, N>, Stop> {
        let mut place = place_of(self.alloc, self.word)?;
        place.user = copied(self.alloc, &self.user)?;
        let dial = OneCluster::new(self.alloc, self.net, self.cluster);
        Ok(Cluster::new(self.alloc, dial, place, waits_of(timeout)))
    }
}
