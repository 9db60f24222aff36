//! The members that words name.

use iso_etcd::{Cluster, Waits};
use rumpadol_cluster::place_of;
use rumpadol_journals::EtcdWords;
use rumpadol_members::{OneCluster, cluster_of, user_at};
use rumpadol_tables::{Source, Stop};
use std::alloc::Global;
use std::net::Net;
use std::time::Clock;

/// How long one call may take where no word says so, in milliseconds.
pub const TIMEOUT: u64 = 5_000;

/// The members of one cluster that keep the journal of a word. A member of another one than those before it is refused.
pub fn cluster_at<'r, S: Source, R: Net + Clock>(
    alloc: Global,
    word: &str,
    etcd: EtcdWords<'_>,
    source: &S,
    runtime: &'r R,
) -> Result<Cluster<OneCluster<'r, R>>, Stop> {
    let mut endpoints = place_of(alloc, word)?;
    endpoints.user = user_at(alloc, source, etcd.user, etcd.password)?;
    let wait = etcd.timeout.unwrap_or(TIMEOUT);
    let number = cluster_of(alloc, runtime, word, &endpoints.members, wait)?;
    let dial = OneCluster::new(alloc, runtime, number);
    let waits = Waits {
        connect: wait,
        each: wait,
        whole: wait,
    };
    Ok(Cluster::new(alloc, dial, endpoints, waits))
}
