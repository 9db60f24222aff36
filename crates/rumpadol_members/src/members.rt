//! Whether the members that a word names are of one cluster.
use crate::dial::reach;
use iso_etcd::{Member, Tcp};
use rumpadol_cluster::joined;
use rumpadol_tables::{Stop, failed, refused};
use std::alloc::Global;
use std::net::Net;
use std::time::Clock;

/// The number of the one cluster whose members these are. One that doesn't answer now tells nothing.
pub fn cluster_of<N: Net + Clock>(
    alloc: Global,
    net: &N,
    word: &str,
    members: &[Member],
    timeout: u64,
) -> Result<u64, Stop> {
    let tcp = Tcp::new(net);
    let mut known = None;
    for member in members {
        let told = match reach(alloc, &tcp, member, timeout) {
            Some((_, cluster)) => Some(cluster),
            None => None,
        };
        known = match joined(known, told) {
            Some(joined) => joined,
            None => return Err(another(alloc, word, member)),
        };
    }
    match known {
        Some(cluster) => Ok(cluster),
        None => Err(nobody(alloc, word, timeout)),
    }
}

/// How the program stops where a member is of another cluster.
fn another(alloc: Global, word: &str, member: &Member) -> Stop {
    let text = member.text.as_str();
    refused(format!(in alloc;
        "rumpadol: {word}: the member {text} is of another cluster than those before it; name the members of one cluster alone\n"
    ))
}

/// How the program stops where no member answers.
fn nobody(alloc: Global, word: &str, timeout: u64) -> Stop {
    failed(format!(in alloc;
        "rumpadol: {word}: no member of the cluster answered within {timeout} milliseconds; see that they run and are reached from this machine, or give them more by --etcd-timeout\n"
    ))
}
