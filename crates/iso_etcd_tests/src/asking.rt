//! Members that are asked.

use crate::answers::is_shown;
use crate::fakes::{Behaviour, Counts, FakeMembers};
use iso_etcd::{Cluster, Endpoints, MOST_BATCH, Waits};
use iso_fakes::check;
use std::alloc::Global;
use std::test::Fail;

const WAITS: Waits = Waits {
    connect: 500,
    each: 1_000,
    whole: 2_000,
};

/// A cluster of members that words name.
fn cluster_of<'m>(
    alloc: Global,
    text: &str,
    members: FakeMembers<'m>,
) -> Option<Cluster<FakeMembers<'m>>> {
    match Endpoints::from_text(alloc, text) {
        Ok(endpoints) => Some(Cluster::new(alloc, members, endpoints, WAITS)),
        Err(_) => None,
    }
}

/// Whether appends at these places come to these, one after the other.
fn all_come_to(
    alloc: Global,
    cluster: &mut Cluster<FakeMembers<'_>>,
    appends: &[(u32, &str)],
) -> bool {
    let mut all = true;
    for (place, wanted) in appends {
        let append = cluster.append_once(*place, b"one");
        all = all && is_shown(alloc, &append, wanted);
    }
    all
}

/// Whether it is so at a cluster of members that do this.
fn come_to(alloc: Global, text: &str, members: &[Behaviour], appends: &[(u32, &str)]) -> bool {
    let counts = Counts::new();
    let members = FakeMembers::new(alloc, members, &counts);
    match cluster_of(alloc, text, members) {
        Some(mut cluster) => all_come_to(alloc, &mut cluster, appends),
        None => false,
    }
}

const ONE: &str = "etcd://a:1/day";

const TWO: &str = "etcd://a:1,b:2/day";

const WITH_USER: &str = "etcd://ann:secret@a:1/day";

/// Appends to a cluster.
struct Row {
    name: &'static str,
    /// The members, as words name them, and what each does.
    text: &'static str,
    members: &'static [Behaviour],
    /// Their places, and what each comes to.
    appends: &'static [(u32, &'static str)],
}

const ROWS: &[Row] = &[
    Row {
        name: "puts",
        text: TWO,
        members: &[Behaviour::Puts, Behaviour::Puts],
        appends: &[(1, "Appended"), (1, "Appended")],
    },
    Row {
        name: "refuses",
        text: TWO,
        members: &[Behaviour::Refuses, Behaviour::Puts],
        appends: &[(1, "Appended"), (1, "Appended")],
    },
    Row {
        name: "closes",
        text: TWO,
        members: &[Behaviour::Closes, Behaviour::Puts],
        appends: &[(1, "Unknown(Lost)"), (1, "Appended")],
    },
    Row {
        name: "babbles",
        text: TWO,
        members: &[Behaviour::Babbles, Behaviour::Puts],
        appends: &[(1, "Unknown(Lost)"), (1, "Appended")],
    },
    Row {
        name: "trickles",
        text: TWO,
        members: &[Behaviour::Trickles, Behaviour::Puts],
        appends: &[(1, "Unknown(Lost)"), (1, "Appended")],
    },
    Row {
        name: "all refuse: nothing is sent",
        text: TWO,
        members: &[Behaviour::Refuses, Behaviour::Refuses],
        appends: &[(1, "Unsent(Away)")],
    },
    Row {
        name: "the first token isn't taken: a new one is asked for once, and kept",
        text: WITH_USER,
        members: &[Behaviour::Guards],
        appends: &[(1, "Appended"), (2, "Appended")],
    },
    Row {
        name: "a user that isn't let in: nothing of the batch is sent",
        text: WITH_USER,
        members: &[Behaviour::Denies],
        appends: &[(1, "Unsent(NotLetIn)")],
    },
    Row {
        name: "without a user no token is shown",
        text: ONE,
        members: &[Behaviour::Guards],
        appends: &[(1, "Unknown(Denied)")],
    },
];

#[test]
fn appends(rt: HostRuntime) -> Result<(), Fail> {
    for row in ROWS {
        check(
            come_to(rt.alloc(), row.text, row.members, row.appends),
            row.name,
        )?;
    }
    Ok(())
}

/// What an append comes to whose answer is so many bytes short.
fn cut(short: usize) -> &'static str {
    if short == 0 {
        "Appended"
    } else {
        "Unknown(Lost)"
    }
}

#[test]
fn an_answer_that_is_cut(rt: HostRuntime) -> Result<(), Fail> {
    for short in 0..92 {
        let members = [Behaviour::Cuts(short), Behaviour::Puts];
        check(
            come_to(rt.alloc(), TWO, &members, &[(1, cut(short))]),
            "cut",
        )?;
    }
    Ok(())
}

/// Whether nothing is sent of what is too long.
fn is_too_long(alloc: Global, cluster: &mut Cluster<FakeMembers<'_>>) -> bool {
    match vec![in alloc; b'x'; MOST_BATCH + 1] {
        Ok(long) => is_shown(
            alloc,
            &cluster.append_once(1, long.as_slice()),
            "Unsent(TooLong)",
        ),
        Err(_) => false,
    }
}

/// Whether it is so at members that put values.
fn refuses_what_is_too_long(alloc: Global) -> bool {
    let counts = Counts::new();
    let members = FakeMembers::new(alloc, &[Behaviour::Puts, Behaviour::Puts], &counts);
    match cluster_of(alloc, TWO, members) {
        Some(mut cluster) => is_too_long(alloc, &mut cluster),
        None => false,
    }
}

#[test]
fn what_is_too_long(rt: HostRuntime) -> Result<(), Fail> {
    check(refuses_what_is_too_long(rt.alloc()), "too long")
}

/// Whether an append to a cluster that is tried so often comes to this.
fn tried_comes_to(
    alloc: Global,
    cluster: &mut Cluster<FakeMembers<'_>>,
    tries: u32,
    wanted: &str,
) -> bool {
    is_shown(alloc, &cluster.append(1, b"one", tries), wanted)
}

/// Whether it is so at members that do this.
fn comes_to(alloc: Global, members: &[Behaviour], tries: u32, wanted: &str) -> bool {
    let counts = Counts::new();
    let members = FakeMembers::new(alloc, members, &counts);
    match cluster_of(alloc, TWO, members) {
        Some(mut cluster) => tried_comes_to(alloc, &mut cluster, tries, wanted),
        None => false,
    }
}

#[test]
fn asks_until_it_is_known(rt: HostRuntime) -> Result<(), Fail> {
    let alloc = rt.alloc();
    let second = [Behaviour::Closes, Behaviour::Puts];
    check(comes_to(alloc, &second, 2, "Appended"), "the second time")?;
    let never = [Behaviour::Closes, Behaviour::Refuses];
    check(comes_to(alloc, &never, 3, "Unknown(Lost)"), "never")
}
