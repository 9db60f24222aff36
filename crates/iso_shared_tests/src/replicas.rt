//! What members answer, and what a store, a journal's heading, a lease and a patience come to by it.

use crate::fakes::{FakeClock, FakeMember, cluster};
use iso_etcd::{Cause, Doubt};
use iso_record::{Heading, HeadingFault};
use iso_replicas::{Clocked, EtcdStore, JournalFault, Stand, Standing, Trouble, check_journal};
use iso_shared::{Patience, Store, Writer};
use std::alloc::Global;
use std::cell::Cell;
use std::process::Abort;
use std::rc::Rc;

const PUT: &str = r#"{"succeeded":true}"#;

const OTHER_AT_2: &str =
    r#"{"responses":[{"response_range":{"kvs":[{"key":"ZGF5L2JhdGNoLzAwMDAwMDAwMDI=","value":"b3RoZXI="}],"count":"1"}}]}"#;

const TWO_AT_2: &str =
    r#"{"responses":[{"response_range":{"kvs":[{"key":"ZGF5L2JhdGNoLzAwMDAwMDAwMDI=","value":"dHdv"}],"count":"1"}}]}"#;

const ONE_AT_1: &str =
    r#"{"kvs":[{"key":"ZGF5L2JhdGNoLzAwMDAwMDAwMDE=","value":"b25l"}],"count":"1"}"#;

const NOTHING: &str = r#"{"header":{}}"#;

/// A store of the journal `day` on that member.
fn store<R: Abort>(
    rt: &R,
    alloc: Global,
    bodies: &'static [&'static str],
    asked: &Rc<Cell<usize>>,
) -> EtcdStore<FakeMember> {
    EtcdStore::new(alloc, cluster(rt, alloc, bodies, asked))
}

/// What an answer is, as it is shown.
fn ask(rt: &impl Abort, alloc: Global, store: &mut EtcdStore<FakeMember>, place: u64) -> String {
    let asked = store.ask(place, b"two");
    format!(in alloc; "{asked:?}").expect(rt, "memory")
}

/// What a look gave, as it is shown.
fn look(rt: &impl Abort, alloc: Global, store: &mut EtcdStore<FakeMember>, place: u64) -> String {
    let looked = store.look(place);
    format!(in alloc; "{looked:?}").expect(rt, "memory")
}

#[test]
fn a_batch_stands_at_the_next_place_alone(rt: HostRuntime) {
    let alloc = rt.alloc();
    let asked = Rc::new(alloc, Cell::new(0)).expect(&rt, "memory");
    let mut one = store(&rt, alloc, &[PUT, "", TWO_AT_2], &asked);
    // another place is never asked for
    assert_eq!(rt; ask(&rt, alloc, &mut one, 2).as_str(), "Unsent");
    assert_eq!(rt; asked.get(), 0);
    assert_eq!(rt; ask(&rt, alloc, &mut one, 1).as_str(), "Stands");
    // the connection is lost: the same batch at the same place settles it
    assert_eq!(rt; ask(&rt, alloc, &mut one, 2).as_str(), "Unknown");
    assert_eq!(rt; one.trouble(), Some(Trouble::Doubt(Doubt::Lost)));
    assert_eq!(rt; ask(&rt, alloc, &mut one, 2).as_str(), "Stands");
    assert_eq!(rt; asked.get(), 3);
}

#[test]
fn anothers_batch_is_told(rt: HostRuntime) {
    let alloc = rt.alloc();
    let asked = Rc::new(alloc, Cell::new(0)).expect(&rt, "memory");
    let mut one = store(&rt, alloc, &[NOTHING, ONE_AT_1, OTHER_AT_2], &asked);
    assert_eq!(rt; look(&rt, alloc, &mut one, 1).as_str(), "Nothing");
    assert_eq!(rt;
        look(&rt, alloc, &mut one, 1).as_str(),
        "Found([111, 110, 101])"
    );
    assert_eq!(rt; look(&rt, alloc, &mut one, 1).as_str(), "Away");
    assert_eq!(rt;
        ask(&rt, alloc, &mut one, 2).as_str(),
        "Other([111, 116, 104, 101, 114])"
    );
    assert_eq!(rt; one.trouble(), None);
    assert!(rt; one.trouble() != Some(Trouble::Unsent(Cause::Away)));
}

const TWO: &str =
    r#"{"kvs":[{"key":"ZGF5L2JhdGNoLzAwMDAwMDAwMDE=","value":"b25l"},{"key":"ZGF5L2JhdGNoLzAwMDAwMDAwMDI=","value":"dHdv"}],"count":"2"}"#;

/// The first place is empty, and the second one isn't.
const GAP: &str = r#"{"kvs":[{"key":"ZGF5L2JhdGNoLzAwMDAwMDAwMDI=","value":"dHdv"}],"count":"1"}"#;

#[test]
fn batches_are_read_many_at_a_time(rt: HostRuntime) {
    let alloc = rt.alloc();
    let asked = Rc::new(alloc, Cell::new(0)).expect(&rt, "memory");
    let mut one = store(&rt, alloc, &[TWO, NOTHING], &asked);
    assert_eq!(rt;
        look(&rt, alloc, &mut one, 1).as_str(),
        "Found([111, 110, 101])"
    );
    assert_eq!(rt;
        look(&rt, alloc, &mut one, 2).as_str(),
        "Found([116, 119, 111])"
    );
    assert_eq!(rt; asked.get(), 1);
    assert_eq!(rt; look(&rt, alloc, &mut one, 3).as_str(), "Nothing");
    assert_eq!(rt; asked.get(), 2);
}

#[test]
fn what_was_read_ahead_is_not_told_twice(rt: HostRuntime) {
    let alloc = rt.alloc();
    let asked = Rc::new(alloc, Cell::new(0)).expect(&rt, "memory");
    let mut one = store(&rt, alloc, &[TWO, TWO_AT_2, NOTHING], &asked);
    assert_eq!(rt;
        look(&rt, alloc, &mut one, 1).as_str(),
        "Found([111, 110, 101])"
    );
    assert_eq!(rt; ask(&rt, alloc, &mut one, 2).as_str(), "Stands");
    assert_eq!(rt; look(&rt, alloc, &mut one, 3).as_str(), "Nothing");
    assert_eq!(rt; asked.get(), 3);
}

#[test]
fn nothing_is_told_of_a_gap(rt: HostRuntime) {
    let alloc = rt.alloc();
    let asked = Rc::new(alloc, Cell::new(0)).expect(&rt, "memory");
    let mut one = store(&rt, alloc, &[GAP, NOTHING], &asked);
    assert_eq!(rt; look(&rt, alloc, &mut one, 1).as_str(), "Nothing");
    assert_eq!(rt; asked.get(), 2);
}

/// The first key of a journal of `accounts` under the rules 1.
const OURS: &str =
    r#"{"kvs":[{"key":"ZGF5L2hlYWRpbmc=","value":"SVNPIDg1ODMgSVNTVUVSIEpPVVJOQUwgMDAwMTAwMDAxMTM1NzQ1OTIyNzc1MTI5ODg1NDIwNDQ1MTQ0NDMxMzY5OTQxMDc2MDE0MDQzMzg2ODg5OTgyMTg5NjE4MTYwNTkxODYwODc3ODcwMzI2OTYgICAgICAgICAgICAgIAo="}],"count":"1"}"#;

/// All of it but its last byte.
const CUT: &str =
    r#"{"kvs":[{"key":"ZGF5L2hlYWRpbmc=","value":"SVNPIDg1ODMgSVNTVUVSIEpPVVJOQUwgMDAwMTAwMDAxMTM1NzQ1OTIyNzc1MTI5ODg1NDIwNDQ1MTQ0NDMxMzY5OTQxMDc2MDE0MDQzMzg2ODg5OTgyMTg5NjE4MTYwNTkxODYwODc3ODcwMzI2OTYgICAgICAgICAgICAgIA=="}],"count":"1"}"#;

/// Nothing.
const EMPTY: &str = r#"{"kvs":[{"key":"ZGF5L2hlYWRpbmc=","value":""}],"count":"1"}"#;

/// That of a journal of `others`.
const OTHERS: &str =
    r#"{"kvs":[{"key":"ZGF5L2hlYWRpbmc=","value":"SVNPIDg1ODMgSVNTVUVSIEpPVVJOQUwgMDAwMTAwMDAxMDAxMzM4NjA5MzgwOTA3Mjg1NDgwMTU5NzY3NzIyNjAzMTUyMzI0ODE2NTg3NTMwMjk3ODA4NTY0OTMwMDUwMTUxNzM1OTU2NTA5NzQyMjAgICAgICAgICAgICAgIAo="}],"count":"1"}"#;

/// That of a journal under the rules 2.
const RULES: &str =
    r#"{"kvs":[{"key":"ZGF5L2hlYWRpbmc=","value":"SVNPIDg1ODMgSVNTVUVSIEpPVVJOQUwgMDAwMTAwMDAyMTM1NzQ1OTIyNzc1MTI5ODg1NDIwNDQ1MTQ0NDMxMzY5OTQxMDc2MDE0MDQzMzg2ODg5OTgyMTg5NjE4MTYwNTkxODYwODc3ODcwMzI2OTYgICAgICAgICAgICAgIAo="}],"count":"1"}"#;

/// What the first key holds, and what is told of the journal of `accounts` under the rules 1.
const HEADINGS: &[(&str, &[&str], Result<(), JournalFault>)] = &[
    ("ours", &[OURS], Ok(())),
    (
        "cut",
        &[CUT],
        Err(JournalFault::Other(HeadingFault::Format)),
    ),
    (
        "empty",
        &[EMPTY],
        Err(JournalFault::Other(HeadingFault::Format)),
    ),
    (
        "others",
        &[OTHERS],
        Err(JournalFault::Other(HeadingFault::Accounts)),
    ),
    (
        "rules",
        &[RULES],
        Err(JournalFault::Other(HeadingFault::Rules)),
    ),
    ("no key", &[NOTHING], Err(JournalFault::Missing)),
];

#[test]
fn headings_are_compared(rt: HostRuntime) {
    let alloc = rt.alloc();
    let heading = Heading::of(1, b"accounts");
    for (name, bodies, wanted) in HEADINGS {
        let asked = Rc::new(alloc, Cell::new(0)).expect(&rt, "memory");
        let mut one = cluster(&rt, alloc, bodies, &asked);
        assert!(rt; check_journal(&mut one, &heading) == *wanted, "{name}");
    }
}

/// A lease, its owner, and the lease kept.
const LEASED: &[&str] = &[
    r#"{"ID":"7","TTL":"10"}"#,
    PUT,
    r#"{"result":{"ID":"7","TTL":"10"}}"#,
];

/// A moment, and how many requests were made by then: a lease of ten seconds is kept again after a third of it.
const MOMENTS: &[(u64, usize)] = &[(999, 2), (1_000, 2), (4_332, 2), (4_333, 3)];

#[test]
fn a_lease_is_kept_after_a_third_of_it(rt: HostRuntime) {
    let alloc = rt.alloc();
    let asked = Rc::new(alloc, Cell::new(0)).expect(&rt, "memory");
    let one = cluster(&rt, alloc, LEASED, &asked);
    let mut stand = Stand::new(alloc, one, Writer { bits: [1; 16] }, 10);
    assert_eq!(rt; stand.begin(1_000), Ok(true));
    for (now, requests) in MOMENTS {
        assert_eq!(rt; stand.keep(*now), Ok(()));
        assert_eq!(rt; asked.get(), *requests, "{now}");
    }
    let kept = Standing::Active {
        lease: 7,
        kept: 4_333,
    };
    assert_eq!(rt; stand.standing(), kept);
}

/// The moment at which a patience of a millisecond begins, one at which it is asked, where the clock tells them, and whether it goes on.
const WAITED: &[(Option<u64>, Option<u64>, bool)] = &[
    (Some(1), Some(1), true),
    (Some(1), Some(2), false),
    (Some(1), None, false),
    (None, Some(1), false),
];

#[test]
fn a_patience_ends(rt: HostRuntime) {
    for (begun, now, wanted) in WAITED {
        let clock = FakeClock {
            now: Cell::new(*begun),
        };
        let mut patience = Clocked::new(&clock, 1, 5);
        patience.begin();
        clock.now.set(*now);
        assert_eq!(rt; patience.may_go_on(), *wanted, "{begun:?} {now:?}");
    }
}
