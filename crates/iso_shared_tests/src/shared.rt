use iso_durable::{DurableIssuer, Fault, Log};
use iso_issuer::Accounts;
use iso_order::{Act, Answer, Money, Order, Pan, TxKey};
use iso_shared::{
    MemoryStore, OpenError, SharedLog, Standby, Tries, Turn, Why, Writer, open, read_batch,
};
use std::alloc::Global;

const ACCOUNTS: &[u8] =
    br#"{"accounts":[{"currency":"840","opening":5000,"pan":"4111111111111111"}]}"#;

const FIRST: Writer = Writer { bits: [1; 16] };

const SECOND: Writer = Writer { bits: [2; 16] };

type Host = DurableIssuer<SharedLog<MemoryStore, Tries>>;

fn debit(stan: u32, amount: u64) -> Option<Order> {
    let pan = Pan::from_digits(b"4111111111111111")?;
    let key = TxKey {
        base: 200,
        stan,
        sent: 1126120000,
        acquirer: 7,
    };
    Order::new(
        key,
        Act::Debit(Money {
            pan,
            amount,
            currency: *b"840",
        }),
    )
}

/// A host that opens the journal in a store, and asks so many times more.
fn host(alloc: Global, store: MemoryStore, writer: Writer, tries: u32) -> Option<Host> {
    let accounts = Accounts::from_json(alloc, ACCOUNTS).ok()?;
    open(alloc, store, Tries::new(tries), writer, accounts, 100).ok()
}

/// Has a host decide a debit, and sync: the answer's place in the journal, and its code.
fn pays(host: &mut Host, stan: u32, amount: u64) -> Result<Answer, Fault> {
    let Some(order) = debit(stan, amount) else {
        return Err(Fault::Memory);
    };
    let answer = host.decide(order)?;
    host.sync()?;
    Ok(answer)
}

/// The store of a host that is gone.
fn left_by(host: Host) -> MemoryStore {
    let log = host.log;
    log.store
}

/// Another host's batch at the first place: a debit of 3000.
fn theirs(alloc: Global) -> Option<Vec<u8>> {
    let mut other = host(alloc, MemoryStore::new(alloc), SECOND, 0)?;
    pays(&mut other, 9, 3000).ok()?;
    other.log.store.batches.pop()
}

#[test]
fn a_batch_names_its_place_and_its_writer(rt: HostRuntime) {
    let alloc = rt.alloc();
    let mut host = host(alloc, MemoryStore::new(alloc), FIRST, 0).expect(&rt, "opens");
    assert_eq!(rt; pays(&mut host, 1, 3000).expect(&rt, "pays").seq, 1);
    assert_eq!(rt; pays(&mut host, 2, 1000).expect(&rt, "pays").seq, 2);
    assert_eq!(rt; host.log.store.batches.len(), 2);
    assert_eq!(rt; host.log.store.batches[1].len(), 256);
    let batch = read_batch(alloc, &host.log.store.batches[1]).expect(&rt, "a batch");
    assert_eq!(rt; batch.heading.place, 2);
    assert_eq!(rt; batch.heading.writer, FIRST);
    assert_eq!(rt; batch.rows.len(), 1);
    assert_eq!(rt; batch.rows[0].answer.seq, 2);
    assert_eq!(rt; batch.rows[0].order, debit(2, 1000).expect(&rt, "an order"));
}

#[test]
fn another_batch_at_its_place_fences_a_host(rt: HostRuntime) {
    let alloc = rt.alloc();
    let mut host = host(alloc, MemoryStore::new(alloc), FIRST, 5).expect(&rt, "opens");
    host.log.store.theirs = theirs(alloc);
    assert!(rt; pays(&mut host, 1, 3000).is_err());
    assert_eq!(rt; host.log.why(), Some(Why::Fenced));
    assert_eq!(rt; host.log.store.sent.len(), 1);
    // and it says and sends nothing any more
    assert!(rt; pays(&mut host, 2, 1000).is_err());
    assert!(rt; host.log.sync().is_err());
    assert_eq!(rt; host.log.store.sent.len(), 1);
    assert_eq!(rt; host.log.store.batches.len(), 1);
}

#[test]
fn a_lost_answer_is_settled_by_the_same_batch(rt: HostRuntime) {
    let alloc = rt.alloc();
    for turn in [Turn::Lost, Turn::Late, Turn::Away] {
        let mut host = host(alloc, MemoryStore::new(alloc), FIRST, 1).expect(&rt, "opens");
        let Ok(()) = host.log.store.turns.push(turn) else {
            panic!(rt; "memory");
        };
        assert_eq!(rt; pays(&mut host, 1, 3000).expect(&rt, "pays").code, 0);
        assert_eq!(rt; host.log.why(), None);
        assert_eq!(rt; host.log.store.batches.len(), 1);
        assert_eq!(rt; host.log.seen, 1);
    }
}

#[test]
fn a_batch_in_doubt_is_found_on_opening_again(rt: HostRuntime) {
    let alloc = rt.alloc();
    for turn in [Turn::Lost, Turn::Late] {
        let mut first = host(alloc, MemoryStore::new(alloc), FIRST, 0).expect(&rt, "opens");
        let Ok(()) = first.log.store.turns.push(turn) else {
            panic!(rt; "memory");
        };
        assert!(rt; pays(&mut first, 1, 3000).is_err());
        assert_eq!(rt; first.log.why(), Some(Why::InDoubt));
        // the next batch is not sent meanwhile
        assert!(rt; pays(&mut first, 2, 1000).is_err());
        assert_eq!(rt; first.log.store.sent.len(), 1);
        let mut second = host(alloc, left_by(first), SECOND, 0).expect(&rt, "opens again");
        assert_eq!(rt; second.issuer.len(), 1);
        assert_eq!(rt; pays(&mut second, 1, 3000).expect(&rt, "a repeat").seq, 1);
        assert_eq!(rt; second.log.store.batches.len(), 1);
    }
}

#[test]
fn a_late_batch_is_lost_where_its_place_is_taken(rt: HostRuntime) {
    let alloc = rt.alloc();
    let mut first = host(alloc, MemoryStore::new(alloc), FIRST, 0).expect(&rt, "opens");
    let Ok(()) = first.log.store.turns.push(Turn::Late) else {
        panic!(rt; "memory");
    };
    assert!(rt; pays(&mut first, 1, 3000).is_err());
    first.log.store.theirs = theirs(alloc);
    let mut second = host(alloc, left_by(first), SECOND, 0).expect(&rt, "opens again");
    assert_eq!(rt; second.issuer.len(), 1);
    // the order that was never told is a new one, and the account has less
    assert_eq!(rt;
        pays(&mut second, 1, 3000).expect(&rt, "a new order").code,
        51
    );
    assert_eq!(rt; second.log.store.batches.len(), 2);
}

#[test]
fn a_store_that_is_away_was_sent_nothing(rt: HostRuntime) {
    let alloc = rt.alloc();
    let mut host = host(alloc, MemoryStore::new(alloc), FIRST, 0).expect(&rt, "opens");
    let Ok(()) = host.log.store.turns.push(Turn::Away) else {
        panic!(rt; "memory");
    };
    assert!(rt; pays(&mut host, 1, 3000).is_err());
    assert_eq!(rt; host.log.why(), Some(Why::Away));
    assert_eq!(rt; host.log.store.sent.len(), 0);
}

#[test]
fn of_two_hosts_at_once_one_is_fenced(rt: HostRuntime) {
    let alloc = rt.alloc();
    let mut first = host(alloc, MemoryStore::new(alloc), FIRST, 0).expect(&rt, "opens");
    let mut second = host(alloc, MemoryStore::new(alloc), SECOND, 0).expect(&rt, "opens");
    let order = debit(1, 3000).expect(&rt, "an order");
    let _ = second.decide(order).expect(&rt, "decided, and never told");
    assert_eq!(rt; pays(&mut first, 1, 3000).expect(&rt, "pays").code, 0);
    std::mem::swap(&mut first.log.store, &mut second.log.store);
    assert!(rt; second.sync().is_err());
    assert_eq!(rt; second.log.why(), Some(Why::Fenced));
    // it opens again, follows the other, and says what that one said
    let mut second = host(alloc, left_by(second), SECOND, 0).expect(&rt, "opens again");
    let again = pays(&mut second, 1, 3000).expect(&rt, "a repeat");
    assert_eq!(rt; again.seq, 1);
    assert_eq!(rt; again.code, 0);
}

#[test]
fn a_standby_follows_batch_by_batch(rt: HostRuntime) {
    let alloc = rt.alloc();
    let accounts = Accounts::from_json(alloc, ACCOUNTS).expect(&rt, "accounts");
    let mut standby = Standby::new(accounts, 100, MemoryStore::new(alloc));
    assert_eq!(rt; standby.read_on(alloc).expect(&rt, "reads"), false);
    standby.store.theirs = theirs(alloc);
    assert_eq!(rt; standby.read_on(alloc).expect(&rt, "reads"), true);
    assert_eq!(rt; standby.issuer.len(), 1);
    assert_eq!(rt; standby.read_on(alloc).expect(&rt, "reads"), false);
    let mut host = standby.start(alloc, Tries::new(0), FIRST);
    assert_eq!(rt; pays(&mut host, 1, 1000).expect(&rt, "pays").seq, 2);
    assert_eq!(rt; host.log.store.batches.len(), 2);
}

#[test]
fn what_no_host_writes_is_told_by_its_place(rt: HostRuntime) {
    let alloc = rt.alloc();
    let accounts = Accounts::from_json(alloc, ACCOUNTS).expect(&rt, "accounts");
    let mut standby = Standby::new(accounts, 100, MemoryStore::new(alloc));
    standby.store.theirs = theirs(alloc);
    assert_eq!(rt; standby.read_on(alloc).expect(&rt, "reads"), true);
    // the batch of the first place once more, at the second
    standby.store.theirs = theirs(alloc);
    assert_eq!(rt; standby.read_on(alloc), Err(OpenError::Damaged(2)));
    assert_eq!(rt; standby.read_on(alloc), Err(OpenError::Failed));
}

#[test]
fn a_full_batch_is_sent_before_the_next_order(rt: HostRuntime) {
    let alloc = rt.alloc();
    let mut log = SharedLog::new(alloc, MemoryStore::new(alloc), Tries::new(0), FIRST, 0);
    let order = debit(1, 3000).expect(&rt, "an order");
    let answer = Answer {
        code: 0,
        seq: 1,
        shown: None,
    };
    for _ in 0..8192 {
        let Ok(()) = log.append(order, answer) else {
            panic!(rt; "memory");
        };
    }
    assert_eq!(rt; log.seen, 1);
    assert_eq!(rt; log.synced, 0);
    assert_eq!(rt; log.store.batches.len(), 1);
    assert_eq!(rt; log.store.batches[0].len(), 1_048_576);
    assert!(rt; log.sync().is_ok());
    assert_eq!(rt; log.synced, 2);
    assert_eq!(rt; log.store.batches.len(), 2);
    assert_eq!(rt; log.store.batches[1].len(), 256);
    // with no order nothing is asked
    assert!(rt; log.sync().is_ok());
    assert_eq!(rt; log.store.sent.len(), 2);
}
