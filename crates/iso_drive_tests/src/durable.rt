use iso_durable::{DurableIssuer, MemoryLog, replay};
use iso_fakes::check;
use iso_issuer::{Accounts, Issuer};
use iso_order::{Act, Answer, Money, Order, Pan, TxKey};
use std::alloc::Global;
use std::test::Fail;

const ACCOUNTS: &[u8] =
    br#"{"accounts":[{"currency":"840","opening":5000,"pan":"4111111111111111"}]}"#;

fn debit(stan: u32, amount: u64) -> Option<Order> {
    let pan = Pan::from_digits(b"4111111111111111")?;
    let key = TxKey {
        base: 200,
        stan,
        sent: 1126120000,
        acquirer: 7,
    };
    let money = Money {
        pan,
        amount,
        currency: *b"840",
    };
    Order::new(key, Act::Debit(money))
}

/// Two orders that are answered, and one that a crash loses.
fn debits() -> Option<[Order; 3]> {
    Some([debit(1, 3000)?, debit(2, 3000)?, debit(3, 1000)?])
}

/// A host over an empty log.
fn host(alloc: Global) -> Option<DurableIssuer<MemoryLog>> {
    let accounts = Accounts::from_json(alloc, ACCOUNTS).ok()?;
    DurableIssuer::start(accounts, 100, &[], MemoryLog::new(alloc)).ok()
}

/// The answers to both, and to the first again.
fn answers(
    alloc: Global,
    host: &mut DurableIssuer<MemoryLog>,
    orders: &[Order; 3],
) -> Option<[Answer; 3]> {
    let asked = [orders[0], orders[1], orders[0]];
    let answers = host.answer_all(alloc, &asked).ok()?;
    Some([*answers.get(0)?, *answers.get(1)?, *answers.get(2)?])
}

/// A new host, from what the log kept.
fn replayed(alloc: Global, host: &DurableIssuer<MemoryLog>) -> Option<Issuer> {
    let accounts = Accounts::from_json(alloc, ACCOUNTS).ok()?;
    replay(accounts, 100, host.log.kept.as_slice()).ok()
}

/// What the new host answers to the order.
fn answer_again(issuer: &mut Issuer, order: Order) -> Option<Answer> {
    issuer.handle(order).ok()
}

/// Ends the test unless the new host answers as the old one did, and enters what was lost.
fn check_again(
    issuer: &mut Issuer,
    orders: &[Order; 3],
    answers: &[Answer; 3],
) -> Result<(), Fail> {
    let first = answer_again(issuer, orders[0]);
    check(first == Some(answers[0]), "the first again")?;
    let second = answer_again(issuer, orders[1]);
    check(second == Some(answers[1]), "the second again")?;
    match answer_again(issuer, orders[2]) {
        Some(lost) => check(lost.seq == 3, "what was lost is new"),
        None => Err(Fail::new("what was lost has an answer")),
    }
}

/// Ends the test unless the answers of the host outlive a crash, which loses what waits.
fn check_crash(
    alloc: Global,
    host: &mut DurableIssuer<MemoryLog>,
    orders: &[Order; 3],
) -> Result<(), Fail> {
    let Some(answers) = answers(alloc, host, orders) else {
        return Err(Fail::new("three answers"));
    };
    let [first, second, again] = answers;
    check(first.code == 0, "the first is granted")?;
    check(second.code == 51, "the second is refused")?;
    check(again.seq == 1, "the first has its answer")?;
    check(
        host.decide(orders[2]).is_ok(),
        "decided, and never answered",
    )?;
    check(host.log.kept.len() == 2, "two are kept")?;
    match replayed(alloc, host) {
        Some(mut issuer) => check_again(&mut issuer, orders, &answers),
        None => Err(Fail::new("a new host starts")),
    }
}

#[test]
fn an_answer_outlives_a_crash(rt: HostRuntime) -> Result<(), Fail> {
    let Some(orders) = debits() else {
        return Err(Fail::new("three orders"));
    };
    match host(rt.alloc()) {
        Some(mut host) => check_crash(rt.alloc(), &mut host, &orders),
        None => Err(Fail::new("a host starts")),
    }
}
