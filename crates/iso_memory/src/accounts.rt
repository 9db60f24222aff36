//! The calls on accounts and the journal.

use crate::ended::Ended;
use crate::known::{ACCOUNTS, balances, completion, debit, issuer, undo};
use iso_issuer::{Accounts, AccountsFault, Issuer, Refused};
use iso_order::{Answer, Order, Pan};
use std::alloc::Global;

fn reads_json(alloc: Global) -> Ended {
    let mut told = Accounts::from_json(alloc, ACCOUNTS);
    let was_refused = matches!(&told, Err(AccountsFault::Memory));
    if was_refused {
        told = Accounts::from_json(alloc, ACCOUNTS);
    }
    let is_right = match told {
        Ok(accounts) => balances(&Issuer::new(accounts, 1)) == Some((5000, 5000)),
        Err(_) => false,
    };
    Ended::of(was_refused, is_right)
}

/// Three accounts of three currencies.
const THREE_ACCOUNTS: &[u8] = b"{\"accounts\":[\
{\"currency\":\"840\",\"opening\":5000,\"pan\":\"4111111111111111\"},\
{\"currency\":\"978\",\"opening\":-700,\"pan\":\"5500000000000004\"},\
{\"currency\":\"392\",\"opening\":9000000000000000,\"pan\":\"378282246310005\"}]}";

/// Whether the account has that amount.
fn has_ledger(issuer: &Issuer, digits: &[u8], amount: i64) -> bool {
    match Pan::from_digits(digits) {
        Some(pan) => issuer.ledger(pan) == Some(amount),
        None => false,
    }
}

fn reads_three_accounts(alloc: Global) -> Ended {
    let mut told = Accounts::from_json(alloc, THREE_ACCOUNTS);
    let was_refused = matches!(&told, Err(AccountsFault::Memory));
    if was_refused {
        told = Accounts::from_json(alloc, THREE_ACCOUNTS);
    }
    let Ok(accounts) = told else {
        return Ended::Wrong;
    };
    let issuer = Issuer::new(accounts, 1);
    let are_read = has_ledger(&issuer, b"4111111111111111", 5000)
        && has_ledger(&issuer, b"5500000000000004", -700)
        && has_ledger(&issuer, b"378282246310005", 9_000_000_000_000_000);
    Ended::of(was_refused, are_read)
}

/// An order, and after it the ledger and what is available.
type DayOrder = (Order, (i64, i64));

/// A purchase, a hold and its completion, a reversal that comes early, one that comes late, and a purchase that is declined.
fn day() -> Option<[DayOrder; 8]> {
    Some([
        (debit(200, 1, 1000)?, (4000, 4000)),
        (debit(100, 2, 500)?, (4000, 3500)),
        (completion(3, 2, 400)?, (3600, 3600)),
        (undo(4, 5)?, (3600, 3600)),
        (debit(200, 5, 100)?, (3600, 3600)),
        (undo(6, 1)?, (4600, 4600)),
        (debit(200, 7, 9000)?, (4600, 4600)),
        (debit(100, 8, 600)?, (4600, 4000)),
    ])
}

/// Handles an order, and again where it was refused and nothing was entered.
fn handles_one(issuer: &mut Issuer, order: Order) -> (bool, bool) {
    let before = (issuer.len(), balances(issuer));
    match issuer.handle(order) {
        Ok(_) => (false, true),
        Err(Refused::Memory) if (issuer.len(), balances(issuer)) == before => {
            (true, issuer.handle(order).is_ok())
        }
        Err(_) => (true, false),
    }
}

/// Handles the orders of the day.
fn handles(alloc: Global) -> Ended {
    let (Some(mut issuer), Some(day)) = (issuer(alloc), day()) else {
        return Ended::Unready;
    };
    let mut was_refused = false;
    for (order, wanted) in day {
        let (is_refused, is_answered) = handles_one(&mut issuer, order);
        was_refused = was_refused || is_refused;
        if !is_answered || balances(&issuer) != Some(wanted) {
            return Ended::Wrong;
        }
    }
    Ended::of(was_refused, issuer.len() == 8)
}

/// A reversal that comes before its purchase: the purchase is declined where the reversal was entered, and granted where it
/// was refused.
fn reverses_early(alloc: Global) -> Ended {
    let (Some(mut issuer), Some(reversal), Some(purchase)) = (
        issuer(alloc),
        undo(8, 7),
        debit(200, 7, 1000),
    ) else {
        return Ended::Unready;
    };
    let told = issuer.handle(reversal);
    let was_refused = told == Err(Refused::Memory);
    let wanted = if was_refused {
        (0, 4000, 1)
    } else {
        (21, 5000, 2)
    };
    match issuer.handle(purchase) {
        Ok(answer) => {
            let ledger = balances(&issuer).map_or(0, |(ledger, _)| ledger);
            Ended::of(was_refused, (answer.code, ledger, issuer.len()) == wanted)
        }
        Err(Refused::Memory) if !was_refused => Ended::Unready,
        Err(_) => Ended::Wrong,
    }
}

/// How many orders were answered, each of which takes 10.00.
fn answered_count(answers: &[Result<Answer, Refused>]) -> u32 {
    let mut count = 0u32;
    for answer in answers {
        if answer.is_ok() {
            count = count.saturating_add(1);
        }
    }
    count
}

/// Whether those that were answered are entered, and no other.
fn is_as_answered(issuer: &Issuer, count: u32) -> bool {
    let left = 5000 - 1000 * i64::from(count.min(3));
    issuer.len() == count && balances(issuer) == Some((left, left))
}

/// Three purchases of 10.00.
fn purchases() -> Option<[Order; 3]> {
    Some([
        debit(200, 1, 1000)?,
        debit(200, 2, 1000)?,
        debit(200, 3, 1000)?,
    ])
}

/// Runs the orders: how many were answered, where they were handled.
fn run_count(alloc: Global, issuer: &mut Issuer, orders: &[Order]) -> Option<u32> {
    match issuer.run(alloc, orders) {
        Ok(answers) => Some(answered_count(&answers)),
        Err(_) => None,
    }
}

/// Runs three purchases, and runs them again where one was refused or none was handled: what was answered stays so.
fn runs(alloc: Global) -> Ended {
    let (Some(mut issuer), Some(orders)) = (issuer(alloc), purchases()) else {
        return Ended::Unready;
    };
    let count = run_count(alloc, &mut issuer, &orders).unwrap_or(0);
    if !is_as_answered(&issuer, count) {
        return Ended::Wrong;
    }
    let again = run_count(alloc, &mut issuer, &orders);
    match (again, is_as_answered(&issuer, 3)) {
        (Some(3), are_entered) => Ended::of(count < 3, are_entered),
        (None, true) if count == 3 => Ended::Unready,
        _ => Ended::Wrong,
    }
}

/// These calls by name, and how each ended.
pub fn rows(alloc: Global) -> [(&'static str, Ended); 5] {
    [
        ("Accounts::from_json", reads_json(alloc)),
        ("Accounts::from_json", reads_three_accounts(alloc)),
        ("Issuer::handle", handles(alloc)),
        ("Issuer::handle", reverses_early(alloc)),
        ("Issuer::run", runs(alloc)),
    ]
}
