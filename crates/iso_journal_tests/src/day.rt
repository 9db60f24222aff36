//! A day of orders, and the journals that keep it.

use iso_durable::DurableIssuer;
use iso_issuer::Accounts;
use iso_journal::{JournalLog, OpenError, Unwatched, create, open};
use iso_log_tests::{Tear, TornDisk};
use iso_order::{Act, Answer, Money, Order, Pan, TxKey};
use iso_record::Heading;
use std::alloc::Global;

/// An issuer over a journal in memory.
pub type Keeper = DurableIssuer<JournalLog<TornDisk>>;

const ACCOUNTS: &[u8] =
    b"{\"accounts\":[{\"currency\":\"840\",\"opening\":5000,\"pan\":\"4111111111111111\"}]}";

/// The same account with another opening amount.
const OTHER_ACCOUNTS: &[u8] =
    b"{\"accounts\":[{\"currency\":\"840\",\"opening\":4000,\"pan\":\"4111111111111111\"}]}";

/// The version of the rules.
pub const RULES: u16 = 3;

/// The code of each answer of the day: granted, granted, not enough money, and the first one taken back.
pub const CODES: [u8; 4] = [0, 0, 51, 0];

/// The document of the accounts, or another one.
pub fn document(is_other: bool) -> &'static [u8] {
    if is_other { OTHER_ACCOUNTS } else { ACCOUNTS }
}

fn key(base: u16, stan: u32) -> TxKey {
    TxKey {
        base,
        stan,
        sent: 1126120000,
        acquirer: 7,
    }
}

/// A debit of so much.
fn debit(stan: u32, amount: u64) -> Option<Order> {
    let pan = Pan::from_digits(b"4111111111111111")?;
    Order::new(
        key(200, stan),
        Act::Debit(Money {
            pan,
            amount,
            currency: *b"840",
        }),
    )
}

/// The reversal of the debit with that trace number.
fn reversal(stan: u32, of: u32) -> Option<Order> {
    Order::new(
        key(420, stan),
        Act::Undo {
            original: key(200, of),
            left: 0,
        },
    )
}

/// The orders of the day: 30.00 and 10.00 are granted, 20.00 is not, and the first one is reversed.
pub fn day() -> Option<[Order; 4]> {
    Some([
        debit(1, 3000)?,
        debit(2, 1000)?,
        debit(3, 2000)?,
        reversal(4, 1)?,
    ])
}

/// Opens a journal of these accounts.
pub fn open_with(
    alloc: Global,
    disk: TornDisk,
    is_other: bool,
    rules: u16,
) -> Result<Keeper, OpenError> {
    let text = document(is_other);
    match Accounts::from_json(alloc, text) {
        Err(_) => Err(OpenError::Memory),
        Ok(accounts) => match open(
            disk,
            &Heading::of(rules, text),
            accounts,
            100,
            4,
            &mut Unwatched,
        ) {
            Ok(keeper) => Ok(keeper),
            Err((error, _)) => Err(error),
        },
    }
}

/// A new journal with room for 20 orders.
fn new_journal(alloc: Global) -> Option<TornDisk> {
    match create(TornDisk::new(alloc), &Heading::of(RULES, ACCOUNTS), 21) {
        Ok(journal) => Some(journal.log.disk),
        Err(_) => None,
    }
}

/// An issuer over a new journal.
pub fn new_keeper(alloc: Global) -> Option<Keeper> {
    match new_journal(alloc) {
        Some(disk) => open_with(alloc, disk, false, RULES).ok(),
        None => None,
    }
}

/// The file that a crash leaves of a journal.
pub fn left_of(alloc: Global, keeper: &Keeper, tear: Tear) -> Option<TornDisk> {
    keeper.log.log.disk.crash(alloc, tear).ok()
}

/// Whether an answer has the code of its order, and a place in the journal that counts it in.
pub fn is_answer(number: usize, answer: Answer) -> bool {
    match CODES.get(number) {
        Some(code) => answer.code == *code && answer.seq as usize == number + 1,
        None => false,
    }
}

/// Whether the issuer gives each of the first orders its first answer again.
pub fn repeats(keeper: &mut Keeper, orders: &[Order]) -> bool {
    let mut all = true;
    for (number, order) in orders.iter().enumerate() {
        all = all
            && match keeper.decide(*order) {
                Ok(answer) => is_answer(number, answer),
                Err(_) => false,
            };
    }
    all
}
