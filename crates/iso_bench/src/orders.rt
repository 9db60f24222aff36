//! The orders that an issuer is handed, and its accounts.

use anyhow::{Context, Result};
use iso_issuer::Accounts;
use iso_order::{Act, Money, Order, Pan, TxKey};
use iso_wire::write_decimal;
use std::alloc::Global;

/// How many accounts there are.
pub const ACCOUNTS: u32 = 1000;

/// What each purchase takes.
pub const AMOUNT: u32 = 1000;

/// The number of the first account.
const FIRST: u64 = 4_000_000_000_000_000;

/// How many trace numbers there are.
const STANS: u32 = 1_000_000;

/// When the first order was sent.
const FIRST_SENT: u64 = 101_000_000;

/// The accounts, on each of which is enough for every order.
pub fn accounts(alloc: Global) -> Result<Accounts> {
    let mut text = String::new(alloc);
    text.push_str("{\"accounts\":[")?;
    for i in 0..ACCOUNTS {
        let comma = if i == 0 { "" } else { "," };
        let pan = FIRST + u64::from(i);
        let row = "\"currency\":\"840\",\"opening\":9000000000000";
        write!(text, "{comma}{{{row},\"pan\":\"{pan}\"}}")?;
    }
    text.push_str("]}")?;
    Ok(Accounts::from_json(alloc, text.as_bytes())?)
}

/// The number of the account of the `n`th order.
pub fn pan(n: u32) -> Result<Pan> {
    let mut digits = [0; 16];
    write_decimal(&mut digits, FIRST + u64::from(n % ACCOUNTS));
    Pan::from_digits(&digits).context("16 digits")
}

/// An amount on the account of the `n`th order.
fn money(n: u32) -> Result<Money> {
    Ok(Money {
        pan: pan(n)?,
        amount: u64::from(AMOUNT),
        currency: *b"840",
    })
}

/// A number that looks random. Each `n` has another one.
fn scattered_number(n: u32) -> u32 {
    let n = (n ^ (n >> 16)).wrapping_mul(0x85EB_CA6B);
    let n = (n ^ (n >> 13)).wrapping_mul(0xC2B2_AE35);
    n ^ (n >> 16)
}

/// The key of the `n`th order of that type: its trace number looks random, and each was sent at another time.
fn key(base: u16, n: u32) -> TxKey {
    TxKey {
        base,
        stan: scattered_number(n) % STANS,
        sent: FIRST_SENT + u64::from(n),
        acquirer: 12_345,
    }
}

/// The `n`th purchase.
pub fn purchase(n: u32) -> Result<Order> {
    Order::new(key(200, n), Act::Debit(money(n)?)).context("a purchase")
}

/// The `n`th reversal, of that purchase.
pub fn reversal(n: u32, purchase: u32) -> Result<Order> {
    Order::new(
        key(420, n),
        Act::Undo {
            original: key(200, purchase),
            left: 0,
        },
    )
    .context("a reversal")
}
