//! Bytes, messages and orders that are known from outside.

ghost use Rattle.std.specs.Prelude.{◌≡◌, [], IfSome};

use iso_issuer::{Accounts, Issuer};
use iso_order::{Act, Answer, Money, Order, Pan, TxKey};
use iso_parts::Mti;
use iso_wire::Message;
use std::alloc::Global;

/// A purchase of 10.00.
pub const PURCHASE: &[u8] =
    b"0200722000010000800016411111111111111100000000000000100001020304050000070512345840";

/// The response that grants it as the first order of the journal.
pub const GRANTED: &[u8] =
    b"021072200001060080001641111111111111110000000000000010000102030405000007051234500000100840";

/// 50.00 on the account of the purchase.
pub const ACCOUNTS: &[u8] =
    b"{\"accounts\":[{\"currency\":\"840\",\"opening\":5000,\"pan\":\"4111111111111111\"}]}";

/// The date and time of all orders.
pub const SENT: u64 = 102_030_405;

/// The number of the acquirer of all orders.
pub const ACQUIRER: u64 = 12_345;

/// A message of that type with the elements.
pub fn message(alloc: Global, mti: u16, elements: &[(u8, &[u8])]) -> Option<Message> {
    let mut message = Message::new(alloc, Mti::from_digits(mti)?);
    for (n, value) in elements {
        if message.set(*n, value).is_err() {
            return None;
        }
    }
    Some(message)
}

/// The answer to the first order that is granted.
pub const FIRST: Answer = Answer {
    code: 0,
    seq: 1,
    shown: None,
};

/// The message of the purchase, or of its repeat.
pub fn purchase(alloc: Global, mti: u16) -> Option<Message> {
    let elements: [(u8, &[u8]); 7] = [
        (2, b"4111111111111111"),
        (3, b"000000"),
        (4, b"000000001000"),
        (7, b"0102030405"),
        (11, b"000007"),
        (32, b"12345"),
        (49, b"840"),
    ];
    message(alloc, mti, &elements)
}

/// The accounts.
pub fn accounts(alloc: Global) -> Option<Accounts> {
    Accounts::from_json(alloc, ACCOUNTS).ok()
}

/// An issuer of the account, whose journal is empty and takes ten orders.
pub fn issuer(alloc: Global) -> Option<Issuer>
    ensures { IfSome result (λ issuer. issuer.orders ≡ []) }
{
    match Accounts::from_json(alloc, ACCOUNTS) {
        Ok(accounts) => Some(Issuer::new(accounts, 10)),
        Err(_) => None,
    }
}

/// The number of the account of the purchase.
pub fn account() -> Option<Pan> {
    Pan::from_digits(b"4111111111111111")
}

/// What is on the account, and what is available.
pub fn balances(issuer: &Issuer) -> Option<(i64, i64)> {
    let pan = account()?;
    Some((issuer.ledger(pan)?, issuer.available(pan)?))
}

/// The key of an order of that type, under that trace number.
pub const fn key(base: u16, stan: u32) -> TxKey {
    TxKey {
        base,
        stan,
        sent: SENT,
        acquirer: ACQUIRER,
    }
}

/// An amount on the account.
pub fn money(amount: u64) -> Option<Money> {
    Some(Money {
        pan: account()?,
        amount,
        currency: *b"840",
    })
}

/// A purchase (200) or a hold (100).
pub fn debit(base: u16, stan: u32, amount: u64) -> Option<Order> {
    Order::new(key(base, stan), Act::Debit(money(amount)?))
}

/// The reversal of all of a purchase.
pub fn undo(stan: u32, original: u32) -> Option<Order> {
    let original = key(200, original);
    Order::new(key(420, stan), Act::Undo { original, left: 0 })
}

/// The completion of a hold.
pub fn completion(stan: u32, hold: u32, amount: u64) -> Option<Order> {
    let money = money(amount)?;
    let hold = key(100, hold);
    Order::new(key(220, stan), Act::Complete { money, hold })
}
