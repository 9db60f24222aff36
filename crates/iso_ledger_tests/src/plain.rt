//! Orders in plain words, as tables have them: only `Order::new` makes an order, and no constant calls it.
use iso_order::{Act, Money, Order, Pan, TxKey};

/// The digits of the account that most tests are about.
pub const ACCOUNT: &[u8] = b"4111111111111111";

/// What an order does.
#[derive(Clone, Copy)]
pub enum Does {
    Debit,
    Credit,
    Inquiry,
    Complete,
    Undo,
}

/// An order: the digits of its account, its amount and its currency. A completion has the key of its hold too; a reversal has
/// the key of its original, and its amount is what it leaves.
#[derive(Clone, Copy)]
pub struct Plain {
    pub key: TxKey,
    pub does: Does,
    pub digits: &'static [u8],
    pub amount: u64,
    pub currency: [u8; 3],
    pub of: TxKey,
}

/// The key of message 0200 with trace number 7, of acquirer 12345.
pub const USUAL_KEY: TxKey = TxKey {
    base: 200,
    stan: 7,
    sent: 102_030_405,
    acquirer: 12_345,
};

/// A payment of 10.00, from which other orders differ.
pub const USUAL: Plain = Plain {
    key: USUAL_KEY,
    does: Does::Debit,
    digits: ACCOUNT,
    amount: 1000,
    currency: *b"840",
    of: USUAL_KEY,
};

/// What is moved.
pub fn money(plain: &Plain) -> Option<Money> {
    let pan = Pan::from_digits(plain.digits)?;
    Some(Money {
        pan,
        amount: plain.amount,
        currency: plain.currency,
    })
}

/// What is asked.
pub fn act(plain: &Plain) -> Option<Act> {
    let money = money(plain)?;
    Some(match plain.does {
        Does::Debit => Act::Debit(money),
        Does::Credit => Act::Credit(money),
        Does::Inquiry => Act::Inquiry(money),
        Does::Complete => Act::Complete {
            money,
            hold: plain.of,
        },
        Does::Undo => Act::Undo {
            original: plain.of,
            left: plain.amount,
        },
    })
}

/// The order, where a message can carry it.
pub fn order(plain: &Plain) -> Option<Order> {
    let act = act(plain)?;
    Order::new(plain.key, act)
}
