//! What the host is asked once all is closed: the balance of each account.

use crate::plan::Buyer;
use iso_order::{Act, Money, Order, Told, TxKey};
use std::alloc::{AllocError, Global};
use std::collections::VecDeque;

/// How often the host is asked for a balance at most.
const MOST_TIMES: u8 = 5;

/// One account that is asked for.
#[derive(Clone, Copy, Debug)]
struct Asked {
    key: TxKey,
    buyer: Buyer,
    /// How often it was asked for.
    times: u8,
    /// Until when an answer is waited for, in milliseconds.
    until: u64,
    /// Whether it is done with.
    is_done: bool,
    /// What the host told.
    balance: Option<i64>,
}

/// The accounts that the host is asked for.
#[derive(Drop)]
pub struct Inquiries {
    asked: Vec<Asked>,
    /// The places of those that wait, the one that is due first in front.
    waiting: VecDeque<usize>,
    patience: u64,
    /// Their trace numbers are those behind this one.
    behind: u32,
}

impl Asked {
    /// One that wasn't asked for yet.
    fn new(key: TxKey, buyer: Buyer) -> Asked {
        Asked {
            key,
            buyer,
            times: 0,
            until: 0,
            is_done: false,
            balance: None,
        }
    }

    /// The order that asks, an inquiry.
    fn order(&self) -> Option<Order> {
        let money = Money {
            pan: self.buyer.pan,
            amount: 0,
            currency: self.buyer.currency,
        };
        Order::new(self.key, Act::Inquiry(money))
    }
}

impl Inquiries {
    /// None. Takes no memory.
    pub fn none(alloc: Global, patience: u64) -> Inquiries {
        Inquiries {
            asked: Vec::new(alloc),
            waiting: VecDeque::new(alloc),
            patience,
            behind: 0,
        }
    }

    /// Asks for these accounts from now on, and for no others: as an acquirer at a time (element 7), under the trace numbers
    /// behind a given one.
    pub fn ask(
        &mut self,
        buyers: &[Buyer],
        acquirer: u64,
        sent: u64,
        behind: u32,
    ) -> Result<(), AllocError> {
        self.asked.clear();
        self.waiting.clear();
        self.behind = behind;
        self.asked.reserve(buyers.len())?;
        self.waiting.reserve(buyers.len())?;
        let mut stan = behind;
        for (place, buyer) in buyers.iter().enumerate() {
            stan = stan.saturating_add(1);
            let key = TxKey {
                base: 100,
                stan,
                sent,
                acquirer,
            };
            self.waiting.push_back(place)?;
            self.asked.push(Asked::new(key, *buyer))?;
        }
        Ok(())
    }

    /// The next order that is to be sent by a moment, in milliseconds. One that was sent often enough is done with.
    pub fn next(&mut self, now: u64) -> Option<Order> {
        for _ in 0..self.waiting.len() {
            let place = *self.waiting.front()?;
            let asked = self.asked.get_mut(place)?;
            if !asked.is_done && now < asked.until {
                return None;
            }
            self.waiting.pop_front();
            if asked.is_done || asked.times >= MOST_TIMES {
                asked.is_done = true;
                continue;
            }
            asked.times += 1;
            asked.until = now.saturating_add(self.patience);
            self.waiting.push_back_reserved(place);
            return asked.order();
        }
        None
    }

    /// Takes an answer, if it is to one of these: whether it is.
    pub fn hear(&mut self, told: &Told, balance: Option<i64>) -> bool {
        let Some(place) = told.key.stan.checked_sub(self.behind.saturating_add(1)) else {
            return false;
        };
        let place = place as usize;
        let Some(asked) = self.asked.get_mut(place) else {
            return false;
        };
        if !asked.key.is_same(&told.key) {
            return false;
        }
        if !asked.is_done && !matches!(told.code, 94 | 96) {
            asked.is_done = true;
            asked.balance = balance;
        }
        true
    }

    /// Whether all are done with.
    pub fn are_done(&self) -> bool {
        self.asked.iter().all(|asked| asked.is_done)
    }

    /// What the host told of each, in the order of the accounts.
    pub fn balances(&self, alloc: Global) -> Result<Vec<Option<i64>>, AllocError> {
        let mut balances = Vec::new(alloc);
        for asked in &self.asked {
            balances.push(asked.balance)?;
        }
        Ok(balances)
    }
}
