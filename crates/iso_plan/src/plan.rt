//! What a run is to do.
ghost use Rattle.std.specs.Prelude.{◌≡◌};
ghost use Rattle.std.specs.List.{list_all};
ghost use Rattle.iso_plan.specs.Plan.{has_currency, are_buyers, are_faults, plan_fault};

use iso_mix::Mix;
use iso_order::{MOST_AMOUNT, Pan, currency_of};
use iso_table::Table;
use iso_wire::Header;
use std::net::SocketAddr;
use thiserror::Error;

/// The largest acquirer's number: eleven nines (element 32).
const MOST_ACQUIRER: u64 = 99_999_999_999;

/// So many accounts are bought with at most: for each there are two trace numbers to ask for its balance.
const MOST_BUYERS: usize = 499_999;

/// A certainty, in millionths.
pub const CERTAIN: u32 = 1_000_000;

/// An account that is bought with.
#[derive(Clone, Copy, Debug)]
pub struct Buyer {
    /// Its number.
    pub pan: Pan,
    /// Three letters or digits.
    pub currency: [u8; 3],
}

/// What is done to each frame that goes out and to each answer that comes in, as networks do. Chances are in millionths.
#[derive(Clone, Copy, Debug, PartialEq, Eq)]
pub struct Faults {
    /// How likely it is lost.
    pub lose: u32,
    /// How likely it comes twice, if it isn't lost.
    pub repeat: u32,
    /// How likely its connection is cut behind it.
    pub cut: u32,
    /// How long it is held back, in milliseconds: the least and the most.
    pub delay: (u32, u32),
}

impl Faults {
    /// Nothing is done to any frame.
    pub const NONE: Faults = Faults {
        lose: 0,
        repeat: 0,
        cut: 0,
        delay: (0, 0),
    };
}

/// What a run is to do.
#[derive(Clone, Copy)]
pub struct Plan<'a> {
    /// The table of the host's messages.
    pub table: &'a Table,
    /// The header of the host's frames.
    pub header: Header,
    /// Where the host listens.
    pub address: SocketAddr,
    /// The acquirer's number (element 32), of at most eleven digits.
    pub acquirer: u64,
    /// How many connections there are, one at least.
    pub peers: usize,
    /// How many transactions may be open when another one begins, one at least.
    pub most_open: usize,
    /// How many purchases begin in a second, one at least; without it, as many as may be open.
    pub rate: Option<u32>,
    /// How many purchases begin at most.
    pub count: u32,
    /// How long the run takes at most, in seconds.
    pub seconds: u64,
    /// The least amount of a purchase, in minor units, from 1 on.
    pub least: u64,
    /// The most, at most twelve nines.
    pub most: u64,
    /// Of a hundred transactions so many aren't purchases, but holds, completions, inquiries or partial reversals.
    pub mix: Mix,
    /// How long an answer is waited for, in milliseconds.
    pub patience: u64,
    /// What is done to the traffic.
    pub faults: Faults,
    /// From it the purchases and the faults are drawn.
    pub seed: u64,
    /// The accounts that are bought with, one at least, and at most 499,999.
    pub buyers: &'a [Buyer],
    /// Whether the host is asked for each balance once all is closed.
    pub checks: bool,
}

/// What is wrong with a plan.
#[derive(Clone, Copy, Debug, PartialEq, Eq, Drop, Error)]
pub enum PlanFault {
    /// The acquirer's number has more than eleven digits.
    #[error("the acquirer's number has more than eleven digits")]
    Acquirer,
    /// There is no connection.
    #[error("a run wants one connection at least")]
    Peers,
    /// No transaction may be open.
    #[error("a run wants room for one open transaction at least")]
    Open,
    /// No purchase begins in a second.
    #[error("a rate is one purchase a second at least")]
    Rate,
    /// The amounts aren't from 1 to twelve nines, the least first.
    #[error("amounts are from 1 to 999999999999, the least first")]
    Amounts,
    /// More than a hundred of a hundred transactions are to be holds, completions, inquiries and partial reversals.
    #[error("a mix is a hundred of a hundred transactions at most")]
    Mix,
    /// A chance is more than a million millionths, or the most delay is less than the least.
    #[error("a chance is at most a million millionths, and the least delay comes first")]
    Faults,
    /// No account is bought with, or more than 499,999, or one has a currency that isn't three letters or digits.
    #[error("a run wants one account at least and 499999 at most, each with a currency of three letters or digits")]
    Buyers,
}

fn has_currency(buyer: &Buyer) -> bool
    ensures { result ≡ has_currency buyer.now }
{
    currency_of(&buyer.currency).is_some()
}

fn have_currencies(buyers: &[Buyer]) -> bool
    ensures { result ≡ list_all has_currency buyers.now }
{
    buyers.iter().all(|buyer| has_currency(buyer))
}

fn are_buyers(buyers: &[Buyer]) -> bool
    ensures { result ≡ are_buyers buyers.now }
{
    0 < buyers.len() && buyers.len() <= MOST_BUYERS && have_currencies(buyers)
}

fn are_faults(faults: &Faults) -> bool
    ensures { result ≡ are_faults faults.now }
{
    faults.lose <= CERTAIN
        && faults.repeat <= CERTAIN
        && faults.cut <= CERTAIN
        && faults.delay.0 <= faults.delay.1
}

impl Plan<'_> {
    /// What is wrong with it, if anything is. Takes no memory.
    pub fn fault(&self) -> Option<PlanFault>
        // It is the first of these that is wrong: the acquirer's number, connections, room for open
        // ones, rate, amounts, mix, faults, accounts; `None` exactly where none is.
        ensures { result ≡ plan_fault self.now }
    {
        if self.acquirer > MOST_ACQUIRER {
            Some(PlanFault::Acquirer)
        } else if self.peers == 0 {
            Some(PlanFault::Peers)
        } else if self.most_open == 0 {
            Some(PlanFault::Open)
        } else if self.rate == Some(0) {
            Some(PlanFault::Rate)
        } else if self.least == 0 || self.least > self.most || self.most > MOST_AMOUNT {
            Some(PlanFault::Amounts)
        } else if !self.mix.is_fair() {
            Some(PlanFault::Mix)
        } else if !are_faults(&self.faults) {
            Some(PlanFault::Faults)
        } else if !are_buyers(self.buyers) {
            Some(PlanFault::Buyers)
        } else {
            None
        }
    }
}
