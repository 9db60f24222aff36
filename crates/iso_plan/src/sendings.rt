//! When orders were sent, and what closed them, by trace number.
ghost use Rattle.std.specs.Prelude.{◌≡◌, ◌<◌, ◌==◌, ℕ, length, IfOk, OnOk, OnErr, if◌then◌else◌};
ghost use Rattle.iso_plan.specs.Sendings.{sending_at, sent_again, closed_by, latency_of, differs_from, earlier_or_none};

use std::alloc::{AllocError, Global};
use std::marker::Model;

/// What is known of an order of one trace number.
#[derive(Clone, Copy, Debug, PartialEq, Eq)]
pub struct Sending {
    /// How often it was sent.
    pub times: u32,
    /// When it was sent first, in microseconds.
    pub first: u64,
    /// The answer that closed a transaction, by the digest of its bytes.
    pub answer: Option<u64>,
}

/// An order that wasn't sent.
const UNSENT: Sending = Sending {
    times: 0,
    first: 0,
    answer: None,
};

/// An order of an earlier run, which sent it once at least.
const EARLIER: Sending = Sending {
    times: 1,
    first: 0,
    answer: None,
};

/// When orders were sent, and what closed them. A contract sees how many orders are of earlier runs, and what is known of
/// each order, by its trace number.
#[derive(Drop)]
pub struct Sendings {
    by_trace: Vec<Sending>,
    earlier: usize,
}

impl Model for Sendings {
    ghost use Rattle.iso_plan.specs.Sendings.{KnownOrders};

    ghost Value = { KnownOrders };

    ghost view = { λ s. record { by_trace = s.by_trace.items; earlier = s.earlier } };
}

/// Room for the order of a trace number.
fn make_room(by_trace: &mut Vec<Sending>, stan: u32) -> Result<(), AllocError>
    ensures same { (n : ℕ) → sending_at by_trace.new.items n ≡ sending_at by_trace.old.items n }
    ensures room { OnOk result (stan < length by_trace.new.items) }
    ensures unchanged { OnErr result (by_trace.new.items ≡ by_trace.old.items) }
{
    let place = stan as usize;
    if by_trace.len() <= place {
        by_trace.resize(place + 1, UNSENT)?;
    }
    Ok(())
}

impl Sendings {
    /// Those of a run that goes on with so many orders of earlier runs, under the first trace numbers.
    pub fn new(alloc: Global, earlier: usize) -> Result<Sendings, AllocError>
        // Memory aside, it knows how many orders are of earlier runs.
        ensures earlier { IfOk result (λ s. s.earlier ≡ earlier) }
        // Memory aside, each order of an earlier run, by its trace number, counts as sent
        // once, and no other as sent.
        ensures each { IfOk result
            (λ s. (n : ℕ) → sending_at s.by_trace n ≡ earlier_or_none earlier n) }
    {
        let mut by_trace = Vec::new(alloc);
        by_trace.resize(earlier.saturating_add(1), EARLIER)?;
        Ok(Sendings { by_trace, earlier })
    }

    /// What is known of the order of a trace number.
    fn get(&self, stan: u32) -> Sending
        ensures { result ≡ sending_at self.now.by_trace stan }
    {
        match self.by_trace.get(stan as usize) {
            Some(sending) => *sending,
            None => UNSENT,
        }
    }

    /// The order of a trace number is sent at a moment, in microseconds: whether for the first time.
    pub fn send(&mut self, stan: u32, now: u64) -> Result<bool, AllocError>
        // Memory aside, it is true exactly where the order wasn't sent before.
        ensures first { IfOk result
            (λ first. first ≡ ((sending_at self.old.by_trace stan).times == 0)) }
        // Memory aside, the order counts as sent once more, and keeps the moment of its first
        // sending; what is known of other orders stays.
        ensures sent { OnOk result ((n : ℕ) → sending_at self.new.by_trace n
            ≡ (if n == stan then sent_again now (sending_at self.old.by_trace n)
            else sending_at self.old.by_trace n)) }
        // The count of orders of earlier runs stays.
        ensures earlier { self.new.earlier ≡ self.old.earlier }
        // Without memory what is known of each order stays.
        ensures unchanged { OnErr result
            ((n : ℕ) → sending_at self.new.by_trace n ≡ sending_at self.old.by_trace n) }
    {
        make_room(&mut self.by_trace, stan)?;
        let before = self.get(stan);
        let first = if before.times == 0 { now } else { before.first };
        self.by_trace[stan as usize] = Sending {
            times: before.times.saturating_add(1),
            first,
            answer: before.answer,
        };
        Ok(before.times == 0)
    }

    /// How long the answer took that came at a moment, in microseconds, to the order of a trace number: only of one that was
    /// sent once, in this run.
    pub fn latency(&self, stan: u32, now: u64) -> Option<u64>
        ensures { result ≡ latency_of self.now stan now }
    {
        let of = self.get(stan);
        if of.times == 1 && self.earlier < stan as usize {
            Some(now.saturating_sub(of.first))
        } else {
            None
        }
    }

    /// An answer of that digest to the order of a trace number closed a transaction.
    pub fn close(&mut self, stan: u32, answer: u64)
        // The answer's digest is noted of the order of that trace number, if there is a place for
        // it; what is known of other orders stays.
        ensures closed { (n : ℕ) → sending_at self.new.by_trace n
            ≡ (if n == stan then closed_by answer self.old.by_trace n
            else sending_at self.old.by_trace n) }
        // The count of orders of earlier runs stays.
        ensures earlier { self.new.earlier ≡ self.old.earlier }
    {
        if let Some(of) = self.by_trace.get_mut(stan as usize) {
            of.answer = Some(answer);
        }
    }

    /// Whether an answer of that digest differs from the one that closed a transaction under the same trace number.
    pub fn differs(&self, stan: u32, answer: u64) -> bool
        ensures { result ≡ differs_from answer (sending_at self.now.by_trace stan).answer }
    {
        match self.get(stan).answer {
            Some(first) => first != answer,
            None => false,
        }
    }
}
