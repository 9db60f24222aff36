//! Both ends, and all that was ever sent between them.

ghost use Rattle.std.specs.Prelude.{◌≡◌, Option, All, length, ◌<◌, [], OnOk, OnErr, IfErr, slice_get};
ghost use Rattle.iso_acquirer.specs.declared.fault.StepFault;
ghost use Rattle.iso_acquirer.specs.Acquirer.{debit_of, IsFair, slots_after_answer};
ghost use Rattle.iso_acquirer.specs.World.{World as Both, IsDelivered, IsNotDelivered, IsAnswerGiven, IsAnswerNotGiven, IsOther, IsNotOther, IsBegun};
ghost use Rattle.iso_acquirer.specs.World.{IsNotBegun, IsAsked, IsNotAsked, IsFairEvent, IsMade, IsNotMade, IsStep, IsRan, refusal_count};
ghost use Rattle.iso_acquirer.specs.Agreement.{BothAgree, StaysClosed, BooksAgree};

use crate::acquirer::Acquirer;
use crate::event::{Event, Given};
use crate::fault::{AcqFault, StepFault};
use iso_issuer::laws::{
    answers_are_entered, granted_stands, journals_grow, keys_stay_distinct, reversals_stay,
    reversed_never_stands, stands_no_more,
};
use iso_issuer::{Issuer, Refused};
use iso_order::{Order, Pan};
use std::marker::Model;

/// An acquirer and an issuer, with the orders that were sent and the answers that were given. Nothing else passes
/// between them: what is lost, late, repeated or out of order is so by the events that are played.
#[derive(Drop)]
pub struct World {
    acquirer: Acquirer,
    sent: Vec<Order>,
    given: Vec<Given>,
    issuer: Issuer,
}

impl Model for World {
    ghost use Rattle.iso_acquirer.specs.World.{World as Both};
    ghost use Rattle.iso_acquirer.specs.Agreed.{IsSound};

    ghost Value = { Both };

    ghost view = { λ w. record {
      acquirer = w.acquirer;
      sent = w.sent.items;
      given = w.given.items;
      issuer = w.issuer;
    } };

    ghost invariant = { λ w. IsSound (record {
      acquirer = w.acquirer;
      sent = w.sent.items;
      given = w.given.items;
      issuer = w.issuer;
    }) };
}

fn sent_at(sent: &[Order], place: usize) -> Option<Order>
    ensures { result ≡ slice_get sent.now place }
{
    sent.get(place).copied()
}

fn given_at(given: &[Given], place: usize) -> Option<Given>
    ensures { result ≡ slice_get given.now place }
{
    given.get(place).copied()
}

/// Hands a given answer to the acquirer.
fn hand_answer(acquirer: &mut Acquirer, given: &Given)
    ensures { acquirer.new ≡ record {
      id = acquirer.old.id;
      slots = slots_after_answer acquirer.old.slots given.now.key given.now.answer.code;
    } }
{
    acquirer.answer(given.key, given.answer.code);
}

impl World {
    /// Both ends, unused. Takes no memory.
    pub fn new(acquirer: Acquirer, issuer: Issuer) -> World
        // The acquirer has begun no transaction.
        requires acquirer { acquirer.slots ≡ [] }
        // The issuer has entered no order.
        requires issuer { issuer.orders ≡ [] }
        // Both ends are as they were given; nothing was sent, and no answer was given.
        ensures { result ≡ record { acquirer = acquirer; sent = []; given = []; issuer = issuer } }
    {
        let alloc = acquirer.allocator();
        World {
            acquirer,
            sent: Vec::new(alloc),
            given: Vec::new(alloc),
            issuer,
        }
    }

    /// The acquirer. Takes no memory.
    pub fn acquirer(&self) -> &Acquirer
        ensures { result.now ≡ self.now.acquirer }
    {
        &self.acquirer
    }

    /// The issuer. Takes no memory.
    pub fn issuer(&self) -> &Issuer
        ensures { result.now ≡ self.now.issuer }
    {
        &self.issuer
    }

    /// The orders that were sent, in order. Takes no memory.
    pub fn sent(&self) -> &[Order]
        ensures { result.now ≡ self.now.sent }
    {
        &self.sent
    }

    /// The answers that were given to them, in order. Takes no memory.
    pub fn given(&self) -> &[Given]
        ensures { result.now ≡ self.now.given }
    {
        &self.given
    }

    /// Both ends agree on each transaction, after whatever happened: one that the acquirer holds as approved is
    /// entered at the issuer and stands, and one that it holds as declined or reversed never stands, whatever orders
    /// come yet. Does nothing.
    pub fn both_agree(&self)
        ensures { BothAgree self.now }
    {
        // the proof learns here what holds of every world
        let _ = &self.sent;
        // the laws of which entries stand, now and ever after, for the prover
        granted_stands();
        reversals_stay();
        stands_no_more();
        reversed_never_stands();
    }

    /// Where all transactions are closed and no order of others was entered, each account has its opening amount less
    /// the amounts of its approved debits, and all of it is available. Does nothing.
    pub fn books_agree(&self)
        ensures { BooksAgree self.now }
    {
        // the proof learns here what holds of every world
        let _ = &self.sent;
        // the laws of which entries there are, and which of them stand, now and ever after, for the prover
        journals_grow();
        granted_stands();
        reversals_stay();
        stands_no_more();
        reversed_never_stands();
    }

    /// Hands the sent order at a place to the issuer, and keeps the answer.
    fn deliver(&mut self, place: usize) -> Result<(), StepFault>
        ensures ok { OnOk result (IsDelivered self.old place self.new) }
        ensures fault { IfErr result (IsNotDelivered self.old place) }
        ensures unchanged { OnErr result (self.new ≡ self.old) }
    {
        let Some(order) = sent_at(&self.sent, place) else {
            return Err(StepFault::NoSuch);
        };
        if self.issuer.is_full_for(&order.key()) {
            return Err(StepFault::Issuer(Refused::Full));
        }
        self.given.reserve(1)?;
        // the laws of a journal with one order more, for the prover: what was agreed goes on to hold
        journals_grow();
        keys_stay_distinct();
        answers_are_entered();
        reversals_stay();
        match self.issuer.handle(order) {
            Ok(answer) => {
                let _ = self.given.push(Given {
                    key: order.key(),
                    answer,
                });
                Ok(())
            }
            Err(refused) => Err(StepFault::Issuer(refused)),
        }
    }

    /// Hands the given answer at a place to the acquirer.
    fn answer(&mut self, place: usize) -> Result<(), StepFault>
        ensures ok { OnOk result (IsAnswerGiven self.old place self.new) }
        ensures fault { IfErr result (IsAnswerNotGiven self.old place) }
        ensures unchanged { OnErr result (self.new ≡ self.old) }
    {
        let Some(given) = given_at(&self.given, place) else {
            return Err(StepFault::NoSuch);
        };
        // the law that a reversed key stays reversed, for the prover
        reversals_stay();
        hand_answer(&mut self.acquirer, &given);
        Ok(())
    }

    /// Hands an order of another acquirer to the issuer.
    fn other(&mut self, order: Order) -> Result<(), StepFault>
        ensures ok { OnOk result (IsOther self.old order self.new) }
        ensures fault { IfErr result (IsNotOther self.old order) }
        ensures unchanged { OnErr result (self.new ≡ self.old) }
    {
        if order.key().acquirer == self.acquirer.id() {
            return Err(StepFault::OwnKey);
        }
        // the laws of a journal with one order more, for the prover: what was agreed goes on to hold
        journals_grow();
        keys_stay_distinct();
        reversals_stay();
        match self.issuer.handle(order) {
            Ok(_) => Ok(()),
            Err(refused) => Err(StepFault::Issuer(refused)),
        }
    }

    /// Begins a debit, and sends its order.
    fn begin(
        &mut self,
        pan: Pan,
        amount: u64,
        currency: [u8; 3],
        sent: u64,
    ) -> Result<(), StepFault>
        requires { IsFair amount currency sent }
        ensures ok { OnOk result
            (IsBegun self.old (debit_of self.old.acquirer pan amount currency sent) self.new) }
        ensures fault { IfErr result (IsNotBegun self.old) }
        ensures unchanged { OnErr result (self.new ≡ self.old) }
    {
        if !self.acquirer.has_trace_left() {
            return Err(StepFault::Acquirer(AcqFault::NoMoreTrace));
        }
        self.sent.reserve(1)?;
        match self.acquirer.begin(pan, amount, currency, sent) {
            Ok(order) => {
                let _ = self.sent.push(order);
                Ok(())
            }
            Err(fault) => Err(StepFault::Acquirer(fault)),
        }
    }

    /// Sends what the acquirer sends where no answer came in time.
    fn timeout(&mut self, stan: u32) -> Result<(), StepFault>
        ensures ok { OnOk result (IsAsked self.old stan self.new) }
        ensures fault { IfErr result (IsNotAsked self.old stan) }
        ensures unchanged { OnErr result (self.new ≡ self.old) }
    {
        if let Some(fault) = self.acquirer.timeout_fault(stan) {
            return Err(StepFault::Acquirer(fault));
        }
        self.sent.reserve(1)?;
        match self.acquirer.timeout(stan) {
            Ok(order) => {
                let _ = self.sent.push(order);
                Ok(())
            }
            Err(fault) => Err(StepFault::Acquirer(fault)),
        }
    }

    /// Makes an event, or refuses it and changes nothing. What is closed stays in its state. It is refused where no order
    /// was sent or no answer given at the place that it names, where an order of others has this acquirer's number, and
    /// where the acquirer or the issuer refuses. Want of memory is told only where none of these holds.
    pub fn step(&mut self, event: Event) -> Result<(), StepFault>
        // A debit that begins has an amount, a currency and a time that a message can carry.
        requires { IsFairEvent event }
        // An event does what it says: a debit or time-out sends its order, a sent order is handled
        // and its answer given, an answer is taken, an order of others is handled.
        ensures made { OnOk result (IsMade self.old event self.new) }
        // A fault has its reason: nothing sent or given at that place, others' order with this
        // acquirer's number, or an end that refuses; else it is want of memory.
        ensures fault { IfErr result (IsNotMade self.old event) }
        // An event that is refused changes nothing.
        ensures unchanged { OnErr result (self.new ≡ self.old) }
        // A transaction that is approved, declined or reversed stays so.
        ensures closed { StaysClosed self.old self.new }
    {
        // the proof learns here what holds of every world
        let _ = &self.sent;
        match event {
            Event::Begin {
                pan,
                amount,
                currency,
                sent,
            } => self.begin(pan, amount, currency, sent),
            Event::Timeout(stan) => self.timeout(stan),
            Event::Deliver(place) => self.deliver(place),
            Event::Answer(place) => self.answer(place),
            Event::Other(order) => self.other(order),
        }
    }

    /// How often an event is refused: once or not at all.
    fn refusals(&mut self, event: Event) -> u32
        requires { IsFairEvent event }
        ensures step { (f : Option StepFault) × IsStep self.old event self.new f
            × (result ≡ refusal_count f) }
        ensures closed { StaysClosed self.old self.new }
    {
        match self.step(event) {
            Ok(()) => 0,
            Err(_) => 1,
        }
    }

    /// Steps each event, in order: how many were refused. What is closed stays in its state. The caller gives fewer
    /// than 2^32 events.
    pub fn run(&mut self, events: &[Event]) -> u32
        // Each debit that begins has an amount, a currency and a time that a message can carry.
        requires fair { All IsFairEvent events.now }
        // There are fewer than 2^32 events.
        requires few { length events.now < 4294967296 }
        // The events are stepped in their order, and the number that is told
        // is how many were refused.
        ensures ran { IsRan self.old events.now result self.new }
        // A transaction that is approved, declined or reversed stays so.
        ensures closed { StaysClosed self.old self.new }
    {
        let mut refused = 0;
        for event in events {
            refused += self.refusals(*event);
        }
        refused
    }
}
