//! The acquirer.

ghost use Rattle.std.specs.Prelude.{◌≡◌, ◌≢◌, ◌≤◌, ◌<◌, ◌↔◌, ◌+◌, []};
ghost use Rattle.std.specs.Prelude.{IsTrue, length, true, Ok, Err, Some, IfSome, List, slice_get, IfOk, OnOk, OnErr, IfErr};
ghost use Rattle.iso_order.specs.Key.{is_valid_key};
ghost use Rattle.iso_order.specs.declared.act.Act.TheVariants.{Debit};
ghost use Rattle.iso_acquirer.specs.declared.fault.AcqFault.TheVariants.{NoMoreTrace, Memory};
ghost use Rattle.iso_acquirer.specs.declared.slot.Role.TheVariants.{Transaction};
ghost use Rattle.iso_acquirer.specs.Acquirer.{slot_at, state_of, on_stage, slots_at_stage, slots_with};
ghost use Rattle.iso_acquirer.specs.Room.{AreNumbered, reversals_at, reversals_of, IsRequest, IsTraced};
ghost use Rattle.iso_acquirer.specs.Acquirer.{debit_of, IsFair, reversal_under, next_reversal, slots_with_reversal, timeout, timeout_at_stage, timeout_fault, slots_after_answer_in_role};
ghost use Rattle.iso_acquirer.specs.Acquirer.{stage_after, stage_after_undo, slots_after_answer};

use crate::fault::AcqFault;
use crate::slot::{Role, Slot, Stage};
use crate::stage::{reversals_at, reversals_of, stage_after, stage_after_undo, state_at_stage};
use crate::state::State;
use iso_order::{Act, MOST_STAN, Money, Order, Pan, TxKey};
use std::alloc::Global;
use std::marker::Model;

/// Sends debits, asks again where no answer comes, and reverses what it doesn't hear of.
#[derive(Drop)]
pub struct Acquirer {
    id: u64,
    /// Each order that was made: that of trace number 1 first.
    slots: Vec<Slot>,
    /// How many reversals may still be made.
    reversals_left: usize,
}

impl Model for Acquirer {
    ghost use Rattle.std.specs.Prelude.{vec_len, vec_capacity};
    ghost use Rattle.iso_acquirer.specs.Acquirer.{Party};
    ghost use Rattle.iso_acquirer.specs.Room.{IsRoomKept};

    ghost Value = { Party };

    ghost view = { λ a. record { id = a.id; slots = a.slots.items } };

    ghost invariant = { λ a.
        IsRoomKept a.id a.slots.items a.reversals_left (vec_len a.slots) (vec_capacity a.slots) };
}

fn slot_in(slots: &[Slot], place: usize) -> Option<Slot>
    ensures { result ≡ slice_get slots.now place }
{
    slots.get(place).copied()
}

/// What is kept under a trace number.
fn slot_at(slots: &[Slot], stan: u32) -> Option<Slot>
    requires { AreNumbered 1 slots.now }
    ensures value { result ≡ slot_at slots.now stan }
    ensures there { IfSome result (λ slot. slot_at slots.now slot.order.key.stan ≡ Some slot) }
{
    if stan == 0 {
        return None;
    }
    slot_in(slots, stan as usize - 1)
}

/// Brings the transaction of a trace number to a stage.
fn put_stage(slots: &mut [Slot], slot: &Slot, stage: Stage)
    requires numbered { AreNumbered 1 slots.old }
    requires there { slot_at slots.old slot.now.order.key.stan ≡ Some slot.now }
    ensures { (step : Stage → Stage) → on_stage step slot.now.role ≡ Transaction stage
        → slots.new ≡ slots_at_stage step slot.now.order.key.stan slots.old }
{
    let place = slot.order.key().stan as usize - 1;
    slots[place] = Slot {
        order: slot.order,
        role: Role::Transaction(stage),
    };
}

/// The key of a request, under the next trace number where so many are used.
fn request_key(used: usize, sent: u64, acquirer: u64) -> TxKey
    requires few { used < 999999 }
    ensures { result ≡ record { base = 200; stan = used + 1; sent = sent; acquirer = acquirer } }
{
    TxKey {
        base: 200,
        stan: used as u32 + 1,
        sent,
        acquirer,
    }
}

/// A debit, under a key of class 2.
fn debit(key: TxKey, money: Money) -> Order
    requires key { is_valid_key key ≡ true }
    requires base { key.base ≡ 200 }
    requires fair { IsFair money.amount money.currency key.sent }
    ensures { result ≡ record { key = key; act = Debit money } }
{
    // any call on the PAN tells the proof what holds of every PAN
    let _ = money.pan.len();
    Order::new(key, Act::Debit(money)).unwrap()
}

/// The reversal of a transaction's order, under that trace number.
fn reversal_under(stan: u32, order: Order) -> Order
    requires few { stan ≤ 999999 }
    requires base { order.key.base ≡ 200 }
    ensures { result ≡ reversal_under stan order }
{
    let original = order.key();
    let key = TxKey {
        base: 420,
        stan,
        sent: original.sent,
        acquirer: original.acquirer,
    };
    Order::new(key, Act::Undo { original, left: 0 }).unwrap()
}

impl Acquirer {
    /// An acquirer of that number (element 32), of at most 11 digits, with no transaction. Takes no memory.
    pub fn new(alloc: Global, id: u64) -> Acquirer
        // The number has at most eleven digits.
        requires { id ≤ 99999999999 }
        ensures { result ≡ record { id = id; slots = [] } }
    {
        Acquirer {
            id,
            slots: Vec::new(alloc),
            reversals_left: 0,
        }
    }

    /// Its number. Takes no memory.
    pub(crate) fn id(&self) -> u64
        ensures { result ≡ self.now.id }
    {
        self.id
    }

    /// Whether a trace number is left. Takes no memory.
    pub(crate) fn has_trace_left(&self) -> bool
        ensures left { IsTrue result ↔ (length self.now.slots < 999999) }
        ensures most { length self.now.slots ≤ 999999 }
    {
        self.slots.len() < MOST_STAN as usize
    }

    pub(crate) fn allocator(&self) -> Global {
        *self.slots.allocator()
    }

    /// The state of the transaction of that trace number, where there is one: a reversal is none. Takes no memory.
    pub fn state(&self, stan: u32) -> Option<State>
        ensures { result ≡ state_of self.now.slots stan }
    {
        let slot = slot_at(&self.slots, stan)?;
        match slot.role {
            Role::Transaction(stage) => Some(state_at_stage(stage)),
            Role::Reversal(_) => None,
        }
    }

    /// Begins a debit under the next trace number, from 1 on: gives its order, a message 0200. The caller gives an
    /// amount of 1 to 999,999,999,999 minor units, a currency of three letters or digits, and the transmission date
    /// and time as a number of at most ten digits. Takes the room for its reversal too: no other call takes memory.
    pub fn begin(
        &mut self,
        pan: Pan,
        amount: u64,
        currency: [u8; 3],
        sent: u64,
    ) -> Result<Order, AcqFault>
        // Amount: 1 to 999,999,999,999. Currency: 3 letters or digits. Time: at most 10 digits.
        requires { IsFair amount currency sent }
        // The order is a debit 0200 of account, amount and currency, under the next trace number.
        ensures order { IfOk result (λ order. order ≡ debit_of self.old pan amount currency sent) }
        // Where it succeeds, the transaction waits, sent once; all others stay as they were.
        ensures begun { OnOk result (self.new ≡ record self.old {
          slots = slots_with self.old.slots (debit_of self.old pan amount currency sent);
        }) }
        // It succeeds only where fewer than 999,999 trace numbers are used.
        ensures few { OnOk result (length self.old.slots < 999999) }
        // `NoMoreTrace` comes exactly where all 999,999 trace numbers are used.
        ensures no_more { (result ≡ Err NoMoreTrace) ↔ (length self.old.slots ≡ 999999) }
        // Any fault but `NoMoreTrace` is want of memory.
        ensures memory { IfErr result (λ e. e ≢ NoMoreTrace → e ≡ Memory) }
        // A refusal changes nothing.
        ensures unchanged { OnErr result (self.new ≡ self.old) }
    {
        let used = self.slots.len();
        if used >= MOST_STAN as usize {
            return Err(AcqFault::NoMoreTrace);
        }
        self.slots.reserve(self.reversals_left + 2)?;
        let key = request_key(used, sent, self.id);
        let money = Money {
            pan,
            amount,
            currency,
        };
        let order = debit(key, money);
        self.slots.push_reserved(Slot {
            order,
            role: Role::Transaction(Stage::Waiting(1)),
        });
        self.reversals_left += 1;
        Ok(order)
    }

    /// Brings a transaction to a stage.
    fn bring(&mut self, slot: &Slot, stage: Stage)
        requires there { slot_at self.old.slots slot.now.order.key.stan ≡ Some slot.now }
        requires fewer { reversals_at stage ≤ reversals_of slot.now.role }
        requires transaction { (before : Stage) × (slot.now.role ≡ Transaction before) }
        requires traced { IsTraced stage }
        ensures { (step : Stage → Stage) → on_stage step slot.now.role ≡ Transaction stage →
            self.new ≡
            record self.old { slots = slots_at_stage step slot.now.order.key.stan self.old.slots } }
    {
        let before = reversals_of(&slot.role);
        let after = reversals_at(&stage);
        put_stage(&mut self.slots, slot, stage);
        self.reversals_left = self.reversals_left - before + after;
    }

    /// Makes the reversal of a transaction under the next trace number. Its room is there.
    fn reverse(&mut self, slot: &Slot) -> Result<Order, AcqFault>
        requires there { slot_at self.old.slots slot.now.order.key.stan ≡ Some slot.now }
        requires asked { reversals_of slot.now.role ≡ 1 }
        ensures order { IfOk result (λ order. order ≡ next_reversal self.old.slots slot.now.order) }
        ensures reversing { let stan = slot.now.order.key.stan in
            OnOk result (self.new ≡ record self.old {
              slots = slots_with_reversal self.old.slots stan
                  (next_reversal self.old.slots slot.now.order);
            }) }
        ensures few { OnOk result (length self.old.slots < 999999) }
        ensures no_more { IfErr result (λ e. (e ≡ NoMoreTrace) × (length self.old.slots ≡ 999999)) }
        ensures unchanged { OnErr result (self.new ≡ self.old) }
    {
        let used = self.slots.len();
        if used >= MOST_STAN as usize {
            return Err(AcqFault::NoMoreTrace);
        }
        let stan = used as u32 + 1;
        let undo = reversal_under(stan, slot.order);
        put_stage(&mut self.slots, slot, Stage::Reversing(stan));
        self.slots.push_reserved(Slot {
            order: undo,
            role: Role::Reversal(slot.order.key().stan),
        });
        self.reversals_left -= 1;
        Ok(undo)
    }

    /// The order to send where no answer came in time to the transaction of that trace number: the transaction's own
    /// order a second time, then its reversal, a message 0420, and that same reversal again and again. Takes no memory.
    pub fn timeout(&mut self, stan: u32) -> Result<Order, AcqFault>
        // The first time-out sends the order again, the second its whole reversal 0420 under the
        // next trace number, each later one that same reversal; all other transactions stay.
        ensures ok { IfOk result
            (λ order. timeout self.old.slots stan ≡ Ok (order, self.new.slots)) }
        // The acquirer's number (element 32) stays.
        ensures own { self.new.id ≡ self.old.id }

        // `NoSuch`: no such transaction. `Closed`: it is closed. `NoMoreTrace`: no number is left.
        ensures fault { IfErr result (λ e. timeout self.old.slots stan ≡ Err e) }
        // A refusal changes nothing.
        ensures unchanged { OnErr result (self.new ≡ self.old) }
    {
        let Some(slot) = slot_at(&self.slots, stan) else {
            return Err(AcqFault::NoSuch);
        };
        let role = slot.role;
        match role {
            Role::Transaction(stage) => self.timeout_at_stage(&slot, stage),
            Role::Reversal(_) => Err(AcqFault::NoSuch),
        }
    }

    /// Why a timeout of that trace number is refused, where it is. Takes no memory.
    pub(crate) fn timeout_fault(&self, stan: u32) -> Option<AcqFault>
        ensures { result ≡ timeout_fault self.now.slots stan }
    {
        let Some(slot) = slot_at(&self.slots, stan) else {
            return Some(AcqFault::NoSuch);
        };
        match slot.role {
            Role::Reversal(_) => Some(AcqFault::NoSuch),
            Role::Transaction(stage) => match stage {
                Stage::Approved | Stage::Declined(_) | Stage::Reversed(_) => Some(AcqFault::Closed),
                Stage::Waiting(count) if count != 1 && !self.has_trace_left() => {
                    Some(AcqFault::NoMoreTrace)
                }
                Stage::Waiting(_) | Stage::Reversing(_) => None,
            },
        }
    }

    /// The same of a transaction that is at this stage.
    fn timeout_at_stage(&mut self, slot: &Slot, stage: Stage) -> Result<Order, AcqFault>
        requires there { slot_at self.old.slots slot.now.order.key.stan ≡ Some slot.now }
        requires transaction { slot.now.role ≡ Transaction stage }
        requires request { IsRequest slot.now.role slot.now.order }
        ensures ok { IfOk result (λ order.
            timeout_at_stage self.old.slots slot.now.order stage ≡ Ok (order, self.new.slots)) }
        ensures own { self.new.id ≡ self.old.id }
        ensures fault { IfErr result
            (λ e. timeout_at_stage self.old.slots slot.now.order stage ≡ Err e) }
        ensures unchanged { OnErr result (self.new ≡ self.old) }
    {
        match stage {
            Stage::Waiting(count) => {
                if count == 1 {
                    self.bring(slot, Stage::Waiting(2));
                    Ok(slot.order)
                } else {
                    self.reverse(slot)
                }
            }
            Stage::Reversing(undo) => Ok(reversal_under(undo, slot.order)),
            Stage::Approved | Stage::Declined(_) | Stage::Reversed(_) => Err(AcqFault::Closed),
        }
    }

    /// Takes an answer: the code (element 39) that an order of that key got. To a transaction's own order that waits,
    /// 0 approves, 94 and 96 leave it open, and any other code declines; to the reversal of one that is being reversed,
    /// 0 closes it. Any other answer changes nothing. Takes no memory.
    pub fn answer(&mut self, key: TxKey, code: u8)
        ensures { self.new
            ≡ record self.old { slots = slots_after_answer self.old.slots key code } }
    {
        let Some(slot) = slot_at(&self.slots, key.stan) else {
            return;
        };
        if slot.order.key().is_same(&key) {
            self.answer_slot(&slot, code);
        }
    }

    fn answer_slot(&mut self, slot: &Slot, code: u8)
        requires there { slot_at self.old.slots slot.now.order.key.stan ≡ Some slot.now }
        requires request { IsRequest slot.now.role slot.now.order }
        ensures { self.new ≡ record self.old {
          slots =
              slots_after_answer_in_role self.old.slots slot.now.order.key.stan code slot.now.role;
        } }
    {
        match slot.role {
            Role::Transaction(stage) => self.bring(slot, stage_after(stage, code)),
            Role::Reversal(original) => self.answer_reversal(original, code),
        }
    }

    /// Takes an answer to the reversal of the transaction of that trace number.
    fn answer_reversal(&mut self, original: u32, code: u8)
        ensures { self.new ≡ record self.old {
          slots = slots_at_stage (stage_after_undo code) original self.old.slots;
        } }
    {
        let Some(slot) = slot_at(&self.slots, original) else {
            return;
        };
        let role = slot.role;
        match role {
            Role::Transaction(stage) => self.bring(&slot, stage_after_undo(stage, code)),
            Role::Reversal(_) => {}
        }
    }
}
