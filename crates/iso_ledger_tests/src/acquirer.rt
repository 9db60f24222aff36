//! What an acquirer does by itself, and what it and an issuer agree on whatever is lost, late or repeated between them.
use crate::plain::{ACCOUNT, Plain, USUAL, order};
use iso_acquirer::{AcqFault, Acquirer, Event, State, StepFault, World};
use iso_fakes::{check, check_of};
use iso_issuer::{Accounts, Issuer, Refused};
use iso_order::{Order, Pan, TxKey};
use std::alloc::Global;
use std::test::*;

/// A key of that time, as tables have it.
macro_rules! key {
    ($base:expr, $stan:expr, $acquirer:expr) => {
        TxKey {
            base: $base,
            stan: $stan,
            sent: SENT,
            acquirer: $acquirer,
        }
    };
}

mod cases;
mod schedules;
mod transactions;

/// The number of the acquirer, and the transmission date and time of its orders.
const ID: u64 = 12_345;

const SENT: u64 = 102_030_405;

/// The trace number of a transaction, and what the acquirer holds of it.
type Held = (u32, Option<State>);
