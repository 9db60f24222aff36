//! The holds that are open.

ghost use Rattle.std.specs.Prelude.{◌≡◌, Some, None, IfOk, if◌then◌else◌};
ghost use Rattle.iso_issuer.specs.declared.effect.Side.TheVariants.{Held};
ghost use Rattle.iso_issuer.specs.Effect.{is_on};
ghost use Rattle.iso_issuer.specs.Holds.{is_open, hold_now, open_holds};

use crate::effect::{Effect, Side, effect_of};
use crate::journal::{Entry, Journal};
use iso_order::{NoMemory, Pan};
use std::alloc::Global;

/// A hold that was granted, and that is neither reversed in full nor completed.
#[derive(Clone, Copy)]
pub struct OpenHold {
    /// Its order, and the answer that it was given.
    pub entry: Entry,
    /// What it still holds, in minor units: its amount, or what a reversal left of it.
    pub amount: u64,
}

/// Whether an effect holds on this account.
fn is_held_on(pan: Pan, effect: &Option<Effect>) -> bool
    ensures { result ≡ is_on Held pan effect.now }
{
    match effect {
        Some(effect) => match effect.side {
            Side::Held => effect.pan == pan,
            Side::Credited | Side::Debited => false,
        },
        None => false,
    }
}

/// The hold that an entry is, where it is one on this account, and open.
fn open_hold(journal: &Journal, entry: Entry, pan: Pan) -> Option<OpenHold>
    ensures { result
        ≡ (if is_open journal.now pan entry then Some (hold_now journal.now entry) else None) }
{
    let left = journal.left_at(entry.order.key());
    let effect = effect_of(&entry.order);
    if journal.is_standing(&entry, &effect, left) && is_held_on(pan, &effect) {
        let amount = journal.weight(&entry, &effect, left);
        Some(OpenHold { entry, amount })
    } else {
        None
    }
}

/// The holds that are open on an account, in the order of entry.
pub fn open_holds(journal: &Journal, alloc: Global, pan: Pan) -> Result<Vec<OpenHold>, NoMemory>
    ensures { IfOk result (λ holds. holds.items ≡ open_holds journal.now pan) }
{
    let mut holds = Vec::new(alloc);
    for place in 0..journal.len() {
        if let Some(hold) = open_hold(journal, journal.at(place), pan) {
            holds.push(hold)?;
        }
    }
    Ok(holds)
}
