//! An order of an acquirer, as it is told to others.
ghost use Rattle.std.specs.Prelude.{◌≡◌, List, option_map};
ghost use Rattle.iso_acquirer.specs.declared.slot.Slot.{Slot};
ghost use Rattle.iso_acquirer.specs.Acquirer.{slot_at};
ghost use Rattle.iso_drive.specs.Entries.{entry_of};
ghost use Rattle.iso_drive.specs.Made.{reversed_by, entry_by, IsTabled};

use crate::made::{Made, Role, made_at};
use iso_order::{Money, TxKey};

/// An order that an acquirer made.
#[derive(Clone, Copy, Debug, PartialEq, Eq)]
pub struct Entry {
    /// Its key: message type, trace number, transmission date and time, acquirer.
    pub key: TxKey,
    /// What it takes from an account; nothing, if it is a reversal.
    pub debit: Option<Money>,
    /// The trace number of the transaction that it takes back, if it is a reversal.
    pub reverses: Option<u32>,
}

/// The trace number of the transaction that an order takes back, if it is a reversal.
fn reversed_by(role: Role) -> Option<u32>
    ensures { result ≡ reversed_by role }
{
    match role {
        Role::Payment(_) => None,
        Role::Reversal(stan) => Some(stan),
    }
}

fn entry_by(of: Option<Made>) -> Option<Entry>
    ensures { result ≡ option_map entry_by of }
{
    let of = of?;
    Some(Entry {
        key: of.key,
        debit: of.debit,
        reverses: reversed_by(of.role),
    })
}

/// The order of a trace number, where there is one.
pub(crate) fn entry_at(made: &[Made], stan: u32) -> Option<Entry>
    ensures { (slots : List Slot) → IsTabled made.now slots
        → result ≡ option_map entry_of (slot_at slots stan) }
{
    entry_by(made_at(made, stan))
}
