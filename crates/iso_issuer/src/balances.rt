//! What is on each account.

ghost use Rattle.std.specs.Prelude.{◌≡◌, ◌++◌, ◌∷◌, [], None, Some, IfSome, OnOk, OnErr, All, map, option_map, unsigned_abs, ◌-ℤ◌};
ghost use Rattle.iso_issuer.specs.Index.{account_place};
ghost use Rattle.iso_issuer.specs.Balances.{accounts_of, balance_with, balance_at, opening_balance, balance_after, HasDistinctNumbers, IsNear};

use crate::account::Account;
use crate::change::Change;
use crate::guesses::Guesses;
use iso_order::Pan;
use std::alloc::{AllocError, Global};
use std::collections::BTreeMap;
use std::marker::Model;

/// An account, what is on it, and what may still be taken from it.
#[derive(Clone, Copy)]
pub struct Balance {
    pub account: Account,
    /// In minor units.
    pub ledger: i64,
    /// In minor units: the ledger less what is held.
    pub available: i64,
}

/// A balance, and its place among the balances.
#[derive(Clone, Copy)]
pub struct PlacedBalance {
    pub place: usize,
    pub balance: Balance,
}

/// The balances of accounts, no two of one number, in the order in which they were opened. Each is
/// found by its number: where a guess at its place is right, by that, and else by a tree.
#[derive(Drop)]
pub struct Balances {
    rows: Vec<Balance>,
    guesses: Guesses,
    places: BTreeMap<Pan, usize>,
}

impl Model for Balances {
    ghost use Rattle.std.specs.Prelude.{List};
    ghost use Rattle.iso_issuer.specs.declared.balances.Balance.{Balance};

    ghost Value = { List Balance };

    ghost use Rattle.iso_issuer.specs.Balances.{HasDistinctNumbers};
    ghost use Rattle.iso_issuer.specs.Balances.{accounts_of};
    ghost use Rattle.iso_issuer.specs.Index.{AreAccountPlaces};

    ghost view = { λ b. b.rows.items };

    ghost invariant = { λ b. AreAccountPlaces b.places (accounts_of b.rows.items)
        × HasDistinctNumbers (accounts_of b.rows.items) };
}

/// The balance of an account at first.
fn opening_balance(account: Account) -> Balance
    ensures { result ≡ opening_balance account }
{
    let opening = account.opening;
    Balance {
        account,
        ledger: opening,
        available: opening,
    }
}

/// A balance with a change added.
fn balance_with(change: Change, balance: Balance) -> Balance
    requires { IsNear 2999999 balance }
    ensures { result ≡ balance_with change balance }
{
    Balance {
        account: balance.account,
        ledger: balance.ledger + change.ledger,
        available: balance.available + change.available,
    }
}

/// The guess at the place of a number, where it is right.
#[inline(always)]
fn right_guess(guesses: &Guesses, rows: &[Balance], pan: Pan) -> Option<usize>
    requires { HasDistinctNumbers (accounts_of rows.now) }
    ensures { IfSome result (λ place. account_place (accounts_of rows.now) pan ≡ Some place) }
{
    let place = guesses.at(pan)?;
    let row = rows.get(place)?;
    if row.account.pan == pan {
        Some(place)
    } else {
        None
    }
}

impl Balance {
    /// What is held, in minor units: the ledger less what is available.
    pub fn held(&self) -> u64
        ensures { result ≡ unsigned_abs (self.now.ledger -ℤ self.now.available) }
    {
        self.ledger.abs_diff(self.available)
    }
}

impl Balances {
    /// No account.
    pub fn new(alloc: Global) -> Balances
        ensures { result ≡ [] }
    {
        Balances {
            rows: Vec::new(alloc),
            guesses: Guesses::new(alloc),
            places: BTreeMap::new(alloc),
        }
    }

    /// Opens an account of a new number.
    pub fn open(&mut self, account: Account) -> Result<(), AllocError>
        // No account has this number yet.
        requires new { balance_at self.old account.pan ≡ None }
        // Memory aside, the account comes behind all others, with its opening amount on
        // it and all of it available.
        ensures ok { OnOk result (self.new ≡ self.old ++ opening_balance account ∷ []) }
        // Without memory the balances stay as they were.
        ensures unchanged { OnErr result (self.new ≡ self.old) }
    {
        self.rows.reserve(1)?;
        self.guesses.note(&self.rows, account.pan)?;
        self.places.insert(account.pan, self.rows.len())?;
        let _ = self.rows.push(opening_balance(account));
        Ok(())
    }

    /// The balances, in the order in which their accounts were opened.
    pub fn rows(&self) -> &[Balance]
        ensures { result.now ≡ self.now }
    {
        &self.rows
    }

    /// The place of a number, where it has an account.
    pub fn place(&self, pan: Pan) -> Option<usize>
        ensures { result ≡ account_place (accounts_of self.now) pan }
    {
        match right_guess(&self.guesses, &self.rows, pan) {
            Some(place) => Some(place),
            None => Some(*self.places.get(&pan)?),
        }
    }

    /// The balance of a number and its place, where it has an account.
    pub fn find(&self, pan: Pan) -> Option<PlacedBalance>
        // The place that is told is that of the number's account, from 0 on; none where
        // there is no such account.
        ensures place { option_map (λ r. r.place) result
            ≡ account_place (accounts_of self.now) pan }
        // The balance that is told is that of the number's account; none where
        // there is no such account.
        ensures balance { option_map (λ r. r.balance) result ≡ balance_at self.now pan }
    {
        let place = self.place(pan)?;
        Some(PlacedBalance {
            place,
            balance: self.rows[place],
        })
    }

    /// The balance of a number, where it has an account.
    pub fn get(&self, pan: Pan) -> Option<Balance>
        ensures { result ≡ balance_at self.now pan }
    {
        Some(self.find(pan)?.balance)
    }

    /// Adds a change to the balance of its account, where there is such an account, at its place.
    pub fn post(&mut self, change: Change, place: Option<usize>)
        // Each balance is within 9,000,000,000,000,000 minor units and 10^12 for each of
        // 2,999,999 changes, either way.
        requires near { All (IsNear 2999999) self.old }
        // The place is that of the account that the change is for; none where
        // there is no such account.
        requires place { place ≡ account_place (accounts_of self.old) change.pan }
        // The account that the change is for has both amounts added; every
        // other account stays as it was.
        ensures { self.new ≡ map (balance_after change) self.old }
    {
        if let Some(place) = place {
            self.rows[place] = balance_with(change, self.rows[place]);
        }
    }

    /// The allocator by which the balances grow.
    pub fn allocator(&self) -> Global {
        *self.rows.allocator()
    }
}
