//! The accounts of an issuer.

ghost use Rattle.std.specs.Prelude.{◌≡◌, ◌≢◌, IfOk, IfErr, IsErrOf, None, Some, map, [], option_map, if◌then◌else◌};
ghost use Rattle.iso_issuer.specs.declared.fault.AccountsFault.TheVariants.{NotJson, Shape, Memory};
ghost use Rattle.iso_issuer.specs.Balances.{HasDistinctNumbers};
ghost use Rattle.iso_issuer.specs.Balances.{accounts_of, opening_balance};
ghost use Rattle.iso_table.specs.Document.{IsNotJson};
ghost use Rattle.iso_issuer.specs.Document.{is_out_of_range, accounts_fault, as_listed, ListsAccounts, HasFault};

use crate::account::Account;
use crate::balances::Balances;
use crate::document::{Listed, document_in, value_of};
use crate::fault::AccountsFault;
use std::alloc::Global;
use std::marker::Model;

/// The accounts of an issuer, no two of one number, in the order in which they were listed. The room
/// for what an issuer keeps of each is part of them.
#[derive(Drop)]
pub struct Accounts {
    balances: Balances,
}

impl Model for Accounts {
    ghost use Rattle.std.specs.Prelude.{◌≡◌, List, map};
    ghost use Rattle.iso_issuer.specs.declared.account.Account.{Account};
    ghost use Rattle.iso_issuer.specs.Balances.{accounts_of, opening_balance};

    ghost Value = { List Account };

    ghost view = { λ a. accounts_of a.balances };

    ghost invariant = { λ a. a.balances ≡ map opening_balance (accounts_of a.balances) };
}

/// The most that an account may hold at first, in minor units, either way.
const MOST: i64 = 9_000_000_000_000_000;

/// The account that is listed, unless its opening amount is out of range.
fn account_in_range(row: Listed) -> Option<Account>
    ensures { option_map as_listed result
        ≡ (if is_out_of_range row.opening then None else Some row) }
{
    if row.opening < -MOST || MOST < row.opening {
        return None;
    }
    let Listed {
        pan,
        currency,
        opening,
    } = row;
    Some(Account {
        pan,
        currency,
        opening,
    })
}

/// The listed accounts as they are at first, each of which is in range and has a number of its own.
fn opening_balances(alloc: Global, listed: &[Listed]) -> Result<Balances, AccountsFault>
    ensures ok { IfOk result (λ balances. map as_listed (accounts_of balances) ≡ listed.now) }
    ensures opened { IfOk result
        (λ balances. balances ≡ map opening_balance (accounts_of balances)) }
    ensures none { IfOk result (λ _. accounts_fault [] listed.now ≡ None) }
    ensures fault { IfErr result (λ e. e ≢ Memory → accounts_fault [] listed.now ≡ Some e) }
    ensures json { IsErrOf result AccountsFault.NotJson → ⊥ }
{
    let mut balances = Balances::new(alloc);
    for (i, row) in listed.iter().enumerate() {
        let Some(account) = account_in_range(*row) else {
            return Err(AccountsFault::OutOfRange(i));
        };
        if balances.get(account.pan).is_some() {
            return Err(AccountsFault::Twice(i));
        }
        balances.open(account)?;
    }
    Ok(balances)
}

impl Accounts {
    /// The accounts that a JSON text lists: `{"accounts":[..]}`, each of them an object of `pan` (a
    /// text of 1 to 19 digits), `currency` (a text of three letters or digits) and `opening` (a whole
    /// number of minor units). Or else the first fault: no JSON, another shape, and then account by
    /// account an opening amount out of range, and a number that stood before.
    pub fn from_json(alloc: Global, text: &[u8]) -> Result<Accounts, AccountsFault>
        // The accounts that are got are those that the JSON text lists, in its order, and
        // none of them has a fault.
        ensures ok { IfOk result (ListsAccounts text.now) }
        // `NotJson` is told only of a text that is no JSON.
        ensures not_json { IsErrOf result AccountsFault.NotJson → IsNotJson text.now }
        // Any fault but `NotJson`, memory aside, is the first thing that is
        // wrong with the JSON text.
        ensures fault { IfErr result (λ e. e ≢ Memory → e ≢ NotJson → HasFault text.now e) }
    {
        let value = value_of(alloc, text)?;
        let listed = document_in(alloc, &value)?;
        let balances = opening_balances(alloc, &listed)?;
        Ok(Accounts { balances })
    }

    /// The balances of the accounts, as they are at first.
    pub(crate) fn into_balances(self) -> Balances
        ensures accounts { accounts_of result ≡ self }
        ensures opened { result ≡ map opening_balance self }
    {
        self.balances
    }
}
