//! What is on each account of an issuer.

ghost use Rattle.std.specs.Prelude.{◌≡◌, IfOk, map};
ghost use Rattle.iso_issuer.specs.Books.{journal};
ghost use Rattle.iso_books.specs.Balances.{row_on, with_holds};

use crate::csv::push_balance_values;
use crate::form::Form;
use crate::json::push_balance_object;
use crate::lines::push_balance_line;
use crate::{csv, lines};
use iso_issuer::{Balance, Issuer};
use iso_order::NoMemory;
use std::alloc::{AllocError, Global};

/// What is on an account.
#[derive(Clone, Copy)]
pub struct AccountRow {
    /// The account, its ledger, and what is available.
    pub balance: Balance,
    /// How many holds are open.
    pub holds: usize,
    /// What they hold together, in minor units.
    pub held: u64,
}

/// What is on an account.
fn account_row(alloc: Global, issuer: &Issuer, balance: &Balance) -> Result<AccountRow, NoMemory>
    ensures { IfOk result (λ row. row ≡ with_holds (journal issuer.now) balance.now) }
{
    let open = issuer.open_holds(alloc, balance.account.pan)?;
    let holds = open.len();
    let held = balance.held();
    Ok(AccountRow {
        balance: *balance,
        holds,
        held,
    })
}

/// The rows of balances.
fn rows_of(
    alloc: Global,
    issuer: &Issuer,
    balances: &[Balance],
) -> Result<Vec<AccountRow>, NoMemory>
    ensures { IfOk result
        (λ rows. rows.items ≡ map (with_holds (journal issuer.now)) balances.now) }
{
    let mut rows = Vec::new(alloc);
    for balance in balances {
        let row = account_row(alloc, issuer, balance)?;
        rows.push(row)?;
    }
    Ok(rows)
}

/// What is on each account, in the order in which the accounts were listed.
#[tactic(auto, using(crate::proofs::Balanced::rows_are))]
pub fn account_rows(alloc: Global, issuer: &Issuer) -> Result<Vec<AccountRow>, NoMemory>
    // Memory aside, a row for each account, in their order: its balances, how many holds are open,
    // and what they hold together.
    ensures { IfOk result
        (λ rows. rows.items ≡ map (row_on (journal issuer.now)) issuer.now.accounts) }
{
    rows_of(alloc, issuer, issuer.balances())
}

/// What stands before all balances.
fn head_of(form: Form) -> &'static str {
    match form {
        Form::Columns => lines::BALANCE_NAMES,
        Form::Json => "",
        Form::Csv => csv::BALANCE_NAMES,
    }
}

/// Appends what is told of an account.
fn push_balance(
    form: Form,
    is_clear: bool,
    row: &AccountRow,
    out: &mut Vec<u8>,
) -> Result<(), AllocError> {
    match form {
        Form::Columns => push_balance_line(is_clear, row, out),
        Form::Json => push_balance_object(is_clear, row, out),
        Form::Csv => push_balance_values(is_clear, row, out),
    }
}

/// Appends what is told of accounts. Account numbers are in full where `is_clear`, else of 13 or more digits the first six and
/// the last four.
pub fn append_balances(
    rows: &[AccountRow],
    form: Form,
    is_clear: bool,
    out: &mut Vec<u8>,
) -> Result<(), NoMemory> {
    out.extend_from_slice(head_of(form).as_bytes())?;
    for row in rows {
        push_balance(form, is_clear, row, out)?;
    }
    Ok(())
}
