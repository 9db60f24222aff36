//! The accounts that are bought with.
ghost use Rattle.std.specs.Prelude.{◌≡◌, map, IfOk};
ghost use Rattle.rumpadol_buying.specs.Buyers.{buyer_of, opening_of};

use iso_issuer::{Accounts, Balance, Issuer};
use iso_plan::Buyer;
use std::alloc::{AllocError, Global};

/// The accounts that are bought with, and what is on each at first, in the order of their document.
#[derive(Drop)]
pub struct Buyers {
    /// The accounts.
    pub buyers: Vec<Buyer>,
    /// What is on each at first, in minor units.
    pub openings: Vec<i64>,
}

fn buyers_in(alloc: Global, balances: &[Balance]) -> Result<Vec<Buyer>, AllocError>
    ensures { IfOk result (λ buyers. buyers.items ≡ map buyer_of balances.now) }
{
    let mut buyers = Vec::new(alloc);
    for balance in balances {
        buyers.push(Buyer {
            pan: balance.account.pan,
            currency: balance.account.currency,
        })?;
    }
    Ok(buyers)
}

fn openings_in(alloc: Global, balances: &[Balance]) -> Result<Vec<i64>, AllocError>
    ensures { IfOk result (λ openings. openings.items ≡ map opening_of balances.now) }
{
    let mut openings = Vec::new(alloc);
    for balance in balances {
        openings.push(balance.account.opening)?;
    }
    Ok(openings)
}

/// The accounts of a document.
pub fn buyers_of(alloc: Global, accounts: Accounts) -> Result<Buyers, AllocError> {
    let issuer = Issuer::new(accounts, 1);
    Ok(Buyers {
        buyers: buyers_in(alloc, issuer.balances())?,
        openings: openings_in(alloc, issuer.balances())?,
    })
}
