//! Both ends before anything is sent.

use iso_acquirer::{Acquirer, World};
use iso_desk::{DeskFault, Question};
use iso_issuer::{Accounts, Issuer, MOST_ENTRIES};
use iso_order::Pan;
use std::alloc::Global;

/// The acquirer's number.
const ACQUIRER: u64 = 12345;

/// The account of all purchases.
const PAN: &[u8] = b"4111111111111111";

/// The largest opening amount.
const MOST_OPENING: u64 = 9_000_000_000_000_000;

/// The account of all purchases.
pub(crate) fn account() -> Option<Pan> {
    Pan::from_digits(PAN)
}

/// Both ends before anything is sent: an acquirer, and an issuer of one account with the opening amount that a question names.
pub(crate) fn world_in(alloc: Global, question: &Question) -> Result<World, DeskFault> {
    let opening = question.number(
        "opening",
        MOST_OPENING,
        "a whole number of minor units up to 9000000000000000",
    )?;
    let document = format!(in alloc;
        "{{\"accounts\":[{{\"currency\":\"840\",\"opening\":{opening},\"pan\":\"4111111111111111\"}}]}}"
    )?;
    match Accounts::from_json(alloc, document.as_bytes()) {
        Ok(accounts) => Ok(World::new(
            Acquirer::new(alloc, ACQUIRER),
            Issuer::new(accounts, MOST_ENTRIES),
        )),
        Err(_) => Err(DeskFault::Memory),
    }
}
