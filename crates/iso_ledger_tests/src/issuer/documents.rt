//! What an issuer of the accounts of a document begins with. What is wrong with documents, rows of the command say.
use super::*;

const TWO_ACCOUNTS: &[u8] =
    b"{\"accounts\":[{\"currency\":\"840\",\"opening\":9000000000000000,\"pan\":\"01\"},
        {\"opening\":-9000000000000000,\"pan\":\"1\",\"currency\":\"a9Z\"}]}";

const NO_ACCOUNTS: &[u8] = b"{\"accounts\":[]}";

/// Names, documents, the digits of numbers, and what is on their accounts.
const BALANCES: &[(&str, &[u8], &[u8], Option<i64>)] = &[
    ("the most", TWO_ACCOUNTS, b"01", Some(9_000_000_000_000_000)),
    (
        "the least",
        TWO_ACCOUNTS,
        b"1",
        Some(-9_000_000_000_000_000),
    ),
    ("a zero more", TWO_ACCOUNTS, b"001", None),
    ("another digit", TWO_ACCOUNTS, b"2", None),
    ("no account", NO_ACCOUNTS, b"01", None),
];

/// Whether an issuer of the accounts of a document begins with that on the account of these digits.
fn opens(alloc: Global, text: &[u8], digits: &[u8], balance: Option<i64>) -> bool {
    match issuer(alloc, text, 2) {
        Some(issuer) => has_books(&issuer, digits, 0, balance, balance),
        None => false,
    }
}

#[test]
fn accounts_are_read(rt: HostRuntime) -> Result<(), Fail> {
    for (name, text, digits, balance) in BALANCES {
        check(opens(rt.alloc(), *text, *digits, *balance), *name)?;
    }
    Ok(())
}
