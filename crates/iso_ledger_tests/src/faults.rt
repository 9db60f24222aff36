//! The numbers of faults, and what is told of them.
use Fault::{Accounts, Acquirer, Refusal, Step};
use iso_acquirer::{AcqFault, StepFault};
use iso_fakes::check;
use iso_issuer::{AccountsFault, Refused};
use std::alloc::Global;
use std::fmt::Display;
use std::test::Fail;

/// A fault of accounts, a refusal, or a fault of an acquirer or of an event.
#[derive(Clone, Copy)]
enum Fault {
    Accounts(AccountsFault),
    Refusal(Refused),
    Acquirer(AcqFault),
    Step(StepFault),
}

/// Names, faults, the number of each, and its text.
const FAULTS: &[(&str, Fault, u8, &str)] = &[
    (
        "no JSON",
        Accounts(AccountsFault::NotJson),
        1,
        "the text is no JSON",
    ),
    (
        "another shape",
        Accounts(AccountsFault::Shape),
        2,
        "a member is missing, unknown or of another kind",
    ),
    (
        "an account twice",
        Accounts(AccountsFault::Twice(1)),
        3,
        "account 1 has the number of an earlier one",
    ),
    (
        "an amount out of range",
        Accounts(AccountsFault::OutOfRange(0)),
        4,
        "account 0 has an opening amount out of range",
    ),
    (
        "no memory for accounts",
        Accounts(AccountsFault::Memory),
        5,
        "memory ran out",
    ),
    (
        "a full journal",
        Refusal(Refused::Full),
        1,
        "the journal is full",
    ),
    (
        "no memory for an order",
        Refusal(Refused::Memory),
        2,
        "memory ran out",
    ),
    (
        "no more trace numbers",
        Acquirer(AcqFault::NoMoreTrace),
        1,
        "no trace number is left",
    ),
    (
        "no memory for a purchase",
        Acquirer(AcqFault::Memory),
        2,
        "memory ran out",
    ),
    (
        "no such purchase",
        Acquirer(AcqFault::NoSuch),
        3,
        "no such transaction",
    ),
    (
        "a closed purchase",
        Acquirer(AcqFault::Closed),
        4,
        "the transaction is closed",
    ),
    (
        "nothing at that place",
        Step(StepFault::NoSuch),
        1,
        "no such order or answer",
    ),
    (
        "the acquirer's own number",
        Step(StepFault::OwnKey),
        2,
        "an order of others has this acquirer's number",
    ),
    (
        "refused by the acquirer",
        Step(StepFault::Acquirer(AcqFault::Closed)),
        3,
        "the acquirer refused",
    ),
    (
        "refused by the issuer",
        Step(StepFault::Issuer(Refused::Full)),
        4,
        "the issuer refused",
    ),
    (
        "no memory for an event",
        Step(StepFault::Memory),
        5,
        "memory ran out",
    ),
];

/// The number of a fault.
fn number(fault: Fault) -> u8 {
    match fault {
        Accounts(fault) => fault.number(),
        Refusal(fault) => fault.number(),
        Acquirer(fault) => fault.number(),
        Step(fault) => fault.number(),
    }
}

/// Whether a fault is told by that text.
fn has_text<T: Display + Drop>(alloc: Global, fault: T, text: &str) -> bool {
    match format!(in alloc; "{fault}") {
        Ok(told) => told.as_str() == text,
        Err(_) => false,
    }
}

/// Whether that text tells a fault.
fn is_told(alloc: Global, fault: Fault, text: &str) -> bool {
    match fault {
        Accounts(fault) => has_text(alloc, fault, text),
        Refusal(fault) => has_text(alloc, fault, text),
        Acquirer(fault) => has_text(alloc, fault, text),
        Step(fault) => has_text(alloc, fault, text),
    }
}

/// Whether a fault has that number and that text.
fn is_fault(alloc: Global, fault: Fault, expected: u8, text: &str) -> bool {
    number(fault) == expected && is_told(alloc, fault, text)
}

#[test]
fn faults_have_numbers_and_texts(rt: HostRuntime) -> Result<(), Fail> {
    for (name, fault, number, text) in FAULTS {
        check(is_fault(rt.alloc(), *fault, *number, *text), *name)?;
    }
    Ok(())
}
