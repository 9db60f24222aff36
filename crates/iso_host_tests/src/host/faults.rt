//! The numbers of the faults at which serving ends, and what is told of them.

use iso_fakes::check;
use iso_host::ServeFault;
use std::alloc::Global;
use std::test::Fail;

/// Names, faults, the number of each, and its text.
const FAULTS: &[(&str, ServeFault, u8, &str)] = &[
    ("a failed reader", ServeFault::Read, 1, "the reader failed"),
    ("a failed writer", ServeFault::Write, 2, "the writer failed"),
    (
        "a header that isn't of digits",
        ServeFault::BadHeader,
        3,
        "the header of a frame isn't of digits",
    ),
    (
        "a cut frame",
        ServeFault::CutFrame,
        4,
        "the input ends inside a frame",
    ),
    ("no memory", ServeFault::Memory, 5, "memory ran out"),
    (
        "too many turns",
        ServeFault::TooManyTurns,
        6,
        "too many reads and writes",
    ),
];

/// Whether the fault has that number and that text.
fn is_fault(alloc: Global, fault: ServeFault, number: u8, text: &str) -> bool {
    match format!(in alloc; "{fault}") {
        Ok(told) => fault.number() == number && told.as_str() == text,
        Err(_) => false,
    }
}

#[test]
fn faults_have_numbers_and_texts(rt: HostRuntime) -> Result<(), Fail> {
    for (name, fault, number, text) in FAULTS {
        check(is_fault(rt.alloc(), *fault, *number, *text), *name)?;
    }
    Ok(())
}
