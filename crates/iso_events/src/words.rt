//! Why an event is refused, in words.

use iso_acquirer::{AcqFault, StepFault};
use iso_issuer::Refused;

/// Why an event is refused, in words.
pub fn refusal_words(fault: StepFault) -> &'static str {
    match fault {
        StepFault::NoSuch => "nothing was sent or given there",
        StepFault::OwnKey => "the order has this acquirer's number",
        StepFault::Acquirer(AcqFault::NoMoreTrace) => "all trace numbers are used",
        StepFault::Acquirer(AcqFault::NoSuch) => "no such purchase",
        StepFault::Acquirer(AcqFault::Closed) => "the purchase is closed",
        StepFault::Issuer(Refused::Full) => "the issuer's journal is full",
        StepFault::Acquirer(AcqFault::Memory)
        | StepFault::Issuer(Refused::Memory)
        | StepFault::Memory => "no memory",
    }
}
