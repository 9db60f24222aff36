//! The tests of orders, the issuer and the acquirer: worked examples over the public calls of `iso_order`, `iso_issuer` and
//! `iso_acquirer`, in one crate, so that none of these is proved a second time with its tests.
//!
//! What answers a `bool` or an `Option` costs the prover half of what ends by a `Fail`: only the tests themselves do.
#![tactic(auto)]

#[cfg(test)]
mod acquirer;
#[cfg(test)]
mod faults;
#[cfg(test)]
mod issuer;
#[cfg(test)]
mod order;
#[cfg(test)]
mod plain;
