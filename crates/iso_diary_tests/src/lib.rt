//! The tests of an acquirer's diary in a file: each kind of record, what a crash leaves, and files that are refused. No other
//! crate stands on it.
#![tactic(auto)]

#[cfg(test)]
mod crashes;
#[cfg(test)]
mod records;
