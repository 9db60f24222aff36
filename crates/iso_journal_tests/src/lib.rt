//! The tests of a journal in a file: what a crash, a failing disk and a bad file leave of it. No other crate stands on it.
#![tactic(auto)]

#[cfg(test)]
mod crashes;
#[cfg(test)]
mod day;
#[cfg(test)]
mod refusals;
