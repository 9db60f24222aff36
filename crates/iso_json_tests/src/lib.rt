//! The tests of messages as JSON and as field lines: worked examples over the public calls of `iso_json`, in a crate of their
//! own, so that it isn't proved a second time with its tests.
#![tactic(auto)]

#[cfg(test)]
mod refusals;
#[cfg(test)]
mod texts;
