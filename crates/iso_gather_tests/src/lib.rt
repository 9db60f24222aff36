//! The tests of `iso_gather`, over its public calls.
#![tactic(auto)]

#[cfg(test)]
mod tests;
