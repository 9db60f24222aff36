//! The tests of the host, and of the checks that end a test: worked examples over the public calls of `iso_host` and
//! `iso_fakes`, in one crate, so that neither is proved a second time with its tests.
#![tactic(auto)]

#[cfg(test)]
mod checks;
#[cfg(test)]
mod host;
