//! The tests of `iso_etcd`, over its public calls.
#![tactic(auto)]

#[cfg(test)]
mod answers;
#[cfg(test)]
mod asking;
#[cfg(test)]
mod endpoints;
#[cfg(test)]
mod fakes;
#[cfg(test)]
mod questions;
