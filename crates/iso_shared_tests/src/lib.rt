//! The tests of `iso_shared`, `iso_replicas` and `iso_front`, over their public calls, in one crate, so that none of these is proved
//! a second time with its tests.
#![tactic(auto)]

#[cfg(test)]
mod fakes;
#[cfg(test)]
mod front;
#[cfg(test)]
mod replicas;
#[cfg(test)]
mod shared;
