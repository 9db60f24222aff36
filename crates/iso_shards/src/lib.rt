//! The accounts split over several hosts, the shards, each with a journal of its own: together they
//! are what one host for all accounts would be. What sends the messages to them is no part of it.
#![tactic(auto)]

pub mod laws;
