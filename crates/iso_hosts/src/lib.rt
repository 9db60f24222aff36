//! Any number of hosts over one log of batches, which all of them write to and read from: none of
//! them can say anything wrong. The store that keeps the batches is no part of it, nor its client.
#![tactic(auto)]

pub mod laws;
