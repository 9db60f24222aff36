//! Both ends over a host that crashes: a crash loses deliveries and answers and nothing else, so both
//! ends go on to agree.
#![tactic(auto)]

pub mod laws;
