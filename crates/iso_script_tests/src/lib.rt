//! The tests of `iso_script`, `iso_script_peers` and `iso_metrics`, over their public calls, in one crate, so that none of these is
//! proved a second time with its tests.
#![tactic(auto)]

#[cfg(test)]
mod metrics;
#[cfg(test)]
mod script;
#[cfg(test)]
mod script_peers;
