//! The tests of `iso_drive`, `iso_mix`, `iso_exchange`, `iso_frames`, `iso_plan`, `iso_counting`, `iso_restarts`, `iso_durable`,
//! `iso_tally` and `iso_report`, over their public calls, in one crate, so that none of these is proved a second time with its tests.
#![tactic(auto)]

#[cfg(test)]
mod counting;
#[cfg(test)]
mod drive;
#[cfg(test)]
mod durable;
#[cfg(test)]
mod exchange;
#[cfg(test)]
mod frames;
#[cfg(test)]
mod mix;
#[cfg(test)]
mod plan;
#[cfg(test)]
mod report;
#[cfg(test)]
mod restarts;
