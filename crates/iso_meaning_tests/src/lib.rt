//! The tests of `iso_names`, `iso_meaning`, `iso_input`, `iso_compare`, `iso_replay` and `iso_links`, over their public calls, in one
//! crate, so that none of these is proved a second time with its tests.
#![tactic(auto)]

#[cfg(test)]
mod checks;
#[cfg(test)]
mod compare;
#[cfg(test)]
mod input;
#[cfg(test)]
mod links;
#[cfg(test)]
mod meaning;
#[cfg(test)]
mod names;
#[cfg(test)]
mod networks;
#[cfg(test)]
mod replay;
