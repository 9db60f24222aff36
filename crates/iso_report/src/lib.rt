//! What a run of `rumpadol drive` tells.
#![tactic(auto)]

mod agreement;
mod bars;
mod drawing;
mod json;
mod mixed;
mod numbers;
mod objects;
mod people;
mod picture;
mod report;
mod settings;
mod traffic;

pub use report::Report;
pub use settings::Settings;
