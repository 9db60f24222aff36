//! The names of the elements of ISO 8583: those of the editions 1987, 1993 and 2003, and a network's own laid over
//! them.
#![tactic(auto)]

mod edition03;
mod edition87;
mod edition93;
mod fault;
mod names;
mod naming;
mod own;
mod reading;

pub use fault::NamesFault;
pub use names::Names;
pub use naming::name;
