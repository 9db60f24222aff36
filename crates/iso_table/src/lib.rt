//! Tables of fields: how a network writes its messages, checked before they are used.
#![tactic(auto)]

mod draft;
mod edition87;
mod fault;
mod host_ready;
mod iteration;
pub mod members;
mod placing;
mod reading;
mod sizes;
mod table;
mod writing;

pub use draft::{Draft, Row};
pub use fault::{HostTableFault, NoMemory, TableFault};
pub use iso_parts::BitmapCoding;
pub use iteration::Rows;
pub use table::Table;
