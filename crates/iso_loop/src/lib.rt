//! The loop of a host over sockets, around the peers of `iso_lines`.
//!
//! - `Ports` and `serve_ports`: the loop over sockets.
//! - `LogLines`: writes what happens as lines of JSON. `NoWait`: a stream that such lines go to without waiting for its reader.
//! - `Visitors`: those that come beside the peers, each with one request, as for metrics.
#![tactic(auto)]

mod json;
mod log_lines;
mod no_wait;
mod ports;
mod serving;
mod visitors;

pub use json::{add_line, has_line};
pub use log_lines::LogLines;
pub use no_wait::NoWait;
pub use ports::Ports;
pub use serving::serve_ports;
pub use visitors::Visitors;
