//! An issuer host: what it answers, without streams, and the engine that serves a reader and a writer.
//!
//! - `HostTable` and `Link`: what one side of a line has agreed on, a table that a host can serve under and a header.
//! - `Host`: an issuer that answers bodies. `Host::answer` enters the order that a body asks, and appends the frame of its
//!   response. `Handled` tells a log what came of it, and `BodyFault` why a body isn't one whole message.
//! - `Peer`: the bytes of one side of a line, in pieces of any size. `Peer::take` answers a frame at a time; `Taken` says
//!   how many bytes it took. Any number of peers share a host, of different links too.
//! - `serve`: reads frames to the end of the input, hands each order to an issuer, and writes each response before the
//!   next frame is looked at. `ServeFault` says why it ends before, also by a number, and `Report` what came.
//! - `Inlet` and `Outlet`: a reader and a writer of bytes. Contracts see the bytes that are left or
//!   held, where they are known, and exact counts of the calls, the bytes moved and the failures.
//! - `Std`: a std reader as an inlet, a std writer as an outlet. A call that the system interrupts is made again.
//! - `Tally` and `Call`: the counts that an inlet or outlet of your own keeps. They cost nothing at run time.
//! - `write_all`: whole bytes to an outlet, and a flush.
//! - `laws`: what a body asks is what it spells, bodies have one output, which goes on body by body, one journal goes on over
//!   several streams, and peers that share a host have one journal and each its own answers.
#![tactic(auto)]

mod answering;
mod counting;
mod fault;
mod gathering;
mod handled;
mod host;
pub mod laws;
mod link;
mod next_frame;
mod peer;
mod seen;
mod serving;
mod standard;
mod streams;
mod taking;
mod window;
mod writing;

pub use counting::{Call, Tally};
pub use fault::{Report, ServeFault};
pub use handled::{BodyFault, Handled};
pub use host::Host;
pub use link::{HostTable, Link};
pub use peer::{Peer, PeerFault, Taken};
pub use serving::serve;
pub use standard::Std;
pub use streams::{Failed, Inlet, Outlet};
pub use writing::write_all;
