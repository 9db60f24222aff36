//! The core of an acquirer that drives a host by the clock: it is handed moments and answers, and says what to send and
//! until when to wait. Sockets, clocks and files are its caller's.
//!
//! - `Driver`: an acquirer over its notes, and when each of its open transactions is due. `start` goes on with what the
//!   notes leave open; `begin` begins a purchase; `wake` asks again, and then reverses, what is due; `heard` takes an
//!   answer, and notes it where it says anything new; `keep` gives the orders that may be sent.
//! - `Heard`: what an answer came to.
//! - `Counts`: how far its transactions got. `Driver::spent` is what its own books say of an account.
//! - `Entry`: one of its orders, by its trace number.
//! - `Draw`: amounts and accounts by a seed.
//! - `laws`: a driver's calls are events of its acquirer, so both ends go on to agree.
#![tactic(auto)]

mod asking;
mod board;
mod books;
mod counts;
mod doubtful;
mod draw;
mod driver;
mod entry;
mod heard;
pub mod laws;
mod made;

pub use counts::Counts;
pub use draw::Draw;
pub use driver::Driver;
pub use entry::Entry;
pub use heard::Heard;
