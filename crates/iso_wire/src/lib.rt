//! Messages as bytes: `pack` writes a message under a table, `unpack` reads one. `frame` puts a header before bytes,
//! `unframe` takes them out.
#![tactic(auto)]

mod bodies;
mod building;
mod debugging;
mod decimal;
mod describing;
mod elements;
mod fault;
mod first_bad;
mod framing;
mod front;
mod header;
mod iteration;
mod judging;
pub mod laws;
mod masking;
mod message;
mod packing;
mod pieces;
mod runs;
mod taking;
mod unpacker;
mod unpacking;
mod view_iteration;
mod viewing;
mod words;

pub use bodies::View;
pub use decimal::{are_digits, digits_of, number, number_in, write_decimal};
pub use describing::{append_used, describe, describe_clear};
pub use fault::{PackFault, SetFault, UnpackCause, UnpackFault};
pub use framing::{
    FrameFault, Framed, append_frame, body_length, close_frame, frame, open_frame, unframe,
};
pub use header::Header;
pub use iteration::Iter;
pub use masking::{Shown, masked};
pub use message::Message;
pub use packing::{append_message, pack};
pub use pieces::{Piece, PieceKind, Pieces, pieces_of};
pub use unpacker::{Fed, Unpacker};
pub use unpacking::{unpack, unpack_into};
pub use view_iteration::ViewIter;
pub use viewing::view;
