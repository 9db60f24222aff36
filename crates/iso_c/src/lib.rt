//! The codec for C: tables in slots, and messages read, written, converted and described under them.
#![tactic(auto)]

mod answers;
mod convert;
mod describing;
mod fault;
mod frames;
mod names;
mod packing;
mod parts;
mod slot;
mod unpacking;
mod viewing;

pub use convert::rumpadol_convert;
pub use describing::rumpadol_describe;
pub use fault::RumpadolFault;
pub use frames::{rumpadol_frame, rumpadol_unframe};
pub use names::rumpadol_fault_name;
pub use packing::rumpadol_pack;
pub use parts::{RumpadolMessage, RumpadolPart};
pub use slot::{
    RumpadolSlot, rumpadol_slot_built_in, rumpadol_slot_clear, rumpadol_slot_from_json,
    rumpadol_slot_init, rumpadol_slot_size,
};
pub use unpacking::rumpadol_unpack;
pub use viewing::rumpadol_view;
