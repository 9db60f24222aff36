//! The bytes of messages as people have them: hexadecimal text and dumps, and inputs that are read block by block.
#![tactic(auto)]

mod columns;
mod digits;
mod dump;
mod fault;
mod fronts;
mod held;
mod hexadecimal;
mod input_fault;
mod interrupts;
pub mod laws;
mod place;
mod whole;
mod window;

pub use fault::HexFault;
pub use hexadecimal::append_hex;
pub use input_fault::InputFault;
pub use whole::read_whole;
pub use window::Window;
