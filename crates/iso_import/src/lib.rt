//! Tables that other programs have, as tables of ours: a packager of jPOS, which is XML, and a specification of moov-io/iso8583,
//! which is JSON.
//!
//! - `import`: the table of a text, and a sentence for each field that becomes no row. Its rows are such as a table can have, so
//!   it is accepted for each edition that there is. `Bytes`: how some bytes stand in a packager.
//! - `ImportFault`: why a text is neither.
//!
//! A field becomes a row only where its bytes are those of the row.
#![tactic(auto)]

mod fault;
mod importing;
mod jpos;
mod kinds;
mod markup;
mod moov;
mod taken;

pub use fault::ImportFault;
pub use importing::import;
pub use kinds::Bytes;
pub use taken::Imported;
