//! Why a text is no table of another program.

ghost use Rattle.std.specs.Prelude.{◌≡◌};
ghost use Rattle.iso_import.specs.declared.fault.ImportFault.TheVariants.{Memory};

use std::alloc::AllocError;
use thiserror::Error;

/// Why a text is no table of another program.
#[derive(Clone, Copy, Debug, PartialEq, Eq, Error)]
pub enum ImportFault {
    /// It isn't UTF-8.
    #[error("it isn't UTF-8 text; write it so")]
    NotText,
    /// It begins as neither.
    #[error("it is neither XML nor JSON; name a packager of jPOS or a specification of moov-io/iso8583")]
    Neither,
    /// Its XML has no packager.
    #[error("it has no isopackager; name a packager of jPOS")]
    NoPackager,
    /// Its XML ends inside a tag or a remark, or declares something.
    #[error("its XML ends inside a tag or a remark, or declares something of its own; leave that out")]
    Markup,
    /// It is no JSON from there on.
    #[error("it is no JSON from line {line}, column {column} on")]
    NotJson {
        /// The line, the first being 1.
        line: usize,
        /// The column, the first being 1.
        column: usize,
    },
    /// Its JSON has no fields.
    #[error("it has no object of fields; name a specification of moov-io/iso8583")]
    NoFields,
    /// Memory ran out.
    #[error("memory ran out")]
    Memory,
}

impl From<AllocError> for ImportFault {
    ghost from_gives = { λ _ fault. fault ≡ Memory };

    fn from(_fault: AllocError) -> ImportFault {
        ImportFault::Memory
    }
}
