//! Message types as texts.

ghost use Rattle.std.specs.Prelude.{Some};
ghost use Rattle.std.specs.Fmt.{padded};
ghost use Rattle.iso_parts.specs.MtiText.{mti_text, ReadsType};

use crate::mti::Mti;
use std::fmt;
use std::str::{self, FromStr};
use thiserror::Error;

/// Why a text is no message type: it is other than four ASCII digits.
#[derive(Clone, Copy, Debug, PartialEq, Eq, Error)]
#[error("a message type is four digits")]
pub struct ParseMtiError;

/// The four digits, as `0200`. A hole's width and alignment count. Takes no memory.
impl fmt::Display for Mti {
    ghost output = { λ m. Some (mti_text m) };

    ghost styled_output = { λ m spec. Some (padded spec (mti_text m)) };

    fn fmt<W: fmt::Write>(&self, f: &mut fmt::Formatter<W>) -> fmt::Result {
        let digits = [
            b'0' + self.version,
            b'0' + self.class,
            b'0' + self.function,
            b'0' + self.origin,
        ];
        f.pad(str::from_utf8(&digits).map_err(|_| fmt::Error)?)
    }
}

/// The type that four ASCII digits write, as [`Mti::from_text`]; a fault for any other text. What `Display` writes of
/// a type gives that type. Takes no memory.
impl FromStr for Mti {
    type Err = ParseMtiError;

    ghost from_str_gives = { ReadsType };

    fn from_str(text: &str) -> Result<Mti, ParseMtiError> {
        match Mti::from_text(text.as_bytes()) {
            Some(mti) => Ok(mti),
            None => Err(ParseMtiError),
        }
    }
}
