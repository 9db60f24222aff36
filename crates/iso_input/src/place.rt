//! Places in a text.

ghost use Rattle.std.specs.Prelude.{◌≡◌, ◌+◌, ◌<◌, ◌^◌};
ghost use Rattle.iso_input.specs.Digits.{behind_byte};

/// A place in a text. Lines and columns count from 1.
#[derive(Clone, Copy)]
pub(crate) struct Place {
    pub(crate) line: usize,
    pub(crate) column: usize,
}

impl Place {
    ghost use Rattle.iso_input.specs.Dump.{further};

    /// The place so many columns further on.
    pub(crate) fn further(self, count: usize) -> Place
        requires { self.column + count < 2 ^ 64 }
        ensures { result ≡ further self count }
    {
        Place {
            line: self.line,
            column: self.column + count,
        }
    }
}

/// A hexadecimal digit of a text.
#[derive(Clone, Copy)]
pub(crate) struct Digit {
    pub(crate) value: u8,
    pub(crate) place: Place,
}

/// The place behind a byte.
pub(crate) fn behind_byte(place: Place, byte: u8) -> Place
    requires line { place.line + 1 < 2 ^ 64 }
    requires column { place.column + 1 < 2 ^ 64 }
    ensures { result ≡ behind_byte place byte }
{
    if byte == b'\n' {
        Place {
            line: place.line + 1,
            column: 1,
        }
    } else {
        Place {
            line: place.line,
            column: place.column + 1,
        }
    }
}
