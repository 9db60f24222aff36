//! How an explanation is written.

/// How an explanation is written.
#[derive(Clone, Copy, Debug, PartialEq, Eq)]
pub struct Style {
    /// Whether account numbers, tracks, PIN data and chip data are shown in full. Else their bytes are stars, and of an
    /// account number of 13 or more digits the first six and the last four are shown.
    pub is_clear: bool,
    /// Whether the columns are coloured for a terminal (ANSI escapes).
    pub is_coloured: bool,
}

impl Style {
    /// Masked and without colours.
    pub const PLAIN: Style = Style {
        is_clear: false,
        is_coloured: false,
    };
}

/// The colour of a column.
#[derive(Clone, Copy)]
pub(crate) enum Ink {
    /// Bytes.
    Faint,
    /// A value.
    Bold,
    /// What it means.
    Green,
    /// What is wrong.
    Red,
}

impl Ink {
    /// What switches the colour on in a terminal.
    pub(crate) fn code(self) -> &'static [u8] {
        match self {
            Ink::Faint => b"\x1b[2m",
            Ink::Bold => b"\x1b[1m",
            Ink::Green => b"\x1b[32m",
            Ink::Red => b"\x1b[31m",
        }
    }
}
