//! What is done with each message.

use iso_explain::Style;
use iso_names::Names;
use iso_table::Table;

/// What is done with each message.
#[derive(Clone, Copy)]
pub enum Work<'a> {
    /// It is told as lines, with the names of its elements.
    Lines {
        /// The table that it is read by.
        table: &'a Table,
        /// The names of the elements.
        names: &'a Names,
        /// Whether card data are shown.
        is_clear: bool,
    },
    /// It is told as one line of JSON.
    Json {
        /// The table that it is read by.
        table: &'a Table,
        /// Whether card data are shown.
        is_clear: bool,
    },
    /// It is explained piece by piece.
    Explain {
        /// The table that it is read by.
        table: &'a Table,
        /// The names of the elements.
        names: &'a Names,
        /// How the explanation is written.
        style: Style,
    },
    /// It is explained piece by piece, as one line of JSON.
    ExplainJson {
        /// The table that it is read by.
        table: &'a Table,
        /// The names of the elements.
        names: &'a Names,
        /// Whether card data are shown.
        is_clear: bool,
    },
    /// It is written under another table.
    Convert {
        /// The table that it is read by.
        from: &'a Table,
        /// The table that it is written by.
        to: &'a Table,
    },
}
