//! What is wrong at one place of a document.

use crate::excerpt::Excerpt;
use crate::kinds::LengthKind;
use crate::words::{class_name, kind_name};
use iso_parts::CharClass;
use iso_table::TableFault;
use std::fmt;

/// Where something is wrong.
#[derive(Clone, Copy, Debug, PartialEq, Eq)]
pub struct Place {
    /// The row's place in the list, the first being 1; `None` for the document beside its rows.
    pub row: Option<usize>,
    /// The element that the row is for, if it tells one.
    pub element: Option<u16>,
}

/// Why something is wrong, and what would mend it.
#[derive(Clone, Copy, Debug, PartialEq, Eq)]
pub enum Cause {
    /// The text is no JSON from this line and column on, both counted from 1; what is wanted there.
    NotJson {
        /// The line.
        line: usize,
        /// The character of the line.
        column: usize,
        /// What would mend it.
        wanted: &'static str,
    },
    /// Another kind of value is wanted.
    NotA(&'static str),
    /// The member isn't there; what it may be.
    Missing(&'static str),
    /// There is no such member; the one whose name is like it.
    Unknown(Option<&'static str>),
    /// The value is none of those that the member may have.
    NotAllowed(&'static str),
    /// A length of four digits in a document of profile 1.
    LongInProfile1,
    /// A row of a fixed length has no digits of a length.
    PrefixOfFixed,
    /// An earlier row has the number: its place in the list.
    Twice(usize),
    /// The maximum is 0, or more than the length can tell.
    Max(LengthKind),
    /// The coding doesn't write the class.
    Coding(CharClass),
    /// Rows with a length before the value have no padding.
    PadOfVariable(LengthKind),
    /// Values of the class have no padding.
    PadOfClass(CharClass),
    /// The coding doesn't write the pad byte; which it writes.
    PadByte(&'static str),
    /// What is wrong by the reader's own word.
    Refused(TableFault),
}

/// What is wrong with a member.
#[derive(Clone, Copy, Debug)]
pub struct Finding {
    /// The member; empty for the object itself.
    pub member: Excerpt,
    /// The beginning of what stands there; empty where nothing does.
    pub found: Excerpt,
    /// What is wrong with it.
    pub cause: Cause,
}

/// One thing that is wrong with a document. Its text is a sentence: where, what, and what would mend it.
#[derive(Clone, Copy, Debug)]
pub struct Complaint {
    /// Where it is.
    pub place: Place,
    /// What it is.
    pub finding: Finding,
}

impl Place {
    /// The document beside its rows.
    pub(crate) const DOCUMENT: Place = Place {
        row: None,
        element: None,
    };
}

/// The codings that write a class.
pub(crate) fn codings_of(class: CharClass) -> &'static str {
    match class {
        CharClass::N | CharClass::Z => "ascii, bcd",
        CharClass::A | CharClass::AN | CharClass::ANS | CharClass::ZD | CharClass::XN => "ascii",
        CharClass::B => "raw, hex",
    }
}

impl fmt::Display for Place {
    fn fmt<W: fmt::Write>(&self, f: &mut fmt::Formatter<W>) -> fmt::Result {
        match (self.row, self.element) {
            (Some(row), Some(element)) => write!(f, "row {row} (element {element})"),
            (Some(row), None) => write!(f, "row {row}"),
            (None, _) => f.write_str("table"),
        }
    }
}

impl Cause {
    /// Writes what is wrong with what was found.
    fn write<W: fmt::Write>(&self, found: &str, f: &mut fmt::Formatter<W>) -> fmt::Result {
        match self {
            Cause::NotJson { wanted, .. } => write!(f, "the text is no JSON at {found}; {wanted}"),
            Cause::NotA(wanted) => write!(f, "{found} is no {wanted}; write {wanted}"),
            Cause::Missing(allowed) => write!(f, "is missing; allowed are {allowed}"),
            Cause::NotAllowed(allowed) => write!(f, "{found} isn't allowed; allowed are {allowed}"),
            Cause::Unknown(Some(nearest)) => {
                write!(f, "unknown member {found}; did you mean \"{nearest}\"?")
            }
            Cause::Unknown(None) => write!(f, "unknown member {found}; leave it out"),
            _ => self.write_rule(found, f),
        }
    }

    /// Writes which rule what was found breaks.
    fn write_rule<W: fmt::Write>(&self, found: &str, f: &mut fmt::Formatter<W>) -> fmt::Result {
        match self {
            Cause::LongInProfile1 => write!(f, "{found} isn't of profile 1; set profile to 2"),
            Cause::PrefixOfFixed => write!(f, "{found} beside a fixed length; leave it out"),
            Cause::Twice(first) => write!(f, "element {found} again; row {first} has it"),
            Cause::Max(kind) => write_max(*kind, found, f),
            Cause::Coding(class) => {
                let (name, codings) = (class_name(*class), codings_of(*class));
                write!(
                    f,
                    "{found} doesn't write class {name}; allowed are {codings}"
                )
            }
            _ => self.write_pad(found, f),
        }
    }

    /// Writes why the padding that was found isn't allowed, or the reader's own word.
    fn write_pad<W: fmt::Write>(&self, found: &str, f: &mut fmt::Formatter<W>) -> fmt::Result {
        match self {
            Cause::PadOfVariable(kind) => {
                let name = kind_name(*kind);
                write!(
                    f,
                    "{found} isn't allowed beside a length of {name}; allowed is none"
                )
            }
            Cause::PadOfClass(class) => {
                let name = class_name(*class);
                write!(f, "{found} isn't allowed in class {name}; allowed is none")
            }
            Cause::PadByte(allowed) => write!(
                f,
                "{found} is no byte that fills up; allowed are {allowed}"
            ),
            Cause::Refused(fault) => write!(f, "{fault}; change it"),
            _ => Ok(()),
        }
    }
}

/// Writes which maxima a length takes.
fn write_max<W: fmt::Write>(
    kind: LengthKind,
    found: &str,
    f: &mut fmt::Formatter<W>,
) -> fmt::Result {
    let (name, limit) = (kind_name(kind), kind.limit());
    if found == "0" {
        return write!(f, "0 is no maximum; allowed are 1 to {limit}");
    }
    write!(
        f,
        "{found} is more than {name} can tell; allowed are 1 to {limit}"
    )
}

impl Complaint {
    /// Writes where it is, up to the colon.
    fn write_place<W: fmt::Write>(&self, f: &mut fmt::Formatter<W>) -> fmt::Result {
        let (place, member) = (self.place, self.finding.member);
        match self.finding.cause {
            Cause::NotJson { line, column, .. } => write!(f, "line {line}, column {column}: "),
            Cause::Unknown(_) | Cause::Twice(_) => write!(f, "{place}: "),
            _ if member.as_str().is_empty() => write!(f, "{place}: "),
            _ => write!(f, "{place}, {member}: "),
        }
    }
}

impl fmt::Display for Complaint {
    fn fmt<W: fmt::Write>(&self, f: &mut fmt::Formatter<W>) -> fmt::Result {
        self.write_place(f)?;
        let found = self.finding.found;
        self.finding.cause.write(found.as_str(), f)
    }
}
