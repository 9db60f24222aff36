//! What is refused in a text.

ghost use Rattle.std.specs.Prelude.{◌≡◌};
ghost use Rattle.iso_json.specs.declared.complaint.Refusal.TheVariants.{Memory};

use std::alloc::AllocError;
use std::fmt;
use thiserror::Error;

/// Where in a text something is refused. Members, entries, lines and columns are counted from 1.
#[derive(Clone, Copy, Debug, PartialEq, Eq)]
pub enum Place {
    /// The text as a whole.
    Whole,
    /// A spot in the text.
    Spot { line: usize, column: usize },
    /// A member of the message's object.
    Member(usize),
    /// A member of the object `elements`.
    Entry(usize),
    /// A field line.
    Line(usize),
}

impl fmt::Display for Place {
    fn fmt<W: fmt::Write>(&self, f: &mut fmt::Formatter<W>) -> fmt::Result {
        match *self {
            Place::Whole => write!(f, "the text"),
            Place::Spot { line, column } => write!(f, "line {line}, column {column}"),
            Place::Member(at) => write!(f, "member {at}"),
            Place::Entry(at) => write!(f, "member {at} of elements"),
            Place::Line(at) => write!(f, "line {at}"),
        }
    }
}

/// What is refused, and what would mend it. No value is shown.
#[derive(Clone, Copy, Debug, PartialEq, Eq, Error)]
pub enum Trouble {
    /// The text is no JSON.
    #[error("the text is no JSON from here on: mend what stands here")]
    NotJson,
    /// The JSON is no object.
    #[error("the JSON is no object: write one with the members mti and elements")]
    NotObject,
    /// A member has another name than `mti` and `elements`.
    #[error("a message has no such member: take it out, mti and elements are all")]
    UnknownMember,
    /// The line is no field line.
    #[error("the line is none of a message: write MTI=0200 or DE002=value")]
    UnknownLine,
    /// The type is missing.
    #[error("the message type is missing: add mti with four digits")]
    NoMti,
    /// The type is no text of four digits.
    #[error("the message type is no text of four digits: write it as 0200")]
    BadMti,
    /// The words behind the type's digits are not those of its digits.
    #[error("the words behind the message type are others than its digits have: leave them out")]
    BadWords,
    /// The type's version is another than the table's.
    #[error("the message type is of another version than the table: change its first digit")]
    WrongVersion,
    /// The elements are missing.
    #[error("the elements are missing: add the member elements, an empty object if there are none")]
    NoElements,
    /// The elements are no object.
    #[error("the elements are no object: write one with a member for each element")]
    BadElements,
    /// The same stood in the text before.
    #[error("it stands in the text a second time: take one of both out")]
    Twice,
    /// No element has such a number.
    #[error("no element has this number: write one from 2 to 128, but for 65")]
    BadNumber,
    /// The table has no row for the element.
    #[error("the table has no row for it: take the element out, or give the table a row")]
    NoRow,
    /// The value is no text.
    #[error("the value is no text: write it between quotes")]
    NotText,
    /// The value is masked.
    #[error("the value is masked by stars: write the value itself")]
    Masked,
    /// The bytes have an odd number of hexadecimal digits.
    #[error("the number of hexadecimal digits is odd: write two for each byte")]
    OddHex,
    /// The bytes have a character that is no hexadecimal digit.
    #[error("a character is no hexadecimal digit: write the bytes with 0 to 9 and A to F")]
    BadHex,
    /// The value's length is none that the row takes.
    #[error("WrongLength: its row takes no value of this length: make it as long as the table says")]
    WrongLength,
    /// A character is not in the row's class.
    #[error("NotInClass: a character isn't in the class of its row: write only characters of the class")]
    NotInClass,
    /// The pad byte stands at the value's padded end.
    #[error("PadEnd: the pad stands at the value's padded end: leave the pads out, they are written by themselves")]
    PadEnd,
    /// Something stands behind the line that ends the message.
    #[error("it stands behind the end of the message: take it out, or read it as a message of its own")]
    BehindEnd,
}

/// One thing that is refused: where, of which element if it is one's, and what.
#[derive(Clone, Copy, Debug, PartialEq, Eq)]
pub struct Complaint {
    /// Where it stands.
    pub place: Place,
    /// The element that it is about, if it is about one.
    pub element: Option<u8>,
    /// What is wrong.
    pub trouble: Trouble,
}

/// A sentence that says what was refused, where, and what would mend it. It shows no value.
impl fmt::Display for Complaint {
    fn fmt<W: fmt::Write>(&self, f: &mut fmt::Formatter<W>) -> fmt::Result {
        if let Some(n) = self.element {
            write!(f, "element {n}, ")?;
        }
        write!(f, "{}: {}", self.place, self.trouble)
    }
}

/// Why no message was read.
#[derive(Debug, Drop, Error)]
pub enum Refusal {
    /// All that is wrong with the text, in the order in which it stands: at least one thing.
    #[error("the text is refused")]
    Complaints(Vec<Complaint>),
    /// Memory ran out.
    #[error("memory ran out")]
    Memory,
}

impl From<AllocError> for Refusal {
    ghost from_gives = { λ _ e. e ≡ Memory };

    fn from(_e: AllocError) -> Refusal {
        Refusal::Memory
    }
}
