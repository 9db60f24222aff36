//! What is wrong with a document of links.

use std::alloc::{AllocError, AllocFailed};
use std::fmt;
use thiserror::Error;

/// A member of a link's object, or of its limits.
#[derive(Clone, Copy, Debug, PartialEq, Eq)]
pub enum Member {
    /// The link's name.
    Name,
    /// The address on which the host listens.
    Listen,
    /// The table by which messages are written.
    Table,
    /// How each frame counts its bytes.
    Header,
    /// How many bytes stand before each message.
    Skip,
    /// The networks that may connect.
    Networks,
    /// The acquirers that the peers may speak for.
    Acquirers,
    /// What is allowed to the peers.
    Limits,
    /// How many peers may be connected at once.
    Peers,
    /// Seconds in which nothing comes.
    Idle,
    /// Seconds in which a frame isn't whole.
    Frame,
    /// Seconds in which no waiting byte is taken.
    Unread,
    /// Bytes that wait.
    Waiting,
}

/// What is wrong with a document of links: the first fault. Links are counted from 1.
#[derive(Debug, PartialEq, Drop, Error)]
pub enum LinksFault {
    /// The text is no JSON from this line and column on, counted from 1.
    #[error("the text is no JSON: line {line}, column {column}")]
    NotJson {
        /// The line.
        line: usize,
        /// The column.
        column: usize,
    },
    /// The JSON is no object of one array alone.
    #[error("the document is to be an object of one array, {{\"links\":[..]}}")]
    Shape,
    /// There are so many links.
    #[error("there are to be 1 to 64 links, and not {0}")]
    Count(usize),
    /// A link, or its limits, is no object.
    #[error("link {0}: it is to be an object")]
    NoObject(usize),
    /// A link, or its limits, has a member of this name.
    #[error("link {link}: no member is called \"{name}\"")]
    Unknown {
        /// The link.
        link: usize,
        /// The member's name.
        name: String,
    },
    /// A member of a link is missing, or isn't what it is to be.
    #[error("link {link}: {member}")]
    Member {
        /// The link.
        link: usize,
        /// The member.
        member: Member,
    },
    /// An earlier link has this one's name.
    #[error("link {link}: its name is that of link {earlier}")]
    SameName {
        /// The link.
        link: usize,
        /// The earlier one.
        earlier: usize,
    },
    /// An earlier link has this one's address.
    #[error("link {link}: its address is that of link {earlier}")]
    SameAddress {
        /// The link.
        link: usize,
        /// The earlier one.
        earlier: usize,
    },
    /// Memory ran out.
    #[error("memory ran out")]
    Memory,
}

impl Member {
    /// Its name in a document.
    pub fn name(self) -> &'static str {
        match self {
            Member::Name => "name",
            Member::Listen => "listen",
            Member::Table => "table",
            Member::Header => "header",
            Member::Skip => "skip",
            Member::Networks => "networks",
            Member::Acquirers => "acquirers",
            Member::Limits => "limits",
            Member::Peers => "peers",
            Member::Idle => "idle",
            Member::Frame => "frame",
            Member::Unread => "unread",
            Member::Waiting => "waiting",
        }
    }

    /// What it is to be.
    pub fn wanted(self) -> &'static str {
        match self {
            Member::Name => "1 to 32 letters, digits, dots, dashes or underscores",
            Member::Listen => "an address and a port, as 0.0.0.0:8583 or [::]:8583",
            Member::Table => "ascii87, bcd87 or the path of a table's document",
            Member::Header => "binary2, ascii4 or bcd2",
            Member::Skip => "a whole number, 0 to 255",
            Member::Networks =>
                "an array of at least one network, as 10.0.0.0/8 or 2001:db8::/32, with zeros behind \
its first bits",
            Member::Acquirers => "an array of at least one acquirer, each a text of 1 to 11 digits",
            Member::Limits => "an object",
            Member::Peers => "a whole number, 1 to 65000",
            Member::Idle | Member::Frame | Member::Unread =>
                "a whole number of seconds, 1 to 604800",
            Member::Waiting => "a whole number of bytes, 1 to 1073741824",
        }
    }
}

impl fmt::Display for Member {
    fn fmt<W: fmt::Write>(&self, f: &mut fmt::Formatter<W>) -> fmt::Result {
        let (name, wanted) = (self.name(), self.wanted());
        write!(f, "\"{name}\" is to be {wanted}")
    }
}

impl From<AllocError> for LinksFault {
    fn from(_fault: AllocError) -> LinksFault {
        LinksFault::Memory
    }
}

impl<T: Drop> From<AllocFailed<T>> for LinksFault {
    fn from(_fault: AllocFailed<T>) -> LinksFault {
        LinksFault::Memory
    }
}
