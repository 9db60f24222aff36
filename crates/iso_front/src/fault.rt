//! What is wrong with a document of shards.

ghost use Rattle.std.specs.Prelude.{◌≡◌};
ghost use Rattle.iso_front.specs.declared.fault.GiveFault.TheVariants.{Memory};

use crate::prefixes::{Given, Prefixes};
use std::alloc::{AllocError, AllocFailed};
use std::fmt;
use thiserror::Error;

/// A member of a shard's object, or of its accounts.
#[derive(Clone, Copy, Debug, PartialEq, Eq)]
pub enum Member {
    /// The shard's name.
    Name,
    /// Where it listens.
    Address,
    /// Its account numbers.
    Accounts,
    /// The first prefix.
    From,
    /// The last prefix.
    To,
}

/// Why prefixes aren't given to a shard.
#[derive(Debug, PartialEq, Drop)]
pub enum GiveFault {
    /// An account number can begin with one of those that are given already.
    Meets(Given),
    /// There is no shard.
    NoShard,
    /// Memory ran out.
    Memory,
}

/// What is wrong with a document of shards: the first fault. Shards are counted from 1.
#[derive(Debug, PartialEq, Drop, Error)]
pub enum ShardsFault {
    /// The text is no JSON from this line and column on, counted from 1.
    #[error("the text is no JSON: line {line}, column {column}")]
    NotJson {
        /// The line.
        line: usize,
        /// The column.
        column: usize,
    },
    /// The JSON is no object of one array alone.
    #[error("the document is to be an object of one array, {{\"shards\":[..]}}")]
    Shape,
    /// There are so many shards.
    #[error("there are to be 1 to 64 shards, and not {0}")]
    Count(usize),
    /// All shards together have more prefixes than may be.
    #[error("shard {0}: there are more than 1000 objects of \"from\" and \"to\" in the document")]
    TooMany(usize),
    /// A shard, or one of its accounts, is no object.
    #[error("shard {0}: it is to be an object")]
    NoObject(usize),
    /// A shard, or one of its accounts, has a member of this name.
    #[error("shard {shard}: no member is called \"{name}\"")]
    Unknown {
        /// The shard.
        shard: usize,
        /// The member's name.
        name: String,
    },
    /// A member of a shard is missing, or isn't what it is to be.
    #[error("shard {shard}: {member}")]
    Member {
        /// The shard.
        shard: usize,
        /// The member.
        member: Member,
    },
    /// An earlier shard has this one's name.
    #[error("shard {shard}: its name is that of shard {earlier}")]
    SameName {
        /// The shard.
        shard: usize,
        /// The earlier one.
        earlier: usize,
    },
    /// An earlier shard has this one's address.
    #[error("shard {shard}: its address is that of shard {earlier}")]
    SameAddress {
        /// The shard.
        shard: usize,
        /// The earlier one.
        earlier: usize,
    },
    /// An account number would be of two shards, or twice of one.
    #[error("shard {shard}: account numbers that begin with {prefixes} may begin with {others} of shard {earlier} too")]
    Meets {
        /// The shard.
        shard: usize,
        /// Its prefixes.
        prefixes: Prefixes,
        /// The shard that has the others: an earlier one, or the same.
        earlier: usize,
        /// The others.
        others: Prefixes,
    },
    /// Memory ran out.
    #[error("memory ran out")]
    Memory,
}

impl Member {
    /// Its name in a document.
    pub fn name(self) -> &'static str {
        match self {
            Member::Name => "name",
            Member::Address => "address",
            Member::Accounts => "accounts",
            Member::From => "from",
            Member::To => "to",
        }
    }

    /// What it is to be.
    pub fn wanted(self) -> &'static str {
        match self {
            Member::Name => "1 to 32 letters, digits, dots, dashes or underscores",
            Member::Address => "an address and a port, as 10.0.0.1:8583 or [2001:db8::1]:8583",
            Member::Accounts => "an array of at least one object of \"from\" and \"to\"",
            Member::From => "a text of 1 to 19 digits",
            Member::To => "a text of as many digits as \"from\" has, and not before it",
        }
    }
}

impl fmt::Display for Member {
    fn fmt<W: fmt::Write>(&self, f: &mut fmt::Formatter<W>) -> fmt::Result {
        let (name, wanted) = (self.name(), self.wanted());
        write!(f, "\"{name}\" is to be {wanted}")
    }
}

impl From<AllocFailed<Given>> for GiveFault {
    ghost from_gives = { λ _ e. e ≡ Memory };

    fn from(_fault: AllocFailed<Given>) -> GiveFault {
        GiveFault::Memory
    }
}

impl From<AllocError> for ShardsFault {
    fn from(_fault: AllocError) -> ShardsFault {
        ShardsFault::Memory
    }
}
