//! What is wrong with a document of rules.

ghost use Rattle.iso_script.specs.declared.fault.ScriptFault.TheVariants.{Memory};
ghost use Rattle.std.specs.Prelude.{◌≡◌};

use std::alloc::{AllocError, AllocFailed};
use std::fmt;
use thiserror::Error;

/// A member of a rule's object, or of its amounts.
#[derive(Clone, Copy, Debug, PartialEq, Eq)]
pub enum Member {
    /// The account number.
    Account,
    /// The amount, or the amounts.
    Amount,
    /// The least amount.
    Least,
    /// The greatest amount.
    Most,
    /// The message type.
    Type,
    /// At each how many messages it decides.
    Every,
    /// What is done.
    Do,
    /// The response code of an answer.
    Code,
    /// How long an answer is held back.
    Milliseconds,
}

/// What is wrong with a document of rules: the first fault. Rules are counted from 1.
#[derive(Debug, PartialEq, Drop, Error)]
pub enum ScriptFault {
    /// The text is no JSON from this line and column on, counted from 1.
    #[error("the text is no JSON: line {line}, column {column}")]
    NotJson {
        /// The line.
        line: usize,
        /// The column.
        column: usize,
    },
    /// The JSON is no object of one array alone.
    #[error("the document is to be an object of one array, {{\"rules\":[..]}}")]
    Shape,
    /// There are so many rules.
    #[error("there are to be 1 to 1000 rules, and not {0}")]
    Count(usize),
    /// A rule, or its amount, is no object.
    #[error("rule {0}: it is to be an object")]
    NoObject(usize),
    /// A rule, or its amount, has a member of this name.
    #[error("rule {rule}: no member is called \"{name}\"")]
    Unknown {
        /// The rule.
        rule: usize,
        /// The member's name.
        name: String,
    },
    /// A rule has a member that what it does has no use for.
    #[error("rule {rule}: \"{}\" has no use there", .member.name())]
    Useless {
        /// The rule.
        rule: usize,
        /// The member.
        member: Member,
    },
    /// A member of a rule is missing, or isn't what it is to be.
    #[error("rule {rule}: {member}")]
    Member {
        /// The rule.
        rule: usize,
        /// The member.
        member: Member,
    },
    /// Memory ran out.
    #[error("memory ran out")]
    Memory,
}

impl Member {
    /// Its name in a document.
    pub fn name(self) -> &'static str {
        match self {
            Member::Account => "account",
            Member::Amount => "amount",
            Member::Least => "least",
            Member::Most => "most",
            Member::Type => "type",
            Member::Every => "every",
            Member::Do => "do",
            Member::Code => "code",
            Member::Milliseconds => "milliseconds",
        }
    }

    /// What it is to be.
    pub fn wanted(self) -> &'static str {
        match self {
            Member::Account => "a text of 1 to 19 digits",
            Member::Amount =>
                "a whole number of minor units, 0 to 999999999999, or an object of \"least\" and \"most\"",
            Member::Least => "a whole number of minor units, 0 to 999999999999",
            Member::Most => "a whole number of minor units, from \"least\" to 999999999999",
            Member::Type => "a text of four digits, a message type that is no repeat, as 0200",
            Member::Every => "a whole number, 1 to 1000000",
            Member::Do => "answer, delay, silent, cut or garbage",
            Member::Code => "a text of two digits, as 05",
            Member::Milliseconds => "a whole number, 1 to 3600000",
        }
    }
}

impl fmt::Display for Member {
    fn fmt<W: fmt::Write>(&self, f: &mut fmt::Formatter<W>) -> fmt::Result {
        let (name, wanted) = (self.name(), self.wanted());
        write!(f, "\"{name}\" is to be {wanted}")
    }
}

impl From<AllocError> for ScriptFault {
    ghost from_gives = { λ _ e. e ≡ Memory };

    fn from(_fault: AllocError) -> ScriptFault {
        ScriptFault::Memory
    }
}

impl<T: Drop> From<AllocFailed<T>> for ScriptFault {
    ghost from_gives = { λ _ e. e ≡ Memory };

    fn from(_fault: AllocFailed<T>) -> ScriptFault {
        ScriptFault::Memory
    }
}
