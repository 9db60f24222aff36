//! What a host does by its rules.

use crate::code::Code;
use crate::pattern::Pattern;

/// What is done to a message.
#[derive(Clone, Copy, Debug, PartialEq, Eq)]
pub enum Deed {
    /// It is answered with this response code, and its order isn't entered.
    Answer(Code),
    /// Its order is entered, and the answer goes out so many milliseconds later.
    Delay(u32),
    /// Its order is entered, and no answer goes out.
    Silent,
    /// Its order is entered, no answer goes out, and the connection is closed.
    Cut,
    /// Its order is entered, and in place of the answer go bytes that are no message.
    Garbage,
}

/// A rule: which messages it is for, at which of them it decides, and what is done then.
#[derive(Clone, Copy, Debug, PartialEq, Eq)]
pub struct Rule {
    /// Which messages it is for.
    pub pattern: Pattern,
    /// It decides at each so many of them: at the third, the sixth and so on, where this is 3.
    pub every: u32,
    /// What is done at which it decides.
    pub deed: Deed,
}

/// How a host behaves to a message.
#[derive(Clone, Copy, Debug, PartialEq, Eq)]
pub enum Behaviour {
    /// As a host without rules.
    Honest,
    /// As a rule says.
    Ruled {
        /// The rule's number, counted from 1.
        rule: usize,
        /// What it says.
        deed: Deed,
    },
}
