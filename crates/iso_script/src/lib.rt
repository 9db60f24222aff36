//! A host that misbehaves on purpose, by rules, for who tests an acquirer.
//!
//! - `Script`: the rules of a JSON document. `Script::behaviour`: how the host behaves to a message. `ScriptFault` says what
//!   is wrong with a document, and in which rule's which `Member`.
//! - `Rule`: a `Pattern` of messages, and the `Deed` that is done to them. `Counted`: whose turn it is. `Code` is a response
//!   code.
//! - `Behaviour`: honest, or the deed of a rule. `Scripted`: a host with such rules.
//! - `laws`: at which messages a rule decides, and that its garbage is no message.
#![tactic(auto)]

mod behaviour;
mod code;
mod counted;
mod document;
mod fault;
pub mod laws;
mod pattern;
mod reading;
mod script;
mod scripted;
mod treating;

pub use behaviour::{Behaviour, Deed, Rule};
pub use code::Code;
pub use counted::Counted;
pub use fault::{Member, ScriptFault};
pub use pattern::{Amounts, Pattern};
pub use reading::MOST_RULES;
pub use script::Script;
pub use scripted::Scripted;
