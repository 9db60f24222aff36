//! A message told piece by piece: where each lies, what it holds and what that means, and where the bytes stop being a
//! message, what was wanted there and which mistake is likely.
#![tactic(auto)]

mod bad;
mod columns;
mod details;
mod explaining;
mod faults;
mod hinting;
mod json;
mod lines;
mod meanings;
mod named;
mod outcome;
mod page;
mod seen;
mod sentences;
mod style;
mod writing;

pub use explaining::append_explanation;
pub use hinting::{Hint, hints};
pub use json::append_explanation_json;
pub use named::append_named;
pub use outcome::Outcome;
pub use sentences::{sentence, usual_cause};
pub use style::Style;
