//! A rule that counts the messages that it is for.

ghost use Rattle.std.specs.Prelude.{◌≡◌};
ghost use Rattle.iso_script.specs.Turns.{begun, counted, is_due};

use crate::behaviour::Rule;
use iso_wire::Message;

/// A rule, and how many of the messages that it is for it passes over before it decides again.
#[derive(Clone, Copy, Debug, PartialEq, Eq)]
pub struct Counted {
    /// The rule.
    pub rule: Rule,
    /// How many messages it passes over.
    pub left: u32,
}

impl Counted {
    /// A rule before the first message.
    pub fn new(rule: Rule) -> Counted
        ensures { result ≡ begun rule }
    {
        Counted {
            rule,
            left: rule.every.saturating_sub(1),
        }
    }

    /// Whether it decides at a message, if no rule before it does. Takes no memory.
    pub fn is_due(&self, message: &Message) -> bool
        // It is true exactly where the message fits the rule, and no message that fits is
        // to be passed over before.
        ensures { result ≡ is_due message.now self.now }
    {
        self.rule.pattern.fits(message) && self.left == 0
    }

    /// Counts a message that came.
    #[tactic(auto, unfolding(crate::specs::Turns::counted))]
    pub fn count(&mut self, message: &Message)
        // A message that fits was the rule's turn, or brings it one nearer. One that
        // doesn't fit changes nothing.
        ensures { self.new ≡ counted message.now self.old }
    {
        if !self.rule.pattern.fits(message) {
            return;
        }
        self.left = if self.left == 0 {
            self.rule.every.saturating_sub(1)
        } else {
            self.left - 1
        };
    }
}
