//! The rules of a host that misbehaves.

ghost use Rattle.std.specs.Prelude.{◌≡◌, position};
ghost use Rattle.iso_script.specs.Behaving.{IsBehaviour, all_counted};
ghost use Rattle.iso_script.specs.Turns.{is_due};

use crate::behaviour::Behaviour;
use crate::counted::Counted;
use iso_wire::Message;
use std::marker::Model;

/// The rules of a host that misbehaves. A contract sees them in their order, and what each has counted.
#[derive(Debug, Drop)]
pub struct Script {
    rules: Vec<Counted>,
}

impl Model for Script {
    ghost use Rattle.std.specs.Prelude.{List};
    ghost use Rattle.iso_script.specs.declared.counted.Counted.{Counted};

    ghost Value = { List Counted };

    ghost view = { λ s. s.rules.items };
}

/// The place of the first rule that decides at a message.
fn first_place(rules: &[Counted], message: &Message) -> Option<usize>
    ensures { result ≡ position (λ c. is_due message.now c) rules.now }
{
    rules.iter().position(|counted| counted.is_due(message))
}

/// How a host of these rules behaves to a message.
fn behaviour_by(rules: &[Counted], message: &Message) -> Behaviour
    ensures { IsBehaviour rules.now message.now result }
{
    match first_place(rules, message) {
        Some(place) => Behaviour::Ruled {
            rule: place + 1,
            deed: rules[place].rule.deed,
        },
        None => Behaviour::Honest,
    }
}

/// Has each rule count a message.
fn count_all(rules: &mut [Counted], message: &Message)
    ensures { rules.new ≡ all_counted rules.old message.now }
{
    for counted in rules.iter_mut() {
        counted.count(message);
    }
}

impl Script {
    /// A script of these rules.
    pub fn new(rules: Vec<Counted>) -> Script
        ensures { result ≡ rules.items }
    {
        Script { rules }
    }

    /// The rules, in their order.
    pub fn rules(&self) -> &[Counted]
        ensures { result.now ≡ self.now }
    {
        &self.rules
    }

    /// How the host behaves to a message: the first rule decides that the message fits, and whose turn it is. Takes no
    /// memory.
    pub fn behaviour(&self, message: &Message) -> Behaviour
        // It is the deed of the first rule that decides at the message; where none does, the host
        // is honest.
        ensures { IsBehaviour self.now message.now result }
    {
        behaviour_by(&self.rules, message)
    }

    /// Counts a message that came: each rule that it fits passes it over, or decided at it. Takes no memory.
    pub fn count(&mut self, message: &Message)
        ensures { self.new ≡ all_counted self.old message.now }
    {
        count_all(&mut self.rules, message);
    }
}
