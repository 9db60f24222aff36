//! Bodies that a host answers.

ghost use Rattle.std.specs.Prelude.{◌≡◌, OnOk, map, IfOk};
ghost use Rattle.iso_host.specs.Asking.{message_in};
ghost use Rattle.iso_host.specs.Entering.{BodiesGoOn, StaysWithout, books_after_bodies};
ghost use Rattle.iso_host.specs.Handling.{entered_by};
ghost use Rattle.iso_play.specs.Played.{AreAnswered, IsAnswered};

use iso_host::laws::one_journal;
use iso_host::{Handled, Host, Link};
use iso_order::NoMemory;
use std::alloc::Global;

/// What came of a body.
#[derive(Drop)]
pub struct Answered {
    /// What came of it.
    pub handled: Handled,
    /// The frame of its answer; empty where it isn't answered.
    pub frame: Vec<u8>,
}

/// Has a host answer a body.
fn deliver(alloc: Global, host: &mut Host, link: &Link, body: &[u8]) -> Result<Answered, NoMemory>
    ensures books { OnOk result (host.new
        ≡ entered_by host.old (message_in link.now.table body.now)) }
    ensures answered { IfOk result (IsAnswered link.now.table link.now.header host.old body.now) }
{
    let mut frame = Vec::new(alloc);
    let handled = host.answer(link, body, &mut frame)?;
    Ok(Answered { handled, frame })
}

/// Has a host answer bodies, one after the other, and gives what came of each.
pub fn deliver_all(
    alloc: Global,
    host: &mut Host,
    link: &Link,
    bodies: &[Vec<u8>],
) -> Result<Vec<Answered>, NoMemory>
    // The books are those of a host to which these bodies came, one after the other.
    ensures books { OnOk result (host.new
        ≡ books_after_bodies link.now.table host.old (map (λ body. body.items) bodies.now)) }
    // Each body is answered at the books after all before it.
    ensures answered { IfOk result (λ answers. AreAnswered link.now.table link.now.header host.old
        (map (λ body. body.items) bodies.now) answers.items) }
{
    // the laws of a journal that goes on from body to body, for the prover
    one_journal(host.issuer());
    let mut answers = Vec::new(alloc);
    for body in bodies {
        answers.push(deliver(alloc, host, link, body)?)?;
    }
    Ok(answers)
}
