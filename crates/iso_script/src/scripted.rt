//! A host with rules: it is handed bodies, and hands out what goes out for them.

ghost use Rattle.std.specs.Prelude.{◌≡◌, ℕ, List, IfOk, OnOk, OnErr, IsTrue, true};
ghost use Rattle.iso_wire.specs.Spelling.{Spelling};
ghost use Rattle.iso_host.specs.Asking.{message_in};
ghost use Rattle.iso_host.specs.Handling.{EntersOrKeeps};
ghost use Rattle.iso_script.specs.Misbehaving.{IsReadWhole, Misbehaves, serving};

use crate::behaviour::Behaviour;
use crate::script::Script;
use crate::treating::{Rooms, answer_honestly, treat};
use iso_host::laws::bodies_are_spellings;
use iso_host::{Host, Link};
use iso_issuer::Issuer;
use iso_order::NoMemory;
use iso_parts::Mti;
use iso_wire::laws::{are_bytes, reads_spellings};
use iso_wire::{Message, UnpackCause, unpack_into};
use std::alloc::Global;
use std::marker::Model;

/// The type of a message that isn't made yet.
const NO_TYPE: Mti = Mti {
    version: 0,
    class: 0,
    function: 0,
    origin: 0,
};

/// A host with rules. A contract sees its books and its rules.
#[derive(Drop)]
pub struct Scripted {
    host: Host,
    script: Script,
    rooms: Rooms,
}

impl Model for Scripted {
    ghost use Rattle.iso_script.specs.Misbehaving.{Acting};

    ghost Value = { Acting };

    ghost view = { λ s. record { books = s.host; rules = s.script } };
}

/// Reads a whole message, and tells whether it is one.
#[tactic(auto, unfolding(iso_host::specs::Asking::message_in))]
fn read_whole(link: &Link, bytes: &[u8], request: &mut Message) -> Result<bool, NoMemory>
    ensures { IfOk result (IsReadWhole link.now.table bytes.now request.new) }
{
    // the law that what is read is spelled, and that the body is of bytes, for the prover
    reads_spellings();
    are_bytes(bytes);
    match unpack_into(link.table().table(), bytes, request) {
        Ok(used) => Ok(used == bytes.len()),
        Err(fault) => match fault.cause {
            UnpackCause::Memory => Err(NoMemory),
            _ => Ok(false),
        },
    }
}

/// Treats a body as a host of these rules does, and counts it.
fn answer_body(
    host: &mut Host,
    script: &mut Script,
    rooms: &mut Rooms,
    link: &Link,
    body: &[u8],
    out: &mut Vec<u8>,
) -> Result<Behaviour, NoMemory>
    ensures misbehaves { IfOk result (Misbehaves link.now
        (serving (record { books = host.old; rules = script.old }) out.old.items)
        (serving (record { books = host.new; rules = script.new }) out.new.items) body.now) }
    ensures memory { OnErr result (EntersOrKeeps link.now.table link.now.header host.old host.new
        (message_in link.now.table body.now)) }
    ensures rules { OnErr result (script.new ≡ script.old) }
    ensures unchanged { OnErr result (out.new.items ≡ out.old.items) }
{
    // the law that a body is read where it is spelled, that the body is of bytes, and that the table's rows are good, for the
    // prover
    bodies_are_spellings();
    are_bytes(body);
    let _version = link.table().table().version();
    if !read_whole(link, body, &mut rooms.request)? {
        answer_honestly(host, link, body, out)?;
        return Ok(Behaviour::Honest);
    }
    let behaviour = script.behaviour(&rooms.request);
    treat(host, link, rooms, &behaviour, body, out)?;
    script.count(&rooms.request);
    Ok(behaviour)
}

impl Scripted {
    /// A host of the issuer with these rules, with its journal as it is. Takes no memory.
    pub fn new(alloc: Global, issuer: Issuer, script: Script) -> Scripted
        ensures { result ≡ record { books = issuer; rules = script } }
    {
        Scripted {
            host: Host::new(alloc, issuer),
            script,
            rooms: Rooms {
                request: Message::new(alloc, NO_TYPE),
                response: Message::new(alloc, NO_TYPE),
                bytes: Vec::new(alloc),
            },
        }
    }

    /// The issuer.
    pub fn issuer(&self) -> &Issuer
        ensures { result.now ≡ self.now.books }
    {
        self.host.issuer()
    }

    /// Treats a whole body as the rules say, and tells how. Honestly its order is entered, and the frame of the response is
    /// appended to `out`. So it is after a delay, which the caller waits. A rule that is silent or cuts the connection appends
    /// nothing; the caller cuts. One of garbage appends a frame that is no message in place of the response. One that answers
    /// enters nothing, and appends the response with its code.
    ///
    /// After an `Err` nothing is appended. The order may be entered: the same body, sent again, gets its answer.
    pub fn answer(
        &mut self,
        link: &Link,
        body: &[u8],
        out: &mut Vec<u8>,
    ) -> Result<Behaviour, NoMemory>
        // Memory aside, the first rule that decides at the message says what enters the books and
        // goes out, honestly without one; each rule counts the message.
        ensures misbehaves { IfOk result
            (Misbehaves link.now (serving self.old out.old.items)
            (serving self.new out.new.items) body.now) }
        // Without memory the books are as they were, or the order is entered, and has an answer.
        ensures memory { OnErr result
            (EntersOrKeeps link.now.table link.now.header self.old.books self.new.books
            (message_in link.now.table body.now)) }
        // Without memory no rule counts the message.
        ensures rules { OnErr result (self.new.rules ≡ self.old.rules) }
        // Without memory `out` is as it was.
        ensures unchanged { OnErr result (out.new.items ≡ out.old.items) }
    {
        match answer_body(
            &mut self.host,
            &mut self.script,
            &mut self.rooms,
            link,
            body,
            out,
        ) {
            Ok(behaviour) => Ok(behaviour),
            Err(fault) => Err(fault),
        }
    }
}
