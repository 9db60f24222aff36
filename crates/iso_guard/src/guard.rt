//! The body of a frame of a guarded line: bytes stand before its message, or its peers may speak for some acquirers alone.
ghost use Rattle.std.specs.Prelude.{◌≡◌, ◌≤◌, ◌⊎◌, ◌++◌, [], ◌∷◌, length, true, Some, IfOk, IfSome, OnOk, OnErr};
ghost use Rattle.iso_parts.specs.Mti.{is_answered};
ghost use Rattle.iso_wire.specs.Framing.{frame_of, largest};
ghost use Rattle.iso_wire.specs.Spelling.{PlainSpelling};
ghost use Rattle.iso_order.specs.Codes.{invalid_transaction};
ghost use Rattle.iso_order.specs.Fields.{function};
ghost use Rattle.iso_order.specs.Outcome.{code_alone};
ghost use Rattle.iso_order.specs.Response.{response};
ghost use Rattle.iso_order.specs.Verdict.{verdict};
ghost use Rattle.iso_host.specs.Asking.{asked_of, message_in};
ghost use Rattle.iso_host.specs.Entering.{books_after_bodies};
ghost use Rattle.iso_host.specs.Hosting.{GrowsBy, replying};
ghost use Rattle.iso_host.specs.Output.{response_to};
ghost use Rattle.iso_guard.specs.Guarding.{foreign_of, guard_of, IsRead};
ghost use Rattle.iso_guard.specs.Entering.{entering_unless, EntersOrNot};
ghost use Rattle.iso_guard.specs.Answering.{response_unless, IsFramedBehind, AnswersGuarded};

use crate::came::Came;
use iso_host::laws::one_journal;
use iso_host::{BodyFault, Handled, Host, Link};
use iso_links::Terms;
use iso_order::codes::INVALID_TRANSACTION;
use iso_order::{Answer, NoMemory, TxKey, Verdict, order_of, respond_into};
use iso_parts::Mti;
use iso_wire::laws::{are_bytes, frames, reads_spellings};
use iso_wire::{
    Header, Message, UnpackCause, UnpackFault, append_frame, append_message, unpack_into,
};
use std::alloc::Global;

/// The type of a message that isn't made yet.
const NO_TYPE: Mti = Mti {
    version: 0,
    class: 0,
    function: 0,
    origin: 0,
};

/// A body that ends inside the bytes that stand before its message.
const NO_MESSAGE: BodyFault = BodyFault::Stops(UnpackFault {
    at: 0,
    element: 0,
    cause: UnpackCause::Short,
});

/// Where messages are read and answers are made, of all peers. Their memory serves each frame.
#[derive(Drop)]
pub struct Rooms {
    request: Message,
    response: Message,
    /// The frame of an answer, or its message.
    answer: Vec<u8>,
    /// The bytes before a message, and the message.
    body: Vec<u8>,
}

impl Rooms {
    /// Rooms that take no memory yet.
    pub fn new(alloc: Global) -> Rooms {
        Rooms {
            request: Message::new(alloc, NO_TYPE),
            response: Message::new(alloc, NO_TYPE),
            answer: Vec::new(alloc),
            body: Vec::new(alloc),
        }
    }
}

/// Reads a whole message, and tells whether it is one.
#[tactic(auto, unfolding(iso_host::specs::Asking::message_in))]
fn read_whole(link: &Link, bytes: &[u8], request: &mut Message) -> Result<bool, NoMemory>
    ensures { IfOk result (IsRead link.now.table bytes.now request.new) }
{
    // the law that what is read is spelled, and that the body is of bytes, for the prover
    reads_spellings();
    are_bytes(bytes);
    match unpack_into(link.table().table(), bytes, request) {
        Ok(used) => Ok(used == bytes.len()),
        Err(fault) => match fault.cause {
            UnpackCause::Memory => Err(NoMemory),
            _ => Ok(false),
        },
    }
}

/// The key of the order that a message asks, where it may not be spoken for.
fn foreign_in(terms: &Terms, message: &Message) -> Option<TxKey>
    ensures key { result ≡ foreign_of terms.now.acquirers.items (Some (verdict message.now)) }
    ensures asks { IfSome result (λ _. is_answered (function message.now) ≡ true) }
{
    match order_of(message) {
        Verdict::Silent | Verdict::Reply(_) => None,
        Verdict::Order(order) => {
            let key = order.key();
            if terms.speaks_for(key.acquirer) {
                None
            } else {
                Some(key)
            }
        }
    }
}

/// The key of the order that a body asks, where it may not be spoken for: then its message was read.
fn foreign_key(
    link: &Link,
    terms: &Terms,
    bytes: &[u8],
    request: &mut Message,
) -> Result<Option<TxKey>, NoMemory>
    ensures key { IfOk result
        (λ key. key ≡ foreign_of terms.now.acquirers.items (asked_of link.now.table bytes.now)) }
    ensures asks { IfOk result
        (λ key. IfSome key (λ _. is_answered (function request.new) ≡ true)) }
    ensures read { IfOk result
        (λ key. IfSome key (λ _. message_in link.now.table bytes.now ≡ Some request.new)) }
{
    if terms.acquirers.is_empty() {
        return Ok(None);
    }
    match read_whole(link, bytes, request) {
        Ok(true) => Ok(foreign_in(terms, request)),
        Ok(false) => Ok(None),
        Err(fault) => Err(fault),
    }
}

/// Makes the message that answers an order of another acquirer.
fn make_foreign(link: &Link, rooms: &mut Rooms) -> Result<(), NoMemory>
    requires asks { is_answered (function rooms.old.request) ≡ true }
    ensures made { OnOk result
        (PlainSpelling link.now.table
        (response rooms.old.request (code_alone invalid_transaction)) rooms.new.answer.items) }
{
    respond_into(
        &rooms.request,
        &Answer::only(INVALID_TRANSACTION),
        &mut rooms.response,
    )?;
    rooms.answer.clear();
    match append_message(link.table().table(), &rooms.response, &mut rooms.answer) {
        Ok(()) => Ok(()),
        Err(_) => Err(NoMemory),
    }
}

/// Appends a frame of some bytes and the message behind them. Without memory nothing is appended.
fn append_behind(
    header: Header,
    before: &[u8],
    message: &[u8],
    body: &mut Vec<u8>,
    out: &mut Vec<u8>,
) -> Result<(), NoMemory>
    ensures framed { OnOk result
        (out.new.items ≡ out.old.items ++ frame_of header (before.now ++ message.now)) }
    ensures fits { OnOk result (length (before.now ++ message.now) ≤ largest header) }
    ensures unchanged { OnErr result (out.new.items ≡ out.old.items) }
{
    body.clear();
    body.extend_from_slice(before)?;
    body.extend_from_slice(message)?;
    match append_frame(header, body, out) {
        Ok(()) => Ok(()),
        Err(_) => Err(NoMemory),
    }
}

/// Has the host answer a message. Its answer waits behind the others, and has the bytes that stood before the message.
fn answer_own(
    host: &mut Host,
    link: &Link,
    before: &[u8],
    message: &[u8],
    rooms: &mut Rooms,
    waiting: &mut Vec<u8>,
) -> Result<Handled, NoMemory>
    ensures enters { OnOk result
        (host.new ≡ books_after_bodies link.now.table host.old (message.now ∷ [])) }
    ensures answered { OnOk result
        (GrowsBy (IsFramedBehind link.now.table link.now.header before.now
        (response_to host.old (message_in link.now.table message.now)))
        waiting.old.items waiting.new.items) }
    ensures memory { OnErr result ((host.new ≡ host.old)
        ⊎ (host.new ≡ books_after_bodies link.now.table host.old (message.now ∷ []))) }
    ensures unchanged { OnErr result (waiting.new.items ≡ waiting.old.items) }
{
    // for the prover: a body alone is a stream of one, and a header takes the same number of bytes, whatever it counts
    one_journal(host.issuer());
    frames();
    rooms.answer.clear();
    let handled = host.answer(link, message, &mut rooms.answer)?;
    let size = link.header().size();
    if rooms.answer.len() < size {
        return Ok(handled);
    }
    let (_, answer) = rooms.answer.split_at(size);
    append_behind(link.header(), before, answer, &mut rooms.body, waiting)?;
    Ok(handled)
}

/// Has the host answer a message, unless it asks an order that may not be spoken for: that is answered 12, and entered
/// nowhere.
fn answer_message(
    host: &mut Host,
    link: &Link,
    terms: &Terms,
    before: &[u8],
    message: &[u8],
    rooms: &mut Rooms,
    waiting: &mut Vec<u8>,
) -> Result<Came, NoMemory>
    ensures enters { let foreign =
        foreign_of terms.now.acquirers.items (asked_of link.now.table message.now) in
        OnOk result (host.new
        ≡ books_after_bodies link.now.table host.old (entering_unless foreign message.now)) }
    ensures answered { let foreign =
        foreign_of terms.now.acquirers.items (asked_of link.now.table message.now) in
        OnOk result (GrowsBy (IsFramedBehind link.now.table link.now.header before.now
        (response_unless host.old foreign (message_in link.now.table message.now)))
        waiting.old.items waiting.new.items) }
    ensures memory { let foreign =
        foreign_of terms.now.acquirers.items (asked_of link.now.table message.now) in
        OnErr result ((host.new ≡ host.old)
        ⊎ (host.new
        ≡ books_after_bodies link.now.table host.old (entering_unless foreign message.now))) }
    ensures unchanged { OnErr result (waiting.new.items ≡ waiting.old.items) }
{
    // the law that no bodies leave the books as they are, for the prover
    one_journal(host.issuer());
    match foreign_key(link, terms, message, &mut rooms.request) {
        Err(fault) => Err(fault),
        Ok(None) => match answer_own(host, link, before, message, rooms, waiting) {
            Ok(handled) => Ok(Came::Handled(handled)),
            Err(fault) => Err(fault),
        },
        Ok(Some(key)) => {
            make_foreign(link, rooms)?;
            let header = link.header();
            append_behind(header, before, &rooms.answer, &mut rooms.body, waiting)?;
            Ok(Came::Foreign(key))
        }
    }
}

/// Answers the body of a frame of a guarded line. The bytes that stand before its message are passed over, and stand before
/// that of the answer.
pub(crate) fn answer_guarded(
    host: &mut Host,
    link: &Link,
    terms: &Terms,
    body: &[u8],
    rooms: &mut Rooms,
    waiting: &mut Vec<u8>,
) -> Result<Came, NoMemory>
    ensures answered { OnOk result
        (AnswersGuarded (guard_of link.now terms.now) (replying host.old waiting.old.items)
        (replying host.new waiting.new.items) body.now) }
    // Without memory the books are as they were, or its message is entered.
    ensures memory { OnErr result
        (EntersOrNot (guard_of link.now terms.now) host.old host.new body.now) }
    ensures unchanged { OnErr result (waiting.new.items ≡ waiting.old.items) }
{
    one_journal(host.issuer());
    if body.len() < terms.skip {
        return Ok(Came::Handled(Handled::Unreadable(NO_MESSAGE)));
    }
    let (before, message) = body.split_at(terms.skip);
    match answer_message(host, link, terms, before, message, rooms, waiting) {
        Ok(came) => Ok(came),
        Err(fault) => Err(fault),
    }
}
