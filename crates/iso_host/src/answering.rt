//! One body: its message, what that asks, and the frame of the response behind the bytes of a buffer.
ghost use Rattle.std.specs.Prelude.{◌≡◌, ◌≤◌, ◌+◌, [], ◌∷◌, ◌++◌, take, drop, ℕ, List, length, true, IfOk, OnOk, OnErr, IfSome, Some, None};
ghost use Rattle.iso_table.specs.HostReady.{IsHostReady};
ghost use Rattle.iso_wire.specs.Framing.{header_size, largest, frame_of};
ghost use Rattle.iso_wire.specs.Refusal.{message_refusal};
ghost use Rattle.iso_wire.specs.Spelling.{PlainSpelling, Spelling};
ghost use Rattle.iso_order.specs.Fields.{function};
ghost use Rattle.iso_order.specs.Response.{response, is_showable};
ghost use Rattle.iso_order.specs.Verdict.{verdict};
ghost use Rattle.iso_parts.specs.Mti.{is_answered};
ghost use Rattle.iso_issuer.specs.Laws.{books_after};
ghost use Rattle.iso_issuer.specs.Decision.{is_shown_for};
ghost use Rattle.iso_host.specs.Asking.{message_in, orders_in};
ghost use Rattle.iso_host.specs.Handling.{EntersOrKeeps};
ghost use Rattle.iso_host.specs.Output.{IsFramed, outcome_for, outcome_of};
ghost use Rattle.iso_host.specs.Gathering.{ReadsBody};
ghost use Rattle.iso_host.specs.Hosting.{Answers, AnswersMessage, GrowsBy, IsHandled, IsHandledBy, replying};
ghost use Rattle.iso_host.specs.Links.{agreed};
ghost use Rattle.iso_host.specs.declared.handled.Handled.TheVariants.{Ordered};

use crate::handled::{BodyFault, Handled};
use iso_issuer::laws::firsts_stay;
use iso_issuer::{Issuer, Refused};
use iso_order::codes::SYSTEM_MALFUNCTION;
use iso_order::laws::{responses_are_short, responses_are_well_formed, responses_fit};
use iso_order::{Answer, NoMemory, Order, Verdict, order_of, respond_into};
use iso_parts::Mti;
use iso_table::Table;
use iso_wire::laws::{are_bytes, reads_spellings, spelled_once, well_formed};
use iso_wire::{
    Header, Message, PackFault, UnpackCause, append_message, close_frame, open_frame, unpack_into,
};
use std::alloc::Global;

/// The type of a message that isn't made yet.
const NO_TYPE: Mti = Mti {
    version: 0,
    class: 0,
    function: 0,
    origin: 0,
};

/// Where requests are read and responses are made. Their memory serves each frame.
#[derive(Drop)]
pub struct Rooms {
    pub request: Message,
    pub response: Message,
}

/// Rooms that take no memory yet.
pub fn no_rooms(alloc: Global) -> Rooms {
    Rooms {
        request: Message::new(alloc, NO_TYPE),
        response: Message::new(alloc, NO_TYPE),
    }
}

/// Makes a frame of the room for a header behind the first bytes, so many of them, and of the body behind it.
#[inline(always)]
fn close_behind(header: Header, bytes: &mut [u8], start: usize)
    requires room { start + header_size header ≤ length bytes.old }
    requires fits { length bytes.old ≤ start + header_size header + largest header }
    ensures { bytes.new ≡ take start bytes.old
        ++ frame_of header (drop (header_size header) (drop start bytes.old)) }
{
    let (_, frame) = bytes.split_at_mut(start);
    match close_frame(header, frame) {
        Ok(()) => {}
        Err(_) => unreachable!(),
    }
}

/// Appends the frame of a response: room for its header, the response, and then the header. The table refuses none, and
/// each header can count it. Without memory nothing is appended.
#[inline(always)]
fn append_response(
    table: &Table,
    header: Header,
    response: &Message,
    out: &mut Vec<u8>,
) -> Result<(), NoMemory>
    requires fits { message_refusal table.now response.now ≡ None }
    requires short { (bytes : List ℕ) → PlainSpelling table.now response.now bytes
        → length bytes ≤ 9999 }
    ensures framed { OnOk result
        (GrowsBy (IsFramed table.now header (Some response.now)) out.old.items out.new.items) }
    ensures unchanged { OnErr result (out.new.items ≡ out.old.items) }
{
    let start = out.len();
    open_frame(header, out)?;
    match append_message(table, response, out) {
        Ok(()) => {}
        Err(PackFault::Memory) => {
            out.truncate(start);
            return Err(NoMemory);
        }
        Err(_) => unreachable!(),
    }
    close_behind(header, out.as_mut_slice(), start);
    Ok(())
}

/// Each response has a frame: the table doesn't refuse it, so it has a plain spelling, which each header can count.
fn has_frame(table: &Table, header: Header, message: &Message, answer: &Answer)
    requires ready { IsHostReady table.now }
    requires read { (bytes : List ℕ) × Spelling table.now message.now bytes }
    requires asks { is_answered (function message.now) ≡ true }
    requires shown { is_showable message.now answer.now.shown ≡ true }
    ensures { (bytes : List ℕ)
        × IsFramed table.now header (Some (response message.now answer.now)) bytes }
{
    // the laws that each response is well formed, fits the table and is short, and has one spelling, for the prover
    responses_fit();
    responses_are_short();
    responses_are_well_formed();
    spelled_once();
    well_formed(message);
    // any call on the table tells the proof that its rows are good
    let _version = table.version();
}

/// Appends the frame of the response to the message that was read, which is made in the room for it.
#[inline(always)]
fn append_answer(
    table: &Table,
    header: Header,
    rooms: &mut Rooms,
    answer: &Answer,
    out: &mut Vec<u8>,
) -> Result<(), NoMemory>
    requires ready { IsHostReady table.now }
    requires read { (bytes : List ℕ) × Spelling table.now rooms.old.request bytes }
    requires asks { is_answered (function rooms.old.request) ≡ true }
    requires shown { is_showable rooms.old.request answer.now.shown ≡ true }
    ensures framed { OnOk result
        (GrowsBy (IsFramed table.now header (Some (response rooms.old.request answer.now)))
        out.old.items out.new.items) }
    ensures unchanged { OnErr result (out.new.items ≡ out.old.items) }
{
    // the laws that the table refuses no response, and that each header can count it, for the prover
    responses_fit();
    responses_are_short();
    respond_into(&rooms.request, answer, &mut rooms.response)?;
    append_response(table, header, &rooms.response, out)
}

/// Has the issuer answer an order: 96 where its journal is full.
fn answer_order(issuer: &mut Issuer, order: Order) -> Result<Answer, NoMemory>
    ensures answer { IfOk result (λ answer. answer ≡ outcome_for issuer.old order) }
    ensures shown { IfOk result (λ answer. is_shown_for order.act answer.shown ≡ true) }
    ensures entered { OnOk result (issuer.new ≡ books_after issuer.old (order ∷ [])) }
    ensures unchanged { OnErr result (issuer.new ≡ issuer.old) }
{
    // any call on the issuer tells the proof what holds of every issuer
    let _entries = issuer.len();
    match issuer.handle(order) {
        Ok(answer) => Ok(answer),
        Err(Refused::Full) => Ok(Answer::only(SYSTEM_MALFUNCTION)),
        Err(Refused::Memory) => Err(NoMemory),
    }
}

/// Where no order comes, the books stay as they are. Does nothing: it tells that to the prover.
pub fn enters_nothing(issuer: &Issuer)
    ensures { books_after issuer.now [] ≡ issuer.now }
{
    // the law that first orders are kept as they are, for the prover
    firsts_stay();
    // any call on the issuer tells the proof what holds of every issuer
    let _entries = issuer.len();
}

/// What a log may tell of an order that got this answer.
fn ordered(order: &Order, answer: &Answer) -> Handled
    ensures { result ≡ Ordered order.now.key answer.now.code answer.now.seq }
{
    Handled::Ordered {
        key: order.key(),
        code: answer.code,
        seq: answer.seq,
    }
}

/// The answer to a message, if it gets one, and what of it a log may tell. An order is entered before it is answered.
#[inline(always)]
fn answer_to(
    issuer: &mut Issuer,
    message: &Message,
    told: &mut Handled,
) -> Result<Option<Answer>, NoMemory>
    ensures answer { IfOk result (λ answer. answer ≡ outcome_of issuer.old (verdict message.now)) }
    ensures asks { IfOk result
        (λ answer. IfSome answer (λ a. is_answered (function message.now) ≡ true)) }
    ensures shown { IfOk result
        (λ answer. IfSome answer (λ a. is_showable message.now a.shown ≡ true)) }
    ensures entered { OnOk result
        (issuer.new ≡ books_after issuer.old (orders_in (Some (verdict message.now)))) }
    ensures handled { OnOk result (IsHandledBy issuer.old (verdict message.now) told.new) }
    ensures unchanged { OnErr result (issuer.new ≡ issuer.old) }
{
    // the law that without an order the books stay as they are, for the prover
    enters_nothing(issuer);
    match order_of(message) {
        Verdict::Silent => {
            *told = Handled::Silent;
            Ok(None)
        }
        Verdict::Reply(code) => {
            *told = Handled::Replied { code };
            Ok(Some(Answer::only(code)))
        }
        Verdict::Order(order) => match answer_order(issuer, order) {
            Ok(answer) => {
                *told = ordered(&order, &answer);
                Ok(Some(answer))
            }
            Err(fault) => Err(fault),
        },
    }
}

/// Answers the message that was read: enters the order that it asks, and appends the frame of the response. After an
/// `Err` nothing is appended, and the order may be entered: then the message has an answer, though it wasn't made.
#[tactic(auto, unfolding(crate::specs::Output::IsAnswerTo))]
pub fn answer_request(
    table: &Table,
    header: Header,
    issuer: &mut Issuer,
    rooms: &mut Rooms,
    out: &mut Vec<u8>,
    told: &mut Handled,
) -> Result<(), NoMemory>
    // A host can serve under the table.
    requires ready { IsHostReady table.now }
    // Some bytes spell the message in the room for the request, under the table.
    requires read { (bytes : List ℕ) × Spelling table.now rooms.old.request bytes }
    // Memory aside, the message's order enters the journal, up to its limit, and `out` grows by the
    // frame of the response, or by nothing where none is due.
    ensures answered { OnOk result
        (AnswersMessage (agreed table.now header) (replying issuer.old out.old.items)
        (replying issuer.new out.new.items) (Some rooms.old.request)) }
    // Memory aside, what a log may tell is what came of the message.
    ensures handled { OnOk result (IsHandledBy issuer.old (verdict rooms.old.request) told.new) }
    // Without memory the issuer is as it was, or the order is entered, and
    // the message has an answer.
    ensures memory { OnErr result
        (EntersOrKeeps table.now header issuer.old issuer.new (Some rooms.old.request)) }
    // Without memory `out` is as it was.
    ensures unchanged { OnErr result (out.new.items ≡ out.old.items) }
{
    let answer = match answer_to(issuer, &rooms.request, told) {
        Ok(Some(answer)) => answer,
        Ok(None) => return Ok(()),
        Err(fault) => return Err(fault),
    };
    // the law that each response has a frame, for the prover: it has one where none is made, too
    has_frame(table, header, &rooms.request, &answer);
    match append_answer(table, header, rooms, &answer, out) {
        Ok(()) => Ok(()),
        Err(fault) => Err(fault),
    }
}

/// Reads a whole body into the room for it; why not, where it is not one whole message.
#[tactic(auto, unfolding(crate::specs::Asking::message_in))]
#[inline(always)]
fn read_whole(
    table: &Table,
    body: &[u8],
    request: &mut Message,
) -> Result<Option<BodyFault>, NoMemory>
    ensures { IfOk result (ReadsBody table.now body.now request.new) }
{
    // the law that what is read is spelled, and that the body is of bytes, for the prover
    reads_spellings();
    are_bytes(body);
    match unpack_into(table, body, request) {
        Ok(used) => {
            if used == body.len() {
                Ok(None)
            } else {
                Ok(Some(BodyFault::Behind(used)))
            }
        }
        Err(fault) => match fault.cause {
            UnpackCause::Memory => Err(NoMemory),
            _ => Ok(Some(BodyFault::Stops(fault))),
        },
    }
}

/// Answers a whole body: enters the order that it asks, appends the frame of the response, and tells what came of it.
#[inline(always)]
pub fn answer_body(
    table: &Table,
    header: Header,
    issuer: &mut Issuer,
    rooms: &mut Rooms,
    body: &[u8],
    out: &mut Vec<u8>,
    told: &mut Handled,
) -> Result<(), NoMemory>
    // A host can serve under the table.
    requires ready { IsHostReady table.now }
    // Memory aside, the order that the body asks enters the journal, up to its limit, and `out`
    // grows by the frame of the response, or by nothing where none is due.
    ensures answered { OnOk result (Answers (agreed table.now header)
        (replying issuer.old out.old.items) (replying issuer.new out.new.items) body.now) }
    // Memory aside, what a log may tell is what came of the body.
    ensures handled { OnOk result (IsHandled table.now issuer.old body.now told.new) }
    // Without memory the issuer is as it was, or the order is entered, and the body has an answer.
    ensures memory { OnErr result
        (EntersOrKeeps table.now header issuer.old issuer.new (message_in table.now body.now)) }
    // Without memory `out` is as it was.
    ensures unchanged { OnErr result (out.new.items ≡ out.old.items) }
{
    // the law that without an order the books stay as they are, for the prover
    enters_nothing(issuer);
    match read_whole(table, body, &mut rooms.request) {
        Err(fault) => Err(fault),
        Ok(Some(fault)) => {
            *told = Handled::Unreadable(fault);
            Ok(())
        }
        Ok(None) => answer_request(table, header, issuer, rooms, out, told),
    }
}
