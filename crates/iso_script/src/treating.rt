//! One message: what a host with rules enters of it, and writes to it.

ghost use Rattle.std.specs.Prelude.{◌≡◌, ◌≤◌, ◌++◌, [], ℕ, List, length, Some, OnOk, OnErr, true};
ghost use Rattle.iso_table.specs.HostReady.{IsHostReady};
ghost use Rattle.iso_parts.specs.Mti.{is_answered};
ghost use Rattle.iso_wire.specs.Framing.{frame_of, largest};
ghost use Rattle.iso_wire.specs.Spelling.{PlainSpelling, Spelling};
ghost use Rattle.iso_order.specs.Fields.{function};
ghost use Rattle.iso_order.specs.Outcome.{code_alone};
ghost use Rattle.iso_order.specs.Response.{response};
ghost use Rattle.iso_host.specs.Asking.{message_in};
ghost use Rattle.iso_host.specs.Handling.{entered_by, EntersOrKeeps};
ghost use Rattle.iso_host.specs.Hosting.{Answers, GrowsBy, replying};
ghost use Rattle.iso_host.specs.Output.{IsFramed};
ghost use Rattle.iso_script.specs.Misbehaving.{garbage_for, response_by, InPlace};
ghost use Rattle.iso_script.specs.Misbehaving.{IsWrittenBy, Treats, books_by_deed};

use crate::behaviour::{Behaviour, Deed};
use crate::code::Code;
use iso_host::{Host, Link};
use iso_order::laws::{responses_are_short, responses_fit};
use iso_order::{Answer, NoMemory, Verdict, order_of, respond_into};
use iso_table::Table;
use iso_wire::{FrameFault, Header, Message, PackFault, append_frame, append_message};

/// Bytes that no table reads as a message.
pub(crate) const GARBAGE: [u8; 8] = [255; 8];

/// Where a message was read, and its response is made. Their memory serves each message.
#[derive(Drop)]
pub(crate) struct Rooms {
    pub request: Message,
    pub response: Message,
    /// The message of a response.
    pub bytes: Vec<u8>,
}

/// Makes the message that answers the one that was read with a code. The table refuses none, and each header can count it.
fn make_response(table: &Table, rooms: &mut Rooms, code: Code) -> Result<(), NoMemory>
    requires ready { IsHostReady table.now }
    requires read { (bytes : List ℕ) × Spelling table.now rooms.old.request bytes }
    requires asks { is_answered (function rooms.old.request) ≡ true }
    ensures made { OnOk result
        (PlainSpelling table.now
        (response rooms.old.request (code_alone code)) rooms.new.bytes.items) }
    ensures short { OnOk result (length rooms.new.bytes.items ≤ 9999) }
    ensures request { rooms.new.request ≡ rooms.old.request }
{
    // the laws that the table refuses no response, and that each header can count it, for the prover
    responses_fit();
    responses_are_short();
    let answer = Answer::only(code.number());
    respond_into(&rooms.request, &answer, &mut rooms.response)?;
    rooms.bytes.clear();
    match append_message(table, &rooms.response, &mut rooms.bytes) {
        Ok(()) => Ok(()),
        Err(PackFault::Memory) => Err(NoMemory),
        Err(_) => unreachable!(),
    }
}

/// Appends the frame of some bytes, which each header can count. Without memory nothing is appended.
fn append_short(header: Header, bytes: &[u8], out: &mut Vec<u8>) -> Result<(), NoMemory>
    requires { length bytes.now ≤ 9999 }
    ensures framed { OnOk result (out.new.items ≡ out.old.items ++ frame_of header bytes.now) }
    ensures fits { length bytes.now ≤ largest header }
    ensures unchanged { OnErr result (out.new.items ≡ out.old.items) }
{
    match append_frame(header, bytes, out) {
        Ok(()) => Ok(()),
        Err(FrameFault::Memory) => Err(NoMemory),
        Err(_) => unreachable!(),
    }
}

/// Appends the frame of the response with a code, where a host answers the message that was read.
fn answer_with(
    link: &Link,
    rooms: &mut Rooms,
    code: Code,
    out: &mut Vec<u8>,
) -> Result<(), NoMemory>
    requires read { (bytes : List ℕ) × Spelling link.now.table rooms.old.request bytes }
    ensures written { OnOk result (GrowsBy (IsFramed link.now.table link.now.header
        (response_by code (Some rooms.old.request))) out.old.items out.new.items) }
    ensures unchanged { OnErr result (out.new.items ≡ out.old.items) }
    ensures request { rooms.new.request ≡ rooms.old.request }
{
    match order_of(&rooms.request) {
        Verdict::Silent => Ok(()),
        Verdict::Order(_) | Verdict::Reply(_) => {
            make_response(link.table().table(), rooms, code)?;
            append_short(link.header(), &rooms.bytes, out)
        }
    }
}

/// Has the host answer a body, and lets nothing of the answer out.
fn answer_unsent(
    host: &mut Host,
    link: &Link,
    body: &[u8],
    out: &mut Vec<u8>,
) -> Result<(), NoMemory>
    ensures enters { OnOk result
        (host.new ≡ entered_by host.old (message_in link.now.table body.now)) }
    ensures written { OnOk result
        (GrowsBy (InPlace (λ _. []) link.now host.old
        (message_in link.now.table body.now)) out.old.items out.new.items) }
    ensures memory { OnErr result (EntersOrKeeps link.now.table link.now.header host.old host.new
        (message_in link.now.table body.now)) }
    ensures unchanged { OnErr result (out.new.items ≡ out.old.items) }
{
    let start = out.len();
    let _handled = host.answer(link, body, out)?;
    out.truncate(start);
    Ok(())
}

/// Has the host answer a body, and lets bytes that are no message out in place of the answer.
fn answer_garbage(
    host: &mut Host,
    link: &Link,
    body: &[u8],
    out: &mut Vec<u8>,
) -> Result<(), NoMemory>
    ensures enters { OnOk result
        (host.new ≡ entered_by host.old (message_in link.now.table body.now)) }
    ensures written { OnOk result
        (GrowsBy (InPlace (garbage_for link.now.header) link.now host.old
        (message_in link.now.table body.now)) out.old.items out.new.items) }
    ensures memory { OnErr result (EntersOrKeeps link.now.table link.now.header host.old host.new
        (message_in link.now.table body.now)) }
    ensures unchanged { OnErr result (out.new.items ≡ out.old.items) }
{
    let start = out.len();
    let _handled = host.answer(link, body, out)?;
    if out.len() == start {
        return Ok(());
    }
    out.truncate(start);
    match append_short(link.header(), &GARBAGE, out) {
        Ok(()) => Ok(()),
        Err(fault) => Err(fault),
    }
}

/// Has the host answer a body, as it does without rules.
pub(crate) fn answer_honestly(
    host: &mut Host,
    link: &Link,
    body: &[u8],
    out: &mut Vec<u8>,
) -> Result<(), NoMemory>
    ensures answered { OnOk result (Answers link.now (replying host.old out.old.items)
        (replying host.new out.new.items) body.now) }
    ensures memory { OnErr result (EntersOrKeeps link.now.table link.now.header host.old host.new
        (message_in link.now.table body.now)) }
    ensures unchanged { OnErr result (out.new.items ≡ out.old.items) }
{
    match host.answer(link, body, out) {
        Ok(_handled) => Ok(()),
        Err(fault) => Err(fault),
    }
}

/// Does to the message that was read what a rule says.
fn do_deed(
    host: &mut Host,
    link: &Link,
    rooms: &mut Rooms,
    deed: &Deed,
    body: &[u8],
    out: &mut Vec<u8>,
) -> Result<(), NoMemory>
    requires read { message_in link.now.table body.now ≡ Some rooms.old.request }
    requires spelled { (bytes : List ℕ) × Spelling link.now.table rooms.old.request bytes }
    ensures enters { OnOk result
        (host.new ≡ books_by_deed deed.now host.old (message_in link.now.table body.now)) }
    ensures written { OnOk result
        (GrowsBy (IsWrittenBy deed.now link.now host.old
        (message_in link.now.table body.now)) out.old.items out.new.items) }
    ensures memory { OnErr result (EntersOrKeeps link.now.table link.now.header host.old host.new
        (message_in link.now.table body.now)) }
    ensures unchanged { OnErr result (out.new.items ≡ out.old.items) }
    ensures request { rooms.new.request ≡ rooms.old.request }
{
    match deed {
        Deed::Answer(code) => answer_with(link, rooms, *code, out),
        Deed::Delay(_) => answer_honestly(host, link, body, out),
        Deed::Silent => answer_unsent(host, link, body, out),
        Deed::Cut => answer_unsent(host, link, body, out),
        Deed::Garbage => answer_garbage(host, link, body, out),
    }
}

/// Treats the message that was read as a host of these rules does.
pub(crate) fn treat(
    host: &mut Host,
    link: &Link,
    rooms: &mut Rooms,
    behaviour: &Behaviour,
    body: &[u8],
    out: &mut Vec<u8>,
) -> Result<(), NoMemory>
    requires read { message_in link.now.table body.now ≡ Some rooms.old.request }
    requires spelled { (bytes : List ℕ) × Spelling link.now.table rooms.old.request bytes }
    ensures treats { OnOk result
        (Treats behaviour.now link.now (replying host.old out.old.items)
        (replying host.new out.new.items) (message_in link.now.table body.now)) }
    ensures memory { OnErr result (EntersOrKeeps link.now.table link.now.header host.old host.new
        (message_in link.now.table body.now)) }
    ensures unchanged { OnErr result (out.new.items ≡ out.old.items) }
    ensures request { rooms.new.request ≡ rooms.old.request }
{
    match behaviour {
        Behaviour::Honest => answer_honestly(host, link, body, out),
        Behaviour::Ruled { deed, .. } => do_deed(host, link, rooms, deed, body, out),
    }
}
