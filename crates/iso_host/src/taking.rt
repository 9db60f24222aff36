//! One step of a peer: bytes that come are taken, up to the end of a frame.
ghost use Rattle.std.specs.Prelude.{◌≡◌, ◌+◌, ◌-◌, ◌<◌, ◌≤◌, ◌∷◌, ◌++◌, [], length, true, false, IfOk, IfErr, OnOk, OnErr};
ghost use Rattle.iso_table.specs.HostReady.{IsHostReady};
ghost use Rattle.iso_host.specs.Asking.{message_in};
ghost use Rattle.iso_host.specs.Beginning.{head_of, held_of, IsBegun, IsInBody, IsInHeader};
ghost use Rattle.iso_host.specs.Handling.{EntersOrKeeps};
ghost use Rattle.iso_host.specs.Hosting.{Answers, IsHandled, replying};
ghost use Rattle.iso_host.specs.Links.{agreed};
ghost use Rattle.iso_host.specs.Peers.{Takes, Refuses, one_peer, unfinished};
ghost use Rattle.iso_host.specs.Stepping.{taken_as};
ghost use Rattle.iso_host.specs.declared.peer.PeerFault.TheVariants.{Memory};

use crate::answering::{Rooms, answer_body, answer_request, enters_nothing};
use crate::gathering::Gathering;
use crate::handled::Handled;
use crate::peer::PeerFault;
use iso_issuer::Issuer;
use iso_order::NoMemory;
use iso_table::Table;
use iso_wire::laws::{frames, splits_once};
use iso_wire::{Header, body_length};

/// The frame that has begun: the bytes of its header that came, so many, and how many of its body are still to come.
#[derive(Clone, Copy)]
pub struct Begun {
    pub head: [u8; 4],
    pub count: usize,
    pub left: usize,
}

/// What a step took: how many bytes, and whether they end a frame. What came of its body is told beside it.
#[derive(Clone, Copy)]
pub struct Step {
    pub used: usize,
    pub ended: bool,
}

impl Step {
    /// So many bytes are taken, and end no frame.
    #[inline(always)]
    fn inside(used: usize) -> Step
        ensures { result ≡ record { used = used; ended = false } }
    {
        Step { used, ended: false }
    }

    /// So many bytes are taken, and end a frame.
    #[inline(always)]
    fn ending(used: usize) -> Step
        ensures { result ≡ record { used = used; ended = true } }
    {
        Step { used, ended: true }
    }
}

/// No frame has begun.
pub const NOT_BEGUN: Begun = Begun {
    head: [0; 4],
    count: 0,
    left: 0,
};

/// How many bytes of a header came.
pub fn head_len(begun: &Begun) -> usize
    // At most four bytes of the header came.
    requires { begun.now.count ≤ 4 }
    ensures { result ≡ length (head_of begun.now) }
{
    begun.count
}

/// The frame that has begun, once one byte more of its header came.
fn with_header_byte(begun: &Begun, byte: u8) -> Begun
    requires { begun.now.count < 4 }
    ensures count { result.count ≡ begun.now.count + 1 }
    ensures head { head_of result ≡ head_of begun.now ++ byte ∷ [] }
{
    let mut grown = *begun;
    grown.head[begun.count] = byte;
    grown.count += 1;
    grown
}

/// Answers the empty body whose frame ends with the last byte of its header.
fn answer_empty(
    table: &Table,
    header: Header,
    begun: &mut Begun,
    issuer: &mut Issuer,
    rooms: &mut Rooms,
    out: &mut Vec<u8>,
    told: &mut Handled,
) -> Result<Step, PeerFault>
    requires ready { IsHostReady table.now }
    ensures step { IfOk result (λ step. step ≡ record { used = 1; ended = true }) }
    ensures answered { OnOk result (Answers (agreed table.now header)
        (replying issuer.old out.old.items) (replying issuer.new out.new.items) []) }
    ensures handled { OnOk result (IsHandled table.now issuer.old [] told.new) }
    ensures none { OnOk result (begun.new ≡ record begun.old { count = 0 }) }
    ensures fault { IfErr result (λ e. e ≡ Memory) }
    ensures memory { OnErr result
        (EntersOrKeeps table.now header issuer.old issuer.new (message_in table.now [])) }
    ensures held { OnErr result (begun.new ≡ begun.old) }
    ensures unchanged { OnErr result (out.new.items ≡ out.old.items) }
{
    match answer_body(table, header, issuer, rooms, &[], out, told) {
        Err(_) => Err(PeerFault::Memory),
        Ok(()) => {
            begun.count = 0;
            Ok(Step::ending(1))
        }
    }
}

/// Takes one byte of a header. Where it ends the frame of an empty body, that is answered.
#[cold]
fn take_header_byte(
    table: &Table,
    header: Header,
    begun: &mut Begun,
    issuer: &mut Issuer,
    rooms: &mut Rooms,
    bytes: &[u8],
    out: &mut Vec<u8>,
    told: &mut Handled,
) -> Result<Step, PeerFault>
    requires ready { IsHostReady table.now }
    requires between { begun.old.left ≡ 0 }
    requires outside { IsInHeader header begun.old [] }
    ensures took { IfOk result (λ step. Takes (agreed table.now header)
        (one_peer (head_of begun.old) issuer.old out.old.items)
        (one_peer (head_of begun.new) issuer.new out.new.items)
        bytes.now (taken_as step told.new)) }
    ensures refused { IfErr result (Refuses
        (unfinished (agreed table.now header) (head_of begun.old))
        issuer.old issuer.new bytes.now) }
    ensures begun { IsBegun header begun.new [] }
    ensures held { OnErr result (begun.new ≡ begun.old) }
    ensures unchanged { OnErr result (out.new.items ≡ out.old.items) }
{
    splits_once(); // for the prover: a header that is bad, or counts more than is there, begins no whole frame
    frames(); // for the prover: a header takes the same number of bytes, whatever it counts
    if bytes.is_empty() {
        return Ok(Step::inside(0));
    }
    let grown = with_header_byte(begun, bytes[0]);
    match body_length(header, &grown.head[..grown.count]) {
        Err(_) => Err(PeerFault::BadHeader),
        Ok(Some(n)) if n == 0 => answer_empty(table, header, begun, issuer, rooms, out, told),
        Ok(length) => {
            *begun = grown;
            begun.left = length.unwrap_or(0);
            Ok(Step::inside(1))
        }
    }
}

/// The same, by its parts: so what a rare call wrote into memory doesn't keep the common case there.
#[inline(always)]
fn by_parts(took: Result<Step, PeerFault>) -> Result<Step, PeerFault>
    ensures { result ≡ took }
{
    match took {
        Ok(step) => Ok(Step {
            used: step.used,
            ended: step.ended,
        }),
        Err(PeerFault::BadHeader) => Err(PeerFault::BadHeader),
        Err(PeerFault::Memory) => Err(PeerFault::Memory),
    }
}

/// Takes bytes between two frames: a whole frame is answered where it lies.
#[inline(always)]
fn take_first(
    table: &Table,
    header: Header,
    begun: &mut Begun,
    issuer: &mut Issuer,
    rooms: &mut Rooms,
    bytes: &[u8],
    out: &mut Vec<u8>,
    told: &mut Handled,
) -> Result<Step, PeerFault>
    requires ready { IsHostReady table.now }
    requires between { begun.old.left ≡ 0 }
    requires none { begun.old.count ≡ 0 }
    ensures took { IfOk result (λ step. Takes (agreed table.now header)
        (one_peer (head_of begun.old) issuer.old out.old.items)
        (one_peer (head_of begun.new) issuer.new out.new.items)
        bytes.now (taken_as step told.new)) }
    ensures refused { IfErr result (Refuses
        (unfinished (agreed table.now header) (head_of begun.old))
        issuer.old issuer.new bytes.now) }
    ensures begun { IsBegun header begun.new [] }
    ensures held { OnErr result (begun.new ≡ begun.old) }
    ensures unchanged { OnErr result (out.new.items ≡ out.old.items) }
{
    frames(); // for the prover: a header takes the same number of bytes, whatever it counts
    match body_length(header, bytes) {
        Err(_) => Err(PeerFault::BadHeader),
        Ok(Some(length)) if length <= bytes.len() - header.size() => {
            let rest = bytes.split_at(header.size()).1;
            match answer_body(table, header, issuer, rooms, &rest[..length], out, told) {
                Err(_) => Err(PeerFault::Memory),
                Ok(()) => Ok(Step::ending(header.size() + length)),
            }
        }
        Ok(_) => {
            let took = take_header_byte(table, header, begun, issuer, rooms, bytes, out, told);
            by_parts(took)
        }
    }
}

/// Answers the body whose last bytes are these.
fn answer_last(
    table: &Table,
    header: Header,
    gathering: &mut Gathering<'_>,
    issuer: &mut Issuer,
    rooms: &mut Rooms,
    piece: &[u8],
    out: &mut Vec<u8>,
    told: &mut Handled,
) -> Result<(), NoMemory>
    requires ready { IsHostReady table.now }
    requires same { gathering.old.table ≡ table.now }
    requires some { 0 < length piece.now }
    requires few { length gathering.old.part ≤ 65535 }
    ensures answered { OnOk result (Answers (agreed table.now header)
        (replying issuer.old out.old.items) (replying issuer.new out.new.items)
        (gathering.old.part ++ piece.now)) }
    ensures handled { OnOk result
        (IsHandled table.now issuer.old (gathering.old.part ++ piece.now) told.new) }
    ensures memory { OnErr result (EntersOrKeeps table.now header issuer.old issuer.new
        (message_in table.now (gathering.old.part ++ piece.now))) }
    ensures unchanged { OnErr result (out.new.items ≡ out.old.items) }
    ensures kept { gathering.new ≡ gathering.old }
{
    // the law that without an order the books stay as they are, for the prover
    enters_nothing(issuer);
    match gathering.read(piece, &mut rooms.request) {
        Err(fault) => Err(fault),
        Ok(Some(fault)) => {
            *told = Handled::Unreadable(fault);
            Ok(())
        }
        Ok(None) => answer_request(table, header, issuer, rooms, out, told),
    }
}

/// Holds bytes of a body that goes on behind them.
fn hold_piece(
    begun: &mut Begun,
    gathering: &mut Gathering<'_>,
    piece: &[u8],
) -> Result<(), PeerFault>
    requires few { length gathering.old.part ≤ 65535 }
    requires fewer { length piece.now < begun.old.left }
    ensures gathered { OnOk result (gathering.new.part ≡ gathering.old.part ++ piece.now) }
    ensures left { OnOk result
        (begun.new ≡ record begun.old { left = begun.old.left - length piece.now }) }
    ensures fault { IfErr result (λ e. e ≡ Memory) }
    ensures held { OnErr result (begun.new ≡ begun.old) }
    ensures unchanged { OnErr result (gathering.new.part ≡ gathering.old.part) }
    ensures table { gathering.new.table ≡ gathering.old.table }
{
    match gathering.gather(piece) {
        Err(_) => Err(PeerFault::Memory),
        Ok(()) => {
            begun.left -= piece.len();
            Ok(())
        }
    }
}

/// Takes bytes of a body, and answers it where they are its last.
fn take_body(
    table: &Table,
    header: Header,
    begun: &mut Begun,
    gathering: &mut Gathering<'_>,
    issuer: &mut Issuer,
    rooms: &mut Rooms,
    bytes: &[u8],
    out: &mut Vec<u8>,
    told: &mut Handled,
) -> Result<Step, PeerFault>
    requires ready { IsHostReady table.now }
    requires same { gathering.old.table ≡ table.now }
    requires more { 0 < begun.old.left }
    requires inside { IsInBody header begun.old gathering.old.part }
    ensures took { IfOk result (λ step. Takes (agreed table.now header)
        (one_peer (held_of begun.old gathering.old.part) issuer.old out.old.items)
        (one_peer (held_of begun.new gathering.new.part) issuer.new out.new.items)
        bytes.now (taken_as step told.new)) }
    ensures refused { IfErr result (Refuses
        (unfinished (agreed table.now header) (held_of begun.old gathering.old.part))
        issuer.old issuer.new bytes.now) }
    ensures begun { IsBegun header begun.new gathering.new.part }
    ensures held { OnErr result (begun.new ≡ begun.old) }
    ensures gathered { OnErr result (gathering.new.part ≡ gathering.old.part) }
    ensures unchanged { OnErr result (out.new.items ≡ out.old.items) }
    ensures table { gathering.new.table ≡ gathering.old.table }
{
    // the law that a header and fewer bytes than it counts need more, for the prover
    splits_once();
    let Some(last) = bytes.get(..begun.left) else {
        hold_piece(begun, gathering, bytes)?;
        return Ok(Step::inside(bytes.len()));
    };
    match answer_last(table, header, gathering, issuer, rooms, last, out, told) {
        Err(_) => Err(PeerFault::Memory),
        Ok(()) => {
            gathering.clear();
            *begun = NOT_BEGUN;
            Ok(Step::ending(last.len()))
        }
    }
}

/// Takes bytes, from the front on, up to the end of a frame, and answers its body.
#[inline(always)]
pub fn take_bytes(
    table: &Table,
    header: Header,
    begun: &mut Begun,
    gathering: &mut Gathering<'_>,
    issuer: &mut Issuer,
    rooms: &mut Rooms,
    bytes: &[u8],
    out: &mut Vec<u8>,
    told: &mut Handled,
) -> Result<Step, PeerFault>
    // A host can serve under the table.
    requires ready { IsHostReady table.now }
    // The body is read under that table.
    requires same { gathering.old.table ≡ table.now }
    // What is held is the beginning of one frame.
    requires begun { IsBegun header begun.old gathering.old.part }
    // At `Ok` the bytes stay behind those that were held, or they end a frame, whose
    // body is entered and answered.
    ensures took { IfOk result (λ step. Takes (agreed table.now header)
        (one_peer (held_of begun.old gathering.old.part) issuer.old out.old.items)
        (one_peer (held_of begun.new gathering.new.part) issuer.new out.new.items)
        bytes.now (taken_as step told.new)) }
    // A refusal is a header that isn't of digits, with the books as they were; or want of memory,
    // where the order of a frame's body may be entered.
    ensures refused { IfErr result (Refuses
        (unfinished (agreed table.now header) (held_of begun.old gathering.old.part))
        issuer.old issuer.new bytes.now) }
    // What is held then is the beginning of one frame.
    ensures begun { IsBegun header begun.new gathering.new.part }
    // A refusal leaves the header that has begun, and how much of the body is still to come.
    ensures held { OnErr result (begun.new ≡ begun.old) }
    // A refusal leaves the bytes of the body that are held.
    ensures gathered { OnErr result (gathering.new.part ≡ gathering.old.part) }
    // A refusal leaves `out` as it was.
    ensures unchanged { OnErr result (out.new.items ≡ out.old.items) }
    // The body is still to be read under the same table.
    ensures table { gathering.new.table ≡ gathering.old.table }
{
    if begun.left > 0 {
        let took = take_body(
            table, header, begun, gathering, issuer, rooms, bytes, out, told,
        );
        return by_parts(took);
    }
    if begun.count > 0 {
        let took = take_header_byte(table, header, begun, issuer, rooms, bytes, out, told);
        return by_parts(took);
    }
    take_first(table, header, begun, issuer, rooms, bytes, out, told)
}
