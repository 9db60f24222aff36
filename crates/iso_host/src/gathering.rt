//! A body that comes in pieces: what its bytes so far tell of it.
ghost use Rattle.std.specs.Prelude.{◌≡◌, ◌<◌, ◌≤◌, ◌++◌, [], length, None, IfOk, OnOk, OnErr};
ghost use Rattle.iso_table.specs.Layout.{AreGood};
ghost use Rattle.iso_wire.specs.Spelling.{AreBytes};
ghost use Rattle.iso_host.specs.Gathering.{Holds, IsGathered, ReadsBody};

use crate::handled::BodyFault;
use crate::seen::Seen;
use iso_order::NoMemory;
use iso_table::Table;
use iso_wire::laws::{are_bytes, reads_spellings};
use iso_wire::{Fed, Message, UnpackCause, Unpacker};
use std::alloc::Global;
use std::marker::Model;

/// Feeds the next bytes of a body, which are not its last, to the unpacker that holds those before. Where no message can
/// come of them the unpacker holds none, and the fault is told.
fn feed_piece(
    alloc: Global,
    unpacker: &mut Unpacker<'_>,
    piece: &[u8],
) -> Result<Option<BodyFault>, NoMemory>
    requires none { unpacker.old.stopped ≡ None }
    requires few { length unpacker.old.taken ≤ 65535 }
    requires bytes { AreBytes unpacker.old.taken }
    requires good { AreGood unpacker.old.table.rows }
    ensures holds { IfOk result (Holds unpacker.new (unpacker.old.taken ++ piece.now)) }
    ensures unchanged { OnErr result (unpacker.new ≡ unpacker.old) }
    ensures table { unpacker.new.table ≡ unpacker.old.table }
{
    // the law that what is read stays whatever follows, and that the piece is of bytes, for the prover
    reads_spellings();
    are_bytes(piece);
    let before = unpacker.held();
    match unpacker.feed(alloc, piece) {
        Ok(Fed::More) => Ok(None),
        Ok(Fed::Done { message: _, used }) => Ok(Some(BodyFault::Behind(before + used))),
        Err(fault) => match fault.cause {
            UnpackCause::Memory => Err(NoMemory),
            _ => {
                unpacker.reset();
                Ok(Some(BodyFault::Stops(fault)))
            }
        },
    }
}

/// Takes the next bytes of a body, which are not its last.
fn gather_piece(
    alloc: Global,
    unpacker: &mut Unpacker<'_>,
    fault: &mut Option<BodyFault>,
    seen: &mut Seen,
    piece: &[u8],
) -> Result<(), NoMemory>
    requires gathered { IsGathered unpacker.old seen.old.bytes fault.old }
    requires few { length seen.old.bytes ≤ 65535 }
    ensures gathered { IsGathered unpacker.new seen.new.bytes fault.new }
    ensures bytes { OnOk result (seen.new.bytes ≡ seen.old.bytes ++ piece.now) }
    ensures unchanged { OnErr result (seen.new.bytes ≡ seen.old.bytes) }
    ensures table { unpacker.new.table ≡ unpacker.old.table }
{
    are_bytes(piece);
    match *fault {
        Some(_) => {
            *seen = seen.then(piece);
            Ok(())
        }
        None => match feed_piece(alloc, unpacker, piece) {
            Err(no_memory) => Err(no_memory),
            Ok(told) => {
                *fault = told;
                *seen = seen.then(piece);
                Ok(())
            }
        },
    }
}

/// Reads the message that a body is whose last bytes are these, into the room for it; why not, where it is none.
#[tactic(auto, unfolding(crate::specs::Asking::message_in))]
fn read_last(
    unpacker: &mut Unpacker<'_>,
    piece: &[u8],
    request: &mut Message,
) -> Result<Option<BodyFault>, NoMemory>
    requires few { length unpacker.old.taken ≤ 65535 }
    requires bytes { AreBytes unpacker.old.taken }
    requires good { AreGood unpacker.old.table.rows }
    ensures read { IfOk result
        (ReadsBody unpacker.old.table (unpacker.old.taken ++ piece.now) request.new) }
    ensures kept { unpacker.new ≡ unpacker.old }
{
    // the law that what is read is spelled, and that the piece is of bytes, for the prover
    reads_spellings();
    are_bytes(piece);
    let before = unpacker.held();
    match unpacker.read_through(piece, request) {
        Ok(used) => {
            if used == before + piece.len() {
                Ok(None)
            } else {
                Ok(Some(BodyFault::Behind(used)))
            }
        }
        Err(fault) => match fault.cause {
            UnpackCause::Memory => Err(NoMemory),
            _ => Ok(Some(BodyFault::Stops(fault))),
        },
    }
}

/// The first bytes of a body: while they may begin a message an unpacker holds them, and then only the fault is kept. A
/// contract sees the table, and the bytes that came.
#[derive(Drop)]
pub struct Gathering<'t> {
    alloc: Global,
    unpacker: Unpacker<'t>,
    fault: Option<BodyFault>,
    seen: Seen,
}

impl<'t> Model for Gathering<'t> {
    ghost use Rattle.iso_host.specs.Gathering.{Gathered, IsGathered};

    ghost Value = { Gathered };

    ghost view = { λ g. record { table = g.unpacker.table; part = g.seen.bytes } };

    ghost invariant = { λ g. IsGathered g.unpacker g.seen.bytes g.fault };
}

impl<'t> Gathering<'t> {
    /// No bytes yet. Takes no memory.
    pub fn new(alloc: Global, table: &'t Table) -> Gathering<'t>
        // The body is to be read under that table, and no byte of it came yet.
        ensures { result ≡ record { table = table.now; part = [] } }
    {
        // any call on the table tells the proof that its rows are good
        let _version = table.version();
        Gathering {
            alloc,
            unpacker: Unpacker::new(alloc, table),
            fault: None,
            seen: Seen::none(),
        }
    }

    /// Takes the next bytes of the body, which are not its last.
    pub fn gather(&mut self, piece: &[u8]) -> Result<(), NoMemory>
        // At most 65,535 bytes of the body came before.
        requires { length self.old.part ≤ 65535 }
        // Memory aside, the piece stands behind the bytes that came before.
        ensures bytes { OnOk result (self.new.part ≡ self.old.part ++ piece.now) }
        // Without memory no byte more is held.
        ensures unchanged { OnErr result (self.new.part ≡ self.old.part) }
        // The body is still to be read under the same table.
        ensures table { self.new.table ≡ self.old.table }
    {
        gather_piece(
            self.alloc,
            &mut self.unpacker,
            &mut self.fault,
            &mut self.seen,
            piece,
        )
    }

    /// Reads the message that the body is whose last bytes are these, into the room for it; why not, where it is none.
    pub fn read(
        &mut self,
        piece: &[u8],
        request: &mut Message,
    ) -> Result<Option<BodyFault>, NoMemory>
        // At least one byte comes now.
        requires some { 0 < length piece.now }
        // At most 65,535 bytes of the body came before.
        requires few { length self.old.part ≤ 65535 }
        // Memory aside, the whole body is the message in the room, or it is no
        // message, and the fault says why.
        ensures read { IfOk result
            (ReadsBody self.old.table (self.old.part ++ piece.now) request.new) }
        // The bytes that came before are held still, under the same table.
        ensures kept { self.new ≡ self.old }
    {
        match self.fault {
            Some(fault) => Ok(Some(fault)),
            None => read_last(&mut self.unpacker, piece, request),
        }
    }

    /// Drops the bytes: it stands before the first byte of a body.
    pub fn clear(&mut self)
        // No byte is held any more, and the table stays.
        ensures { self.new ≡ record self.old { part = [] } }
    {
        self.unpacker.reset();
        self.fault = None;
        self.seen = Seen::none();
    }
}
