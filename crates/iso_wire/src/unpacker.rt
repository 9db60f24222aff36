//! Reading a message that comes in pieces.

ghost use Rattle.std.specs.Prelude.{ℕ, ◌≡◌, ◌≤◌, ◌++◌, [], length, None, Some, Err};
ghost use Rattle.iso_table.specs.Layout.{AreGood};
ghost use Rattle.iso_table.specs.Sizes.{max_bytes};
ghost use Rattle.iso_wire.specs.Unpacker.{Feeds, IsAfterFeed, StaysStopped, FoundFed, StopsFed};
ghost use Rattle.iso_wire.specs.declared.fault.UnpackCause.{UnpackCause};
ghost use Rattle.iso_wire.specs.declared.fault.UnpackFault.{UnpackFault};
ghost use Rattle.iso_wire.specs.declared.fault.UnpackCause.TheVariants.{Short};
ghost use Rattle.iso_wire.specs.Debugging.{debug_unpacker};
ghost use Rattle.iso_wire.specs.Reading.{halt, message_at, Unpacks};
ghost use Rattle.iso_wire.specs.Stops.{Stops};
ghost use Rattle.iso_wire.specs.Unpacking.{IsUnpacked, read_into};

use crate::debugging::write_unpacker;
use crate::elements::Elements;
use crate::fault::{UnpackCause, UnpackFault};
use crate::judging::ResumePoint;
use crate::laws::{reads_spellings, stops};
use crate::message::Message;
use crate::taking::{missing, read_through, take};
use crate::unpacking::read_message;
use iso_table::Table;
use std::alloc::Global;
use std::marker::Model;
use std::{fmt, mem};

/// What is answered to a piece.
#[derive(Debug, Drop)]
pub enum Fed {
    /// The message isn't whole yet: the whole piece is taken.
    More,
    /// The message, and how many bytes of this piece it took.
    Done { message: Message, used: usize },
}

/// Reads messages that come in pieces of any size, or whole. It keeps the bytes of the message so far, and which piece of
/// it isn't whole: from there it judges on. The memory of a message that was given back serves the next whole one.
#[derive(Drop)]
pub struct Unpacker<'t> {
    table: &'t Table,
    taken: Vec<u8>,
    point: ResumePoint,
    stopped: Option<UnpackFault>,
    spare: Elements,
}

impl<'t> Model for Unpacker<'t> {
    ghost use Rattle.iso_wire.specs.Unpacker.{Feeding};
    ghost use Rattle.iso_wire.specs.Taking.{IsReady};
    ghost use Rattle.iso_wire.specs.Judging.{IsResumed};

    ghost Value = { Feeding };

    ghost view = { λ u.
        record { table = u.table.now; taken = u.taken.items; stopped = u.stopped } };

    ghost invariant = { λ u. IsReady u.table.now u.taken.items u.stopped
        × IsResumed u.table.now u.point u.taken.items };
}

/// Shows how many bytes are taken, and none of them, and where the message stopped.
impl fmt::Debug for Unpacker<'_> {
    ghost debug_output = { λ u. Some (debug_unpacker (length u.taken) u.stopped) };

    fn fmt<W: fmt::Write>(&self, f: &mut fmt::Formatter<W>) -> fmt::Result {
        write_unpacker(self.taken.len(), self.stopped, f)
    }
}

/// The message that the bytes begin with, in the memory that is spare.
fn unpack_spare(
    alloc: Global,
    table: &Table,
    spare: &mut Elements,
    bytes: &[u8],
) -> Result<(Message, usize), UnpackFault>
    ensures exact { Unpacks result (message_at table.now bytes.now) }
    ensures good { AreGood table.now.rows }
{
    let (mti, end) = read_message(table, bytes, spare)?;
    let elements = mem::replace(spare, Elements::new(alloc));
    Ok((Message::from_elements(mti, elements), end))
}

/// What [`Unpacker::unpack`] does.
fn unpack_whole(
    alloc: Global,
    table: &Table,
    spare: &mut Elements,
    bytes: &[u8],
) -> Result<(Message, usize), UnpackFault>
    ensures { IsUnpacked table.now bytes.now result }
{
    reads_spellings();
    stops();
    unpack_spare(alloc, table, spare, bytes)
}

impl<'t> Unpacker<'t> {
    ghost use Rattle.iso_wire.specs.Unpacker.{Feeding};

    /// An unpacker at the start of a message. Takes no memory.
    pub fn new(alloc: Global, table: &'t Table) -> Unpacker<'t>
        // The unpacker goes by that table, nothing is taken, and no fault is kept.
        ensures { result ≡ record { table = table.now; taken = []; stopped = None } }
    {
        Unpacker {
            table,
            taken: Vec::new(alloc),
            point: ResumePoint::Type,
            stopped: None,
            spare: Elements::new(alloc),
        }
    }

    /// Reads on in a further piece, and answers as `unpack` does of the bytes taken and then the piece: the message as
    /// soon as it is whole, with the bytes of this piece that it used; else that more is wanted; or the fault, whose
    /// offset counts from the message's start.
    ///
    /// After a message the unpacker stands at the start of the next one. After a fault it holds no bytes, and answers
    /// the fault again until [`Unpacker::reset`]. Where memory ran out no byte of the piece is taken: the same piece
    /// can be fed again. Memory is taken for bytes of the message alone, however long the piece is.
    pub fn feed(&mut self, alloc: Global, piece: &[u8]) -> Result<Fed, UnpackFault>
        // A fault that is kept is answered again, and nothing changes.
        ensures stopped { StaysStopped self.old self.new result }
        // Unless a fault is kept, and memory aside, the answer is what `unpack` reads of the bytes
        // taken and then the piece.
        ensures exact { self.old.stopped ≡ None → Feeds (length self.old.taken) result
            (message_at self.old.table (self.old.taken ++ piece.now)) }
        // Unless a fault is kept: a message leaves no bytes taken, `More` those and the piece; a
        // fault leaves none and is kept; without memory nothing changes.
        ensures state { self.old.stopped ≡ None → IsAfterFeed self.old self.new piece.now result }
        // Unless a fault is kept, and memory aside, a fault tells where the bytes taken and then
        // the piece stop, and why; `More` says that they are too short.
        ensures stops { self.old.stopped ≡ None
            → StopsFed self.old.table (self.old.taken ++ piece.now) result }
        // Unless a fault is kept, and memory aside, where the bytes taken and then the piece stop
        // is answered: `More` where they are too short, else that fault.
        ensures told { self.old.stopped ≡ None → (at element : ℕ) (cause : UnpackCause)
            → Stops self.old.table (self.old.taken ++ piece.now) at element cause
            → Feeds (length self.old.taken) result (halt element at cause) }
        // Unless a fault is kept: `Done` is spelled by the first bytes; `More` comes only where
        // these begin with no spelling; a fault, memory aside, only where no continuation does.
        ensures found { self.old.stopped ≡ None
            → FoundFed self.old.table (length self.old.taken) (self.old.taken ++ piece.now) result }
    {
        if let Some(fault) = self.stopped {
            return Err(fault);
        }
        match take(alloc, self.table, &mut self.point, &mut self.taken, piece) {
            Ok(fed) => Ok(fed),
            Err(fault) => {
                if fault.cause != UnpackCause::Memory {
                    self.stopped = Some(fault);
                }
                Err(fault)
            }
        }
    }

    /// Reads the message that the bytes begin with, as the function `unpack` does, into the memory that was given back,
    /// where it is enough. What `feed` has taken stays. After a fault the memory is kept for the next message.
    pub fn unpack(&mut self, alloc: Global, bytes: &[u8]) -> Result<(Message, usize), UnpackFault>
        // What is read is spelled by the first bytes, and what they spell is read. A fault tells where the bytes stop, and why.
        ensures unpacked { IsUnpacked self.old.table bytes.now result }
        // What `feed` has taken stays, and so does its fault.
        ensures kept { self.new ≡ self.old }
    {
        unpack_whole(alloc, self.table, &mut self.spare, bytes)
    }

    /// Gives a message's memory back, for the next message that [`Unpacker::unpack`] reads. Takes no memory.
    pub fn reuse(&mut self, message: Message)
        // What `feed` has taken stays, and so does its fault.
        ensures { self.new ≡ self.old }
    {
        self.spare = message.into_elements();
    }

    /// Reads the message that the bytes taken and then the piece begin with, as the function `unpack` does of all of them,
    /// in place of what `into` was, and gives how many of all those bytes it takes. Nothing of the piece is taken, and
    /// what was taken before stays, after a fault too: so a caller that can't use the message yet can come again.
    pub fn read_through(&mut self, piece: &[u8], into: &mut Message) -> Result<usize, UnpackFault>
        // What `into` is then is what `unpack` reads of the bytes taken and then the piece, unless memory runs out.
        ensures exact { Unpacks (read_into into.new result)
            (message_at self.old.table (self.old.taken ++ piece.now)) }
        // What `feed` has taken stays, and so does its fault.
        ensures kept { self.new ≡ self.old }
    {
        // the laws of parts, by which what is taken is no longer than the longest message, for the prover
        iso_parts::laws::parts();
        read_through(self.table, self.point, &mut self.taken, piece, into)
    }

    /// How many bytes of the current message are taken. Takes no memory.
    pub fn held(&self) -> usize
        // Each byte that `feed` took of the unfinished message is counted, and no other.
        ensures held { result ≡ length self.now.taken }
        // No more bytes are taken than the longest message has.
        ensures most { result ≤ max_bytes self.now.table }
    {
        iso_parts::laws::parts();
        self.taken.len()
    }

    /// The fault that ends the message if no further byte comes: what the function `unpack` answers of the bytes taken
    /// alone, with the element and the offset of the piece that isn't whole. A fault that was answered is that fault, until
    /// [`Unpacker::reset`]. Takes no memory.
    pub fn missing(&self) -> UnpackFault
        // Unless a fault is kept, it is the fault that `unpack` gives of the bytes taken.
        ensures exact { self.now.stopped ≡ None
            → message_at self.now.table self.now.taken ≡ Err result }
        // Unless a fault is kept, it says that the bytes taken are too short.
        ensures short { self.now.stopped ≡ None → result.cause ≡ Short }
        // Unless a fault is kept, it tells the offset and the element at which the bytes taken are
        // too short.
        ensures stops { self.now.stopped ≡ None
            → Stops self.now.table self.now.taken result.at result.element Short }
        // A fault that is kept is told again.
        ensures stopped { (fault : UnpackFault) → self.now.stopped ≡ Some fault → result ≡ fault }
    {
        if let Some(fault) = self.stopped {
            return fault;
        }
        missing(self.table, self.point, &self.taken)
    }

    /// Drops what is taken, and any fault: the unpacker stands at the start of a message. Takes no memory.
    pub fn reset(&mut self)
        ensures { self.new ≡ record self.old { taken = []; stopped = None } }
    {
        self.taken.clear();
        self.point = ResumePoint::Type;
        self.stopped = None;
    }
}
